// The text of a program.
use crate::program_of;
use ap_syntax::print_program;
use pref_kinds::BuiltIn;
use std::test::Fail;

const NEG: &str = "better(P) :- preference(P, _, _, name(Q), _), worse_in(Q).
eq(P) :- preference(P, _, _, name(Q), _), eq_in(Q).
bettereq(P) :- preference(P, _), better(P).
bettereq(P) :- preference(P, _), eq(P).
";

#[test]
fn program_is_written(rt: HostRuntime) -> Result<(), Fail> {
    let alloc = rt.alloc();
    let program = program_of(alloc, BuiltIn::Neg)?;
    let mut text = String::new(alloc);
    print_program(&program, &mut text)?;
    assert_eq!(rt; text.as_str(), NEG);
    Ok(())
}
