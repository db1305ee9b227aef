//! Each call once.
use crate::{Draft, compile_term, compile_terms};
use ap_syntax::{Term, Text};
use ap_term::Terms;
use join_form::{Pattern, Step};
use sqlite_items::Items;
use std::test::Fail;

static PLACES: [(&str, u32); 4] = [("X", 0), ("Y", 1), ("X", 0), ("Z", 2)];

#[test]
fn a_variable_has_one_place(rt: HostRuntime) -> Result<(), Fail> {
    let mut draft = Draft::new(rt.alloc());
    for (name, place) in &PLACES {
        assert_eq!(rt; draft.place_of(rt.alloc(), name)?, *place, "{name}");
    }
    assert_eq!(rt; draft.new_place()?, 3);
    assert_eq!(rt; draft.variables(rt.alloc())?.len(), 3);
    let mark = draft.mark();
    assert_eq!(rt; draft.place_of(rt.alloc(), "U")?, 4);
    draft.push(Step::Missing {
        relation: 0,
        patterns: Items::new(rt.alloc()),
    })?;
    assert_eq!(rt; draft.places(), 5);
    assert_eq!(rt; draft.back_to(rt.alloc(), &mark).len(), 1);
    assert_eq!(rt; draft.place_of(rt.alloc(), "V")?, 4);
    assert_eq!(rt; draft.take_steps(rt.alloc()).len(), 0);
    Ok(())
}

fn is_place(pattern: &Pattern, place: u32) -> bool {
    match pattern {
        Pattern::Place(other) => *other == place,
        _ => false,
    }
}

#[test]
#[tactic(auto, using(crate::proofs::ChainLemmas::variable_integers))]
fn a_variable_is_its_place(rt: HostRuntime) -> Result<(), Fail> {
    let mut terms = Terms::new(rt.alloc());
    let mut draft = Draft::new(rt.alloc());
    let term = Term::Var(Text::new(rt.alloc(), "X")?);
    let pattern = compile_term(rt.alloc(), &mut terms, &mut draft, &term)?;
    assert!(rt; is_place(&pattern, 0));
    Ok(())
}

#[test]
fn no_terms_have_no_patterns(rt: HostRuntime) -> Result<(), Fail> {
    let mut terms = Terms::new(rt.alloc());
    let mut draft = Draft::new(rt.alloc());
    let patterns = compile_terms(rt.alloc(), &mut terms, &mut draft, &[])?;
    assert!(rt; patterns.is_empty());
    Ok(())
}
