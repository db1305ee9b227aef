// Texts with what they come to.
ghost use Rattle.std.specs.Prelude.{◌≤◌, length};

use crate::{ParseFault, parse, statement};
use ap_lex::{MAX_BYTES, tokens};
use ap_syntax::PartKind;
use std::alloc::Global;
use std::test::Fail;

// A fault with its place.
fn fault_shown(alloc: Global, fault: ParseFault) -> Result<String, Fail> {
    match fault {
        ParseFault::Syntax { at } => Ok(format!(in alloc; "syntax {at}")?),
        ParseFault::Unsupported { construct, at } => {
            let name = construct.name();
            Ok(format!(in alloc; "{name} {at}")?)
        }
        ParseFault::Limit { at, .. } => Ok(format!(in alloc; "limit {at}")?),
        ParseFault::Memory => Ok(format!(in alloc; "memory")?),
    }
}

// How many statements a text has, or its fault, and the same of the place behind its second statement.
fn shown(alloc: Global, text: &str) -> Result<(String, String), Fail> {
    if text.len() > MAX_BYTES {
        return Ok((format!(in alloc; "long")?, format!(in alloc; "long")?));
    }
    let whole = match parse(alloc, text, PartKind::Base) {
        Ok(program) => {
            let count = program.statements.as_slice().len();
            format!(in alloc; "{count}")?
        }
        Err(fault) => fault_shown(alloc, fault)?,
    };
    let tokens = tokens(alloc, text)?;
    if tokens.len() <= 2 {
        return Ok((whole, format!(in alloc; "none")?));
    }
    let second = match statement(alloc, &tokens, text, 2, &PartKind::Base) {
        Ok((_, behind)) => format!(in alloc; "{behind}")?,
        Err(fault) => fault_shown(alloc, fault)?,
    };
    Ok((whole, second))
}

#[test]
fn reads_texts(rt: HostRuntime) -> Result<(), Fail> {
    for (text, whole, second) in [
        ("", "0", "none"),
        ("a. b :- c.", "2", "6"),
        ("a. b :- c. d", "syntax 12", "6"),
        ("a. b", "syntax 4", "syntax 4"),
        ("a. :- b : , c.", "syntax 10", "syntax 10"),
        ("a. :- not b < c.", "syntax 14", "syntax 14"),
        ("a. b | c.", "disjunction 5", "disjunction 5"),
        ("a. #preference(p,t){}.", "syntax 3", "syntax 3"),
        ("a. #program base. b.", "2", "5"),
        (
            "a. ((((((((((((((((((((((((((((((((( b | c.",
            "limit 35",
            "limit 35",
        ),
    ] {
        let found = shown(rt.alloc(), text)?;
        assert_eq!(rt; found.0.as_str(), whole);
        assert_eq!(rt; found.1.as_str(), second);
    }
    Ok(())
}
