// Texts with their first limits, and tokens with the constructs that they begin.
ghost use Rattle.std.specs.Prelude.{◌≤◌, ◌*◌, ◌+◌, length};

use crate::{Lexemes, Limit, construct_of, first_limit};
use ap_lex::{MAX_BYTES, tokens_before_fault};
use std::alloc::Global;
use std::test::Fail;

// A front, a part as often as told, and an end.
fn repeated(
    alloc: Global,
    front: &str,
    part: &str,
    count: usize,
    end: &str,
) -> Result<String, Fail> {
    let mut text = String::new(alloc);
    text.push_str(front)?;
    for _ in 0..count {
        text.push_str(part)?;
    }
    text.push_str(end)?;
    Ok(text)
}

fn limit_name(limit: Limit) -> &'static str {
    match limit {
        Limit::Nesting => "nesting",
        Limit::Arity => "arity",
        Limit::Formula => "formula",
    }
}

// The first limit of a text with the number of its token.
fn limit_shown(alloc: Global, text: &str) -> Result<String, Fail> {
    if text.len() > MAX_BYTES {
        return Ok(format!(in alloc; "long")?);
    }
    let (tokens, _) = tokens_before_fault(alloc, text)?;
    match first_limit(alloc, Lexemes::new(text, &tokens, 0))? {
        Some(limit) => {
            let name = limit_name(limit.which);
            let index = limit.index;
            Ok(format!(in alloc; "{name} {index}")?)
        }
        None => Ok(format!(in alloc; "none")?),
    }
}

#[test]
fn finds_limits(rt: HostRuntime) -> Result<(), Fail> {
    for (front, part, count, end, want) in [
        ("a(", "(", 31, "1", "none"),
        ("a(", "(", 32, "1", "nesting 33"),
        ("", "((((((((((((((((((((.", 3, "", "none"),
        ("p(", "1,", 31, "1).", "none"),
        ("p(", "1,", 32, ").", "arity 65"),
        ("a:-#count{", "1,", 40, "1}0.", "none"),
        ("#preference(p,t){", "a&", 63, "a}", "none"),
        ("#preference(p,t){", "a&", 64, "a}", "formula 135"),
        ("#preference(p,t){", "a&", 64, "a(1)&b}", "formula 138"),
        ("#preference(p,t){", "a|", 64, "a", "formula 135"),
        ("#preference(p,t){", "a|", 64, "a&b;", "formula 137"),
        ("#preference(p,t){", "a|", 63, "a&b", "none"),
        ("#preference(p,t){", "a&", 63, "(a&not b)", "none"),
        ("#preference(p,t){", "a&", 64, "(a&not b)", "formula 140"),
        ("#preference(p,t){", "not a&", 64, "a", "formula 197"),
        ("#preference(p,t){", "not(", 31, "a", "none"),
        ("#preference(p,t){", "a&b;", 99, "a", "none"),
    ] {
        let text = repeated(rt.alloc(), front, part, count, end)?;
        let shown = limit_shown(rt.alloc(), &text)?;
        assert_eq!(rt; shown.as_str(), want);
    }
    Ok(())
}

// The construct that the last token of a text begins.
fn construct_shown(alloc: Global, of_type: bool, text: &str) -> Result<&'static str, Fail> {
    if text.len() > MAX_BYTES {
        return Ok("long");
    }
    let (tokens, _) = tokens_before_fault(alloc, text)?;
    let lexemes = Lexemes::new(text, &tokens, 0);
    let read = lexemes.len().saturating_sub(1);
    let Some(token) = lexemes.get(read) else {
        return Ok("empty");
    };
    match construct_of(of_type, lexemes.front(read), &token) {
        Some(construct) => Ok(construct.name()),
        None => Ok("none"),
    }
}

#[test]
fn names_constructs(rt: HostRuntime) -> Result<(), Fail> {
    for (of_type, text, want) in [
        (false, "a;", "disjunction"),
        (false, "a(1;", "pool"),
        (false, "a(1).b;", "disjunction"),
        (false, "a(1,(2));", "disjunction"),
        (false, "a|", "disjunction"),
        (false, "a:-", "none"),
        (true, "a:-", "constraint"),
        (false, "#program preference(base).a:-", "constraint"),
        (true, "#program base.a:-", "none"),
        (true, "#program base:-", "constraint"),
        (false, "#program preference(t):-", "none"),
        (false, "#external", "external"),
        (false, "#maximize", "minimize"),
        (false, "#sup", "infimum"),
        (false, "a(1&", "theory"),
        (false, "**", "power"),
        (false, "%*", "comment"),
        (false, ":~", "weak"),
        (false, "||", "none"),
        (false, "\"#edge\"", "none"),
    ] {
        let shown = construct_shown(rt.alloc(), of_type, text)?;
        assert_eq!(rt; shown, want);
    }
    Ok(())
}
