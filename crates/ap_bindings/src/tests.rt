// Rules whose first unbound variable is known.
use crate::{Failing, unsafe_in};
use ap_syntax::{
    AggElement, Atom, BodyItem, ChoiceElement, Element, Formula, Function, Guard, HeadForm,
    Literal, Preference, Ranked, Rel, Rule, SumOp, Target, Term, Text,
};
use pred_graph::judge;
use sqlite_items::{Boxed, Items};
use std::alloc::{AllocError, Global};
use std::test::Fail;

/// Where the guard of an aggregate stands, and what stands with it.
#[derive(Clone, Copy)]
enum Place {
    Left,
    Right,
    /// On the left, with `<` in place of `=`.
    Less,
    /// On the left, behind `not`.
    Negated,
}

/// A part of a rule. Each atom is one of `p`. A term is a variable, `_`, or a variable with `+1` behind it; anything else is a constant.
#[derive(Clone, Copy)]
enum Part<'a> {
    Head(&'a [&'a str]),
    Choice(&'a [&'a str], &'a [&'a str]),
    Pos(&'a [&'a str]),
    Not(&'a [&'a str]),
    Equal(&'a str, &'a str),
    Less(&'a str, &'a str),
    All(&'a [&'a str], &'a [&'a str]),
    Count(Place, &'a str, &'a [&'a str], &'a [&'a str]),
}

fn term(alloc: Global, text: &str) -> Result<Term, AllocError> {
    if let Some(name) = text.strip_suffix("+1") {
        let left = Boxed::new(alloc, Term::Var(Text::new(alloc, name)?))?;
        return Ok(Term::Sum(left, SumOp::Plus, Boxed::new(alloc, Term::Int(1))?));
    }
    if text == "_" {
        return Ok(Term::Any);
    }
    let name = Text::new(alloc, text)?;
    if text.starts_with(|c: char| c.is_ascii_uppercase()) {
        Ok(Term::Var(name))
    } else {
        Ok(Term::Const(name))
    }
}

fn terms(alloc: Global, texts: &[&str]) -> Result<Items<Term>, AllocError> {
    let mut terms = Items::new(alloc);
    for text in texts {
        terms.push(term(alloc, text)?)?;
    }
    Ok(terms)
}

fn atom(alloc: Global, texts: &[&str]) -> Result<Atom, AllocError> {
    Ok(Atom {
        name: Text::new(alloc, "p")?,
        terms: terms(alloc, texts)?,
    })
}

fn condition(alloc: Global, texts: &[&str]) -> Result<Items<Literal>, AllocError> {
    let mut literals = Items::new(alloc);
    literals.push(Literal::Pos(atom(alloc, texts)?))?;
    Ok(literals)
}

fn compare(alloc: Global, left: &str, rel: Rel, right: &str) -> Result<BodyItem, AllocError> {
    let left = Boxed::new(alloc, term(alloc, left)?)?;
    let right = Boxed::new(alloc, term(alloc, right)?)?;
    Ok(BodyItem::Plain(Literal::Compare(left, rel, right)))
}

fn choice(alloc: Global, texts: &[&str], within: &[&str]) -> Result<HeadForm, AllocError> {
    let mut elements = Items::new(alloc);
    elements.push(ChoiceElement {
        atom: atom(alloc, texts)?,
        condition: condition(alloc, within)?,
    })?;
    Ok(HeadForm::Choice {
        left: None,
        elements: Boxed::new(alloc, elements)?,
        right: None,
    })
}

fn guard(alloc: Global, place: Place, text: &str) -> Result<Boxed<Guard>, AllocError> {
    let rel = match place {
        Place::Less => Rel::Lt,
        _ => Rel::Eq,
    };
    let term = term(alloc, text)?;
    Boxed::new(alloc, Guard { rel, term })
}

fn element(alloc: Global, texts: &[&str], within: &[&str]) -> Result<AggElement, AllocError> {
    Ok(AggElement {
        terms: terms(alloc, texts)?,
        condition: condition(alloc, within)?,
    })
}

fn count(
    alloc: Global,
    place: Place,
    text: &str,
    texts: &[&str],
    within: &[&str],
) -> Result<BodyItem, AllocError> {
    let mut elements = Items::new(alloc);
    elements.push(element(alloc, texts, within)?)?;
    let elements = Boxed::new(alloc, elements)?;
    let guard = Some(guard(alloc, place, text)?);
    let (negated, left, right) = match place {
        Place::Left | Place::Less => (false, guard, None),
        Place::Right => (false, None, guard),
        Place::Negated => (true, guard, None),
    };
    Ok(BodyItem::Agg {
        negated,
        left,
        function: Function::Count,
        elements,
        right,
    })
}

fn add(alloc: Global, rule: &mut Rule, part: Part<'_>) -> Result<(), AllocError> {
    let item = match part {
        Part::Head(texts) => {
            rule.head = HeadForm::One(atom(alloc, texts)?);
            return Ok(());
        }
        Part::Choice(texts, within) => {
            rule.head = choice(alloc, texts, within)?;
            return Ok(());
        }
        Part::Pos(texts) => BodyItem::Plain(Literal::Pos(atom(alloc, texts)?)),
        Part::Not(texts) => BodyItem::Plain(Literal::Not(atom(alloc, texts)?)),
        Part::Equal(left, right) => compare(alloc, left, Rel::Eq, right)?,
        Part::Less(left, right) => compare(alloc, left, Rel::Lt, right)?,
        Part::All(texts, within) => {
            BodyItem::All {
                at: 0,
                literal: Boxed::new(alloc, Literal::Pos(atom(alloc, texts)?))?,
                condition: condition(alloc, within)?,
            }
        }
        Part::Count(place, guard, texts, within) => count(alloc, place, guard, texts, within)?,
    };
    rule.body.push(item)
}

fn rule(alloc: Global, at: u32, parts: &[Part<'_>]) -> Result<Rule, AllocError> {
    let mut rule = Rule {
        file: 1,
        at,
        head: HeadForm::Nothing,
        body: Items::new(alloc),
    };
    for part in parts {
        add(alloc, &mut rule, *part)?;
    }
    Ok(rule)
}

/// The first unbound variable of a rule that stands alone, by its own predicates.
fn first_unbound_of(
    alloc: Global,
    parts: &[Part<'_>],
) -> Result<Option<Failing<Text>>, AllocError> {
    let mut rules = Vec::new(alloc);
    rules.push(rule(alloc, 0, parts)?)?;
    let safe = judge(alloc, rules.as_slice(), true)?;
    unsafe_in(alloc, rules.as_slice(), &[], &safe)
}

/// The first unbound variable of each rule, or `safe`.
#[test]
fn first_unbound_variables(rt: HostRuntime) -> Result<(), Fail> {
    let alloc = rt.alloc();
    let table: [(&[Part<'_>], &str); 18] = [
        (&[Part::Head(&["X"]), Part::Not(&["X"])], "X"),
        (&[Part::Head(&["X"]), Part::Pos(&["Y", "X"])], "safe"),
        (&[Part::Not(&["_"])], "_"),
        (&[Part::Pos(&["_"])], "safe"),
        (&[Part::Equal("X", "Y"), Part::Equal("Y", "X")], "X"),
        (&[Part::Equal("_", "a")], "safe"),
        (&[Part::Equal("_", "_")], "_"),
        (&[Part::Pos(&["Y"]), Part::Equal("X", "Y+1")], "safe"),
        (
            &[
                Part::Equal("Z", "X+1"),
                Part::Equal("Y+1", "X"),
                Part::Pos(&["Y"]),
            ],
            "safe",
        ),
        (&[Part::Pos(&["X"]), Part::Equal("X", "Y+1")], "Y"),
        (&[Part::Pos(&["X+1"])], "X"),
        (&[Part::Pos(&["X"]), Part::Less("X", "Y")], "Y"),
        (
            &[
                Part::Pos(&["N"]),
                Part::Count(Place::Less, "N", &["X", "Y"], &["X"]),
            ],
            "Y",
        ),
        (&[Part::All(&["X"], &["X"])], "safe"),
        (&[Part::All(&["X"], &["Y"])], "X"),
        (&[Part::All(&["X"], &["X"]), Part::Not(&["X"])], "X"),
        (
            &[Part::Choice(&["X", "Y"], &["X"]), Part::Pos(&["Y"])],
            "safe",
        ),
        (&[Part::Choice(&["X", "Y"], &["X"]), Part::Not(&["Y"])], "Y"),
    ];
    for (parts, expected) in table {
        match first_unbound_of(alloc, parts)? {
            Some(found) => assert_eq!(rt; found.what.as_str(), expected),
            None => assert_eq!(rt; "safe", expected),
        }
    }
    Ok(())
}

/// The first unbound variable of each rule with aggregates, or `safe`.
#[test]
fn guards_of_aggregates(rt: HostRuntime) -> Result<(), Fail> {
    let alloc = rt.alloc();
    let table: [(&[Part<'_>], &str); 13] = [
        (&[Part::Count(Place::Left, "N", &["X"], &["X"])], "safe"),
        (&[Part::Count(Place::Right, "N", &["X"], &["X"])], "safe"),
        (&[Part::Count(Place::Less, "N", &["X"], &["X"])], "N"),
        (&[Part::Count(Place::Negated, "N", &["X"], &["X"])], "N"),
        (&[Part::Count(Place::Left, "N+1", &["X"], &["X"])], "N"),
        (&[Part::Count(Place::Left, "_", &["X"], &["X"])], "safe"),
        (&[Part::Count(Place::Less, "_", &["X"], &["X"])], "_"),
        (&[Part::Count(Place::Left, "N", &["X", "Y"], &["X"])], "Y"),
        (
            &[
                Part::Choice(&["X"], &["X"]),
                Part::Count(Place::Left, "N", &["X"], &["X"]),
            ],
            "N",
        ),
        (
            &[
                Part::Choice(&["X", "X"], &["X"]),
                Part::Count(Place::Left, "N", &["X"], &["X"]),
            ],
            "safe",
        ),
        (&[Part::Count(Place::Left, "N", &["X"], &["X", "N"])], "N"),
        (
            &[
                Part::Count(Place::Left, "M", &["X"], &["X", "N"]),
                Part::Count(Place::Left, "N", &["X"], &["X"]),
            ],
            "safe",
        ),
        (
            &[
                Part::Count(Place::Left, "M", &["X"], &["X", "N"]),
                Part::Count(Place::Left, "N", &["X"], &["X", "M"]),
            ],
            "M",
        ),
    ];
    for (parts, expected) in table {
        match first_unbound_of(alloc, parts)? {
            Some(found) => assert_eq!(rt; found.what.as_str(), expected),
            None => assert_eq!(rt; "safe", expected),
        }
    }
    Ok(())
}

/// The first in the texts is not the first in the list.
#[test]
fn first_in_the_texts(rt: HostRuntime) -> Result<(), Fail> {
    let alloc = rt.alloc();
    let mut rules = Vec::new(alloc);
    rules.push(rule(alloc, 40, &[Part::Head(&["X"])])?)?;
    rules.push(rule(alloc, 9, &[Part::Pos(&["Z"])])?)?;
    rules.push(rule(alloc, 20, &[Part::Head(&["Y"])])?)?;
    let safe = judge(alloc, rules.as_slice(), true)?;
    match unsafe_in(alloc, rules.as_slice(), &[], &safe)? {
        Some(failing) => {
            assert_eq!(rt; failing.at, 20);
            assert_eq!(rt; failing.what.as_str(), "Y");
        }
        None => assert!(rt; false),
    }
    Ok(())
}

/// `#preference(p,subset){p(texts) : p(within)}.`
fn statement(alloc: Global, texts: &[&str], within: &[&str]) -> Result<Preference, AllocError> {
    let mut ranks = Items::new(alloc);
    ranks.push(Ranked {
        weights: Items::new(alloc),
        target: Target::For(Formula::Atom(atom(alloc, texts)?)),
    })?;
    let mut elements = Items::new(alloc);
    elements.push(Element {
        at: 22,
        ranks,
        given: None,
        domain: condition(alloc, within)?,
    })?;
    Ok(Preference {
        file: 1,
        at: 0,
        name: Text::new(alloc, "p")?,
        kind: Text::new(alloc, "subset")?,
        elements,
    })
}

/// The first unbound variable of an element, or `safe`.
#[test]
fn elements_of_statements(rt: HostRuntime) -> Result<(), Fail> {
    let alloc = rt.alloc();
    let table: [(&[&str], &[&str], &str); 3] = [
        (&["X", "Y"], &["Y", "X"], "safe"),
        (&["X", "Y"], &["X"], "Y"),
        (&["_"], &["_"], "_"),
    ];
    for (texts, within, expected) in table {
        let mut statements = Vec::new(alloc);
        statements.push(statement(alloc, texts, within)?)?;
        let safe = judge(alloc, &[], true)?;
        match unsafe_in(alloc, &[], statements.as_slice(), &safe)? {
            Some(failing) => {
                assert_eq!(rt; failing.at, 22);
                assert_eq!(rt; failing.what.as_str(), expected);
            }
            None => assert_eq!(rt; "safe", expected),
        }
    }
    Ok(())
}
