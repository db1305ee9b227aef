// Programs whose optimal answer sets are known.
use crate::{Optima, TrialFault, list_optima};
use ap_syntax::Text;
use ap_syntax::small::{
    Atom, BodyItem, ChoiceElement, Element, Formula, HeadForm, Literal, Preference, Program, Rule,
    Statement,
};
use sqlite_items::Items;
use std::alloc::{AllocError, Global};
use std::test::Fail;

fn atom(alloc: Global, name: &str) -> Result<Atom, AllocError> {
    Ok(Atom {
        name: Text::new(alloc, name)?,
    })
}

/// `{name; ..}.`
fn choice(alloc: Global, names: &[&str]) -> Result<Statement, AllocError> {
    let mut elements = Vec::new(alloc);
    for name in names {
        elements.push(ChoiceElement {
            atom: atom(alloc, name)?,
        })?;
    }
    Ok(Statement::Rule(Rule {
        head: HeadForm::Choice(Items::from_vec(elements)),
        body: Items::new(alloc),
    }))
}

/// `:- not name, .. .`
fn some_of(alloc: Global, names: &[&str]) -> Result<Statement, AllocError> {
    let mut body = Vec::new(alloc);
    for name in names {
        body.push(BodyItem::Plain(Literal::Not(atom(alloc, name)?)))?;
    }
    Ok(Statement::Rule(Rule {
        head: HeadForm::Nothing,
        body: Items::from_vec(body),
    }))
}

/// `#preference(least,subset){name; ..}.`
fn least(alloc: Global, names: &[&str]) -> Result<Statement, AllocError> {
    let mut elements = Vec::new(alloc);
    for name in names {
        elements.push(Element {
            formula: Formula::Atom(atom(alloc, name)?),
        })?;
    }
    Ok(Statement::Preference(Preference {
        name: Text::new(alloc, "least")?,
        kind: Text::new(alloc, "subset")?,
        elements: Items::from_vec(elements),
    }))
}

/// `#optimize(least).`
fn optimize(alloc: Global) -> Result<Statement, AllocError> {
    Ok(Statement::Optimize(Text::new(alloc, "least")?))
}

fn program(statements: Vec<Statement>) -> Program {
    Program {
        statements: Items::from_vec(statements),
    }
}

/// `{open; ..}. :- not needed, .. . #preference(least,subset){compared; ..}. #optimize(least).`
fn preferring(
    alloc: Global,
    open: &[&str],
    needed: &[&str],
    compared: &[&str],
) -> Result<Program, AllocError> {
    let open = choice(alloc, open)?;
    let needed = some_of(alloc, needed)?;
    let compared = least(alloc, compared)?;
    let optimize = optimize(alloc)?;
    Ok(program(vec![in alloc; open, needed, compared, optimize]?))
}

/// The sets as a text, as `{a b} {c}`.
fn shown(alloc: Global, optima: &Optima) -> Result<String, AllocError> {
    let Optima::Listing(sets) = optima else {
        return String::from_str(alloc, "none");
    };
    let mut text = String::new(alloc);
    for set in sets {
        text.push('{')?;
        for name in set.as_slice() {
            text.push_str(name.as_str())?;
            text.push(' ')?;
        }
        text.push('}')?;
    }
    Ok(text)
}

#[test]
fn known_optima(rt: HostRuntime) -> Result<(), Fail> {
    let alloc = rt.alloc();
    let ab = ["b", "a"];
    let cases = [
        (preferring(alloc, &ab, &ab, &ab)?, "{a }{b }"),
        (preferring(alloc, &ab, &ab, &["a"])?, "{b }"),
        (preferring(alloc, &ab, &ab, &["c"])?, "{a }{a b }{b }"),
        (preferring(alloc, &ab, &["c"], &ab)?, "none"),
    ];
    for (p, expected) in &cases {
        let optima = list_optima(alloc, p)?;
        assert_eq!(rt; shown(alloc, &optima)?.as_str(), *expected);
    }
    Ok(())
}

const LETTERS: [&str; 13] = [
    "a", "b", "c", "d", "e", "f", "g", "h", "i", "j", "k", "l", "m",
];

/// `{a; ..; l}. :- not a. .. :- not l.`
#[test]
fn twelve_atoms_are_tried(rt: HostRuntime) -> Result<(), Fail> {
    let alloc = rt.alloc();
    let twelve = &LETTERS[..12];
    let mut statements = vec![in alloc; choice(alloc, twelve)?]?;
    for name in twelve {
        statements.push(some_of(alloc, &[*name])?)?;
    }
    let optima = list_optima(alloc, &program(statements))?;
    assert_eq!(rt;
        shown(alloc, &optima)?.as_str(),
        "{a b c d e f g h i j k l }"
    );
    Ok(())
}

#[test]
fn thirteen_atoms_are_refused(rt: HostRuntime) -> Result<(), Fail> {
    let alloc = rt.alloc();
    let open = choice(alloc, &LETTERS[..12])?;
    let needed = some_of(alloc, &["m"])?;
    let p = program(vec![in alloc; open, needed]?);
    assert_eq!(rt; list_optima(alloc, &p).err(), Some(TrialFault::TooMany));
    Ok(())
}
