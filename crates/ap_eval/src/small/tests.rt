// Programs and sets whose answers are known. In a body, `not a` is the default negation of `a`.
use crate::small::small_answer_set;
use ap_syntax::Text;
use ap_syntax::small::{
    Atom, BodyItem, ChoiceElement, HeadForm, Literal, Program, Rule, Statement,
};
use sqlite_items::Items;
use std::alloc::{AllocError, Global};
use std::process::Abort;
use std::test::Fail;

fn atom(alloc: Global, name: &str) -> Result<Atom, AllocError> {
    Ok(Atom {
        name: Text::new(alloc, name)?,
    })
}

fn literal(alloc: Global, text: &str) -> Result<Literal, AllocError> {
    match text.strip_prefix("not ") {
        Some(name) => Ok(Literal::Not(atom(alloc, name)?)),
        None => Ok(Literal::Pos(atom(alloc, text)?)),
    }
}

fn rule(alloc: Global, head: HeadForm, literals: &[&str]) -> Result<Statement, AllocError> {
    let mut body = Vec::new(alloc);
    for text in literals {
        body.push(BodyItem::Plain(literal(alloc, text)?))?;
    }
    Ok(Statement::Rule(Rule {
        head,
        body: Items::from_vec(body),
    }))
}

fn normal(alloc: Global, head: &str, literals: &[&str]) -> Result<Statement, AllocError> {
    let head = atom(alloc, head)?;
    rule(alloc, HeadForm::One(head), literals)
}

fn choice(alloc: Global, names: &[&str]) -> Result<Statement, AllocError> {
    let mut elements = Vec::new(alloc);
    for name in names {
        elements.push(ChoiceElement {
            atom: atom(alloc, name)?,
        })?;
    }
    rule(alloc, HeadForm::Choice(Items::from_vec(elements)), &[])
}

fn constraint(alloc: Global, literals: &[&str]) -> Result<Statement, AllocError> {
    rule(alloc, HeadForm::Nothing, literals)
}

fn program(statements: Vec<Statement>) -> Program {
    Program {
        statements: Items::from_vec(statements),
    }
}

fn set(alloc: Global, names: &[&str]) -> Result<Vec<Text>, AllocError> {
    let mut atoms = Vec::new(alloc);
    for name in names {
        atoms.push(Text::new(alloc, name)?)?;
    }
    Ok(atoms)
}

/// Each set of names, and whether it is an answer set of the program.
fn decides(
    rt: &impl Abort,
    alloc: Global,
    p: &Program,
    cases: &[(&[&str], bool)],
) -> Result<(), AllocError> {
    for (names, answer) in cases {
        let x = set(alloc, names)?;
        assert_eq!(rt; small_answer_set(alloc, p, &x)?, *answer, "at {names:?}");
    }
    Ok(())
}

/// `a :- not a.`
fn no_answer(alloc: Global) -> Result<Program, AllocError> {
    let negated = normal(alloc, "a", &["not a"])?;
    Ok(program(vec![in alloc; negated]?))
}

/// `a :- b. b :- a. a :- c. {c}. :- not a.`
fn positive_loop(alloc: Global) -> Result<Program, AllocError> {
    let there = normal(alloc, "a", &["b"])?;
    let back = normal(alloc, "b", &["a"])?;
    let outside = normal(alloc, "a", &["c"])?;
    let open = choice(alloc, &["c"])?;
    let wanted = constraint(alloc, &["not a"])?;
    Ok(program(vec![in alloc; there, back, outside, open, wanted]?))
}

/// `{a; b}. :- not a, not b. #optimize(least).`
fn two_choices(alloc: Global) -> Result<Program, AllocError> {
    let open = choice(alloc, &["a", "b"])?;
    let wanted = constraint(alloc, &["not a", "not b"])?;
    let optimize = Statement::Optimize(Text::new(alloc, "least")?);
    Ok(program(vec![in alloc; open, wanted, optimize]?))
}

#[test]
fn known_answer_sets(rt: HostRuntime) -> Result<(), Fail> {
    let alloc = rt.alloc();
    let empty = program(Vec::new(alloc));
    decides(&rt, alloc, &empty, &[(&[], true), (&["a"], false)])?;
    let negated = no_answer(alloc)?;
    decides(&rt, alloc, &negated, &[(&[], false), (&["a"], false)])?;
    let loops = positive_loop(alloc)?;
    decides(
        &rt,
        alloc,
        &loops,
        &[(&["a", "b", "c"], true), (&["a", "b"], false), (&[], false)],
    )?;
    let choices = two_choices(alloc)?;
    decides(
        &rt,
        alloc,
        &choices,
        &[
            (&[], false),
            (&["a"], true),
            (&["b"], true),
            (&["a", "b"], true),
        ],
    )?;
    decides(
        &rt,
        alloc,
        &choices,
        &[
            (&["a", "b", "a"], true),
            (&["b", "b"], true),
            (&["a", "z"], false),
        ],
    )?;
    Ok(())
}
