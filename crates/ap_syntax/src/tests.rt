// Texts, lists and comparisons where memory is ample, and programs as they are written by hand.
use crate::{
    Atom, BodyItem, ChoiceElement, Guard, HeadForm, Literal, PartKind, ProductOp, Program, Rel,
    Rule, Statement, Statements, SumOp, Term, Text, print_program,
};
use sqlite_items::{Boxed, Items};
use std::alloc::{AllocError, Global};
use std::test::Fail;

/// `1 + last`
fn sum(alloc: Global, last: Term) -> Result<Term, AllocError> {
    let one = Boxed::new(alloc, Term::Int(1))?;
    Ok(Term::Sum(one, SumOp::Plus, Boxed::new(alloc, last)?))
}

/// `p(1 + last)`
fn atom(alloc: Global, last: Term) -> Result<Atom, AllocError> {
    let mut terms = Vec::new(alloc);
    terms.push(sum(alloc, last)?)?;
    Ok(Atom {
        name: Text::new(alloc, "p")?,
        terms: Items::from_vec(terms),
    })
}

#[test]
fn compares(rt: HostRuntime) -> Result<(), Fail> {
    let alloc = rt.alloc();
    let one = atom(alloc, Term::Any)?;
    let other = atom(alloc, Term::Int(1))?;
    assert!(rt; one.equals(&atom(alloc, Term::Any)?));
    assert!(rt; !one.equals(&other));
    Ok(())
}

/// A sum or a difference.
fn summed(alloc: Global, left: Term, op: SumOp, right: Term) -> Result<Term, AllocError> {
    let left = Boxed::new(alloc, left)?;
    Ok(Term::Sum(left, op, Boxed::new(alloc, right)?))
}

/// `1 + 1 + .. + 1`, with a million operators.
fn long_sum(alloc: Global) -> Result<Term, AllocError> {
    let mut sum = Term::Int(1);
    for _ in 0..1_000_000 {
        sum = summed(alloc, sum, SumOp::Plus, Term::Int(1))?;
    }
    Ok(sum)
}

#[test]
fn compares_and_lets_go_of_long_chains(rt: HostRuntime) -> Result<(), Fail> {
    let alloc = rt.alloc();
    let one = long_sum(alloc)?;
    let other = summed(alloc, long_sum(alloc)?, SumOp::Less, Term::Int(1))?;
    assert!(rt; one.equals(&one));
    assert!(rt; !one.equals(&other));
    Ok(())
}

#[test]
fn keeps_texts_of_each_length(rt: HostRuntime) -> Result<(), Fail> {
    let alloc = rt.alloc();
    for text in ["", "a", "assigned", "wednesday", "näherin", "nähmaschinen"] {
        let kept = Text::new(alloc, text)?;
        assert_eq!(rt; kept.as_str(), text);
        assert_eq!(rt; kept.copy(alloc)?.as_str(), text);
    }
    assert!(rt; Text::new(alloc, "assigned")? < Text::new(alloc, "wednesday")?);
    Ok(())
}

#[test]
fn takes_statements_from_the_end(rt: HostRuntime) -> Result<(), Fail> {
    let alloc = rt.alloc();
    let mut all = Statements::new(alloc);
    assert!(rt; all.as_slice().is_empty());
    all.append(Statements::fitted(two_parts(alloc)?))?;
    all.append(Statements::fitted(operators(alloc)?))?;
    assert_eq!(rt; all.as_slice().len(), 11);
    for _ in 0..11 {
        assert!(rt; all.pop().is_some());
    }
    assert!(rt; all.pop().is_none());
    Ok(())
}

/// `#const c = value.`
fn declared(alloc: Global, value: Term) -> Result<Statement, AllocError> {
    Ok(Statement::Const {
        file: 1,
        at: 0,
        name: Text::new(alloc, "c")?,
        value,
    })
}

/// Terms that need parentheses, and terms that need none.
fn operators(alloc: Global) -> Result<Vec<Statement>, AllocError> {
    let mut statements = Vec::new(alloc);
    let minus = Term::Minus(Boxed::new(alloc, Term::Int(1))?);
    statements.push(declared(alloc, Term::Minus(Boxed::new(alloc, minus)?))?)?;
    let right = summed(alloc, Term::Int(2), SumOp::Less, Term::Int(3))?;
    let term = summed(alloc, Term::Int(1), SumOp::Less, right)?;
    statements.push(declared(alloc, term)?)?;
    let left = summed(alloc, Term::Int(1), SumOp::Less, Term::Int(2))?;
    let term = summed(alloc, left, SumOp::Less, Term::Int(3))?;
    statements.push(declared(alloc, term)?)?;
    let left = Boxed::new(alloc, Term::Const(Text::new(alloc, "a")?))?;
    let right = summed(
        alloc,
        Term::Any,
        SumOp::Plus,
        Term::Str(Text::new(alloc, "\"")?),
    )?;
    let term = Term::Product(left, ProductOp::Times, Boxed::new(alloc, right)?);
    statements.push(declared(alloc, term)?)?;
    let high = summed(alloc, Term::Int(2), SumOp::Plus, Term::Int(3))?;
    let low = Boxed::new(alloc, Term::Int(1))?;
    let term = Term::Range(low, Boxed::new(alloc, high)?);
    statements.push(declared(alloc, term)?)?;
    Ok(statements)
}

#[test]
fn prints_operators(rt: HostRuntime) -> Result<(), Fail> {
    let alloc = rt.alloc();
    let statements = Statements::fitted(operators(alloc)?);
    let mut out = String::new(alloc);
    print_program(&Program { statements }, &mut out)?;
    let text = "#const c = -(-1).\n#const c = 1 - (2 - 3).\n#const c = 1 - 2 - 3.\n\
        #const c = a * (_ + \"\\\"\").\n#const c = 1..2 + 3.\n";
    assert_eq!(rt; out.as_str(), text);
    Ok(())
}

/// An atom whose one argument is `X`.
fn of_x(alloc: Global, name: &str) -> Result<Atom, AllocError> {
    let mut terms = Vec::new(alloc);
    terms.push(Term::Var(Text::new(alloc, "X")?))?;
    Ok(Atom {
        name: Text::new(alloc, name)?,
        terms: Items::from_vec(terms),
    })
}

/// `q(X), not r(X)`
fn literals(alloc: Global) -> Result<Items<Literal>, AllocError> {
    let mut literals = Vec::new(alloc);
    literals.push(Literal::Pos(of_x(alloc, "q")?))?;
    literals.push(Literal::Not(of_x(alloc, "r")?))?;
    Ok(Items::from_vec(literals))
}

/// A guard.
fn guard(alloc: Global, rel: Rel, term: Term) -> Result<Option<Boxed<Guard>>, AllocError> {
    Ok(Some(Boxed::new(alloc, Guard { rel, term })?))
}

/// `1 <= {p(X) : q(X), not r(X)} != ()`
fn choice(alloc: Global) -> Result<HeadForm, AllocError> {
    let mut elements = Vec::new(alloc);
    let atom = of_x(alloc, "p")?;
    let condition = literals(alloc)?;
    elements.push(ChoiceElement { atom, condition })?;
    Ok(HeadForm::Choice {
        left: guard(alloc, Rel::Le, Term::Int(1))?,
        elements: Boxed::new(alloc, Items::from_vec(elements))?,
        right: guard(alloc, Rel::Ne, Term::Tuple(Items::new(alloc)))?,
    })
}

/// `q(X) : q(X), not r(X); not r(X)`
fn parts(alloc: Global) -> Result<Items<BodyItem>, AllocError> {
    let mut body = Vec::new(alloc);
    body.push(BodyItem::All {
        at: 0,
        literal: Boxed::new(alloc, Literal::Pos(of_x(alloc, "q")?))?,
        condition: literals(alloc)?,
    })?;
    body.push(BodyItem::Plain(Literal::Not(of_x(alloc, "r")?)))?;
    Ok(Items::from_vec(body))
}

/// A rule of no file.
fn rule(head: HeadForm, body: Items<BodyItem>) -> Statement {
    Statement::Rule(Rule {
        file: 0,
        at: 0,
        head,
        body,
    })
}

/// `p(X) :- q(X), not r(X).`
fn plain_rule(alloc: Global) -> Result<Statement, AllocError> {
    let mut body = Vec::new(alloc);
    body.push(BodyItem::Plain(Literal::Pos(of_x(alloc, "q")?)))?;
    body.push(BodyItem::Plain(Literal::Not(of_x(alloc, "r")?)))?;
    let head = HeadForm::One(of_x(alloc, "p")?);
    Ok(rule(head, Items::from_vec(body)))
}

/// A `#program`.
fn opened(part: PartKind) -> Statement {
    Statement::Part {
        file: 1,
        at: 0,
        part,
    }
}

/// A rule, a `#program` that changes nothing, a rule in a part of its own, and back.
fn two_parts(alloc: Global) -> Result<Vec<Statement>, AllocError> {
    let mut statements = Vec::new(alloc);
    statements.push(plain_rule(alloc)?)?;
    statements.push(opened(PartKind::Base))?;
    statements.push(opened(PartKind::Kind(Text::new(alloc, "less(weight)")?)))?;
    let head = choice(alloc)?;
    statements.push(rule(head, parts(alloc)?))?;
    statements.push(opened(PartKind::Base))?;
    let mut members = Vec::new(alloc);
    members.push(Term::Int(1))?;
    statements.push(declared(alloc, Term::Tuple(Items::from_vec(members)))?)?;
    Ok(statements)
}

#[test]
fn prints_rules(rt: HostRuntime) -> Result<(), Fail> {
    let alloc = rt.alloc();
    let statements = Statements::fitted(two_parts(alloc)?);
    let mut out = String::new(alloc);
    print_program(&Program { statements }, &mut out)?;
    let text = "p(X) :- q(X), not r(X).\n#program base.\n#program preference(less(weight)).\n\
        1 <= {p(X) : q(X), not r(X)} != () :- q(X) : q(X), not r(X); not r(X).\n#program base.\n\
        #const c = (1, ).\n";
    assert_eq!(rt; out.as_str(), text);
    Ok(())
}
