// Programs whose answer is known.
use crate::{DomainFault, Pred, Safe, SafetyFault, check, domain};
use ap_syntax::{
    AggElement, Atom, BodyItem, ChoiceElement, Element, Formula, Function, Guard, HeadForm,
    Literal, Preference, Ranked, Rel, Rule, SumOp, Target, Term, Text,
};
use sqlite_items::{Boxed, Items};
use std::alloc::{AllocError, Global};
use std::test::Fail;

/// A rule whose atoms all have the argument `X`, or none.
struct Line {
    choice: bool,
    heads: &'static [&'static str],
    body: &'static [(bool, &'static str)],
    variable: bool,
}

#[derive(Clone, Copy, Debug, PartialEq, Eq)]
enum Want {
    Accepted,
    Unsafe(u32),
    AggregateRecursion(u32),
    Recursion(u32),
}

/// `a :- b. b :- a.`
const RING: &[Line] = &[
    Line {
        choice: false,
        heads: &["a"],
        body: &[(true, "b")],
        variable: false,
    },
    Line {
        choice: false,
        heads: &["b"],
        body: &[(true, "a")],
        variable: false,
    },
];

/// `d(X) :- e(X). p(X) :- d(X), p(X).`
const OWN_HEAD: &[Line] = &[
    Line {
        choice: false,
        heads: &["d"],
        body: &[(true, "e")],
        variable: true,
    },
    Line {
        choice: false,
        heads: &["p"],
        body: &[(true, "d"), (true, "p")],
        variable: true,
    },
];

/// `p(X) :- d(X), not q(X). q(X) :- d(X), not p(X).`
const EVEN: &[Line] = &[
    Line {
        choice: false,
        heads: &["p"],
        body: &[(true, "d"), (false, "q")],
        variable: true,
    },
    Line {
        choice: false,
        heads: &["q"],
        body: &[(true, "d"), (false, "p")],
        variable: true,
    },
];

/// `{a; b} :- not a.`
const TWO_HEADS: &[Line] = &[Line {
    choice: true,
    heads: &["a", "b"],
    body: &[(false, "a")],
    variable: false,
}];

/// `a :- b. p(X) :- not q(X).`
const UNBOUND: &[Line] = &[
    Line {
        choice: false,
        heads: &["a"],
        body: &[(true, "b")],
        variable: false,
    },
    Line {
        choice: false,
        heads: &["p"],
        body: &[(false, "q")],
        variable: true,
    },
];

/// `p(X) :- not q(X).`
const UNBOUND_ALONE: &[Line] = &[Line {
    choice: false,
    heads: &["p"],
    body: &[(false, "q")],
    variable: true,
}];

fn only<T: Drop>(alloc: Global, item: T) -> Result<Items<T>, AllocError> {
    let mut items = Items::new(alloc);
    items.push(item)?;
    Ok(items)
}

/// `X`
fn variable(alloc: Global) -> Result<Term, AllocError> {
    Ok(Term::Var(Text::new(alloc, "X")?))
}

fn applied(alloc: Global, name: &str, terms: Items<Term>) -> Result<Atom, AllocError> {
    let name = Text::new(alloc, name)?;
    Ok(Atom { name, terms })
}

fn with_argument(alloc: Global, name: &str, argument: Term) -> Result<Atom, AllocError> {
    applied(alloc, name, only(alloc, argument)?)
}

fn atom(alloc: Global, name: &str, of_x: bool) -> Result<Atom, AllocError> {
    if of_x {
        with_argument(alloc, name, variable(alloc)?)
    } else {
        applied(alloc, name, Items::new(alloc))
    }
}

fn positive(alloc: Global, name: &str, of_x: bool) -> Result<Literal, AllocError> {
    Ok(Literal::Pos(atom(alloc, name, of_x)?))
}

/// `name`, as an element of a choice.
fn allowed(alloc: Global, name: &str, of_x: bool) -> Result<ChoiceElement, AllocError> {
    let atom = atom(alloc, name, of_x)?;
    let condition = Items::new(alloc);
    Ok(ChoiceElement { atom, condition })
}

fn head(alloc: Global, line: &Line) -> Result<HeadForm, AllocError> {
    let mut elements = Items::new(alloc);
    for name in line.heads {
        if !line.choice {
            return Ok(HeadForm::One(atom(alloc, name, line.variable)?));
        }
        elements.push(allowed(alloc, name, line.variable)?)?;
    }
    Ok(HeadForm::Choice {
        left: None,
        elements: Boxed::new(alloc, elements)?,
        right: None,
    })
}

fn literal(
    alloc: Global,
    is_positive: bool,
    name: &str,
    of_x: bool,
) -> Result<Literal, AllocError> {
    let atom = atom(alloc, name, of_x)?;
    if is_positive {
        Ok(Literal::Pos(atom))
    } else {
        Ok(Literal::Not(atom))
    }
}

fn body(alloc: Global, line: &Line) -> Result<Items<BodyItem>, AllocError> {
    let mut body = Items::new(alloc);
    for (is_positive, name) in line.body {
        let literal = literal(alloc, *is_positive, name, line.variable)?;
        body.push(BodyItem::Plain(literal))?;
    }
    Ok(body)
}

fn rule_of(alloc: Global, at: u32, line: &Line) -> Result<Rule, AllocError> {
    let head = head(alloc, line)?;
    let body = body(alloc, line)?;
    Ok(Rule {
        file: 1,
        at,
        head,
        body,
    })
}

fn rules(alloc: Global, lines: &[Line]) -> Result<Vec<Rule>, AllocError> {
    let mut rules = Vec::new(alloc);
    let mut at = 0;
    for line in lines {
        rules.push(rule_of(alloc, at, line)?)?;
        at = if at < 9 { at + 1 } else { 9 };
    }
    Ok(rules)
}

fn answer(
    alloc: Global,
    rules: &[Rule],
    statements: &[Preference],
    base: bool,
) -> Result<Want, AllocError> {
    match check(alloc, rules, statements, base) {
        Ok(_) => Ok(Want::Accepted),
        Err(SafetyFault::Unsafe { at, .. }) => Ok(Want::Unsafe(at)),
        Err(SafetyFault::AggregateRecursion { at, .. }) => Ok(Want::AggregateRecursion(at)),
        Err(SafetyFault::Recursion { at, .. }) => Ok(Want::Recursion(at)),
        Err(SafetyFault::Memory) => Err(AllocError),
    }
}

fn outcome(alloc: Global, lines: &[Line], base: bool) -> Result<Want, AllocError> {
    let rules = rules(alloc, lines)?;
    answer(alloc, rules.as_slice(), &[], base)
}

#[test]
fn worked_rows(rt: HostRuntime) -> Result<(), Fail> {
    let alloc = rt.alloc();
    let table: [(&[Line], bool, Want); 8] = [
        (RING, true, Want::Accepted),
        (RING, false, Want::Recursion(0)),
        (OWN_HEAD, true, Want::Recursion(1)),
        (EVEN, true, Want::Accepted),
        (EVEN, false, Want::Recursion(0)),
        (TWO_HEADS, true, Want::Accepted),
        (UNBOUND, true, Want::Unsafe(1)),
        (UNBOUND_ALONE, true, Want::Unsafe(0)),
    ];
    for (lines, base, want) in table {
        assert_eq!(rt; outcome(alloc, lines, base)?, want);
    }
    Ok(())
}

/// The first variable that is not bound.
fn unbound(alloc: Global, lines: &[Line]) -> Result<Text, AllocError> {
    let rules = rules(alloc, lines)?;
    match check(alloc, rules.as_slice(), &[], true) {
        Err(SafetyFault::Unsafe { variable, .. }) => Ok(variable),
        _ => Err(AllocError),
    }
}

#[test]
fn the_variable_that_is_not_bound(rt: HostRuntime) -> Result<(), Fail> {
    let variable = unbound(rt.alloc(), UNBOUND_ALONE)?;
    assert_eq!(rt; variable.as_str(), "X");
    Ok(())
}

/// `preference(X,_)`
fn of_a_preference(alloc: Global) -> Result<Literal, AllocError> {
    let mut terms = only(alloc, variable(alloc)?)?;
    terms.push(Term::Any)?;
    Ok(Literal::Pos(applied(alloc, "preference", terms)?))
}

/// `preference(X,_), not better(X)`
fn is_not_better(alloc: Global) -> Result<Items<BodyItem>, AllocError> {
    let mut body = only(alloc, BodyItem::Plain(of_a_preference(alloc)?))?;
    let not_better = literal(alloc, false, "better", true)?;
    body.push(BodyItem::Plain(not_better))?;
    Ok(body)
}

/// `better(X) :- preference(X,_), not better(X).`
fn better(alloc: Global) -> Result<Vec<Rule>, AllocError> {
    let head = atom(alloc, "better", true)?;
    let body = is_not_better(alloc)?;
    let rule = Rule {
        file: 1,
        at: 0,
        head: HeadForm::One(head),
        body,
    };
    Ok(vec![in alloc; rule]?)
}

#[test]
fn a_type_through_its_own_negation(rt: HostRuntime) -> Result<(), Fail> {
    let alloc = rt.alloc();
    let rules = better(alloc)?;
    assert_eq!(rt;
        answer(alloc, rules.as_slice(), &[], false)?,
        Want::Recursion(0)
    );
    Ok(())
}

/// `1 <=`
fn at_least_one(alloc: Global) -> Result<Boxed<Guard>, AllocError> {
    let guard = Guard {
        rel: Rel::Le,
        term: Term::Int(1),
    };
    Boxed::new(alloc, guard)
}

/// `X : q(X)`
fn element_of_q(alloc: Global) -> Result<AggElement, AllocError> {
    let terms = only(alloc, variable(alloc)?)?;
    let condition = only(alloc, positive(alloc, "q", true)?)?;
    Ok(AggElement { terms, condition })
}

/// `1 <= #count{X : q(X)}`
fn count_of_q(alloc: Global) -> Result<BodyItem, AllocError> {
    let left = at_least_one(alloc)?;
    let elements = only(alloc, element_of_q(alloc)?)?;
    Ok(BodyItem::Agg {
        negated: false,
        left: Some(left),
        function: Function::Count,
        elements: Boxed::new(alloc, elements)?,
        right: None,
    })
}

/// `head :- item.`
fn rule(alloc: Global, at: u32, head: Atom, item: BodyItem) -> Result<Rule, AllocError> {
    let body = only(alloc, item)?;
    Ok(Rule {
        file: 1,
        at,
        head: HeadForm::One(head),
        body,
    })
}

/// `head :- literal.`
fn plain(alloc: Global, at: u32, head: Atom, literal: Literal) -> Result<Rule, AllocError> {
    rule(alloc, at, head, BodyItem::Plain(literal))
}

fn pair(alloc: Global, one: Rule, other: Rule) -> Result<Vec<Rule>, AllocError> {
    let mut rules = Vec::new(alloc);
    rules.push(one)?;
    rules.push(other)?;
    Ok(rules)
}

/// `a :- 1 <= #count{X : q(X)}.`
fn counted(alloc: Global) -> Result<Rule, AllocError> {
    let head = atom(alloc, "a", false)?;
    rule(alloc, 0, head, count_of_q(alloc)?)
}

/// `q(1) :- a.`
fn back(alloc: Global) -> Result<Rule, AllocError> {
    let head = with_argument(alloc, "q", Term::Int(1))?;
    plain(alloc, 29, head, positive(alloc, "a", false)?)
}

/// `a :- 1 <= #count{X : q(X)}. q(1) :- a.`
fn through_an_aggregate(alloc: Global) -> Result<Vec<Rule>, AllocError> {
    let counted = counted(alloc)?;
    pair(alloc, counted, back(alloc)?)
}

#[test]
fn an_aggregate_through_its_head(rt: HostRuntime) -> Result<(), Fail> {
    let alloc = rt.alloc();
    let rules = through_an_aggregate(alloc)?;
    for (base, want) in [
        (true, Want::AggregateRecursion(0)),
        (false, Want::Recursion(0)),
    ] {
        assert_eq!(rt; answer(alloc, rules.as_slice(), &[], base)?, want);
    }
    Ok(())
}

/// `N`
fn number(alloc: Global) -> Result<Term, AllocError> {
    Ok(Term::Var(Text::new(alloc, "N")?))
}

/// `1 : name`
fn one_where(alloc: Global, name: &str) -> Result<AggElement, AllocError> {
    let terms = only(alloc, Term::Int(1))?;
    let condition = only(alloc, positive(alloc, name, false)?)?;
    Ok(AggElement { terms, condition })
}

/// `N = #count{1 : name}`
fn count_assigned(alloc: Global, name: &str) -> Result<BodyItem, AllocError> {
    let term = number(alloc)?;
    let guard = Boxed::new(alloc, Guard { rel: Rel::Eq, term })?;
    let elements = only(alloc, one_where(alloc, name)?)?;
    Ok(BodyItem::Agg {
        negated: false,
        left: Some(guard),
        function: Function::Count,
        elements: Boxed::new(alloc, elements)?,
        right: None,
    })
}

/// `n(N) :- N = #count{1 : a}.`
fn assigned(alloc: Global) -> Result<Rule, AllocError> {
    let head = with_argument(alloc, "n", number(alloc)?)?;
    rule(alloc, 5, head, count_assigned(alloc, "a")?)
}

/// `a.`
fn fact(alloc: Global) -> Result<Rule, AllocError> {
    Ok(Rule {
        file: 1,
        at: 0,
        head: HeadForm::One(atom(alloc, "a", false)?),
        body: Items::new(alloc),
    })
}

/// `a :- n(1).`
fn through_the_number(alloc: Global) -> Result<Rule, AllocError> {
    let head = atom(alloc, "a", false)?;
    let one = with_argument(alloc, "n", Term::Int(1))?;
    plain(alloc, 33, head, Literal::Pos(one))
}

/// The number of an aggregate is bound where it is over definite predicates: `a. n(N) :- N = #count{1 : a}.` is accepted, and with
/// `{a}.` or `a :- n(1).` in place of the fact it is not, which comes before an aggregate's recursion.
#[test]
fn numbers_of_aggregates(rt: HostRuntime) -> Result<(), Fail> {
    let alloc = rt.alloc();
    let firsts = [
        fact(alloc)?,
        choice(alloc, "a")?,
        through_the_number(alloc)?,
    ];
    let wants = [Want::Accepted, Want::Unsafe(5), Want::Unsafe(5)];
    for (first, want) in firsts.into_iter().zip(wants) {
        let rules = pair(alloc, first, assigned(alloc)?)?;
        assert_eq!(rt; answer(alloc, rules.as_slice(), &[], true)?, want);
    }
    Ok(())
}

/// `X+1`
fn next(alloc: Global) -> Result<Term, AllocError> {
    let left = Boxed::new(alloc, variable(alloc)?)?;
    Ok(Term::Sum(left, SumOp::Plus, Boxed::new(alloc, Term::Int(1))?))
}

/// `X+1+1+..+1`, with a hundred thousand operators.
fn long_sum(alloc: Global) -> Result<Term, AllocError> {
    let mut sum = variable(alloc)?;
    for _ in 0..100_000 {
        let left = Boxed::new(alloc, sum)?;
        sum = Term::Sum(left, SumOp::Plus, Boxed::new(alloc, Term::Int(1))?);
    }
    Ok(sum)
}

#[test]
fn a_variable_in_a_long_chain(rt: HostRuntime) -> Result<(), Fail> {
    let alloc = rt.alloc();
    for (of_x, want) in [(true, Want::Accepted), (false, Want::Unsafe(0))] {
        let head = with_argument(alloc, "p", long_sum(alloc)?)?;
        let rule = plain(alloc, 0, head, positive(alloc, "q", of_x)?)?;
        let rules = Vec::from_array(alloc, [rule])?;
        assert_eq!(rt; answer(alloc, rules.as_slice(), &[], true)?, want);
    }
    Ok(())
}

/// `p(0).`
fn first(alloc: Global) -> Result<Rule, AllocError> {
    let head = with_argument(alloc, "p", Term::Int(0))?;
    Ok(Rule {
        file: 1,
        at: 0,
        head: HeadForm::One(head),
        body: Items::new(alloc),
    })
}

/// `p(X+1) :- source(X).`
fn successor(alloc: Global, source: &str) -> Result<Rule, AllocError> {
    let head = with_argument(alloc, "p", next(alloc)?)?;
    plain(alloc, 6, head, positive(alloc, source, true)?)
}

/// `p(0). p(X+1) :- source(X).`
fn successors_of(alloc: Global, source: &str) -> Result<Vec<Rule>, AllocError> {
    let first = first(alloc)?;
    pair(alloc, first, successor(alloc, source)?)
}

#[test]
fn successors(rt: HostRuntime) -> Result<(), Fail> {
    let alloc = rt.alloc();
    for (source, want) in [("p", Want::Recursion(6)), ("d", Want::Accepted)] {
        let rules = successors_of(alloc, source)?;
        assert_eq!(rt; answer(alloc, rules.as_slice(), &[], true)?, want);
    }
    Ok(())
}

/// `{name}.`
fn choice(alloc: Global, name: &str) -> Result<Rule, AllocError> {
    let elements = only(alloc, allowed(alloc, name, false)?)?;
    let head = HeadForm::Choice {
        left: None,
        elements: Boxed::new(alloc, elements)?,
        right: None,
    };
    Ok(Rule {
        file: 1,
        at: 0,
        head,
        body: Items::new(alloc),
    })
}

/// `b : c`
fn b_where_c(alloc: Global) -> Result<BodyItem, AllocError> {
    let literal = Boxed::new(alloc, positive(alloc, "b", false)?)?;
    let condition = only(alloc, positive(alloc, "c", false)?)?;
    Ok(BodyItem::All {
        at: 10,
        literal,
        condition,
    })
}

/// `a :- b : c.`
fn conditional(alloc: Global) -> Result<Rule, AllocError> {
    let head = atom(alloc, "a", false)?;
    rule(alloc, 5, head, b_where_c(alloc)?)
}

/// `{name}. a :- b : c.`
fn chosen(alloc: Global, name: &str) -> Result<Vec<Rule>, AllocError> {
    let choice = choice(alloc, name)?;
    pair(alloc, choice, conditional(alloc)?)
}

/// What `domain` answers of safe rules and statements.
fn domain_of(
    alloc: Global,
    rules: &[Rule],
    statements: &[Preference],
) -> Result<Result<(), DomainFault>, AllocError> {
    match check(alloc, rules, statements, true) {
        Ok(safe) => Ok(domain(alloc, rules, statements, &safe)),
        Err(_) => Err(AllocError),
    }
}

/// `{d}. a :- b : c.` has definite conditions alone, and `{c}. a :- b : c.` has not.
#[test]
fn conditions_over_choices(rt: HostRuntime) -> Result<(), Fail> {
    let alloc = rt.alloc();
    let not_domain = DomainFault::NotDomain { file: 1, at: 10 };
    for (name, want) in [("d", Ok(())), ("c", Err(not_domain))] {
        let rules = chosen(alloc, name)?;
        assert_eq!(rt; domain_of(alloc, rules.as_slice(), &[])?, want);
    }
    Ok(())
}

/// `#preference(p,subset){atom : domain}.`, behind a text of five bytes.
fn preference(
    alloc: Global,
    atom: Atom,
    domain: Items<Literal>,
) -> Result<Vec<Preference>, AllocError> {
    let ranked = Ranked {
        weights: Items::new(alloc),
        target: Target::For(Formula::Atom(atom)),
    };
    let element = Element {
        at: 27,
        ranks: only(alloc, ranked)?,
        given: None,
        domain,
    };
    let statement = Preference {
        file: 1,
        at: 5,
        name: Text::new(alloc, "p")?,
        kind: Text::new(alloc, "subset")?,
        elements: only(alloc, element)?,
    };
    Ok(vec![in alloc; statement]?)
}

/// `{b}. #preference(p,subset){a : b}.` has a condition that is not definite, and `{b}. #preference(p,subset){a(X)}.` an unbound
/// variable.
#[test]
fn elements_of_a_statement(rt: HostRuntime) -> Result<(), Fail> {
    let alloc = rt.alloc();
    let rules = only(alloc, choice(alloc, "b")?)?;
    let over_b = only(alloc, positive(alloc, "b", false)?)?;
    let statements = preference(alloc, atom(alloc, "a", false)?, over_b)?;
    let not_domain = DomainFault::NotDomain { file: 1, at: 27 };
    assert_eq!(rt;
        domain_of(alloc, rules.as_slice(), statements.as_slice())?,
        Err(not_domain)
    );
    let unbound = preference(alloc, atom(alloc, "a", true)?, Items::new(alloc))?;
    let found = answer(alloc, rules.as_slice(), unbound.as_slice(), true)?;
    assert_eq!(rt; found, Want::Unsafe(27));
    Ok(())
}

fn pred(alloc: Global, name: &str) -> Result<Pred, AllocError> {
    Ok(Pred {
        name: Text::new(alloc, name)?,
        arity: 0,
    })
}

/// What is known of `{a; b} :- not a.`
fn known_of_two_heads(alloc: Global) -> Result<Safe, AllocError> {
    let rules = rules(alloc, TWO_HEADS)?;
    match check(alloc, rules.as_slice(), &[], true) {
        Ok(safe) => Ok(safe),
        Err(_) => Err(AllocError),
    }
}

#[test]
fn components_of_a_choice(rt: HostRuntime) -> Result<(), Fail> {
    let alloc = rt.alloc();
    let safe = known_of_two_heads(alloc)?;
    let a = pred(alloc, "a")?;
    let b = pred(alloc, "b")?;
    let c = pred(alloc, "c")?;
    assert!(rt; safe.component(&a) < safe.component(&b));
    assert_eq!(rt; safe.component(&c), 0);
    assert!(rt; !safe.is_definite(&b));
    assert!(rt; safe.is_definite(&c));
    Ok(())
}
