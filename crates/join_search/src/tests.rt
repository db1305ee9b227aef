//! Patterns with one or two places, matched and made again; numbers and comparisons.
ghost use Rattle.std.specs.Prelude.{◌<◌, List, IfOk};
ghost use Rattle.ap_term.specs.Value.{Value};
ghost use Rattle.join_form.specs.Patterns.{IsPatternOf};

use crate::{compare, evaluate, match_pattern, match_patterns, number_at, number_of};
use ap_term::{Args, Shape, TermFault, TermId, Terms, Text};
use join_form::{Comparison, Pattern};
use sqlite_items::Items;
use std::alloc::{AllocError, Global};
use std::process::Abort;
use std::test::Fail;

// The places of a pair, and of which numbers the pair is that it is matched with.
static PAIRS: [(u32, u32, usize, usize, bool); 6] = [
    (0, 1, 0, 1, true),
    (1, 0, 0, 1, true),
    (0, 1, 2, 2, true),
    (0, 0, 2, 2, true),
    (0, 0, 0, 1, false),
    (1, 1, 1, 0, false),
];

// A pair of two places.
fn pair_of_places(alloc: Global, left: u32, right: u32) -> Result<Pattern, AllocError>
    requires left { left < 2 }
    requires right { right < 2 }
    ensures { IfOk result (λ pattern. (table : List Value) → IsPatternOf table 2 pattern) }
{
    let mut parts = Items::new(alloc);
    parts.push(Pattern::Place(left))?;
    parts.push(Pattern::Place(right))?;
    Ok(Pattern::Compound(Text::new(alloc, "pair")?, parts))
}

fn intern_number(rt: &impl Abort, terms: &mut Terms, number: i64) -> Result<TermId, TermFault> {
    assert!(rt; -9 < number && number < 9);
    terms.intern(Shape::Int(number))
}

// A pair of two values.
fn pair_of(
    rt: &(impl Abort + AllocGlobal),
    terms: &mut Terms,
    left: TermId,
    right: TermId,
) -> Result<TermId, Fail> {
    assert!(rt; left.0 < terms.len());
    assert!(rt; right.0 < terms.len());
    let ids = vec![in rt.alloc(); left, right]?;
    let shape = Shape::Fun(Text::new(rt.alloc(), "pair")?, Args::from_vec(ids));
    Ok(terms.intern(shape)?)
}

// Whether the pattern matches, and then makes the value again.
fn matches_again(
    rt: &(impl Abort + AllocGlobal),
    terms: &mut Terms,
    pattern: &Pattern,
    id: TermId,
) -> Result<bool, Fail>
    requires { (table : List Value) → IsPatternOf table 2 pattern.now }
{
    assert!(rt; id.0 < terms.len());
    let mut binding = [None; 2];
    if !match_pattern(terms, pattern, id, &mut binding) {
        return Ok(false);
    }
    assert_eq!(rt; number_of(terms, pattern, &binding), None);
    assert_eq!(rt; evaluate(rt.alloc(), terms, pattern, &binding)?, Some(id));
    Ok(true)
}

#[test]
fn pairs_are_matched_and_made(rt: HostRuntime) -> Result<(), Fail> {
    let mut terms = Terms::new(rt.alloc());
    let mut ids = Vec::new(rt.alloc());
    for number in 0..3 {
        ids.push(intern_number(&rt, &mut terms, number)?)?;
    }
    for (left, right, first, second, want) in &PAIRS {
        assert!(rt; *left < 2 && *right < 2);
        let pattern = pair_of_places(rt.alloc(), *left, *right)?;
        let first = *ids.get(*first).ok_or("no such number")?;
        let second = *ids.get(*second).ok_or("no such number")?;
        let id = pair_of(&rt, &mut terms, first, second)?;
        assert_eq!(rt; matches_again(&rt, &mut terms, &pattern, id)?, *want);
        assert_eq!(rt; matches_again(&rt, &mut terms, &pattern, first)?, false);
    }
    assert!(rt; match_patterns(&terms, &[], &[], &mut []));
    Ok(())
}

#[test]
fn numbers_are_compared(rt: HostRuntime) -> Result<(), Fail> {
    let mut terms = Terms::new(rt.alloc());
    let small = intern_number(&rt, &mut terms, -2)?;
    let large = intern_number(&rt, &mut terms, 3)?;
    assert!(rt; small.0 < terms.len());
    assert!(rt; large.0 < terms.len());
    assert_eq!(rt; number_at(&terms, small), Some(-2));
    assert!(rt; compare(&terms, small, Comparison::Lt, large));
    assert!(rt; !compare(&terms, small, Comparison::Ge, large));
    assert!(rt; compare(&terms, large, Comparison::Ne, small));
    Ok(())
}
