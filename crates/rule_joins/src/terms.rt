//! Terms as patterns.
ghost use Rattle.std.specs.Prelude.{◌≡◌, ◌<◌, ◌≤◌, map, All, IfOk, IfSome, MatchOption};
ghost use Rattle.ap_syntax.specs.declared.terms.Term.{size-Term};
ghost use Rattle.ap_term.specs.Table.{IsShapeOver, KeepsIds, value_of};
ghost use Rattle.join_form.specs.declared.step.Step.TheVariants as steps;
ghost use Rattle.rule_form.specs.Readings.{read_term, sum_op, product_op};
ghost use Rattle.rule_joins.specs.Chains.{first_of, IsChain, IsPlain};
ghost use Rattle.rule_joins.specs.Compiled.{IsApplied, IsAtNewPlace, IsKnownAs};
ghost use Rattle.rule_joins.specs.Drafts.{IsDraft};
ghost use Rattle.rule_joins.specs.Terms.{AreTermPlans, HasIntegers, IsTermPlan};

use crate::draft::Draft;
use ap_syntax::{ProductOp, SumOp, Term};
use ap_term::{ArithOp, Shape, Terms, Text};
use join_form::{Pattern, Step};
use sqlite_items::Items;
use std::alloc::{AllocError, Global};

// ---- steps

fn of_sum(op: SumOp) -> ArithOp
    ensures { result ≡ sum_op op }
{
    match op {
        SumOp::Plus => ArithOp::Add,
        SumOp::Less => ArithOp::Sub,
    }
}

fn of_product(op: ProductOp) -> ArithOp
    ensures { result ≡ product_op op }
{
    match op {
        ProductOp::Times => ArithOp::Mul,
        ProductOp::Over => ArithOp::Div,
        ProductOp::Rest => ArithOp::Rem,
    }
}

/// The place of the result of an operation.
fn compute(
    draft: &mut Draft,
    op: ArithOp,
    left: Pattern,
    right: Pattern,
) -> Result<Pattern, AllocError>
    ensures { IfOk result (λ pattern. IsAtNewPlace draft.old draft.new (steps.Compute op left right draft.old.places) pattern) }
{
    let place = draft.new_place()?;
    draft.push(Step::Compute {
        op,
        left,
        right,
        place,
    })?;
    Ok(Pattern::Place(place))
}

/// The place of an integer from the one end to the other.
fn choose(draft: &mut Draft, low: Pattern, high: Pattern) -> Result<Pattern, AllocError>
    ensures { IfOk result (λ pattern. IsAtNewPlace draft.old draft.new (steps.Between low high draft.old.places) pattern) }
{
    let place = draft.new_place()?;
    draft.push(Step::Between { low, high, place })?;
    Ok(Pattern::Place(place))
}

/// The pattern of a value without arguments, which is put into the table. Such a value is never too deep.
fn known(terms: &mut Terms, shape: Shape) -> Result<Pattern, AllocError>
    requires { IsShapeOver terms.old shape }
    ensures kept { KeepsIds terms.old terms.new }
    ensures pattern { IfOk result (IsKnownAs terms.new (value_of terms.old shape)) }
{
    match terms.intern(shape) {
        Ok(id) => Ok(Pattern::Known(id)),
        Err(_) => Err(AllocError),
    }
}

// ---- chains of operations

/// The first operand of an operation or an interval.
fn first_operand<'a>(term: &'a Term) -> Option<&'a Term>
    ensures first { MatchOption result (IsPlain term.now) (λ first. first.now ≡ first_of term.now) }
    ensures smaller { IfSome result (λ first. size-Term first.now < size-Term term.now) }
{
    match term {
        Term::Minus(part) => Some(part.get()),
        Term::Sum(left, _, _) => Some(left.get()),
        Term::Product(left, _, _) => Some(left.get()),
        Term::Range(low, _) => Some(low.get()),
        _ => None,
    }
}

/// The operations of a chain, from the outermost to the innermost, and the first operand of that. A chain is as deep as it is long, so
/// this is a loop.
fn chain<'a>(alloc: Global, term: &'a Term) -> Result<(Vec<&'a Term>, &'a Term), AllocError>
    ensures chain { IfOk result (λ r. IsChain term.now (map (λ t. t.now) r.0.items) r.1.now) }
    ensures plain { IfOk result (λ r. IsPlain r.1.now) }
    ensures inside { IfOk result (λ r. All (λ t. size-Term t.now ≤ size-Term term.now) r.0.items) }
    ensures smaller { IfOk result (λ r. size-Term r.1.now ≤ size-Term term.now) }
{
    let mut operations = Vec::new(alloc);
    let mut first = term;
    while let Some(operand) = first_operand(first) {
        operations.push(first)?;
        first = operand;
    }
    Ok((operations, first))
}

// ---- terms

/// The pattern of a term that is no operation and no interval.
#[cycle(compile)]
fn compile_plain(
    alloc: Global,
    terms: &mut Terms,
    draft: &mut Draft,
    term: &Term,
) -> Result<Pattern, AllocError>
    requires draft { IsDraft terms.old draft.old }
    requires integers { HasIntegers (read_term term.now) }
    requires plain { IsPlain term.now }
    ensures kept { KeepsIds terms.old terms.new }
    ensures plan { IfOk result (λ pattern. IsTermPlan (read_term term.now) pattern terms.old draft.old terms.new draft.new) }
{
    match term {
        Term::Int(number) => known(terms, Shape::Int(*number)),
        Term::Str(text) => known(terms, Shape::Str(Text::new(alloc, text.as_str())?)),
        Term::Const(name) => known(terms, Shape::Sym(Text::new(alloc, name.as_str())?)),
        Term::Var(name) => Ok(Pattern::Place(draft.place_of(alloc, name.as_str())?)),
        Term::Any => Ok(Pattern::Place(draft.new_place()?)),
        Term::Fun(name, parts) => {
            let name = Text::new(alloc, name.as_str())?;
            let patterns = compile_terms(alloc, terms, draft, parts.get().as_slice())?;
            Ok(Pattern::Compound(name, patterns))
        }
        Term::Tuple(parts) => {
            let name = Text::new(alloc, "")?;
            let patterns = compile_terms(alloc, terms, draft, parts.as_slice())?;
            Ok(Pattern::Compound(name, patterns))
        }
        _ => unreachable!(),
    }
}

/// The pattern of an operation or an interval, whose first operand is compiled. Any other term is that operand.
#[cycle(compile)]
fn apply(
    alloc: Global,
    terms: &mut Terms,
    draft: &mut Draft,
    operation: &Term,
    first: Pattern,
) -> Result<Pattern, AllocError>
    requires draft { IsDraft terms.old draft.old }
    requires integers { HasIntegers (read_term operation.now) }
    ensures kept { KeepsIds terms.old terms.new }
    ensures plan { IfOk result (λ pattern. IsApplied operation.now first pattern terms.old draft.old terms.new draft.new) }
{
    match operation {
        Term::Minus(_) => {
            let zero = known(terms, Shape::Int(0))?;
            compute(draft, ArithOp::Sub, zero, first)
        }
        Term::Sum(_, op, right) => {
            let right = compile_term(alloc, terms, draft, right.get())?;
            compute(draft, of_sum(*op), first, right)
        }
        Term::Product(_, op, right) => {
            let right = compile_term(alloc, terms, draft, right.get())?;
            compute(draft, of_product(*op), first, right)
        }
        Term::Range(_, high) => {
            let high = compile_term(alloc, terms, draft, high.get())?;
            choose(draft, first, high)
        }
        _ => Ok(first),
    }
}

/// The pattern of a term, whose values are those of the pattern: constants are put into the table, and each operation, each interval and
/// each `_` gets a place. It fails for want of memory, and where the draft has no number left for a place.
///
/// The integers of the term have to be in range, as those of a text are.
#[cycle(compile)]
pub fn compile_term(
    alloc: Global,
    terms: &mut Terms,
    draft: &mut Draft,
    term: &Term,
) -> Result<Pattern, AllocError>
    requires draft { IsDraft terms.old draft.old }
    requires integers { HasIntegers (read_term term.now) }
    ensures kept { KeepsIds terms.old terms.new }
    ensures plan { IfOk result (λ pattern. IsTermPlan (read_term term.now) pattern terms.old draft.old terms.new draft.new) }
{
    let (mut operations, first) = chain(alloc, term)?;
    let mut pattern = compile_plain(alloc, terms, draft, first)?;
    while let Some(operation) = operations.pop() {
        pattern = apply(alloc, terms, draft, operation, pattern)?;
    }
    Ok(pattern)
}

/// The patterns of terms, in their order, as `compile_term` makes them.
#[cycle(compile)]
pub fn compile_terms(
    alloc: Global,
    terms: &mut Terms,
    draft: &mut Draft,
    parts: &[Term],
) -> Result<Items<Pattern>, AllocError>
    requires draft { IsDraft terms.old draft.old }
    requires integers { All (λ part. HasIntegers (read_term part)) parts.now }
    ensures kept { KeepsIds terms.old terms.new }
    ensures plans { IfOk result (λ patterns. AreTermPlans (map read_term parts.now) patterns terms.old draft.old terms.new draft.new) }
{
    let mut patterns = Items::new(alloc);
    for part in parts {
        patterns.push(compile_term(alloc, terms, draft, part)?)?;
    }
    Ok(patterns)
}
