// What rules and elements say of variables, in the order of the text.
ghost use Rattle.std.specs.Prelude.{◌≡◌, ◌++◌, ◌∷◌, [], false, map, OnOk, IfOk};
ghost use Rattle.ap_syntax.specs.declared.terms.Rel.TheVariants.{Eq};
ghost use Rattle.ap_pieces.specs.declared.pieces.Mention.TheVariants as mention;
ghost use Rattle.ap_pieces.specs.declared.pieces.Piece.TheVariants as piece;
ghost use Rattle.ap_pieces.specs.Variables.{occurrences, occurrences_of};
ghost use Rattle.ap_pieces.specs.Pieces.{side_of, comparison_of, mention_of, literal_occurrences, value_piece, value_pieces, guard_pieces, choice_piece, tuple_piece, head_pieces, item_pieces, rule_pieces};

use crate::aggregates::{occurrences_between, signatures_in};
use crate::variables::{Occurrence, all_occurrences, push_all, push_one, term_occurrences};
use ap_syntax::{
    AggElement, BodyItem, ChoiceElement, Guard, HeadForm, Literal, Rel, Rule, Term, Text,
};
use sqlite_items::{Boxed, Items};
use std::alloc::{AllocError, Global};

/// One side of a comparison.
#[derive(Debug, Drop)]
pub enum Side {
    /// A variable, by its name.
    Variable(Text),
    /// `_`
    Any,
    /// Another term, by the variables that occur in it.
    Compound(Items<Occurrence>),
}

/// What a literal says of variables.
#[derive(Debug, Drop)]
pub enum Mention {
    /// A positive atom, by the variables in its arguments.
    Atom(Items<Occurrence>),
    /// The two sides of `=`.
    Equal(Side, Side),
    /// Any other literal, which binds no variable.
    Other(Items<Occurrence>),
}

/// A predicate that an aggregate mentions.
#[derive(Debug, Drop)]
pub struct Signature {
    /// Its name.
    pub name: Text,
    /// How many arguments its atoms have.
    pub arity: usize,
}

/// A piece of a rule or of an element of a preference statement.
#[derive(Debug, Drop)]
pub enum Piece {
    /// The head atom, or a guard that has its own value.
    Uses(Items<Occurrence>),
    /// A literal of the body.
    Plain(Mention),
    /// The term of a guard with `=` of an aggregate that is not negated, the variables between the braces, and the predicates
    /// that are mentioned there.
    Value(Side, Items<Occurrence>, Items<Signature>),
    /// An element between braces, a conditional literal or an element of a statement, with its own condition.
    Part(Items<Occurrence>, Items<Mention>),
}

// ---- literals

#[tactic(auto, using(crate::proofs::PieceLemmas::side_of_variable, crate::proofs::PieceLemmas::side_of_any, crate::proofs::PieceLemmas::side_of_other))]
fn read_side(alloc: Global, term: &Term) -> Result<Side, AllocError>
    ensures { IfOk result (λ s. s ≡ side_of term.now) }
{
    match term {
        Term::Var(name) => Ok(Side::Variable(name.copy(alloc)?)),
        Term::Any => Ok(Side::Any),
        _ => Ok(Side::Compound(term_occurrences(alloc, term)?)),
    }
}

fn sides(alloc: Global, left: &Term, right: &Term) -> Result<Mention, AllocError>
    ensures { IfOk result (λ m. m ≡ mention.Equal (side_of left.now) (side_of right.now)) }
{
    let left = read_side(alloc, left)?;
    Ok(Mention::Equal(left, read_side(alloc, right)?))
}

fn both_occurrences(
    alloc: Global,
    left: &Term,
    right: &Term,
) -> Result<Items<Occurrence>, AllocError>
    ensures { IfOk result (λ os. os ≡ occurrences left.now ++ occurrences right.now) }
{
    let mut found = term_occurrences(alloc, left)?;
    push_one(alloc, &mut found, right)?;
    Ok(found)
}

fn comparison(alloc: Global, left: &Term, rel: Rel, right: &Term) -> Result<Mention, AllocError>
    ensures { IfOk result (λ m. m ≡ comparison_of left.now rel right.now) }
{
    match rel {
        Rel::Eq => sides(alloc, left, right),
        _ => Ok(Mention::Other(both_occurrences(alloc, left, right)?)),
    }
}

fn read_mention(alloc: Global, literal: &Literal) -> Result<Mention, AllocError>
    ensures { IfOk result (λ m. m ≡ mention_of literal.now) }
{
    match literal {
        Literal::Pos(atom) => Ok(Mention::Atom(all_occurrences(alloc, atom.terms.as_slice())?)),
        Literal::Not(atom) => Ok(Mention::Other(all_occurrences(alloc, atom.terms.as_slice())?)),
        Literal::Compare(left, rel, right) => comparison(alloc, left.get(), *rel, right.get()),
    }
}

pub(crate) fn read_mentions(
    alloc: Global,
    literals: &[Literal],
) -> Result<Items<Mention>, AllocError>
    ensures { IfOk result (λ ms. ms ≡ map mention_of literals.now) }
{
    let mut found = Items::new(alloc);
    for literal in literals {
        found.push(read_mention(alloc, literal)?)?;
    }
    Ok(found)
}

/// Adds the occurrences in a literal.
pub(crate) fn push_literal(
    alloc: Global,
    found: &mut Items<Occurrence>,
    literal: &Literal,
) -> Result<(), AllocError>
    ensures { OnOk result (found.new ≡ found.old ++ literal_occurrences literal.now) }
{
    match literal {
        Literal::Pos(atom) => push_all(alloc, found, atom.terms.as_slice()),
        Literal::Not(atom) => push_all(alloc, found, atom.terms.as_slice()),
        Literal::Compare(left, _, right) => {
            push_one(alloc, found, left.get())?;
            push_one(alloc, found, right.get())
        }
    }
}

fn occurrences_in(alloc: Global, literal: &Literal) -> Result<Items<Occurrence>, AllocError>
    ensures { IfOk result (λ os. os ≡ literal_occurrences literal.now) }
{
    let mut found = Items::new(alloc);
    push_literal(alloc, &mut found, literal)?;
    Ok(found)
}

// ---- rules

fn push_uses(alloc: Global, pieces: &mut Items<Piece>, terms: &[Term]) -> Result<(), AllocError>
    ensures { OnOk result (pieces.new ≡ pieces.old ++ piece.Uses (occurrences_of terms.now) ∷ []) }
{
    pieces.push(Piece::Uses(all_occurrences(alloc, terms)?))
}

fn push_guard(
    alloc: Global,
    pieces: &mut Items<Piece>,
    guard: &Option<Boxed<Guard>>,
) -> Result<(), AllocError>
    ensures { OnOk result (pieces.new ≡ pieces.old ++ guard_pieces guard.now) }
{
    match guard {
        None => Ok(()),
        Some(guard) => pieces.push(Piece::Uses(term_occurrences(alloc, &guard.get().term)?)),
    }
}

fn push_part(
    alloc: Global,
    pieces: &mut Items<Piece>,
    occurrences: Items<Occurrence>,
    condition: &[Literal],
) -> Result<(), AllocError>
    ensures { OnOk result (pieces.new ≡ pieces.old ++ piece.Part occurrences (map mention_of condition.now) ∷ []) }
{
    pieces.push(Piece::Part(occurrences, read_mentions(alloc, condition)?))
}

fn push_choices(
    alloc: Global,
    pieces: &mut Items<Piece>,
    elements: &[ChoiceElement],
) -> Result<(), AllocError>
    ensures { OnOk result (pieces.new ≡ pieces.old ++ map choice_piece elements.now) }
{
    for element in elements {
        let occurrences = all_occurrences(alloc, element.atom.terms.as_slice())?;
        push_part(alloc, pieces, occurrences, element.condition.as_slice())?;
    }
    Ok(())
}

fn push_tuples(
    alloc: Global,
    pieces: &mut Items<Piece>,
    elements: &[AggElement],
) -> Result<(), AllocError>
    ensures { OnOk result (pieces.new ≡ pieces.old ++ map tuple_piece elements.now) }
{
    for element in elements {
        let occurrences = all_occurrences(alloc, element.terms.as_slice())?;
        push_part(alloc, pieces, occurrences, element.condition.as_slice())?;
    }
    Ok(())
}

fn push_choice(
    alloc: Global,
    pieces: &mut Items<Piece>,
    left: &Option<Boxed<Guard>>,
    elements: &[ChoiceElement],
    right: &Option<Boxed<Guard>>,
) -> Result<(), AllocError>
    ensures { OnOk result (pieces.new ≡ pieces.old ++ guard_pieces left.now ++ map choice_piece elements.now ++ guard_pieces right.now) }
{
    push_guard(alloc, pieces, left)?;
    push_choices(alloc, pieces, elements)?;
    push_guard(alloc, pieces, right)
}

/// Adds the guard of an aggregate that is given a value by what stands between the braces.
fn push_given(
    alloc: Global,
    pieces: &mut Items<Piece>,
    term: &Term,
    elements: &[AggElement],
) -> Result<(), AllocError>
    ensures { OnOk result (pieces.new ≡ pieces.old ++ value_piece false Eq term.now elements.now ∷ []) }
{
    let side = read_side(alloc, term)?;
    let inside = occurrences_between(alloc, elements)?;
    pieces.push(Piece::Value(side, inside, signatures_in(alloc, elements)?))
}

fn push_value(
    alloc: Global,
    pieces: &mut Items<Piece>,
    negated: bool,
    guard: &Guard,
    elements: &[AggElement],
) -> Result<(), AllocError>
    ensures { OnOk result (pieces.new ≡ pieces.old ++ value_piece negated guard.now.rel guard.now.term elements.now ∷ []) }
{
    match (negated, guard.rel) {
        (false, Rel::Eq) => push_given(alloc, pieces, &guard.term, elements),
        _ => pieces.push(Piece::Uses(term_occurrences(alloc, &guard.term)?)),
    }
}

fn push_values(
    alloc: Global,
    pieces: &mut Items<Piece>,
    negated: bool,
    guard: &Option<Boxed<Guard>>,
    elements: &[AggElement],
) -> Result<(), AllocError>
    ensures { OnOk result (pieces.new ≡ pieces.old ++ value_pieces negated guard.now elements.now) }
{
    match guard {
        None => Ok(()),
        Some(guard) => push_value(alloc, pieces, negated, guard.get(), elements),
    }
}

fn push_aggregate(
    alloc: Global,
    pieces: &mut Items<Piece>,
    negated: bool,
    left: &Option<Boxed<Guard>>,
    elements: &[AggElement],
    right: &Option<Boxed<Guard>>,
) -> Result<(), AllocError>
    ensures { OnOk result (pieces.new ≡ pieces.old ++ value_pieces negated left.now elements.now
        ++ map tuple_piece elements.now ++ value_pieces negated right.now elements.now) }
{
    push_values(alloc, pieces, negated, left, elements)?;
    push_tuples(alloc, pieces, elements)?;
    push_values(alloc, pieces, negated, right, elements)
}

fn push_head(alloc: Global, pieces: &mut Items<Piece>, head: &HeadForm) -> Result<(), AllocError>
    ensures { OnOk result (pieces.new ≡ pieces.old ++ head_pieces head.now) }
{
    match head {
        HeadForm::One(atom) => push_uses(alloc, pieces, atom.terms.as_slice()),
        HeadForm::Choice {
            left,
            elements,
            right,
        } => push_choice(alloc, pieces, left, elements.get().as_slice(), right),
        HeadForm::Nothing => Ok(()),
    }
}

fn push_conditional(
    alloc: Global,
    pieces: &mut Items<Piece>,
    literal: &Literal,
    condition: &[Literal],
) -> Result<(), AllocError>
    ensures { OnOk result (pieces.new ≡ pieces.old ++ piece.Part (literal_occurrences literal.now) (map mention_of condition.now) ∷ []) }
{
    let occurrences = occurrences_in(alloc, literal)?;
    push_part(alloc, pieces, occurrences, condition)
}

fn push_item(alloc: Global, pieces: &mut Items<Piece>, item: &BodyItem) -> Result<(), AllocError>
    ensures { OnOk result (pieces.new ≡ pieces.old ++ item_pieces item.now) }
{
    match item {
        BodyItem::Plain(literal) => pieces.push(Piece::Plain(read_mention(alloc, literal)?)),
        BodyItem::All {
            at: _,
            literal,
            condition,
        } => push_conditional(alloc, pieces, literal.get(), condition.as_slice()),
        BodyItem::Agg {
            negated,
            left,
            function: _,
            elements,
            right,
        } => push_aggregate(
            alloc,
            pieces,
            *negated,
            left,
            elements.get().as_slice(),
            right,
        ),
    }
}

/// The pieces of a rule.
pub fn pieces_of(alloc: Global, rule: &Rule) -> Result<Items<Piece>, AllocError>
    ensures { IfOk result (λ ps. ps ≡ rule_pieces rule.now) }
{
    let mut pieces = Items::new(alloc);
    push_head(alloc, &mut pieces, &rule.head)?;
    for item in rule.body.as_slice() {
        push_item(alloc, &mut pieces, item)?;
    }
    Ok(pieces)
}
