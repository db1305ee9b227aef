// The variables that a conjunction binds: its least set, by rules without negation over numbers for the names.
ghost use Rattle.std.specs.Prelude.{◌≡◌, ◌&&◌, ◌||◌, ℕ, Bool, List, false, true, length, not, flat_map, All, OnOk, IfOk};
ghost use Rattle.std.specs.List.{list_all};
ghost use Rattle.ap_pieces.specs.Bound.{Names, no_names, binders, IsBound, has_any_name, has_all, has_argument, binds_side, is_closed};
ghost use Rattle.definite.specs.Rules.{IsRuleOf};
ghost use Rattle.ap_pieces.specs.declared.pieces.Mention.{Mention as MentionSpec};
ghost use Rattle.ap_pieces.specs.declared.pieces.Side.TheVariants as side;
ghost use Rattle.ap_pieces.specs.Pieces.{side_occurrences};
ghost use Rattle.ap_bindings.specs.Unsafe.{definite_by};
ghost use Rattle.ap_bindings.specs.Searches.{names_in, number_in, IsTable, Grows, also, IsListed, AreRules, has_counted, is_named, IsListedTerm, is_marked, marked_in, bound_in};

use crate::aggregates::other_side;
use crate::names::{NameSet, NameTable};
use ap_pieces::{Mention, Occurrence, Piece, Side};
use ap_syntax::Text;
use definite::{Rule, least};
use pred_graph::Safe;
use sqlite_items::Items;
use std::alloc::{AllocError, Global};

/// The variables that a conjunction binds, beside those that are given.
#[derive(Drop)]
pub(crate) struct Bound {
    /// The numbers of the variables.
    pub(crate) table: NameTable,
    /// By their numbers, whether they are bound.
    pub(crate) marks: Items<bool>,
}

impl Bound {
    /// Whether the variable is bound.
    pub(crate) fn contains(&self, name: &Text) -> bool
        ensures { result ≡ marked_in self.now name.now }
    {
        is_marked_at(self.marks.as_slice(), self.table.get(name))
    }
}

fn is_marked_at(marks: &[bool], number: Option<usize>) -> bool
    ensures { result ≡ is_marked marks.now number }
{
    match number {
        Some(number) => number < marks.len() && marks[number],
        None => false,
    }
}

// ---- lists of numbers

/// Adds the number of a name, if that is not given.
fn push_number(
    alloc: Global,
    given: &NameSet,
    table: &mut NameTable,
    list: &mut Items<usize>,
    name: &Text,
) -> Result<(), AllocError>
    requires table { IsTable table.old }
    ensures grows { OnOk result (Grows table.old table.new) }
    ensures listed { OnOk result ((test : Names → Bool) → IsListed table.old.names list.old test → IsListed table.new.names list.new (λ z. test z && also (names_in given.now) z name.now)) }
{
    if given.contains(name) {
        return Ok(());
    }
    list.push(table.number(alloc, name)?)?;
    Ok(())
}

/// Adds the number of the name, where there is one.
fn push_any(
    alloc: Global,
    given: &NameSet,
    table: &mut NameTable,
    list: &mut Items<usize>,
    name: &Option<Text>,
) -> Result<(), AllocError>
    requires table { IsTable table.old }
    ensures grows { OnOk result (Grows table.old table.new) }
    ensures listed { OnOk result ((test : Names → Bool) → IsListed table.old.names list.old test → IsListed table.new.names list.new (λ z. test z && has_any_name (also (names_in given.now) z) name.now)) }
{
    match name {
        Some(name) => push_number(alloc, given, table, list, name),
        None => Ok(()),
    }
}

fn counts(occurrence: &Occurrence, all: bool) -> bool
    ensures { result ≡ (all || occurrence.now.is_argument) }
{
    all || occurrence.is_argument
}

/// Adds the number of the occurrence, if it counts: `all` do, or arguments alone.
fn push_counted(
    alloc: Global,
    given: &NameSet,
    table: &mut NameTable,
    list: &mut Items<usize>,
    occurrence: &Occurrence,
    all: bool,
) -> Result<(), AllocError>
    requires table { IsTable table.old }
    ensures grows { OnOk result (Grows table.old table.new) }
    ensures listed { OnOk result ((test : Names → Bool) → IsListed table.old.names list.old test → IsListed table.new.names list.new (λ z. test z && has_counted all (also (names_in given.now) z) occurrence.now)) }
{
    if counts(occurrence, all) {
        push_any(alloc, given, table, list, &occurrence.name)
    } else {
        Ok(())
    }
}

/// The numbers of the occurrences that count.
fn numbers_of(
    alloc: Global,
    given: &NameSet,
    table: &mut NameTable,
    occurrences: &[Occurrence],
    all: bool,
) -> Result<Items<usize>, AllocError>
    requires table { IsTable table.old }
    ensures grows { OnOk result (Grows table.old table.new) }
    ensures listed { IfOk result (λ list. IsListed table.new.names list (λ z. list_all (has_counted all (also (names_in given.now) z)) occurrences.now)) }
{
    let mut list = Items::new(alloc);
    for occurrence in occurrences {
        push_counted(alloc, given, table, &mut list, occurrence, all)?;
    }
    Ok(list)
}

/// The number of one name as a list, which is empty if the name is given.
fn number_of(
    alloc: Global,
    given: &NameSet,
    table: &mut NameTable,
    name: &Text,
) -> Result<Items<usize>, AllocError>
    requires table { IsTable table.old }
    ensures grows { OnOk result (Grows table.old table.new) }
    ensures listed { IfOk result (λ list. IsListed table.new.names list (λ z. also (names_in given.now) z name.now)) }
{
    let mut list = Items::new(alloc);
    push_number(alloc, given, table, &mut list, name)?;
    Ok(list)
}

fn are_named(occurrences: &[Occurrence]) -> bool
    ensures { result ≡ list_all is_named occurrences.now }
{
    occurrences
        .iter()
        .all(|occurrence| occurrence.name.is_some())
}

/// The numbers of the variables of a term, if all have names.
fn term_numbers(
    alloc: Global,
    given: &NameSet,
    table: &mut NameTable,
    occurrences: &[Occurrence],
) -> Result<Option<Items<usize>>, AllocError>
    requires table { IsTable table.old }
    ensures grows { OnOk result (Grows table.old table.new) }
    ensures listed { IfOk result (IsListedTerm (names_in given.now) table.new.names occurrences.now) }
{
    if are_named(occurrences) {
        Ok(Some(numbers_of(alloc, given, table, occurrences, true)?))
    } else {
        Ok(None)
    }
}

/// The numbers of the variables of a side, if all have names.
fn side_numbers(
    alloc: Global,
    given: &NameSet,
    table: &mut NameTable,
    side: &Side,
) -> Result<Option<Items<usize>>, AllocError>
    requires table { IsTable table.old }
    ensures grows { OnOk result (Grows table.old table.new) }
    ensures listed { IfOk result (IsListedTerm (names_in given.now) table.new.names (side_occurrences side.now)) }
{
    match side {
        Side::Variable(name) => Ok(Some(number_of(alloc, given, table, name)?)),
        Side::Any => Ok(None),
        Side::Compound(occurrences) => term_numbers(alloc, given, table, occurrences.as_slice()),
    }
}

// ---- rules

/// Adds the rule that a variable which is one side of `=` is bound where all of the other side are.
fn push_binding(
    alloc: Global,
    given: &NameSet,
    table: &mut NameTable,
    rules: &mut Vec<Rule>,
    name: &Text,
    other: &Side,
) -> Result<(), AllocError>
    requires table { IsTable table.old }
    ensures grows { OnOk result (Grows table.old table.new) }
    ensures rules { OnOk result ((test : Names → Bool) → AreRules table.old.names rules.old.items test → AreRules table.new.names rules.new.items (λ z. test z && binds_side (also (names_in given.now) z) (side.Variable name.now) other.now)) }
{
    match side_numbers(alloc, given, table, other)? {
        Some(body) => {
            let heads = number_of(alloc, given, table, name)?;
            rules.push(Rule { body, heads })?;
            Ok(())
        }
        None => Ok(()),
    }
}

fn push_side(
    alloc: Global,
    given: &NameSet,
    table: &mut NameTable,
    rules: &mut Vec<Rule>,
    side: &Side,
    other: &Side,
) -> Result<(), AllocError>
    requires table { IsTable table.old }
    ensures grows { OnOk result (Grows table.old table.new) }
    ensures rules { OnOk result ((test : Names → Bool) → AreRules table.old.names rules.old.items test → AreRules table.new.names rules.new.items (λ z. test z && binds_side (also (names_in given.now) z) side.now other.now)) }
{
    match side {
        Side::Variable(name) => push_binding(alloc, given, table, rules, name, other),
        Side::Any => Ok(()),
        Side::Compound(_) => Ok(()),
    }
}

fn push_sides(
    alloc: Global,
    given: &NameSet,
    table: &mut NameTable,
    rules: &mut Vec<Rule>,
    left: &Side,
    right: &Side,
) -> Result<(), AllocError>
    requires table { IsTable table.old }
    ensures grows { OnOk result (Grows table.old table.new) }
    ensures rules { OnOk result ((test : Names → Bool) → AreRules table.old.names rules.old.items test → AreRules table.new.names rules.new.items (λ z. test z && (binds_side (also (names_in given.now) z) left.now right.now && binds_side (also (names_in given.now) z) right.now left.now))) }
{
    push_side(alloc, given, table, rules, left, right)?;
    push_side(alloc, given, table, rules, right, left)?;
    Ok(())
}

/// Adds the rule that the arguments of a positive atom are bound.
fn push_arguments(
    alloc: Global,
    given: &NameSet,
    table: &mut NameTable,
    rules: &mut Vec<Rule>,
    occurrences: &[Occurrence],
) -> Result<(), AllocError>
    requires table { IsTable table.old }
    ensures grows { OnOk result (Grows table.old table.new) }
    ensures rules { OnOk result ((test : Names → Bool) → AreRules table.old.names rules.old.items test → AreRules table.new.names rules.new.items (λ z. test z && list_all (has_argument (also (names_in given.now) z)) occurrences.now)) }
{
    let heads = numbers_of(alloc, given, table, occurrences, false)?;
    rules.push(Rule {
        body: Items::new(alloc),
        heads,
    })?;
    Ok(())
}

fn push_mention(
    alloc: Global,
    given: &NameSet,
    table: &mut NameTable,
    rules: &mut Vec<Rule>,
    mention: &Mention,
) -> Result<(), AllocError>
    requires table { IsTable table.old }
    ensures grows { OnOk result (Grows table.old table.new) }
    ensures rules { OnOk result ((test : Names → Bool) → AreRules table.old.names rules.old.items test → AreRules table.new.names rules.new.items (λ z. test z && is_closed (also (names_in given.now) z) mention.now)) }
{
    match mention {
        Mention::Atom(occurrences) => push_arguments(
            alloc,
            given,
            table,
            rules,
            occurrences.as_slice(),
        ),
        Mention::Equal(left, right) => push_sides(alloc, given, table, rules, left, right),
        Mention::Other(_) => Ok(()),
    }
}

/// The rules by which the conjunction binds variables that are not given.
fn rules_of(
    alloc: Global,
    given: &NameSet,
    table: &mut NameTable,
    conjunction: &[Mention],
) -> Result<Vec<Rule>, AllocError>
    requires table { IsTable table.old }
    ensures grows { OnOk result (Grows table.old table.new) }
    ensures rules { IfOk result (λ rules. AreRules table.new.names rules.items (λ z. list_all (is_closed (also (names_in given.now) z)) conjunction.now)) }
{
    let mut rules = Vec::new(alloc);
    for mention in conjunction {
        push_mention(alloc, given, table, &mut rules, mention)?;
    }
    Ok(rules)
}

/// The rules by which the literals of a body and the guards of aggregates bind variables.
fn outer_rules(
    alloc: Global,
    safe: &Safe,
    globals: &NameSet,
    given: &NameSet,
    table: &mut NameTable,
    pieces: &[Piece],
) -> Result<Vec<Rule>, AllocError>
    requires table { IsTable table.old }
    ensures grows { OnOk result (Grows table.old table.new) }
    ensures rules { IfOk result (λ rules. AreRules table.new.names rules.items
        (λ z. list_all (is_closed (also (names_in given.now) z)) (flat_map (binders (definite_by safe.now) (names_in globals.now)) pieces.now))) }
{
    let mut rules = Vec::new(alloc);
    for piece in pieces {
        push_piece(alloc, safe, globals, given, table, &mut rules, piece)?;
    }
    Ok(rules)
}

fn push_piece(
    alloc: Global,
    safe: &Safe,
    globals: &NameSet,
    given: &NameSet,
    table: &mut NameTable,
    rules: &mut Vec<Rule>,
    piece: &Piece,
) -> Result<(), AllocError>
    requires table { IsTable table.old }
    ensures grows { OnOk result (Grows table.old table.new) }
    ensures rules { OnOk result ((test : Names → Bool) → AreRules table.old.names rules.old.items test → AreRules table.new.names rules.new.items
        (λ z. test z && list_all (is_closed (also (names_in given.now) z)) (binders (definite_by safe.now) (names_in globals.now) piece.now))) }
{
    match piece {
        Piece::Plain(mention) => push_mention(alloc, given, table, rules, mention),
        Piece::Value(side, inside, mentioned) => {
            let other = other_side(alloc, safe, globals, inside, mentioned)?;
            push_sides(alloc, given, table, rules, side, &other)
        }
        Piece::Uses(_) => Ok(()),
        Piece::Part(_, _) => Ok(()),
    }
}

/// What the rules bind.
fn bound_of(alloc: Global, table: NameTable, rules: &[Rule]) -> Result<Bound, AllocError>
    requires table { IsTable table }
    requires rules { All (IsRuleOf (length table.names)) rules.now }
    ensures { IfOk result (λ bound. (given : Names) (conjunction : List MentionSpec) → AreRules table.names rules.now (λ z. list_all (is_closed (also given z)) conjunction) → IsBound given conjunction (also given (marked_in bound))) }
{
    let found = least(alloc, rules, table.names.len())?;
    Ok(Bound {
        table,
        marks: found.marks,
    })
}

/// What the conjunction binds where these variables are given.
pub(crate) fn bound_by(
    alloc: Global,
    given: &NameSet,
    conjunction: &[Mention],
) -> Result<Bound, AllocError>
    ensures { IfOk result (λ bound. IsBound (names_in given.now) conjunction.now (bound_in given.now bound)) }
{
    let mut table = NameTable::new(alloc);
    let rules = rules_of(alloc, given, &mut table, conjunction)?;
    bound_of(alloc, table, rules.as_slice())
}

/// What the literals of a body and the guards of aggregates bind, where these are the global variables.
pub(crate) fn bound_outside(
    alloc: Global,
    safe: &Safe,
    globals: &NameSet,
    pieces: &[Piece],
) -> Result<Bound, AllocError>
    ensures { IfOk result (λ bound. IsBound no_names
        (flat_map (binders (definite_by safe.now) (names_in globals.now)) pieces.now) (marked_in bound)) }
{
    let mut table = NameTable::new(alloc);
    let none = NameSet::new(alloc);
    let rules = outer_rules(alloc, safe, globals, &none, &mut table, pieces)?;
    bound_of(alloc, table, rules.as_slice())
}
