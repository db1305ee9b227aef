// Which statements name which.
ghost use Rattle.std.specs.Prelude.{◌≡◌, ◌++◌, List, flat_map, map, length, IfOk, OnOk};
ghost use Rattle.pref_bind.specs.Naming.{element_names, given_names, names_in as names_of, ranked_names, target_names};
ghost use Rattle.program_form.specs.Programs.{preferences};
ghost use Rattle.pref_bind.specs.Stacks.{graph_of as graph, number_in, numbers_in};
ghost use Rattle.ap_syntax.specs.declared.preferences.Preference.{Preference as Tree};
ghost use Rattle.pref_bind.specs.Tables.{IsTableOf};

use crate::table::Table;
use ap_syntax::{Element, Preference, Ranked, Statement, Target, Text};
use sqlite_items::Items;
use std::alloc::{AllocError, Global};

fn push_target(alloc: Global, names: &mut Items<Text>, target: &Target) -> Result<(), AllocError>
    ensures { OnOk result (names.new ≡ names.old ++ target_names target.now) }
{
    match target {
        Target::For(_) => Ok(()),
        Target::Name(name) => names.push(name.copy(alloc)?),
    }
}

fn push_ranked(alloc: Global, names: &mut Items<Text>, ranked: &Ranked) -> Result<(), AllocError>
    ensures { OnOk result (names.new ≡ names.old ++ ranked_names ranked.now) }
{
    push_target(alloc, names, &ranked.target)
}

fn push_ranks(alloc: Global, names: &mut Items<Text>, ranks: &[Ranked]) -> Result<(), AllocError>
    ensures { OnOk result (names.new ≡ names.old ++ flat_map ranked_names ranks.now) }
{
    for ranked in ranks {
        push_ranked(alloc, names, ranked)?;
    }
    Ok(())
}

fn push_given(
    alloc: Global,
    names: &mut Items<Text>,
    given: &Option<Ranked>,
) -> Result<(), AllocError>
    ensures { OnOk result (names.new ≡ names.old ++ given_names given.now) }
{
    match given {
        Some(ranked) => push_ranked(alloc, names, ranked),
        None => Ok(()),
    }
}

fn push_element(alloc: Global, names: &mut Items<Text>, element: &Element) -> Result<(), AllocError>
    ensures { OnOk result (names.new ≡ names.old ++ element_names element.now) }
{
    push_ranks(alloc, names, element.ranks.as_slice())?;
    push_given(alloc, names, &element.given)
}

fn names_among(alloc: Global, elements: &[Element]) -> Result<Items<Text>, AllocError>
    ensures { IfOk result (λ names. names ≡ flat_map element_names elements.now) }
{
    let mut names = Items::new(alloc);
    for element in elements {
        push_element(alloc, &mut names, element)?;
    }
    Ok(names)
}

/// The names of the statements that a statement names, in the order of its text.
pub(crate) fn names_in(alloc: Global, statement: &Preference) -> Result<Items<Text>, AllocError>
    ensures { IfOk result (λ names. names ≡ names_of statement.now) }
{
    names_among(alloc, statement.elements.as_slice())
}

/// How many preference statements there are.
pub(crate) fn count_preferences(statements: &[Statement]) -> usize
    ensures { result ≡ length (preferences statements.now) }
{
    let mut count = 0;
    for statement in statements {
        if let Statement::Preference(_) = statement {
            count += 1;
        }
    }
    count
}

/// The number of the statement of a name, or `count` if none has it.
pub(crate) fn number_or(table: &Table, count: usize, name: &Text) -> usize
    ensures { (ps : List Tree) → IsTableOf ps table.now → count ≡ length ps → result ≡ number_in ps name.now }
{
    match table.place(name) {
        Some(place) => place,
        None => count,
    }
}

fn numbers_of(
    alloc: Global,
    table: &Table,
    count: usize,
    names: &[Text],
) -> Result<Items<usize>, AllocError>
    ensures { IfOk result (λ numbers. (ps : List Tree) → IsTableOf ps table.now → count ≡ length ps → numbers ≡ map (number_in ps) names.now) }
{
    let mut numbers = Items::new(alloc);
    for name in names {
        numbers.push(number_or(table, count, name))?;
    }
    Ok(numbers)
}

fn numbers_in(
    alloc: Global,
    table: &Table,
    count: usize,
    statement: &Preference,
) -> Result<Items<usize>, AllocError>
    ensures { IfOk result (λ numbers. (ps : List Tree) → IsTableOf ps table.now → count ≡ length ps → numbers ≡ numbers_in ps statement.now) }
{
    let names = names_in(alloc, statement)?;
    numbers_of(alloc, table, count, names.as_slice())
}

/// For each preference statement the numbers of those that it names.
pub(crate) fn graph_of(
    alloc: Global,
    table: &Table,
    count: usize,
    statements: &[Statement],
) -> Result<Items<Items<usize>>, AllocError>
    requires table { IsTableOf (preferences statements.now) table.now }
    requires count { count ≡ length (preferences statements.now) }
    ensures { IfOk result (λ found. found ≡ graph (preferences statements.now)) }
{
    let mut graph = Items::new(alloc);
    for statement in statements {
        if let Statement::Preference(preference) = statement {
            graph.push(numbers_in(alloc, table, count, preference)?)?;
        }
    }
    Ok(graph)
}
