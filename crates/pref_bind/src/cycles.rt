// The statements that reach themselves by naming.
ghost use Rattle.std.specs.Prelude.{◌≡◌, ◌==◌, None, IfOk};
ghost use Rattle.std.specs.List.{list_any};
ghost use Rattle.components.specs.Graphs.{number_of as component_of};
ghost use Rattle.pref_bind.specs.Causes.{first_misnamed};
ghost use Rattle.pref_bind.specs.Cycles.{AreCyclic};
ghost use Rattle.pref_bind.specs.Found.{cyclic_from, is_cyclic};
ghost use Rattle.program_form.specs.Programs.{preferences};
ghost use Rattle.pref_bind.specs.Stacks.{graph_of};

use ap_syntax::{Statement, Text};
use components::components;
use sqlite_items::Items;
use std::alloc::{AllocError, Global};

fn component_of(numbers: &[u64], node: usize) -> u64
    ensures { result ≡ component_of numbers.now node }
{
    match numbers.get(node) {
        Some(number) => *number,
        None => 0,
    }
}

fn any_within(numbers: &[u64], component: u64, row: &[usize]) -> bool
    ensures { result ≡ list_any (λ next. component_of numbers.now next == component) row.now }
{
    row.iter()
        .any(|next| component_of(numbers, *next) == component)
}

/// Whether a node reaches itself by an edge or more: one of its successors is in its component.
fn is_cyclic(graph: &[Items<usize>], numbers: &[u64], node: usize) -> bool
    ensures { result ≡ is_cyclic graph.now numbers.now node }
{
    let component = component_of(numbers, node);
    match graph.get(node) {
        Some(row) => any_within(numbers, component, row.as_slice()),
        None => false,
    }
}

/// The names of the statements whose nodes reach themselves.
fn names_on_cycles(
    alloc: Global,
    graph: &[Items<usize>],
    numbers: &[u64],
    statements: &[Statement],
) -> Result<Items<Text>, AllocError>
    ensures { IfOk result (λ names. names ≡ cyclic_from graph.now numbers.now 0 (preferences statements.now)) }
{
    let mut names = Items::new(alloc);
    let mut node = 0;
    for statement in statements {
        if let Statement::Preference(preference) = statement {
            if is_cyclic(graph, numbers, node) {
                names.push(preference.name.copy(alloc)?)?;
            }
            node += 1;
        }
    }
    Ok(names)
}

/// The names of the statements that reach themselves by naming, where all names are bound.
pub(crate) fn cyclic_names(
    alloc: Global,
    graph: &[Items<usize>],
    statements: &[Statement],
) -> Result<Items<Text>, AllocError>
    requires bound { first_misnamed statements.now ≡ None }
    requires graph { graph.now ≡ graph_of (preferences statements.now) }
    ensures { IfOk result (AreCyclic (preferences statements.now)) }
{
    let numbers = components(alloc, graph)?;
    names_on_cycles(alloc, graph, numbers.as_slice(), statements)
}
