// Which nodes lead to a predicate that is not decided.
ghost use Rattle.std.specs.Prelude.{◌≡◌, ◌<◌, ◌++◌, flat_map, map, length, All, OnOk, IfOk};
ghost use Rattle.pred_graph.specs.Components.{is_open_name};
ghost use Rattle.pred_graph.specs.Tables.{place_in};
ghost use Rattle.pred_graph.specs.Graphs.{IsEdgeBelow};
ghost use Rattle.pred_graph.specs.Judged.{inner_nodes, choice_nodes, open_nodes, undecided_nodes, edge_rule, fact_rule, AreLeading};

use crate::graph::Edge;
use crate::numbers::number_at;
use crate::pred::Pred;
use crate::predicates::choice_preds;
use crate::table::place_of;
use ap_syntax::{Rule, Text};
use definite::{Rule as Derivation, least};
use indexmap::IndexSet;
use sqlite_items::Items;
use std::alloc::{AllocError, Global};

/// Whether a predicate of this name stands for what another program or a search decides.
pub(crate) fn is_open(name: &Text) -> bool
    ensures { result ≡ is_open_name name.now }
{
    let name = name.as_str();
    name == "holds"
        || name == "holds'"
        || name == "better_in"
        || name == "bettereq_in"
        || name == "eq_in"
        || name == "worse_in"
        || name == "worseeq_in"
}

fn push_inner(
    preds: usize,
    numbers: &[u64],
    edges: &[Edge],
    nodes: &mut Items<usize>,
) -> Result<(), AllocError>
    ensures { OnOk result (nodes.new ≡ nodes.old ++ flat_map (inner_nodes preds numbers.now) edges.now) }
{
    for edge in edges {
        if edge.from < preds && number_at(numbers, edge.from) == number_at(numbers, edge.to) {
            nodes.push(edge.from)?;
        }
    }
    Ok(())
}

fn push_places(
    table: &IndexSet<Pred>,
    preds: &[Pred],
    nodes: &mut Items<usize>,
) -> Result<(), AllocError>
    ensures { OnOk result (nodes.new ≡ nodes.old ++ map (place_in table.now.keys) preds.now) }
{
    for pred in preds {
        nodes.push(place_of(table, pred))?;
    }
    Ok(())
}

fn push_choices(
    alloc: Global,
    table: &IndexSet<Pred>,
    rules: &[Rule],
    nodes: &mut Items<usize>,
) -> Result<(), AllocError>
    ensures { OnOk result (nodes.new ≡ nodes.old ++ flat_map (choice_nodes (place_in table.now.keys)) rules.now) }
{
    for rule in rules {
        let preds = choice_preds(alloc, &rule.head)?;
        push_places(table, preds.as_slice(), nodes)?;
    }
    Ok(())
}

fn push_open(
    table: &IndexSet<Pred>,
    preds: &[Pred],
    nodes: &mut Items<usize>,
) -> Result<(), AllocError>
    ensures { OnOk result (nodes.new ≡ nodes.old ++ flat_map (open_nodes (place_in table.now.keys)) preds.now) }
{
    for pred in preds {
        if is_open(&pred.name) {
            nodes.push(place_of(table, pred))?;
        }
    }
    Ok(())
}

/// The nodes of predicates that are not decided. Of those that are so by an edge inside their component, at least one in each
/// such component.
pub(crate) fn undecided(
    alloc: Global,
    base: bool,
    table: &IndexSet<Pred>,
    numbers: &[u64],
    edges: &[Edge],
    rules: &[Rule],
) -> Result<Items<usize>, AllocError>
    ensures { IfOk result (λ nodes. nodes ≡ undecided_nodes base (place_in table.now.keys) table.now.keys numbers.now edges.now rules.now) }
{
    let mut nodes = Items::new(alloc);
    push_inner(table.len(), numbers, edges, &mut nodes)?;
    push_choices(alloc, table, rules, &mut nodes)?;
    if !base {
        push_open(table, table.as_slice(), &mut nodes)?;
    }
    Ok(nodes)
}

/// The rules by which a mark goes against the edges, from these nodes on.
fn derivations(
    alloc: Global,
    edges: &[Edge],
    nodes: &[usize],
) -> Result<Vec<Derivation>, AllocError>
    ensures { IfOk result (λ rules. rules.items ≡ map edge_rule edges.now ++ map fact_rule nodes.now) }
{
    let mut rules = Vec::new(alloc);
    push_edge_rules(alloc, edges, &mut rules)?;
    push_fact_rules(alloc, nodes, &mut rules)?;
    Ok(rules)
}

fn push_edge_rules(
    alloc: Global,
    edges: &[Edge],
    rules: &mut Vec<Derivation>,
) -> Result<(), AllocError>
    ensures { OnOk result (rules.new.items ≡ rules.old.items ++ map edge_rule edges.now) }
{
    for edge in edges {
        rules.push(Derivation {
            body: Items::from_slice(alloc, &[edge.to])?,
            heads: Items::from_slice(alloc, &[edge.from])?,
        })?;
    }
    Ok(())
}

fn push_fact_rules(
    alloc: Global,
    nodes: &[usize],
    rules: &mut Vec<Derivation>,
) -> Result<(), AllocError>
    ensures { OnOk result (rules.new.items ≡ rules.old.items ++ map fact_rule nodes.now) }
{
    for node in nodes {
        rules.push(Derivation {
            body: Items::new(alloc),
            heads: Items::from_slice(alloc, &[*node])?,
        })?;
    }
    Ok(())
}

/// For each node whether it leads to one of these.
pub(crate) fn leading(
    alloc: Global,
    size: usize,
    edges: &[Edge],
    nodes: &[usize],
) -> Result<Items<bool>, AllocError>
    requires edges { All (IsEdgeBelow size) edges.now }
    requires nodes { All (λ node. node < size) nodes.now }
    ensures { IfOk result (AreLeading edges.now nodes.now) }
{
    let rules = derivations(alloc, edges, nodes)?;
    let found = least(alloc, rules.as_slice(), size)?;
    Ok(found.marks)
}
