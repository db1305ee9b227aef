// The graph of the predicates.
ghost use Rattle.std.specs.Prelude.{◌≡◌, ◌<◌, ◌++◌, ◌∷◌, [], flat_map, map, length, All, slice_set, slice_index_or, replicate, fold, OnOk, IfOk};
ghost use Rattle.pred_graph.specs.Predicates.{pred_of as predicate_of, head_preds as heads_of, item_preds};
ghost use Rattle.pred_graph.specs.Tables.{place_in};
ghost use Rattle.pred_graph.specs.Graphs.{head_edge, body_edge, condition_edge, element_edges, rule_edges, edges_from, IsEdgeBelow, AreRows};

use crate::pred::{Pred, pred_of};
use crate::predicates::{body_preds, choice_elements, condition_preds_of, head_preds};
use crate::table::place_of;
use ap_syntax::{ChoiceElement, Rule};
use indexmap::IndexSet;
use sqlite_items::Items;
use std::alloc::{AllocError, Global};

/// An edge from a node to another, by their numbers.
#[derive(Clone, Copy, Debug)]
pub struct Edge {
    /// The node at which it begins.
    pub from: usize,
    /// The node that `from` depends on.
    pub to: usize,
}

fn push_head_edges(
    table: &IndexSet<Pred>,
    node: usize,
    preds: &[Pred],
    edges: &mut Items<Edge>,
) -> Result<(), AllocError>
    ensures { OnOk result (edges.new ≡ edges.old ++ map (head_edge (place_in table.now.keys) node) preds.now) }
{
    for pred in preds {
        let from = place_of(table, pred);
        edges.push(Edge { from, to: node })?;
    }
    Ok(())
}

fn push_body_edges(
    table: &IndexSet<Pred>,
    node: usize,
    preds: &[Pred],
    edges: &mut Items<Edge>,
) -> Result<(), AllocError>
    ensures { OnOk result (edges.new ≡ edges.old ++ map (body_edge (place_in table.now.keys) node) preds.now) }
{
    for pred in preds {
        let to = place_of(table, pred);
        edges.push(Edge { from: node, to })?;
    }
    Ok(())
}

fn push_condition_edges(
    table: &IndexSet<Pred>,
    atom: &Pred,
    preds: &[Pred],
    edges: &mut Items<Edge>,
) -> Result<(), AllocError>
    ensures { OnOk result (edges.new ≡ edges.old ++ map (condition_edge (place_in table.now.keys) atom.now) preds.now) }
{
    let from = place_of(table, atom);
    for pred in preds {
        let to = place_of(table, pred);
        edges.push(Edge { from, to })?;
    }
    Ok(())
}

fn push_element_edges(
    alloc: Global,
    table: &IndexSet<Pred>,
    elements: &[ChoiceElement],
    edges: &mut Items<Edge>,
) -> Result<(), AllocError>
    ensures { OnOk result (edges.new ≡ edges.old ++ flat_map (element_edges (place_in table.now.keys)) elements.now) }
{
    for element in elements {
        let atom = pred_of(alloc, &element.atom)?;
        let preds = condition_preds_of(alloc, element.condition.as_slice())?;
        push_condition_edges(table, &atom, preds.as_slice(), edges)?;
    }
    Ok(())
}

fn push_rule_edges(
    alloc: Global,
    table: &IndexSet<Pred>,
    node: usize,
    rule: &Rule,
    edges: &mut Items<Edge>,
) -> Result<(), AllocError>
    ensures { OnOk result (edges.new ≡ edges.old ++ rule_edges (place_in table.now.keys) node rule.now) }
{
    let heads = head_preds(alloc, &rule.head)?;
    let body = body_preds(alloc, rule.body.as_slice())?;
    push_head_edges(table, node, heads.as_slice(), edges)?;
    push_body_edges(table, node, body.as_slice(), edges)?;
    push_element_edges(alloc, table, choice_elements(&rule.head), edges)
}

/// The edges of the graph of these rules. Their nodes stand behind those of the predicates of the table, in the order of the
/// rules. It answers want of memory also where `pred_of` does for an atom of theirs, and where the number behind a rule's node
/// is no `usize`.
pub fn edges_of(
    alloc: Global,
    table: &IndexSet<Pred>,
    rules: &[Rule],
) -> Result<Items<Edge>, AllocError>
    ensures { IfOk result (λ edges. edges ≡ edges_from (place_in table.now.keys) (length table.now.keys) rules.now) }
{
    let mut edges = Items::new(alloc);
    let mut node = table.len();
    for rule in rules {
        push_rule_edges(alloc, table, node, rule, &mut edges)?;
        node = node.checked_add(1).ok_or(AllocError)?;
    }
    Ok(edges)
}
