// The table of the predicates that rules mention: the number of a predicate is its place.
ghost use Rattle.std.specs.Prelude.{◌≡◌, [], flat_map, OnOk, IfOk};
ghost use Rattle.indexmap.specs.IndexSet.{insert_key, insert_all};
ghost use Rattle.pred_graph.specs.Predicates.{rule_preds};
ghost use Rattle.pred_graph.specs.Tables.{is_pred, place_in};

use crate::pred::Pred;
use crate::predicates::mentioned;
use ap_syntax::Rule;
use indexmap::IndexSet;
use std::alloc::{AllocError, Global};

/// Puts a predicate into the table, if it is not there.
fn note(alloc: Global, table: &mut IndexSet<Pred>, pred: &Pred) -> Result<(), AllocError>
    ensures { OnOk result (table.new.keys ≡ insert_key is_pred table.old.keys pred.now) }
{
    if table.contains(pred) {
        return Ok(());
    }
    match table.insert(pred.copy(alloc)?) {
        Ok(_) => Ok(()),
        Err(_) => Err(AllocError),
    }
}

fn note_all(alloc: Global, table: &mut IndexSet<Pred>, preds: &[Pred]) -> Result<(), AllocError>
    ensures { OnOk result (table.new.keys ≡ insert_all is_pred table.old.keys preds.now) }
{
    for pred in preds {
        note(alloc, table, pred)?;
    }
    Ok(())
}

/// The predicates that the rules mention, each once, in the order in which they come. It fails where `pred_of` fails for one of
/// the atoms, or for want of memory.
pub fn table_of(alloc: Global, rules: &[Rule]) -> Result<IndexSet<Pred>, AllocError>
    ensures { IfOk result (λ table. table.keys ≡ insert_all is_pred [] (flat_map rule_preds rules.now)) }
{
    let mut table = IndexSet::new(alloc);
    for rule in rules {
        let preds = mentioned(alloc, rule)?;
        note_all(alloc, &mut table, preds.as_slice())?;
    }
    Ok(table)
}

/// The number of a predicate, or how many there are if it is not in the table.
pub fn place_of(table: &IndexSet<Pred>, pred: &Pred) -> usize
    ensures { result ≡ place_in table.now.keys pred.now }
{
    match table.get_index_of(pred) {
        Some(place) => place,
        None => table.len(),
    }
}
