// What is known of rules.
ghost use Rattle.std.specs.Prelude.{◌≡◌};
ghost use Rattle.pred_graph.specs.Known.{component_in, definite_in};

use crate::decided::is_open;
use crate::marks::is_marked;
use crate::numbers::number_at;
use crate::pred::Pred;
use crate::table::place_of;
use indexmap::IndexSet;
use sqlite_items::Items;
use std::marker::Model;

/// The components of the predicates that rules mention, and which predicates are definite. Contracts see it as what it has
/// of each predicate.
#[derive(Drop)]
pub struct Safe {
    pub(crate) base: bool,
    /// The predicates that the rules mention.
    pub(crate) table: IndexSet<Pred>,
    /// For each node of the graph the number of its component.
    pub(crate) numbers: Items<u64>,
    /// For each node whether it leads to a predicate that is not decided.
    pub(crate) indefinite: Items<bool>,
}

impl Model for Safe {
    ghost use Rattle.pred_graph.specs.Known.{Known};

    ghost Value = { Known };

    ghost view = { λ s. record { base = s.base; preds = s.table.keys; numbers = s.numbers; indefinite = s.indefinite } };
}

impl Safe {
    /// Whether the rules are those of a base program.
    pub fn is_base(&self) -> bool
        ensures { result ≡ self.now.base }
    {
        self.base
    }

    /// Whether the predicate is definite: no choice has it in the head, no predicate of its component depends on one of the
    /// component, and all that it depends on is definite. In a type's program `holds`, `holds'`, `better_in`, `bettereq_in`,
    /// `eq_in`, `worse_in` and `worseeq_in` are not.
    pub fn is_definite(&self, pred: &Pred) -> bool
        ensures { result ≡ definite_in self.now pred.now }
    {
        let place = place_of(&self.table, pred);
        if place < self.table.len() {
            !is_marked(self.indefinite.as_slice(), place)
        } else {
            self.base || !is_open(&pred.name)
        }
    }

    /// The number of the predicate's component, above those of all components that it depends on. 0 where no rule mentions it.
    pub fn component(&self, pred: &Pred) -> u64
        ensures { result ≡ component_in self.now pred.now }
    {
        let place = place_of(&self.table, pred);
        if place < self.table.len() {
            number_at(self.numbers.as_slice(), place)
        } else {
            0
        }
    }
}
