// What is known of a variable.
use crate::literals::{Lit, Var};
use sqlite_items::Items;

/// What a new variable stands for.
///
/// * `Atom`: an atom of the program `block`, which is true only where one of its supports is.
/// * `Sum`: true exactly where the sum of the weights of the true variables among `terms` reaches `bound`.
/// * `Body`: true exactly where each literal of `lits` is.
/// * `Search`: the search guard, which is assumed while answer sets are searched for.
/// * `Other`: a variable of which the clauses say all.
#[derive(Debug, Drop)]
pub enum VarKind {
    Atom {
        block: u64,
        supports: Items<Lit>,
    },
    Sum {
        terms: Items<(i64, Var)>,
        bound: i64,
    },
    Body {
        lits: Items<Lit>,
    },
    Search,
    Other,
}

/// A sum variable: `var` is true exactly where the sum of the weights of the true variables among `terms` reaches `bound`.
#[derive(Debug, Drop)]
pub struct SumRow {
    pub var: Var,
    pub terms: Items<(i64, Var)>,
    pub bound: i64,
}

/// A body variable: `var` is true exactly where each literal of `lits` is.
#[derive(Debug, Drop)]
pub struct BodyRow {
    pub var: Var,
    pub lits: Items<Lit>,
}
