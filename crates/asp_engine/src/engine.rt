// The parts of an engine.
ghost use Rattle.std.specs.Prelude.{◌≡◌, []};

use crate::pool::Pool;
use asp_branching::{Branching, Restarts};
use asp_store::Store;
use loop_nogoods::Tables;
use proof_log::Log;
use std::alloc::Global;
use theory_form::{ClauseId, Marks, Theory};

/// A store of clauses, with the theory and the log whose kept clauses it has.
///
/// Contracts say of it that it is an engine (`IsEngine` of `specs/Keys.antt`), and what became of it (`Went` of
/// `specs/Moves.antt`).
#[derive(Drop)]
pub struct Engine {
    pub theory: Theory,
    pub log: Log,
    pub parts: Parts,
}

/// What an engine has beside its theory and its log.
#[derive(Drop)]
pub struct Parts {
    pub alloc: Global,
    pub store: Store,
    /// The number of the clause of each key.
    pub numbers: Vec<ClauseId>,
    /// A first period of a query ends when so many clauses were learned in it.
    pub span: u64,
    /// So many clauses of loops and sums may still be added while the assignment is not total.
    pub eager: u64,
    pub marks: Marks,
    pub tables: Tables,
    pub branching: Branching,
    pub restarts: Restarts,
    pub(crate) pool: Pool,
}

impl Parts {
    /// The parts before any clause was taken in. It takes no memory.
    pub fn new(alloc: Global, span: u64) -> Self
        ensures store { result.store ≡ record { clauses = []; entries = []; places = 0; next_key = 0 } }
        ensures numbers { result.numbers.items ≡ [] }
        ensures marks { result.marks ≡ [] }
        ensures span { result.span ≡ span }
    {
        Parts {
            alloc,
            store: Store::new(alloc),
            numbers: Vec::new(alloc),
            span,
            eager: 0,
            marks: Marks::new(alloc),
            tables: Tables::new(alloc),
            branching: Branching::new(alloc),
            restarts: Restarts::new(),
            pool: Pool::new(alloc),
        }
    }
}
