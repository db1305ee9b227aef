// What a solver keeps while its theory is lent.
use asp_engine::{Parts, Query};
use proof_log::Log;
use std::marker::Model;

/// What a solver keeps while its theory is lent: the log, which may be gone on with, and the rest: the store with its clauses and watches,
/// the order of the variables, and the open queries.
#[derive(Drop)]
pub struct Kept {
    pub log: Log,
    pub(crate) rest: Rest,
}

/// The rest of a solver without its theory and its log. Contracts see it as `RestView` of `specs/Lent.antt`.
#[derive(Drop)]
pub struct Rest {
    pub(crate) parts: Parts,
    pub(crate) queries: Vec<Query>,
    pub(crate) taken: u64,
}

impl Model for Rest {
    ghost use Rattle.asp_solver.specs.Lent.{RestView};

    ghost Value = { RestView };

    ghost view = { λ r. record { parts = r.parts; queries = r.queries.items; taken = r.taken } };
}
