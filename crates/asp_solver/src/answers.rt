// What a solver answers.
use ground_form::AtomSet;
use theory_form::ClauseId;

/// What a query answers.
///
/// * `Found`: the atoms of the base that are true in a model of the theory that makes every assumption true. They are an answer set of the
///   base.
/// * `Refuted`: the clause of this number, of the theory or of the log, is kept and holds negated assumptions alone. So there is no such
///   model.
/// * `Spent`: the budget is used up, and no kept clause is so.
/// * `Memory`: memory ran out.
#[derive(Drop)]
pub enum Answer {
    Found(AtomSet),
    Refuted(ClauseId),
    Spent,
    Memory,
}

/// What a turn of a query answers: as a query, and
///
/// * `Again`: the quota of the turn is used up, and no kept clause holds negated assumptions alone.
#[derive(Drop)]
pub enum Turn {
    Found(AtomSet),
    Refuted(ClauseId),
    Spent,
    Again,
    Memory,
}
