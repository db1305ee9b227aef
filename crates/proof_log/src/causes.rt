// Causes.

/// Why a step is not valid: the cause of the first of its conditions that fails. The last three are causes of a line of a
/// certificate, and of no step.
///
/// * `Set`: it names a set that is none of those found, or finds one that is no answer set.
/// * `Again`: the set was there before.
/// * `Copy`: there is nothing to optimise, or the copy was there before.
/// * `Preferred`: the one set is not preferred to the other.
/// * `Clause`: it names a clause that is not there.
/// * `Hint`: the clause does not follow by its hints.
/// * `Loop`: its variables are not different atoms of one program.
/// * `Sum`: the row of its variable does not imply the clause.
/// * `Optimal`: the clause does not show that the set is optimal.
/// * `Complete`: the clause does not end the search, or a set is neither passed nor listed.
/// * `Header`: the first line is not that of a certificate.
/// * `Line`: the bytes are no line, or name a variable that is not there.
/// * `After`: a line stands after the last one.
#[derive(Clone, Copy, PartialEq, Eq, Debug)]
pub enum Cause {
    Set,
    Again,
    Copy,
    Preferred,
    Clause,
    Hint,
    Loop,
    Sum,
    Optimal,
    Complete,
    Header,
    Line,
    After,
}
