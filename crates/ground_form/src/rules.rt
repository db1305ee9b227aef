//! The rules of a ground program.
use crate::atoms::AtomId;
use crate::bodies::BodyId;

/// What a rule derives where its body is true.
#[derive(Clone, Copy, Debug, PartialEq, Eq)]
pub enum Head {
    /// This atom.
    One(AtomId),
    /// This atom or nothing: a choice leaves it open.
    Choice(AtomId),
    /// Nothing. The rule is a constraint: its body must not be true.
    Nothing,
}

/// A rule: its head, and the number of its body.
#[derive(Clone, Copy, Debug, PartialEq, Eq)]
pub struct GroundRule {
    pub head: Head,
    pub body: BodyId,
}
