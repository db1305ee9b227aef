// What is accepted.
use crate::shown::Shown;
use ap_syntax::small::Program;

/// A program that is accepted, and which of its atoms are shown.
#[derive(Drop)]
pub struct Accepted {
    /// The program.
    pub program: Program,
    /// Which of its atoms are shown.
    pub shown: Shown,
}
