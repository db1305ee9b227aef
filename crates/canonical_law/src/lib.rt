//! The canonical text of a program reads back as that program.
#![tactic(auto)]

mod law;

pub use law::canonical_text_reads_back;
