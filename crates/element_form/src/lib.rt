//! Elements of preference statements: what they are, and the types that keep them.
//!
//! The functions of `laws` do nothing. Each contract there is a law over the definitions in `specs/`.
#![tactic(auto)]

mod ground;
mod laws;
mod spec;

pub use ground::{
    FormulaId, GroundElement, GroundFormula, GroundName, GroundRank, GroundStatement, StmtId,
};
pub use laws::{
    closures_have_tests, elements_have_keys, sets_have_one_state, tables_tell_truth, walks_find_all,
};
pub use spec::Spec;
