//! What the models of a theory say: of the theory of a ground program, that its atoms are an answer set, and of a program
//! that stands behind a theory, that its atoms are an answer set with the joined facts; and what stays so where a theory
//! grows.
//!
//! The functions of this crate do nothing. Their contracts are laws over the definitions of `ground_form`, `theory_model`
//! and `theory_build`.
#![tactic(auto)]

mod base;
mod behind;
mod exclusion;
mod growth;

pub use base::models_are_answer_sets;
pub use behind::{
    acyclic_programs_follow, acyclic_programs_have_one_answer_set, programs_behind_are_answer_sets,
    programs_can_stand_behind,
};
pub use exclusion::exclusions_mean;
pub use growth::{
    loop_clauses_are_one, plain_variables_mean, search_guards_stay, theories_begin, theories_stand,
};
