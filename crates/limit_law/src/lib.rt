//! The limit of formulas, which a scan of the tokens finds, is one of the formulas' trees.
#![tactic(auto)]

mod law;

pub use law::{
    depth_of_a_formula, limit_in_a_formula, limit_in_a_text, limit_of_a_formula, limit_of_a_text,
    place_of_a_limit, place_of_the_first_limit,
};
