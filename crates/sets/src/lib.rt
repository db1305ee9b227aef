//! The words for sets, and for lists that stand for sets or are counted from 1, with what is known of them. The crate has
//! definitions and lemmas, and no code.
#![tactic(auto)]
