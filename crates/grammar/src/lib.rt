//! Grammars as data, and what reading by one token of foresight says of them. The crate has definitions and laws, and no
//! code: a reader cites them.
#![tactic(auto)]
