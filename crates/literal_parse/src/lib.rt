//! Reads terms, atoms, literals and conditions: from tokens to their trees, or the place of the fault.
#![tactic(auto)]

mod cursor;
mod error;
mod literals;
mod operand;
mod strings;
mod terms;

pub use cursor::{Cursor, Place};
pub use error::Stop;
pub use literals::{
    is_term_start, read_atom, read_condition, read_literals, read_optional_condition, relation,
};
pub use operand::Operand;
pub use strings::string;
pub use terms::{
    product_sign, read_arguments, read_primary, read_product, read_sum, read_term, read_terms,
    read_tuple, read_unary, sum_sign,
};
