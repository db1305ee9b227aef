// A program that meets its static conditions.
use pred_graph::Safe;
use pref_bind::Stack;
use program_parts::Parts;
use sqlite_items::Items;

/// A program that meets its static conditions, taken apart, and what is known of it.
#[derive(Drop)]
pub struct Checked {
    /// What its preference statements name, and which is optimised.
    pub stack: Stack,
    /// Its parts.
    pub parts: Parts,
    /// What is known of the rules of the base, and behind it what is known of those of each type, in their order.
    pub safes: Items<Safe>,
}
