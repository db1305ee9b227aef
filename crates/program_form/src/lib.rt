//! What the statements of a program are: its parts and their rules, and its preference statements. There is no code here.
#![tactic(auto)]
