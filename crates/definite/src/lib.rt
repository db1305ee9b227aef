//! The least set of atoms that is closed under rules without negation, found in a time that is linear in their size.
#![tactic(auto)]

ghost use Rattle.std.specs.Prelude.{◌<◌, ◌↔◌, All, IsTrue, IfOk};
ghost use Rattle.definite.specs.Rules.{IsDerived, IsRuleOf};

mod search;
#[cfg(test)]
mod tests;

use crate::search::search;
use sqlite_items::Items;
use std::alloc::{AllocError, Global};

/// A rule without negation: each of its heads follows from the atoms of its body together. An atom is a number, counted
/// from 0.
#[derive(Debug, Drop)]
pub struct Rule {
    pub body: Items<usize>,
    pub heads: Items<usize>,
}

/// A set of atoms that were derived from rules.
#[derive(Debug, Drop)]
pub struct Derived {
    /// For each atom, by its number, whether it is in the set.
    pub marks: Items<bool>,
    /// The atoms of the set, each once and behind those that it was derived from.
    pub order: Items<usize>,
}

fn are_below(atoms: usize, list: &[usize]) -> bool
    ensures { IsTrue result ↔ All (λ a. a < atoms) list.now }
{
    list.iter().all(|atom| *atom < atoms)
}

fn is_rule_of(atoms: usize, rule: &Rule) -> bool
    ensures { IsTrue result ↔ IsRuleOf atoms rule.now }
{
    are_below(atoms, rule.body.as_slice()) && are_below(atoms, rule.heads.as_slice())
}

/// Whether all atoms of the rules are below `atoms`.
pub fn are_rules_of(atoms: usize, rules: &[Rule]) -> bool
    ensures { IsTrue result ↔ All (IsRuleOf atoms) rules.now }
{
    for rule in rules {
        if !is_rule_of(atoms, rule) {
            return false;
        }
    }
    true
}

/// The least set of atoms that is closed under the rules (Dowling and Gallier, "Linear-time algorithms for testing the
/// satisfiability of propositional Horn formulae", 1984). The atoms of the rules have to be below `atoms`: `are_rules_of` tells
/// whether they are. Its one error is want of memory. It looks at each place of a body and of a list of heads once.
pub fn least(alloc: Global, rules: &[Rule], atoms: usize) -> Result<Derived, AllocError>
    requires { All (IsRuleOf atoms) rules.now }
    ensures { IfOk result (IsDerived rules.now atoms) }
{
    search(alloc, rules, atoms)
}
