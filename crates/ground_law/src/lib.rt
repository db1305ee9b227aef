//! The ground program of rules with variables, and that it has their answer sets.
//!
//! The functions of this crate do nothing. Each contract is a law over the definitions in `specs/` and those of `rule_form`
//! and `ground_form`.
#![tactic(auto)]

ghost use Rattle.std.specs.Prelude.{◌≡◌, ◌↔◌, ℕ, Bool, List, map, All, IsTrue};
ghost use Rattle.ap_pieces.specs.Bound.{IsAllBound};
ghost use Rattle.ap_pieces.specs.Pieces.{rule_source};
ghost use Rattle.ap_pieces.specs.declared.pieces.Signature.{Signature};
ghost use Rattle.ap_syntax.specs.declared.rules.Rule.{Rule};
ghost use Rattle.ap_term.specs.Table.{IsIdOf, HasDistinctValues, value_at};
ghost use Rattle.ap_term.specs.Value.{Value};
ghost use Rattle.ground_form.specs.AnswerSets.{IsAnswerSetWith};
ghost use Rattle.ground_form.specs.Programs.{Parts};
ghost use Rattle.ground_form.specs.Ranges.{IsInRange};
ghost use Rattle.ground_law.specs.Ground.{IsGrounding};
ghost use Rattle.ground_law.specs.Facts.{AreFactNumbers, IsGiven, IsSetOf};
ghost use Rattle.ground_law.specs.Numbers.{numbers, atoms_at};
ghost use Rattle.ground_law.specs.Program.{IsGroundProgram};
ghost use Rattle.ground_law.specs.Quantities.{IsPair, HasSmallWeights};
ghost use Rattle.ground_law.specs.Settings.{setting_of, is_among, AreConditionsDefinite, AreInputsOpen};
ghost use Rattle.pred_graph.specs.Components.{IsOrderOf, TellsDefinite};
ghost use Rattle.pred_graph.specs.declared.pred.Pred.{Pred};
ghost use Rattle.rule_form.specs.Predicates.{predicate_of};
ghost use Rattle.rule_form.specs.Arguments.{IsShown};
ghost use Rattle.rule_form.specs.Readings.{read_rule};
ghost use Rattle.rule_form.specs.AnswerSets.{IsAnswerSet};
ghost use Rattle.rule_form.specs.Assigned.{IsAnswerSetBy};
ghost use Rattle.rule_form.specs.Counts.{MoreThan};
ghost use Rattle.rule_form.specs.Instances.{Instance};
ghost use Rattle.rule_form.specs.Possible.{Setting, IsCertain};
ghost use Rattle.rule_form.specs.Static.{AreStatic};
ghost use Rattle.rule_form.specs.Trees.{Aggregate};
ghost use Rattle.rule_form.specs.Truth.{AtomSet};

/// The answer sets of the ground program, for every set of facts among its atoms, are those of the rules with these facts and
/// the certain atoms (Gelfond and Lifschitz 1988; Gebser, Kaminski, Kaufmann and Schaub 2012).
///
/// * `same`: where assignment aggregates are read in the certain atoms. Such an aggregate is over definite predicates.
/// * `in_the_set`: where each aggregate is read in the set that is asked about.
/// * `of_atoms`: each answer set of the ground program is one of atoms, so a set and its numbers give each other.
pub fn grounding_keeps_answers()
    ensures same { (setting : Setting) (assigned : Aggregate → Bool) (definite : AtomSet) (g : Parts) (atoms : List Value)
        (found : List (Instance × ℕ)) (facts : ℕ → Bool) → ((a : Aggregate) → IsTrue (assigned a) → IsTrue (setting.evaluated a)) →
        AreStatic setting (λ b. IsTrue (definite b)) → IsGrounding setting g atoms found → AreFactNumbers atoms facts →
        (x : AtomSet) → IsAnswerSetBy assigned (IsCertain setting) setting.rules (IsGiven setting atoms facts) x ↔
        (IsSetOf atoms x × IsAnswerSetWith g facts (numbers atoms x)) }
    ensures in_the_set { (setting : Setting) (definite : AtomSet) (g : Parts) (atoms : List Value)
        (found : List (Instance × ℕ)) (facts : ℕ → Bool) →
        AreStatic setting (λ b. IsTrue (definite b)) → IsGrounding setting g atoms found → AreFactNumbers atoms facts →
        (x : AtomSet) → IsAnswerSet setting.rules (IsGiven setting atoms facts) x ↔
        (IsSetOf atoms x × IsAnswerSetWith g facts (numbers atoms x)) }
    ensures of_atoms { (setting : Setting) (definite : AtomSet) (g : Parts) (atoms : List Value)
        (found : List (Instance × ℕ)) (facts z : ℕ → Bool) →
        AreStatic setting (λ b. IsTrue (definite b)) → IsGrounding setting g atoms found → AreFactNumbers atoms facts →
        IsAnswerSetWith g facts z → (k : ℕ) → numbers atoms (atoms_at atoms z) k ≡ z k }
{}

/// There is one ground program of a setting over a table of values: two that meet the definition are equal.
pub fn one_ground_program()
    ensures { (table : List Value) (setting : Setting) (g h : Parts) → HasDistinctValues table → All (IsIdOf table) g.atoms →
        All (IsIdOf table) h.atoms → IsGroundProgram table setting g → IsGroundProgram table setting h → g ≡ h }
{}

/// The numbers of the ground program are in range, where it has at most 1,000,000 pairs of a tuple and a condition and each
/// tuple adds an integer of the values' range to its sum.
pub fn ground_program_is_in_range()
    ensures { (table : List Value) (setting : Setting) (assigned : Aggregate → Bool) (g : Parts) →
        ((a : Aggregate) → IsTrue (assigned a) → IsTrue (setting.evaluated a)) → IsGroundProgram table setting g →
        (MoreThan 1000000 (IsPair setting assigned (map (value_at table) g.atoms)) → ⊥) → HasSmallWeights g → IsInRange g }
{}

/// The setting of a grounder's arguments meets what the other laws ask of static conditions, where numbers and definite
/// predicates are those of the rules, conditions of conditional literals have definite predicates alone and no input has one.
pub fn setting_is_static()
    ensures { (rules : List Rule) (number : Pred → ℕ) (base : Bool) (definite : Pred → Bool) (certain inputs : List Value) →
        IsOrderOf rules number → TellsDefinite rules base definite → AreConditionsDefinite rules definite →
        AreInputsOpen definite inputs →
        AreStatic (setting_of rules number definite certain inputs) (λ a. IsTrue (is_among definite (predicate_of a))) }
{}

/// Where all variables of a rule are bound, each global variable shows its value in an instance: so an instance is given by
/// the values of its terms. It holds for any test of which predicates are definite.
pub fn bound_variables_are_shown()
    ensures { (definite : Signature → Bool) (rule : Rule) → IsAllBound definite (rule_source rule) → IsShown (read_rule rule) }
{}
