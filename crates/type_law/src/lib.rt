//! The programs of the built-in preference types mean their orders.
//!
//! The functions of this crate do nothing. Each contract is a law over the definitions in `specs/` and those of `element_form`,
//! `pref_library` and `rule_form`.
#![tactic(auto)]

ghost use Rattle.std.specs.Prelude.{◌≡◌, Contains};
ghost use Rattle.element_form.specs.Elements.{IsGrounded};
ghost use Rattle.element_form.specs.Facts.{Asked, IsFact};
ghost use Rattle.element_form.specs.Ground.{Statement};
ghost use Rattle.element_form.specs.Preferences.{Element};
ghost use Rattle.element_form.specs.Readings.{read_preference};
ghost use Rattle.element_form.specs.Safety.{IsNamed};
ghost use Rattle.element_form.specs.Shapes.{AreWellShaped};
ghost use Rattle.ap_syntax.specs.declared.preferences.Preference.{Preference};
ghost use Rattle.ap_term.specs.Value.{Value};
ghost use Rattle.pref_kinds.specs.declared.built_in.BuiltIn.{BuiltIn};
ghost use Rattle.pref_kinds.specs.Kinds.{text_of};
ghost use Rattle.pref_library.specs.Programs.{rules_of};
ghost use Rattle.rule_form.specs.AnswerSets.{IsAnswerSet};
ghost use Rattle.rule_form.specs.Possible.{Setting, IsCertain};
ghost use Rattle.rule_form.specs.Truth.{AtomSet};
ghost use Rattle.type_law.specs.Orders.{Better, Bettereq, Eq};
ghost use Rattle.type_law.specs.Takes.{Takes, Relates};

/// In each answer set of a type's program with the facts of a statement and what it may ask, the atoms `better`, `bettereq`
/// and `eq` of the statement are there exactly where the order of the type has them.
pub fn programs_mean_orders()
    ensures { (kind : BuiltIn) (st : Statement) → Takes kind st → (asked : Asked) (z : AtomSet) →
        IsAnswerSet (rules_of kind) (IsFact st asked) z →
        Relates st z (Better kind st asked) (Bettereq kind st asked) (Eq kind st asked) }
{}

/// What a program takes for granted is so of each statement of the shape of its type that has no `_` outside its `:` parts.
pub fn shapes_fit_programs()
    ensures { (setting : Setting) (p : Preference) (st : Statement) (kind : BuiltIn) → p.kind ≡ text_of kind → AreWellShaped p →
        ((e : Element) → Contains (read_preference p).elements e → IsNamed e) →
        IsGrounded (IsCertain setting) (read_preference p) st → Takes kind st }
{}

/// A type's program has at most one answer set with the facts of a statement and what it may ask.
pub fn programs_have_one_answer_set()
    ensures { (kind : BuiltIn) (st : Statement) (asked : Asked) (x y : AtomSet) → IsAnswerSet (rules_of kind) (IsFact st asked) x →
        IsAnswerSet (rules_of kind) (IsFact st asked) y → (a : Value) → x a ≡ y a }
{}
