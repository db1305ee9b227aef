//! The orders of preference statements are lawful.
//!
//! The functions of this crate do nothing. Each contract is a law over the definitions in `specs/` and those of `type_law`.
#![tactic(auto)]

ghost use Rattle.std.specs.Prelude.{◌≡◌, ◌⊎◌, ◌<◌, ℕ, Bool, List, Contains, IsTrue};
ghost use Rattle.ap_syntax.specs.declared.preferences.Preference.{Preference};
ghost use Rattle.ap_term.specs.Value.{Value};
ghost use Rattle.element_form.specs.Elements.{IsGrounded};
ghost use Rattle.element_form.specs.Facts.{IsFact};
ghost use Rattle.element_form.specs.Ground.{Statement};
ghost use Rattle.element_form.specs.Readings.{read_preference};
ghost use Rattle.element_form.specs.Shapes.{AreWellShaped};
ghost use Rattle.ground_form.specs.AnswerSets.{IsAnswerSet};
ghost use Rattle.ground_form.specs.Programs.{Parts};
ghost use Rattle.opt_core.specs.Optima.{IsOptimal};
ghost use Rattle.order_law.specs.Systems.{Satisfied, Relations, Declared, AreOrders, AreApart, AreBuiltIn, IsNamed, HasOrder, IsLawfulStatement, Prefers, asked_of};
ghost use Rattle.pref_kinds.specs.declared.built_in.BuiltIn.{BuiltIn};
ghost use Rattle.pref_kinds.specs.declared.built_in.BuiltIn.TheVariants.{And, Neg};
ghost use Rattle.pref_kinds.specs.Kinds.{text_of};
ghost use Rattle.pref_library.specs.Programs.{rules_of};
ghost use Rattle.rule_form.specs.AnswerSets.{IsAnswerSet as IsAnswerSetOf};
ghost use Rattle.rule_form.specs.Possible.{Setting, IsCertain};
ghost use Rattle.rule_form.specs.Truth.{AtomSet};
ghost use Rattle.type_law.specs.Takes.{Takes, Relates};

/// In each answer set of a statement's program, where what it may ask are the relations of the statements that it names, the
/// atoms `better`, `bettereq` and `eq` tell the relations of the statement.
pub fn modules_tell_relations()
    ensures { (statements : List Declared) (r : Relations) → AreOrders statements r → (d : Declared) → Contains statements d →
        Takes d.kind d.statement → (x y : Satisfied) (z : AtomSet) →
        IsAnswerSetOf (rules_of d.kind) (IsFact d.statement (asked_of r x y)) z →
        Relates d.statement z (IsTrue (r.better d.statement.name x y)) (IsTrue (r.bettereq d.statement.name x y))
        (IsTrue (r.eq d.statement.name x y)) }
{}

/// The order of a statement that reaches only statements of built-in types is lawful, and each answer set of a program is
/// optimal in it, or an optimal one is preferred to it. Such orders exist wherever the names of statements lead downwards.
pub fn orders_are_lawful()
    ensures lawful { (statements : List Declared) (r : Relations) → AreBuiltIn statements r → (d : Declared) →
        Contains statements d → IsLawfulStatement r d.statement.name }
    ensures optima { (statements : List Declared) (r : Relations) → AreBuiltIn statements r → (d : Declared) →
        Contains statements d → (g : Parts) (satisfied : (ℕ → Bool) → Satisfied) (x : ℕ → Bool) → IsAnswerSet g x →
        IsOptimal (IsAnswerSet g) (Prefers r d.statement.name satisfied) x ⊎
        ((y : ℕ → Bool) × IsOptimal (IsAnswerSet g) (Prefers r d.statement.name satisfied) y ×
        Prefers r d.statement.name satisfied y x) }
    ensures exist { (statements : List Declared) (level : Value → ℕ) → AreApart statements →
        ((d : Declared) → Contains statements d → IsNamed statements level d) → (r : Relations) × AreOrders statements r }
{}

/// Statements of `and` and `neg` that have the shape of their type name what their orders rest on.
pub fn shapes_give_names()
    ensures both { (setting : Setting) (p : Preference) (st : Statement) → p.kind ≡ text_of And → AreWellShaped p →
        IsGrounded (IsCertain setting) (read_preference p) st → HasOrder And st }
    ensures neg { (setting : Setting) (p : Preference) (st : Statement) → p.kind ≡ text_of Neg → AreWellShaped p →
        IsGrounded (IsCertain setting) (read_preference p) st → HasOrder Neg st }
{}
