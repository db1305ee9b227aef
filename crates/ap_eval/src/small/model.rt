// Whether a set of atoms satisfies every rule.
ghost use Rattle.std.specs.Prelude.{◌≡◌};
ghost use Rattle.std.specs.List.{list_all};
ghost use Rattle.ap_eval.specs.AtomSets.{has};
ghost use Rattle.ap_eval.specs.Reduct as spec;
ghost use Rattle.ap_eval.specs.Derivations as derivations;

use ap_syntax::Text;
use ap_syntax::small::{BodyItem, HeadForm, Literal, Statement};

/// Whether a part of a body is true.
fn item_true(x: &[Text], item: &BodyItem) -> bool
    ensures { result ≡ spec.literal_true (has x.now) (spec.literal_of item.now) }
{
    match item {
        BodyItem::Plain(Literal::Pos(atom)) => x.contains(&atom.name),
        BodyItem::Plain(Literal::Not(atom)) => !x.contains(&atom.name),
    }
}

/// Whether a body is true.
fn body_true(x: &[Text], body: &[BodyItem]) -> bool
    ensures { result ≡ list_all (λ item. spec.literal_true (has x.now) (spec.literal_of item)) body.now }
{
    body.iter().all(|item| item_true(x, item))
}

/// Whether a head has what it asks for: its atom. A choice asks for nothing, and a constraint for what cannot be.
fn has_head(x: &[Text], head: &HeadForm) -> bool
    ensures { result ≡ derivations.has_head (has x.now) head.now }
{
    match head {
        HeadForm::One(atom) => x.contains(&atom.name),
        HeadForm::Choice(_) => true,
        HeadForm::Nothing => false,
    }
}

/// Whether a rule's head has what it asks for, or its body is false.
fn is_satisfied(x: &[Text], statement: &Statement) -> bool
    ensures { result ≡ derivations.is_satisfied (has x.now) statement.now }
{
    match statement {
        Statement::Rule(rule) => has_head(x, &rule.head) || !body_true(x, rule.body.as_slice()),
        Statement::Preference(_) | Statement::Optimize(_) => true,
    }
}

/// Whether every rule is satisfied.
pub fn is_model(statements: &[Statement], x: &[Text]) -> bool
    ensures { result ≡ list_all (derivations.is_satisfied (has x.now)) statements.now }
{
    statements
        .iter()
        .all(|statement| is_satisfied(x, statement))
}
