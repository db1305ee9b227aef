// Which atoms of a set can be derived, one after the other.
ghost use Rattle.std.specs.Prelude.{◌≡◌, ◌↔◌, ◌&&◌, not, length, position, IsTrue, IfOk};
ghost use Rattle.std.specs.List.{list_all, list_any, zip};
ghost use Rattle.std.specs.Str.{bytes_eq};
ghost use Rattle.ap_syntax.specs.declared.small.ChoiceElement.{ChoiceElement};
ghost use Rattle.ap_eval.specs.AtomSets.{AtomSet, IsSubset, has};
ghost use Rattle.ap_eval.specs.Reduct as spec;
ghost use Rattle.ap_eval.specs.Derivations as derivations;

use ap_syntax::Text;
use ap_syntax::small::{BodyItem, ChoiceElement, HeadForm, Literal, Statement};
use std::alloc::{AllocError, Global};

/// Whether an atom is at a marked place.
fn is_marked(x: &[Text], marks: &[bool], name: &Text) -> bool
    ensures { result ≡ derivations.marked x.now marks.now name.now }
{
    x.iter()
        .zip(marks)
        .any(|(atom, marked)| *marked && *atom == *name)
}

/// Whether a part of a body is true, an atom where it is marked.
fn item_by(x: &[Text], marks: &[bool], item: &BodyItem) -> bool
    ensures { result ≡ derivations.literal_by (has x.now) (derivations.marked x.now marks.now) (spec.literal_of item.now) }
{
    match item {
        BodyItem::Plain(Literal::Pos(atom)) => is_marked(x, marks, &atom.name),
        BodyItem::Plain(Literal::Not(atom)) => !x.contains(&atom.name),
    }
}

/// Whether a body is true, its positive literals where their atoms are marked.
fn body_by(x: &[Text], marks: &[bool], body: &[BodyItem]) -> bool
    ensures { result ≡ derivations.body_by (has x.now) (derivations.marked x.now marks.now) body.now }
{
    body.iter().all(|item| item_by(x, marks, item))
}

/// Whether a choice allows an atom.
fn allows(elements: &[ChoiceElement], name: &Text) -> bool
    ensures { result ≡ list_any (λ (element : ChoiceElement). bytes_eq element.atom.name name.now) elements.now }
{
    elements.iter().any(|element| element.atom.name == *name)
}

/// Whether a head is this atom, or a choice that allows it.
fn names(head: &HeadForm, name: &Text) -> bool
    ensures { result ≡ derivations.names name.now head.now }
{
    match head {
        HeadForm::One(atom) => atom.name == *name,
        HeadForm::Choice(elements) => allows(elements.as_slice(), name),
        HeadForm::Nothing => false,
    }
}

/// Whether a rule derives an atom from the marked ones.
fn derives(x: &[Text], marks: &[bool], statement: &Statement, name: &Text) -> bool
    ensures { result ≡ derivations.derives (has x.now) (derivations.marked x.now marks.now) name.now statement.now }
{
    match statement {
        Statement::Rule(rule) => names(&rule.head, name) && body_by(x, marks, rule.body.as_slice()),
        Statement::Preference(_) | Statement::Optimize(_) => false,
    }
}

/// Whether some rule derives an atom from the marked ones.
fn is_derivable(statements: &[Statement], x: &[Text], marks: &[bool], name: &Text) -> bool
    ensures { result ≡ derivations.is_derivable statements.now (has x.now) (derivations.marked x.now marks.now) name.now }
{
    statements
        .iter()
        .any(|statement| derives(x, marks, statement, name))
}

/// The first place that is not marked, and whose atom some rule derives from the marked ones.
fn next_derivable(statements: &[Statement], x: &[Text], marks: &[bool]) -> Option<usize>
    ensures { result ≡ position (λ place. not place.1 && derivations.is_derivable statements.now (has x.now) (derivations.marked x.now marks.now) place.0) (zip x.now marks.now) }
{
    x.iter().zip(marks).position(|(atom, marked)| !*marked
        && is_derivable(statements, x, marks, atom))
}

/// Marks one derivable place after the other, until there is no further one.
fn mark_derivable(statements: &[Statement], x: &[Text], marks: &mut [bool])
    requires { length marks.old ≡ length x.now }
    ensures closed { derivations.IsClosedWithin statements.now (has x.now) (derivations.marked x.now marks.new) }
    ensures least { (y : AtomSet) → derivations.IsClosedWithin statements.now (has x.now) y → IsSubset (derivations.marked x.now marks.old) y → IsSubset (derivations.marked x.now marks.new) y }
{
    while let Some(place) = next_derivable(statements, x, marks) {
        marks[place] = true;
    }
}

/// Whether every atom is at a marked place.
fn all_marked(x: &[Text], marks: &[bool]) -> bool
    ensures { result ≡ list_all (derivations.marked x.now marks.now) x.now }
{
    x.iter().all(|name| is_marked(x, marks, name))
}

/// Whether the atoms of a set can be derived one after the other, where negative literals are read in the whole set.
pub fn is_founded(alloc: Global, statements: &[Statement], x: &[Text]) -> Result<bool, AllocError>
    ensures { IfOk result (λ answer. IsTrue answer ↔ derivations.IsFounded statements.now (has x.now)) }
{
    let mut marks = vec![in alloc; false; x.len()]?;
    mark_derivable(statements, x, &mut marks);
    Ok(all_marked(x, &marks))
}
