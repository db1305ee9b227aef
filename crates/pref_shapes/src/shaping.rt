// The first element that does not have the shape of its statement's type.
ghost use Rattle.std.specs.Prelude.{◌≡◌, ◌≤◌, ◌<◌, ◌↔◌, ◌∷◌, Some, IsTrue};
ghost use Rattle.pref_kinds.specs.Kinds as kinds;
ghost use Rattle.pref_shapes.specs.Answers.{IsShapeAnswer};
ghost use Rattle.pref_shapes.specs.Forms.{IsGood, may_stand, needs_element};
ghost use Rattle.pref_shapes.specs.Shapes.{IsBadIn, IsFirstBad};

use crate::fault::ShapeFault;
use crate::forms::{has_form_of, is_plain};
use ap_syntax::{Element, Preference, Program, Statement};
use pref_kinds::{BuiltIn, kind_of};
use std::alloc::Global;

fn may_stand(kind: Option<BuiltIn>, place: usize) -> bool
    ensures { result ≡ may_stand kind place }
{
    match kind {
        Some(BuiltIn::Neg) => place == 1,
        _ => true,
    }
}

fn needs_element(kind: Option<BuiltIn>) -> bool
    ensures { result ≡ needs_element kind }
{
    matches!(kind, Some(BuiltIn::And | BuiltIn::Neg))
}

fn is_good(kind: Option<BuiltIn>, place: usize, element: &Element) -> bool
    ensures { IsTrue result ↔ IsGood kind place element.now }
{
    may_stand(kind, place) && is_plain(element) && has_form_of(kind, element)
}

/// The place of the first of the elements that is not good, if there is one. They are counted from 1.
fn first_bad(kind: Option<BuiltIn>, elements: &[Element]) -> Option<usize>
    ensures { IsFirstBad kind 1 elements.now result }
{
    for (index, element) in elements.iter().enumerate() {
        if !is_good(kind, index + 1, element) {
            return Some(index + 1);
        }
    }
    None
}

/// The place of what is bad in a statement, if something is.
fn bad_in(statement: &Preference) -> Option<usize>
    ensures { IsBadIn statement.now result }
{
    let kind = kind_of(statement.kind.as_str());
    let elements = statement.elements.as_slice();
    if elements.is_empty() {
        return if needs_element(kind) { Some(0) } else { None };
    }
    first_bad(kind, elements)
}

fn shapes_of(alloc: Global, statements: &[Statement]) -> Result<(), ShapeFault>
    ensures { IsShapeAnswer statements.now result }
{
    for statement in statements {
        let Statement::Preference(preference) = statement else {
            continue;
        };
        if let Some(place) = bad_in(preference) {
            let statement = preference.name.copy(alloc)?;
            return Err(ShapeFault::BadElement { statement, place });
        }
    }
    Ok(())
}

/// Looks for the first statement in the texts whose elements do not have the shape of its type.
///
/// The general shape, which every type asks for: a name `**q` stands as the only rank, with no `||` and no `:` part, and no
/// interval stands outside the `:` part. A type that users write asks for nothing else. Of the built-in types `subset`,
/// `superset`, `less(cardinality)` and `more(cardinality)` ask for one formula without `||`, `less(weight)` and `more(weight)`
/// for the same with at least one weight; `aso` for one or more formulas, `poset` for the same without `||`; `cp` for
/// `a >> not a` or `not a >> a` with the same atom; `pareto` for a name, `lexico` for a name with at least one weight, `and` and
/// `neg` for a name without weights. A statement of `and` has at least one element, and one of `neg` exactly one.
///
/// `BadElement` names the statement, and the place of its first element that is not of the shape. `Memory` comes where memory
/// ran out for the name.
pub fn shapes(alloc: Global, program: &Program) -> Result<(), ShapeFault>
    ensures { IsShapeAnswer program.now.statements result }
{
    shapes_of(alloc, program.statements.as_slice())
}
