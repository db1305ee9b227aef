// The sets to which no other is preferred.
ghost use Rattle.std.specs.Prelude.{◌≡◌, ℕ, Bool, List, map, IfOk, slice_get};
ghost use Rattle.std.specs.List.{list_any};
ghost use Rattle.std.specs.Option.{option_copied};
ghost use Rattle.ap_eval.specs.AtomSets.{has};
ghost use Rattle.small_optima.specs.Kept.{Kept};
ghost use Rattle.small_optima.specs.Marks.{marks_better, marks_part};
ghost use Rattle.small_optima.specs.Preferred.{optimised, optimised_of, preference_named, preferences_of, satisfies};
ghost use Rattle.small_optima.specs.Unbeaten.{IsUnbeatenIn, elements_of, marks_of};

use ap_syntax::Text;
use ap_syntax::small::{Element, Formula, Preference, Program, Statement};
use sqlite_items::Items;
use std::alloc::{AllocError, Global};

/// The name in the first `#optimize`.
fn optimize_name(p: &Program) -> Option<&Text>
    ensures { option_copied result ≡ slice_get (optimised_of p.now) 0 }
{
    for statement in p.statements.as_slice() {
        if let Statement::Optimize(name) = statement {
            return Some(name);
        }
    }
    None
}

/// The first preference statement of this name.
fn preference_of<'a>(p: &'a Program, name: &Text) -> Option<&'a Preference>
    ensures { option_copied result ≡ preference_named name.now (preferences_of p.now) }
{
    for statement in p.statements.as_slice() {
        if let Statement::Preference(preference) = statement {
            if preference.name == *name {
                return Some(preference);
            }
        }
    }
    None
}

/// The elements by which sets are compared: those of the preference statement that `#optimize` names, or none.
fn elements_to_compare(p: &Program) -> &[Element]
    ensures { result.now ≡ elements_of (optimised p.now) }
{
    let Some(name) = optimize_name(p) else {
        return &[];
    };
    match preference_of(p, name) {
        Some(preference) => preference.elements.as_slice(),
        None => &[],
    }
}

fn is_satisfied(element: &Element, set: &[Text]) -> bool
    ensures { result ≡ satisfies (has set.now) element.now }
{
    match &element.formula {
        Formula::Atom(atom) => set.contains(&atom.name),
    }
}

/// Which of the elements a set satisfies.
fn marks(alloc: Global, elements: &[Element], set: &[Text]) -> Result<Items<bool>, AllocError>
    ensures { IfOk result (λ marks. marks ≡ marks_of elements.now set.now) }
{
    let mut marks = Items::new(alloc);
    for element in elements {
        marks.push(is_satisfied(element, set))?;
    }
    Ok(marks)
}

/// Which of the elements each of the sets satisfies.
fn all_marks(
    alloc: Global,
    elements: &[Element],
    sets: &[Items<Text>],
) -> Result<Vec<Items<bool>>, AllocError>
    ensures { IfOk result (λ rows. rows.items ≡ map (marks_of elements.now) sets.now) }
{
    let mut rows = Vec::new(alloc);
    for set in sets {
        rows.push(marks(alloc, elements, set.as_slice())?)?;
    }
    Ok(rows)
}

/// Whether each element that is marked in `x` is marked in `y`.
fn is_part(x: &[bool], y: &[bool]) -> bool
    ensures { result ≡ marks_part x.now y.now }
{
    x.iter().zip(y).all(|(x, y)| !*x || *y)
}

fn is_better(x: &[bool], y: &[bool]) -> bool
    ensures { result ≡ marks_better x.now y.now }
{
    is_part(x, y) && !is_part(y, x)
}

/// Whether one of the rows is better than this one.
fn is_beaten(row: &[bool], rows: &[Items<bool>]) -> bool
    ensures { result ≡ list_any (λ (other : List Bool). marks_better other row.now) rows.now }
{
    rows.iter().any(|other| is_better(other.as_slice(), row))
}

/// Those of the sets to which none of them is preferred, in order.
pub fn unbeaten_sets(
    alloc: Global,
    p: &Program,
    sets: Vec<Items<Text>>,
) -> Result<Vec<Items<Text>>, AllocError>
    ensures { IfOk result
        (λ unbeaten. Kept (IsUnbeatenIn p.now sets.items) sets.items unbeaten.items) }
{
    let elements = elements_to_compare(p);
    let rows = all_marks(alloc, elements, sets.as_slice())?;
    let mut unbeaten = Vec::new(alloc);
    for set in sets {
        let row = marks(alloc, elements, set.as_slice())?;
        if !is_beaten(row.as_slice(), rows.as_slice()) {
            unbeaten.push(set)?;
        }
    }
    Ok(unbeaten)
}
