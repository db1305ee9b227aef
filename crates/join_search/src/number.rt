//! Integers among the values.
ghost use Rattle.std.specs.Prelude.{length};
ghost use Rattle.ap_term.specs.Table.{IsIdOf, value_at};
ghost use Rattle.join_form.specs.Bindings.{is_bound, Fits, IsBindingOf};
ghost use Rattle.join_form.specs.Patterns.{Assignment, IsPatternOf, pattern_value};
ghost use Rattle.join_form.specs.Ready.{IsBound};
ghost use Rattle.join_search.specs.Matches.{IsNumberOf};

use ap_term::{Shape, TermId, Terms};
use join_form::Pattern;

/// The integer that a value is, from -2147483647 to 2147483647; `None` exactly where it is none.
pub fn number_at(terms: &Terms, id: TermId) -> Option<i64>
    requires { IsIdOf terms.now id }
    ensures { IsNumberOf (value_at terms.now id) result }
{
    match terms.shape(id) {
        Shape::Int(number) => Some(*number),
        _ => None,
    }
}

/// The integer that the value of a pattern is under every assignment that fits the binding; `None` exactly where it is none. It takes
/// no memory. The pattern is over the places of the binding, its places are bound, and all ids are those of the table.
pub fn number_of(terms: &Terms, pattern: &Pattern, binding: &[Option<TermId>]) -> Option<i64>
    requires pattern { IsPatternOf terms.now (length binding.now) pattern.now }
    requires binding { IsBindingOf terms.now binding.now }
    requires bound { IsBound (is_bound binding.now) pattern.now }
    ensures { (a : Assignment) → Fits terms.now a binding.now → IsNumberOf (pattern_value terms.now a pattern.now) result }
{
    match pattern {
        Pattern::Place(place) => number_at(terms, binding[*place as usize]?),
        Pattern::Known(id) => number_at(terms, *id),
        Pattern::Compound(..) => None,
    }
}
