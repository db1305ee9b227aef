//! Matching of patterns with values of a table.
ghost use Rattle.std.specs.Prelude.{◌≡◌, ◌<◌, ◌↔◌, [], ◌∷◌, length, All, IsTrue};
ghost use Rattle.std.specs.List.{flat_map};
ghost use Rattle.ap_term.specs.Table.{IsIdOf, value_at};
ghost use Rattle.join_form.specs.Bindings.{IsBindingOf};
ghost use Rattle.join_form.specs.Patterns.{IsPatternOf, pattern_value, pattern_values, places_of};
ghost use Rattle.join_search.specs.Matches.{IsMatch};
ghost use Rattle.join_search.specs.Matches.{values_of};

use ap_term::{Shape, TermId, Terms};
use join_form::Pattern;

/// Matches a pattern with a value, given by its id. Places that have a value are tested, and the others get theirs.
///
/// The assignments of values to places that fit the binding and give the pattern this value are exactly those that fit the binding
/// afterwards, and there are none where the answer is `false`. What was bound stays as it is. On a `false` some of the pattern's
/// places may have been bound: whoever goes on clears those that were free before. It takes no memory.
///
/// The pattern is over the places of the binding, and all ids are those of the table.
#[cycle(matching)]
pub fn match_pattern(
    terms: &Terms,
    pattern: &Pattern,
    id: TermId,
    binding: &mut [Option<TermId>],
) -> bool
    requires pattern { IsPatternOf terms.now (length binding.old) pattern.now }
    requires id { IsIdOf terms.now id }
    requires binding { IsBindingOf terms.now binding.old }
    ensures { IsMatch terms.now (λ a. pattern_value terms.now a pattern.now ≡ value_at terms.now id) (places_of pattern.now) binding.old binding.new result }
{
    match pattern {
        Pattern::Place(place) => bind(terms, *place, id, binding),
        Pattern::Known(known) => is_same(terms, *known, id),
        Pattern::Compound(name, parts) => {
            let Shape::Fun(other, ids) = terms.shape(id) else {
                return false;
            };
            name == other && match_patterns(terms, parts.as_slice(), ids.as_slice(), binding)
        }
    }
}

/// Matches a list of patterns with a list of values, as `match_pattern` does one by one. Lists of two lengths do not match.
#[cycle(matching)]
pub fn match_patterns(
    terms: &Terms,
    patterns: &[Pattern],
    row: &[TermId],
    binding: &mut [Option<TermId>],
) -> bool
    requires patterns { All (IsPatternOf terms.now (length binding.old)) patterns.now }
    requires row { All (IsIdOf terms.now) row.now }
    requires binding { IsBindingOf terms.now binding.old }
    ensures { IsMatch terms.now (λ a. pattern_values terms.now a patterns.now ≡ values_of terms.now row.now) (flat_map places_of patterns.now) binding.old binding.new result }
{
    if patterns.len() != row.len() {
        return false;
    }
    for (pattern, id) in patterns.iter().zip(row) {
        if !match_pattern(terms, pattern, *id, binding) {
            return false;
        }
    }
    true
}

/// Gives the place this value, or tests it where it has one. It answers as a match with the pattern that is this place.
pub fn bind(terms: &Terms, place: u32, id: TermId, binding: &mut [Option<TermId>]) -> bool
    requires place { place < length binding.old }
    requires id { IsIdOf terms.now id }
    requires binding { IsBindingOf terms.now binding.old }
    ensures { IsMatch terms.now (λ a. a place ≡ value_at terms.now id) (place ∷ []) binding.old binding.new result }
{
    match binding[place as usize] {
        Some(known) => is_same(terms, known, id),
        None => {
            binding[place as usize] = Some(id);
            true
        }
    }
}

// Whether two ids have one value.
fn is_same(terms: &Terms, a: TermId, b: TermId) -> bool
    requires a { IsIdOf terms.now a }
    requires b { IsIdOf terms.now b }
    ensures { IsTrue result ↔ (value_at terms.now a ≡ value_at terms.now b) }
{
    let _ = terms.len(); // a table has one number for each value
    a == b
}
