//! Comparisons of values.
ghost use Rattle.std.specs.Prelude.{◌≡◌};
ghost use Rattle.ap_term.specs.Table.{IsIdOf, value_at};
ghost use Rattle.join_form.specs.Steps.{compares};

use ap_term::{TermId, Terms};
use join_form::Comparison;

/// Whether two values stand in this order. It takes no memory.
pub fn compare(terms: &Terms, left: TermId, order: Comparison, right: TermId) -> bool
    requires left { IsIdOf terms.now left }
    requires right { IsIdOf terms.now right }
    ensures { result ≡ compares order (value_at terms.now left) (value_at terms.now right) }
{
    let found = terms.compare(left, right);
    match order {
        Comparison::Eq => found.is_eq(),
        Comparison::Ne => found.is_ne(),
        Comparison::Lt => found.is_lt(),
        Comparison::Le => found.is_le(),
        Comparison::Gt => found.is_gt(),
        Comparison::Ge => found.is_ge(),
    }
}
