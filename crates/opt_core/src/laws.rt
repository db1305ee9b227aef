// What permitted events come to, in any family of sets with any relation of preference.
ghost use Rattle.std.specs.Prelude.{◌≡◌, ℕ, Bool, true, List};
ghost use Rattle.opt_core.specs.declared.events.Event.{Event as Happening};
ghost use Rattle.opt_core.specs.States.{begin, printed_sets};
ghost use Rattle.opt_core.specs.Folds.{after_all};
ghost use Rattle.opt_core.specs.Optima.{AreOptimal, IsListing};
ghost use Rattle.opt_core.specs.Permitted.{ArePermitted, HoldsOf};

use std::marker::Brand;

/// A family of sets, with a relation of preference. Nothing is asked of either: the family may be infinite, and the
/// relation need not be an order.
pub trait Family {
    /// Whether a set, given by its test, is one of the family.
    ghost IsAnswer: { (ℕ → Bool) → Type 0 };

    /// Whether the first of two sets is preferred to the second.
    ghost IsPreferred: { (ℕ → Bool) → (ℕ → Bool) → Type 0 };
}

/// A stand-in for a family that a proof picks where it calls the law.
impl Family for Brand {
    ghost IsAnswer = { λ x. ⊥ };

    ghost IsPreferred = { λ x y. ⊥ };
}

/// What permitted events leave, in whatever order they come, for any number of chains. It does nothing: its contract
/// is a law.
///
/// * `holds`: each set that was met is printed, is passed, or is the set of an open chain; a passed set has a
///   preferred one in the family, and a printed set has none; no set is met or printed twice, and no two open chains
///   have the same set.
/// * `optima`: what is printed are optimal sets, each once.
/// * `listing`: where the search has ended, they are all of them.
pub fn events_print_the_optima<F: Family>()
    ensures holds { (chains : ℕ) (events : List Happening) →
        ArePermitted F.IsAnswer F.IsPreferred (begin chains) events →
        HoldsOf F.IsAnswer F.IsPreferred (after_all (begin chains) events) }
    ensures optima { (chains : ℕ) (events : List Happening) →
        ArePermitted F.IsAnswer F.IsPreferred (begin chains) events →
        AreOptimal F.IsAnswer F.IsPreferred (printed_sets (after_all (begin chains) events)) }
    ensures listing { (chains : ℕ) (events : List Happening) →
        ArePermitted F.IsAnswer F.IsPreferred (begin chains) events →
        (after_all (begin chains) events).ended ≡ true →
        IsListing F.IsAnswer F.IsPreferred (printed_sets (after_all (begin chains) events)) }
{}
