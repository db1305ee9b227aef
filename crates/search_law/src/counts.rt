// The law of the number of models.
ghost use Rattle.std.specs.Prelude.{◌≡◌, ◌<◌, ◌≤◌, ◌^◌, ℕ, Bool, List, Option, Some, None, false, length, slice_index_or};
ghost use Rattle.std.specs.List.{All};
ghost use Rattle.theory_form.specs.declared.literals.Lit.{Lit};
ghost use Rattle.theory_form.specs.Truth.{IsFalseClause, IsSettled};
ghost use Rattle.search_law.specs.Closed.{IsTotal};
ghost use Rattle.search_law.specs.Counts.{HasAll, model_count};

/// How many total assignments make all clauses true.
///
/// * `most`: no more than there are assignments.
/// * `kept`: no more where clauses were added.
/// * `falls`: fewer, where no clause was unit or false under a total assignment, and one that was added is false under it.
pub fn models_fall()
    ensures most { (cs : List (Option (List Lit))) (n : ℕ) → model_count cs n ≤ 2 ^ n }
    ensures kept { (cs ds : List (Option (List Lit))) (n : ℕ) → HasAll cs ds → model_count ds n ≤ model_count cs n }
    ensures falls { (cs ds : List (Option (List Lit))) (a : List (Option Bool)) (id : ℕ) (c : List Lit) → HasAll cs ds → IsTotal a →
        ((k : ℕ) (d : List Lit) → slice_index_or cs k None ≡ Some d → All (λ l. (0 < l.var.0) × (l.var.0 < length a)) d × IsSettled a d) →
        slice_index_or ds id None ≡ Some c → IsFalseClause a c → model_count ds (length a) < model_count cs (length a) }
{}
