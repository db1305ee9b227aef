// The law of few clauses.
ghost use Rattle.std.specs.Prelude.{◌≤◌, ◌^◌, ℕ, List, length};
ghost use Rattle.std.specs.List.{All};
ghost use Rattle.theory_form.specs.declared.literals.Lit.{Lit};
ghost use Rattle.search_law.specs.Few.{AreDifferent, IsPlainClause};

/// Of clauses over the first n variables, each without repeats and without a literal beside its opposite, no more than 3^n are
/// different: each variable is absent, positive or negative in one.
pub fn plain_clauses_are_few()
    ensures { (n : ℕ) (cs : List (List Lit)) → All (IsPlainClause n) cs → AreDifferent cs → length cs ≤ 3 ^ n }
{}
