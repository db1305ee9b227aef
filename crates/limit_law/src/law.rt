// The laws.
ghost use Rattle.std.specs.Prelude.{◌≡◌, ◌≢◌, ◌<◌, ◌≤◌, Bool, IfSome, List, None, Ok, Some, [], drop, false, length, take, true, ℕ, ◌+◌, ◌++◌, ◌∷◌};
ghost use Rattle.std.specs.List.{list_all};
ghost use Rattle.grammar.specs.Fault.{IsText};
ghost use Rattle.ap_grammar.specs.Grammar.{Name, grammar};
ghost use Rattle.ap_grammar.specs.Lexemes.{Lexeme};
ghost use Rattle.ap_grammar.specs.Values.Value.{program};
ghost use Rattle.ap_lexemes.specs.Limits.{Levels, depth_of, first_limit, formula_limit, next_role, no_levels, role_of};
ghost use Rattle.ap_lexemes.specs.Texts.{IsOutcome};
ghost use Rattle.ap_lexemes.specs.declared.limit.Limit.TheVariants as limits;
ghost use Rattle.ap_lexemes.specs.declared.limit.LimitAt.{LimitAt};
ghost use Rattle.ap_lexemes.specs.declared.role.Role.{Role};
ghost use Rattle.ap_lexemes.specs.declared.role.Role.TheVariants as roles;
ghost use Rattle.ap_syntax.specs.declared.preferences.Formula.{Formula};
ghost use Rattle.ap_syntax.specs.declared.programs.Statement.{Statement};
ghost use Rattle.limit_law.specs.Depths.{capped, depth, scan};
ghost use Rattle.limit_law.specs.Inside.{DeepBefore, GoOnAlike, IsUpTo, StandsBefore};
ghost use Rattle.limit_law.specs.Programs.{formulas_of, is_in_bounds};
ghost use Rattle.limit_law.specs.Stands.{IsConjunction, IsFormula, Stands};

/// The scan of a formula's tokens comes to the depth of the formula's tree, up to 65.
pub fn depth_of_a_formula()
    ensures depth { (s : Levels) (read rest : List Lexeme) (f : Formula)
        → IsFormula s read rest f
        → depth_of (scan s read).level ≡ capped (depth f) }
    // The parentheses of the formula are closed, and its commas are none of the level's.
    ensures outer { (s : Levels) (read rest : List Lexeme) (f : Formula)
        → IsFormula s read rest f
        → (scan s read).outer ≡ s.outer }
    ensures commas { (s : Levels) (read rest : List Lexeme) (f : Formula)
        → IsFormula s read rest f
        → (scan s read).level.commas ≡ s.level.commas }
{}

/// Where a formula ends and no `&` follows, what the scan has come to is beyond the limit exactly if the depth of its
/// tree is more than 64.
pub fn limit_of_a_formula()
    ensures deep { (s : Levels) (read rest : List Lexeme) (f : Formula) (next : Role)
        → IsFormula s read rest f
        → next ≢ roles.And
        → 64 < depth f
        → formula_limit (scan s read).level next ≡ Some limits.Formula }
    ensures within { (s : Levels) (read rest : List Lexeme) (f : Formula) (next : Role)
        → IsFormula s read rest f
        → depth f ≤ 64
        → formula_limit (scan s read).level next ≡ None }
    // It stands behind each member of a conjunction as well, whatever follows, if what stands up to there is deeper
    // than 64.
    ensures part { (s : Levels) (read rest : List Lexeme) (f : Formula) (next : Role)
        → IsConjunction s read rest f
        → 64 < depth f
        → formula_limit (scan s read).level next ≡ Some limits.Formula }
{}

/// At the tokens of a formula, its parts among them, a limit of formulas stands exactly if the depth of its tree is
/// more than 64, where neither a `&` nor a `(` follows.
pub fn limit_in_a_formula()
    // Behind a formula stands no `&`, which would go on with it, and no `(`, which would go on with its last atom.
    ensures deep { (s : Levels) (read rest : List Lexeme) (f : Formula)
        → IsFormula s read rest f
        → next_role rest ≢ roles.And
        → next_role rest ≢ roles.Open
        → 64 < depth f
        → Stands s read rest }
    ensures within { (s : Levels) (read rest : List Lexeme) (f : Formula)
        → IsFormula s read rest f
        → depth f ≤ 64
        → Stands s read rest
        → ⊥ }
{}

/// At the tokens of a text a limit of formulas stands exactly if one of the text's formulas is deeper than 64.
pub fn limit_in_a_text()
    ensures deep { (whole of_type : Bool) (xs : List Lexeme) (statements : List Statement)
        → IsText grammar (Name.Text whole of_type) xs (program statements)
        → list_all is_in_bounds (formulas_of statements) ≡ false
        → Stands no_levels xs [] }
    ensures within { (whole of_type : Bool) (xs : List Lexeme) (statements : List Statement)
        → IsText grammar (Name.Text whole of_type) xs (program statements)
        → list_all is_in_bounds (formulas_of statements) ≡ true
        → Stands no_levels xs []
        → ⊥ }
{}

/// The first limit of a text is one of formulas only if one of its formulas is deeper than 64, and there is a first
/// limit if one is.
pub fn limit_of_a_text()
    ensures deep { (whole of_type : Bool) (xs : List Lexeme) (statements : List Statement)
        → IsText grammar (Name.Text whole of_type) xs (program statements)
        → first_limit xs ≡ None
        → list_all is_in_bounds (formulas_of statements) ≡ true }
    ensures within { (whole of_type : Bool) (xs : List Lexeme) (statements : List Statement)
        → IsText grammar (Name.Text whole of_type) xs (program statements)
        → list_all is_in_bounds (formulas_of statements) ≡ true
        → IfSome (first_limit xs) (λ l. l.which ≢ limits.Formula) }
    // So no formula of a program that a text comes to is deeper.
    ensures accepted { (whole of_type : Bool) (xs : List Lexeme) (end : ℕ) (is_cut : Bool) (statements : List Statement)
        → IsOutcome (Name.Text whole of_type) xs end is_cut (Ok (program statements))
        → list_all is_in_bounds (formulas_of statements) ≡ true }
    // Where the first limit is one of formulas, each text that begins with the tokens up to it has such a formula,
    // also where these tokens go on otherwise here.
    ensures beginning { (whole of_type : Bool) (xs more : List Lexeme) (l : LimitAt) (statements : List Statement)
        → first_limit xs ≡ Some l
        → l.which ≡ limits.Formula
        → IsText grammar (Name.Text whole of_type) (take (l.index + 1) xs ++ more) (program statements)
        → list_all is_in_bounds (formulas_of statements) ≡ false }
{}

/// In a text of the grammar a limit of formulas stands at the last token of each formula that is deeper than 64, and
/// nowhere else.
pub fn place_of_a_limit()
    ensures stands { (whole of_type : Bool) (xs ending : List Lexeme)
        → DeepBefore (Name.Text whole of_type) xs ending
        → StandsBefore no_levels xs ending }
    ensures only { (whole of_type : Bool) (xs ending : List Lexeme) (statements : List Statement)
        → IsText grammar (Name.Text whole of_type) xs (program statements)
        → StandsBefore no_levels xs ending
        → DeepBefore (Name.Text whole of_type) xs ending }
    // So the first limit stands there or earlier.
    ensures first { (whole of_type : Bool) (before : List Lexeme) (here : Lexeme) (ending : List Lexeme)
        → DeepBefore (Name.Text whole of_type) (before ++ (here ∷ ending)) ending
        → IsUpTo (first_limit (before ++ (here ∷ ending))) (length before) }
{}

/// Where the first limit is one of formulas, a formula that is deeper than 64 ends at its token, in each text that
/// begins with the tokens up to it and goes on alike: both with `&` or neither, and both with the arguments of the
/// last name or neither. The list itself may break behind it.
pub fn place_of_the_first_limit()
    ensures ends { (whole of_type : Bool) (xs more : List Lexeme) (l : LimitAt) (statements : List Statement)
        → first_limit xs ≡ Some l
        → l.which ≡ limits.Formula
        → GoOnAlike (next_role (drop l.index xs)) (next_role more) (next_role (drop (l.index + 1) xs))
        → IsText grammar (Name.Text whole of_type) (take (l.index + 1) xs ++ more) (program statements)
        → DeepBefore (Name.Text whole of_type) (take (l.index + 1) xs ++ more) more }
    // None ends earlier in any text that begins so: behind the end of one there are no more tokens than behind the
    // limit.
    ensures least { (whole of_type : Bool) (xs more ending : List Lexeme) (l : LimitAt)
        → first_limit xs ≡ Some l
        → DeepBefore (Name.Text whole of_type) (take (l.index + 1) xs ++ more) ending
        → length ending ≤ length more }
    // Where one ends in a text that begins so and goes on alike, there is a first limit, and it stands there or
    // earlier.
    ensures latest { (whole of_type : Bool) (before : List Lexeme) (here : Lexeme) (more behind : List Lexeme)
        → GoOnAlike (role_of here.terminal) (next_role more) (next_role behind)
        → DeepBefore (Name.Text whole of_type) (before ++ (here ∷ more)) more
        → IsUpTo (first_limit (before ++ (here ∷ behind))) (length before) }
{}
