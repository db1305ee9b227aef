// What holds of texts.
ghost use Rattle.std.specs.Prelude.{◌≡◌, ℕ, ◌+◌, ◌≤◌, ◌++◌, Bool, IfSome, List, Result, Some, length};
ghost use Rattle.ap_grammar.specs.Grammar.{Name as GrammarName};
ghost use Rattle.ap_grammar.specs.Lexemes.{Lexeme as LexemeSpec};
ghost use Rattle.ap_grammar.specs.Values.{Value};
ghost use Rattle.ap_lexemes.specs.Limits.{first_limit};
ghost use Rattle.ap_lexemes.specs.Texts.{AreLexemes, IsOutcome};
ghost use Rattle.ap_lexemes.specs.declared.limit.LimitAt.{LimitAt};
ghost use Rattle.ap_lexemes.specs.declared.fault.ParseFault.{ParseFault as FaultSpec};

/// The bytes of a file have one list of tokens, and one place behind it.
pub fn one_list()
    ensures { (bytes : List ℕ) (file : ℕ) (xs ys : List LexemeSpec) (end place : ℕ) → AreLexemes bytes file xs end → AreLexemes bytes file ys place → (xs ≡ ys) × (end ≡ place) }
{}

/// A text comes to one value or to one fault, and not to two of them.
pub fn one_outcome()
    ensures { (n : GrammarName) (xs : List LexemeSpec) (end : ℕ) (is_cut : Bool) (r s : Result Value FaultSpec) → IsOutcome n xs end is_cut r → IsOutcome n xs end is_cut s → r ≡ s }
{}

/// The first limit of a text hangs on the tokens up to it and on the one behind it.
pub fn limit_of_a_front()
    // It is the same whatever follows these,
    ensures same { (front rest other : List LexemeSpec) (l : LimitAt) → first_limit (front ++ rest) ≡ Some l → l.index + 2 ≤ length front → first_limit (front ++ other) ≡ Some l }
    // and a front that ends before it has no limit, but for its last token, which may end a formula there.
    ensures before { (front rest : List LexemeSpec) (l : LimitAt) → first_limit (front ++ rest) ≡ Some l → length front ≤ l.index → IfSome (first_limit front) (λ m. m.index + 1 ≡ length front) }
{}
