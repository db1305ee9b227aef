// The limits of a text.

/// A limit that a text goes beyond.
#[derive(Clone, Copy, Debug, PartialEq, Eq)]
pub enum Limit {
    /// More than 32 parentheses are open at once in a statement.
    Nesting,
    /// A list in parentheses has more than 32 members: the arguments of a name, or a tuple.
    Arity,
    /// A formula is deeper than 64. An atom has depth 1, and `not`, each further `&` and each further `|` add 1 to the
    /// deeper side. Chains are nested to the left: `f & g & h` is `(f & g) & h`.
    Formula,
}

/// A limit with the token at which it stands: the `(` that is one too many, the comma that opens a member too many, or the
/// last token of the formula.
#[derive(Clone, Copy, Debug, PartialEq, Eq)]
pub struct LimitAt {
    /// Which limit it is.
    pub which: Limit,
    /// The number of the token, from 0.
    pub index: usize,
}
