// The kinds of tokens that the grammar tells apart.

/// A kind of token that the grammar tells apart.
#[derive(Clone, Copy, Debug, PartialEq, Eq)]
pub enum Terminal {
    /// A number.
    Number,
    /// `base`, a name that a `#program` may open.
    Base,
    /// `preference`, likewise.
    Preference,
    /// Any other name that begins with a small letter.
    Word,
    /// A name that begins with a capital letter.
    Variable,
    /// `_`
    Any,
    /// A string.
    String,
    /// `not`
    Not,
    /// `.`
    Dot,
    /// `,`
    Comma,
    /// `;`
    Semicolon,
    /// `:`
    Colon,
    /// `:-`
    If,
    /// `::`
    Weighs,
    /// `(`
    Open,
    /// `)`
    Close,
    /// `{`
    OpenBrace,
    /// `}`
    CloseBrace,
    /// `=`
    Equal,
    /// `==`
    Same,
    /// `!=`
    Unequal,
    /// `<`
    Less,
    /// `<=`
    AtMost,
    /// `>`
    Greater,
    /// `>=`
    AtLeast,
    /// `+`
    Plus,
    /// `-`
    Minus,
    /// `*`
    Times,
    /// `**`
    Stars,
    /// `/`
    Slash,
    /// `\`
    Backslash,
    /// `..`
    Dots,
    /// `>>`
    Better,
    /// `||`
    Bars,
    /// `&`
    And,
    /// `|`
    Or,
    /// `#const`
    Const,
    /// `#show`
    Show,
    /// `#defined`
    Defined,
    /// `#program`
    Program,
    /// `#preference`
    Statement,
    /// `#optimize`
    Optimize,
    /// `#count`
    Count,
    /// `#sum`
    Sum,
    /// A token of no text of the grammar: another sign or directive.
    Stray,
}
