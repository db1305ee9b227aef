// Lists in a canonical text.
ghost use Rattle.std.specs.Prelude.{◌≡◌, ◌++◌, List, map, OnOk, string_bytes};
ghost use Rattle.ap_syntax.specs.Pieces.{Piece, in_braces, parted, semicolons, text_of};
ghost use Rattle.ap_syntax.specs.Separators.{between};

use std::alloc::AllocError;

/// What has a canonical text.
pub(crate) trait Canonical {
    /// The pieces of its text.
    ghost pieces: { Self → List Piece };

    /// Appends its text.
    fn push(&self, out: &mut String) -> Result<(), AllocError>
        ensures { OnOk result (string_bytes out.new ≡ string_bytes out.old ++ text_of (pieces self.now)) };
}

/// What stands between the members of a list.
#[derive(Clone, Copy, Debug)]
pub(crate) enum Separator {
    /// `,`
    Comma,
    /// `;`
    Semicolon,
    /// `>>`
    Better,
    /// `&`
    And,
    /// `|`
    Or,
}

impl Separator {
    /// Its text, with its blanks.
    pub(crate) fn text(self) -> &'static str
        ensures { result.now ≡ text_of (between self) }
    {
        match self {
            Separator::Comma => ", ",
            Separator::Semicolon => "; ",
            Separator::Better => " >> ",
            Separator::And => " & ",
            Separator::Or => " | ",
        }
    }
}

/// Appends these, with the separator between them.
pub(crate) fn push_parted<T: Canonical>(
    separator: Separator,
    items: &[T],
    out: &mut String,
) -> Result<(), AllocError>
    ensures { OnOk result (string_bytes out.new ≡ string_bytes out.old
        ++ text_of (parted (between separator) (map T.pieces items.now))) }
{
    let mut front = "";
    for item in items {
        out.push_str(front)?;
        item.push(out)?;
        front = separator.text();
    }
    Ok(())
}

/// Appends these in braces, with semicolons between them.
pub(crate) fn push_braced<T: Canonical>(items: &[T], out: &mut String) -> Result<(), AllocError>
    ensures { OnOk result (string_bytes out.new ≡ string_bytes out.old
        ++ text_of (in_braces (semicolons (map T.pieces items.now)))) }
{
    out.push_str("{")?;
    push_parted(Separator::Semicolon, items, out)?;
    out.push_str("}")
}
