//! Parts of the text of a value.
ghost use Rattle.std.specs.Prelude.{◌≡◌, [], ◌∷◌, ◌++◌, OnOk, string_bytes, if◌then◌else◌};
ghost use Rattle.std.specs.Char.{encode_utf8};
ghost use Rattle.std.specs.List.{flat_map};
ghost use Rattle.ap_term.specs.Printed.{Extends, comma, escaped, quoted};

use std::alloc::AllocError;

/// Appends a comma where one is wanted.
pub(crate) fn push_comma_if(wanted: bool, out: &mut String) -> Result<(), AllocError>
    ensures ok { OnOk result (string_bytes out.new ≡ string_bytes out.old ++ (if wanted then comma ∷ [] else [])) }
    ensures extends { Extends (string_bytes out.old) (string_bytes out.new) }
{
    if wanted { out.push(',') } else { Ok(()) }
}

/// Appends a string between quotes, or on an `Err` some front of that.
pub(crate) fn push_quoted(string: &str, out: &mut String) -> Result<(), AllocError>
    ensures ok { OnOk result (string_bytes out.new ≡ string_bytes out.old ++ quoted string.now) }
    ensures extends { Extends (string_bytes out.old) (string_bytes out.new) }
{
    out.push('"')?;
    for c in string.chars() {
        push_escaped(c, out)?;
    }
    out.push('"')
}

// Appends a character of a string.
fn push_escaped(c: char, out: &mut String) -> Result<(), AllocError>
    ensures ok { OnOk result (string_bytes out.new ≡ string_bytes out.old ++ flat_map escaped (encode_utf8 c)) }
    ensures extends { Extends (string_bytes out.old) (string_bytes out.new) }
{
    match c {
        '\\' => out.push_str("\\\\"),
        '"' => out.push_str("\\\""),
        '\n' => out.push_str("\\n"),
        _ => out.push(c),
    }
}
