// Strings.
ghost use Rattle.std.specs.Prelude.{◌≡◌, IfOk};
ghost use Rattle.std.specs.Str.Iter.{chars_rest};
ghost use Rattle.ap_grammar.specs.Lexemes.{string_of, unescaped};
ghost use Rattle.ap_lexemes.specs.Quotes.{BeginsWithQuote};
ghost use Rattle.literal_parse.specs.Strings.{Unescapes};

use ap_syntax::Text;
use std::alloc::{AllocError, Global};
use std::str::Chars;

/// The characters of a string between its quotes, each escape by the character that it stands for. `quoted` has to
/// begin with a quote. It fails for want of memory alone.
pub fn string(alloc: Global, quoted: &str) -> Result<Text, AllocError>
    requires { BeginsWithQuote quoted.now }
    ensures { IfOk result (λ text. text ≡ string_of quoted.now) }
{
    let mut rest = behind_quote(quoted);
    let mut inside = String::new(alloc);
    'inside: while let Some(character) = next_inside(&mut rest) {
        inside.push(character)?;
    }
    Text::new(alloc, inside.as_str())
}

// What stands behind the first quote.
fn behind_quote(quoted: &str) -> Chars<'_>
    requires { BeginsWithQuote quoted.now }
    ensures { unescaped (chars_rest result) ≡ string_of quoted.now }
{
    let mut rest = quoted.chars();
    let _quote = rest.next();
    rest
}

// The next character before the last quote, an escape as the character that it stands for.
fn next_inside(rest: &mut Chars<'_>) -> Option<char>
    ensures { Unescapes (chars_rest rest.old) (chars_rest rest.new) result }
{
    let character = rest.next()?;
    match character {
        '"' => None,
        '\\' => match rest.next() {
            Some('n') => Some('\n'),
            Some(escaped) => Some(escaped),
            None => Some('\\'),
        },
        plain => Some(plain),
    }
}
