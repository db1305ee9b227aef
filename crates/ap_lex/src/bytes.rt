// Bytes, and how many of a kind stand at the front of a text.
ghost use Rattle.std.specs.Prelude.{◌≡◌, ◌≤◌, ◌==◌, length, not};
ghost use Rattle.std.specs.List.{prefix_len};
ghost use Rattle.ap_lex.specs.Bytes.{is_blank, is_capital_letter, is_digit, is_small_letter, is_word_byte};

pub fn is_digit(byte: u8) -> bool
    ensures { result ≡ is_digit byte }
{
    byte.is_ascii_digit()
}

// A letter from a to z.
pub fn is_small_letter(byte: u8) -> bool
    ensures { result ≡ is_small_letter byte }
{
    byte.is_ascii_lowercase()
}

// A letter from A to Z.
pub fn is_capital_letter(byte: u8) -> bool
    ensures { result ≡ is_capital_letter byte }
{
    byte.is_ascii_uppercase()
}

// A letter, a digit, an underscore or an apostrophe.
pub fn is_word_byte(byte: u8) -> bool
    ensures { result ≡ is_word_byte byte }
{
    byte.is_ascii_alphanumeric() || byte == b'_' || byte == b'\''
}

// A space, a tab, a carriage return or a line feed.
pub fn is_blank(byte: u8) -> bool
    ensures { result ≡ is_blank byte }
{
    matches!(byte, b' ' | b'\t' | b'\r' | b'\n')
}

// How many digits stand at the front.
pub fn digit_len(text: &[u8]) -> usize
    ensures len { result ≡ prefix_len is_digit text.now }
    ensures within { result ≤ length text.now }
{
    text.iter().take_while(|byte| is_digit(**byte)).count()
}

// How many bytes of a word stand at the front.
pub fn word_len(text: &[u8]) -> usize
    ensures len { result ≡ prefix_len is_word_byte text.now }
    ensures within { result ≤ length text.now }
{
    text.iter().take_while(|byte| is_word_byte(**byte)).count()
}

// How many letters from a to z stand at the front.
pub fn letter_len(text: &[u8]) -> usize
    ensures len { result ≡ prefix_len is_small_letter text.now }
    ensures within { result ≤ length text.now }
{
    text.iter()
        .take_while(|byte| is_small_letter(**byte))
        .count()
}

// How many bytes stand before the first line feed, or in all.
pub fn line_len(text: &[u8]) -> usize
    ensures len { result ≡ prefix_len (λ b. not (b == 10)) text.now }
    ensures within { result ≤ length text.now }
{
    text.iter().take_while(|byte| **byte != b'\n').count()
}
