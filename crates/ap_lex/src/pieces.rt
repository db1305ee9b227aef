// The piece at the front of a text.
ghost use Rattle.std.specs.Prelude.{◌≡◌, ◌<◌, ◌≤◌, ◌+◌, ◌==◌, IfSome, IsTrue, Some, None, length, nat_le, take};
ghost use Rattle.std.specs.Option.{option_copied};
ghost use Rattle.std.specs.List.{list_all, list_any, prefix_len};
ghost use Rattle.ap_lex.specs.Bytes.{begins_with, is_digit};
ghost use Rattle.ap_lex.specs.Forms.{is_escape, is_number, is_numeral, number_of, signs_of_one};
ghost use Rattle.ap_lex.specs.Pieces.{behind_escape, behind_string, directive_behind, first_letter, gap_at, is_sign_of_one, is_sign_of_two, letter_kind, number_at, piece_at, sign_at, sign_of_one, string_behind, token_at, word_at, word_kind};

use crate::Kind;
use crate::bytes::{
    digit_len, is_blank, is_capital_letter, is_digit, is_small_letter, is_word_byte, letter_len,
    line_len, word_len,
};

// What stands at the front of a text, with its length.
pub enum Piece {
    // A blank or a comment.
    Gap { len: usize },
    Token { kind: Kind, len: usize },
}

// The signs of one byte.
const SIGNS_OF_ONE: &[u8] = b".,;:(){}=<>+-*/\\&|@?^~";

// The signs of two bytes.
const SIGNS_OF_TWO: [[u8; 2]; 12] = [
    *b":-", *b"::", *b"==", *b"!=", *b"<=", *b">=", *b"**", *b"..", *b">>", *b"||", *b":~", *b"%*",
];

// The greatest number that can be written.
const MAX_NUMBER: u64 = 2_147_483_647;

// The piece at the front, or nothing where none begins.
#[tactic(auto, unfolding(crate::specs::Pieces::piece_at))]
pub fn piece_at(text: &[u8]) -> Option<Piece>
    ensures { result ≡ piece_at text.now }
{
    match gap_len(text) {
        Some(len) => Some(Piece::Gap { len }),
        None => token_at(text),
    }
}

// The length of the blank or the comment at the front.
#[tactic(auto, unfolding(crate::specs::Pieces::gap_at))]
fn gap_len(text: &[u8]) -> Option<usize>
    ensures { result ≡ gap_at text.now }
{
    let (first, rest) = text.split_first()?;
    if is_blank(*first) {
        Some(1)
    } else if *first == b'%' && !begins_with_star(rest) {
        Some(1 + line_len(rest))
    } else {
        None
    }
}

// A star makes a sign of the percent sign before it.
fn begins_with_star(text: &[u8]) -> bool
    ensures { result ≡ begins_with (λ b. b == 42) text.now }
{
    matches!(text, [b'*', ..])
}

// The token at the front.
#[tactic(auto, unfolding(crate::specs::Pieces::token_at))]
fn token_at(text: &[u8]) -> Option<Piece>
    ensures { result ≡ token_at text.now }
{
    let (first, rest) = text.split_first()?;
    if is_digit(*first) {
        number_at(text)
    } else if is_word_byte(*first) {
        word_at(text)
    } else if *first == b'"' {
        string_behind(rest)
    } else if *first == b'#' {
        directive_behind(rest)
    } else {
        sign_at(text)
    }
}

// The number at the front, with all digits that stand there.
#[tactic(auto, unfolding(crate::specs::Pieces::number_at))]
fn number_at(text: &[u8]) -> Option<Piece>
    ensures { result ≡ number_at text.now }
{
    let len = digit_len(text);
    if is_number(&text[..len]) {
        Some(Piece::Token {
            kind: Kind::Num,
            len,
        })
    } else {
        None
    }
}

// Whether digits are a number.
fn is_number(digits: &[u8]) -> bool
    requires { IsTrue (list_all is_digit digits.now) }
    ensures { result ≡ is_number digits.now }
{
    match digits {
        [] => false,
        [b'0'] => true,
        [b'0', ..] => false,
        _ => is_in_range(digits),
    }
}

// Whether the number that the digits stand for is in range.
fn is_in_range(digits: &[u8]) -> bool
    requires { IsTrue (list_all is_digit digits.now) }
    ensures { result ≡ nat_le (number_of digits.now) MAX_NUMBER }
{
    let mut number = 0;
    for digit in digits {
        number = 10 * number + u64::from(*digit - b'0');
        if number > MAX_NUMBER {
            return false;
        }
    }
    true
}

// The word at the front, with all word bytes that stand there.
#[tactic(auto, unfolding(crate::specs::Pieces::word_at))]
fn word_at(text: &[u8]) -> Option<Piece>
    ensures { result ≡ word_at text.now }
{
    let len = word_len(text);
    let kind = word_kind(&text[..len])?;
    Some(Piece::Token { kind, len })
}

// What a word is.
#[tactic(auto, unfolding(crate::specs::Pieces::word_kind))]
fn word_kind(word: &[u8]) -> Option<Kind>
    ensures { result ≡ word_kind word.now }
{
    if word == b"not".as_slice() {
        Some(Kind::Not)
    } else if word == b"_".as_slice() {
        Some(Kind::Any)
    } else {
        letter_kind(first_letter(word))
    }
}

// The first byte other than an underscore.
fn first_letter(word: &[u8]) -> Option<u8>
    ensures { result ≡ first_letter word.now }
{
    word.iter().copied().find(|byte| *byte != b'_')
}

// What a word is, by its first byte other than an underscore.
fn letter_kind(letter: Option<u8>) -> Option<Kind>
    ensures { result ≡ letter_kind letter }
{
    match letter {
        Some(byte) if is_small_letter(byte) => Some(Kind::Ident),
        Some(byte) if is_capital_letter(byte) => Some(Kind::Var),
        _ => None,
    }
}

// The string whose first quote stands before the text.
#[tactic(auto, unfolding(crate::specs::Pieces::string_behind))]
fn string_behind(text: &[u8]) -> Option<Piece>
    ensures { result ≡ string_behind text.now }
{
    let rest = behind_string(text)?;
    Some(Piece::Token {
        kind: Kind::Str,
        len: 1 + (text.len() - rest.len()),
    })
}

// What follows the string whose first quote stands before the text.
fn behind_string(text: &[u8]) -> Option<&[u8]>
    ensures rest { option_copied result ≡ behind_string text.now }
    ensures within { IfSome result (λ rest. length rest.now ≤ length text.now) }
{
    let mut rest = text;
    while let Some((first, after)) = rest.split_first() {
        match *first {
            b'"' => return Some(after),
            b'\n' => return None,
            b'\\' => rest = behind_escape(after)?,
            _ => rest = after,
        }
    }
    None
}

// What follows the byte behind a backslash: a backslash, a quote or an `n`.
fn behind_escape(text: &[u8]) -> Option<&[u8]>
    ensures { option_copied result ≡ behind_escape text.now }
{
    match text.split_first() {
        Some((b'\\' | b'"' | b'n', rest)) => Some(rest),
        _ => None,
    }
}

// The directive whose number sign stands before the text, with all letters that stand there.
#[tactic(auto, unfolding(crate::specs::Pieces::directive_behind))]
fn directive_behind(text: &[u8]) -> Option<Piece>
    ensures { result ≡ directive_behind text.now }
{
    let len = letter_len(text);
    if len == 0 {
        return None;
    }
    Some(Piece::Token {
        kind: Kind::Directive,
        len: 1 + len,
    })
}

// The sign at the front: one of two bytes before one of one byte.
#[tactic(auto, unfolding(crate::specs::Pieces::sign_at))]
fn sign_at(text: &[u8]) -> Option<Piece>
    ensures { result ≡ sign_at text.now }
{
    let len = match text {
        [first, second, ..] if is_sign_of_two(*first, *second) => 2,
        [first, ..] if is_sign_of_one(*first) => 1,
        _ => return None,
    };
    Some(Piece::Token {
        kind: Kind::Sign,
        len,
    })
}

fn is_sign_of_one(byte: u8) -> bool
    ensures { result ≡ is_sign_of_one byte }
{
    SIGNS_OF_ONE.iter().any(|sign| *sign == byte)
}

fn is_sign_of_two(first: u8, second: u8) -> bool
    ensures { result ≡ is_sign_of_two first second }
{
    SIGNS_OF_TWO
        .iter()
        .any(|sign| sign.as_slice() == [first, second].as_slice())
}
