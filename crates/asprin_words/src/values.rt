// The values of options, by their rules.
ghost use Rattle.std.specs.Prelude.{◌≡◌, ◌≤◌, ◌==◌, ◌||◌, IfOk, IfSome, Some, [], length, map, not, option_map, string_bytes, true};
ghost use Rattle.std.specs.List.{list_all, list_any};
ghost use Rattle.std.specs.Str.{bytes_eq};
ghost use Rattle.asprin_words.specs.Asked.{texts_of};
ghost use Rattle.asprin_words.specs.Reads.{Reads, certificate_of, led_of, meaning_of, setting_of, source_of};
ghost use Rattle.asprin_words.specs.Spelled.{parted};
ghost use Rattle.asprin_words.specs.Values as value;
ghost use Rattle.asprin_words.specs.Values.{is_digit, setting_by, settings_from, with_setting};

use crate::{Certificate, Constant, ConstantValue, Input, WordsFault};
use std::alloc::{AllocError, Global};

/// The most digits of a number.
const MOST_DIGITS: usize = 18;

/// The greatest number that a constant can stand for.
const GREATEST_NUMBER: u64 = 2_147_483_647;

/// The most sets that words can ask for.
const MOST_SETS: u64 = 4_294_967_295;

/// The most chains of a run.
const MOST_CHAINS: u64 = 8;

/// The most offers of a file that is made.
const MOST_OFFERS: u64 = 5000;

/// The most files of a run.
const MOST_FILES: usize = 10_000;

/// A file that is no input, and the files behind it.
pub(crate) struct LedFiles {
    pub first: String,
    pub files: Vec<String>,
}

// ---- numbers

fn are_digits(bytes: &[u8]) -> bool
    ensures { result ≡ list_all is_digit bytes.now }
{
    bytes.iter().all(|byte| b'0' <= *byte && *byte <= b'9')
}

fn is_number(bytes: &[u8]) -> bool
    ensures { result ≡ value.is_number bytes.now }
{
    1 <= bytes.len() && bytes.len() <= MOST_DIGITS && are_digits(bytes)
}

/// The number that one to eighteen digits write.
fn number_value(digits: &[u8]) -> u64
    requires few { length digits.now ≤ 18 }
    requires digits { list_all is_digit digits.now ≡ true }
    ensures { result ≡ value.number_value digits.now }
{
    let mut value: u64 = 0;
    for digit in digits {
        value = value * 10 + u64::from(*digit - b'0');
    }
    value
}

/// The number that a text writes, where it lies in a range.
fn number_in(bytes: &[u8], low: u64, high: u64) -> Option<u64>
    ensures value { result ≡ value.number_in low high bytes.now }
    ensures few { IfSome result (λ number. number ≤ high) }
{
    if !is_number(bytes) {
        return None;
    }
    let value = number_value(bytes);
    if low <= value && value <= high {
        Some(value)
    } else {
        None
    }
}

/// The number of an option that may be left out.
pub(crate) fn number_or(
    text: Option<&str>,
    low: u64,
    high: u64,
    default: u64,
) -> Result<u64, WordsFault>
    ensures { Reads (λ n. n) (value.number_or low high default (option_map (λ s. s.now) text.entry)) result }
{
    match text {
        None => Ok(default),
        Some(text) => number_in(text.as_bytes(), low, high).ok_or(WordsFault::Usage),
    }
}

/// The number of chains.
pub(crate) fn chains_or_one(text: Option<&str>) -> Result<u8, WordsFault>
    ensures { Reads (λ n. n) (value.number_or 1 8 1 (option_map (λ s. s.now) text.entry)) result }
{
    match text {
        None => Ok(1),
        Some(text) => match number_in(text.as_bytes(), 1, MOST_CHAINS) {
            Some(number) => Ok(number as u8),
            None => Err(WordsFault::Usage),
        },
    }
}

/// How many sets are wanted.
pub(crate) fn wanted_given(offers: Option<&str>, number: Option<&str>) -> Result<u64, WordsFault>
    ensures { Reads (λ n. n) (value.wanted_given (option_map (λ s. s.now) offers.entry) (option_map (λ s. s.now) number.entry)) result }
{
    match offers {
        None => number_or(number, 0, MOST_SETS, 1),
        Some(_) if number.is_some() => Err(WordsFault::Usage),
        Some(_) => Ok(0),
    }
}

// ---- constants

fn is_name_byte(byte: u8) -> bool
    ensures { result ≡ value.is_name_byte byte }
{
    byte.is_ascii_alphanumeric() || byte == b'_' || byte == b'\''
}

fn are_name_bytes(bytes: &[u8]) -> bool
    ensures { result ≡ list_all value.is_name_byte bytes.now }
{
    bytes.iter().all(|byte| is_name_byte(*byte))
}

fn is_name_text(bytes: &[u8]) -> bool
    ensures { result ≡ value.is_name_text bytes.now }
{
    match bytes {
        [] => false,
        [b'_', rest @ ..] => is_name_text(rest),
        [first, rest @ ..] => b'a' <= *first && *first <= b'z' && are_name_bytes(rest),
    }
}

/// Whether a text is an identifier other than `not`.
fn is_identifier(text: &str) -> bool
    ensures { result ≡ value.is_identifier text.now }
{
    is_name_text(text.as_bytes()) && text != "not"
}

/// The number that a text writes, up to 2147483647, with an optional `-`.
fn signed_number(bytes: &[u8]) -> Option<ConstantValue>
    ensures { option_map meaning_of result ≡ value.signed_number bytes.now }
{
    match bytes {
        [b'-', rest @ ..] => number_in(rest, 0, GREATEST_NUMBER).map(ConstantValue::Minus),
        _ => number_in(bytes, 0, GREATEST_NUMBER).map(ConstantValue::Number),
    }
}

/// What a text means as the value of a constant.
fn meaning_of(alloc: Global, text: &str) -> Result<ConstantValue, WordsFault>
    ensures { Reads meaning_of (value.meaning_of text.now) result }
{
    if is_identifier(text) {
        return Ok(ConstantValue::Name(String::from_str(alloc, text)?));
    }
    signed_number(text.as_bytes()).ok_or(WordsFault::Usage)
}

/// What stands before the first `=`, and what stands behind it if there is one.
fn parted(text: &str) -> (&str, Option<&str>)
    ensures { (result.0.now, option_map (λ s. s.now) result.1) ≡ parted text.now }
{
    match text.split_once('=') {
        Some((name, value)) => (name, Some(value)),
        None => (text, None),
    }
}

/// A constant of a name and a value.
fn setting_by(alloc: Global, name: &str, value: Option<&str>) -> Result<Constant, WordsFault>
    ensures { Reads setting_of (setting_by name.now (option_map (λ s. s.now) value.entry)) result }
{
    let Some(value) = value else {
        return Err(WordsFault::Usage);
    };
    if !is_identifier(name) {
        return Err(WordsFault::Usage);
    }
    let value = meaning_of(alloc, value)?;
    Ok(Constant {
        name: String::from_str(alloc, name)?,
        value,
    })
}

/// `name=value`, parted at the first `=`.
fn setting_given(alloc: Global, text: &str) -> Result<Constant, WordsFault>
    ensures { Reads setting_of (value.setting_given text.now) result }
{
    let parts = parted(text);
    setting_by(alloc, parts.0, parts.1)
}

/// Whether a constant has this name.
fn is_set(name: &str, constants: &[Constant]) -> bool
    ensures { result ≡ list_any (λ constant. bytes_eq (string_bytes constant.name) name.now) constants.now }
{
    constants
        .iter()
        .any(|constant| constant.name.as_str() == name)
}

/// The constants with one more, of another name.
fn with_setting(
    mut constants: Vec<Constant>,
    constant: Constant,
) -> Result<Vec<Constant>, WordsFault>
    ensures { Reads (λ v. map setting_of v.items) (with_setting (map setting_of constants.items) (Some (setting_of constant))) result }
{
    if is_set(constant.name.as_str(), constants.as_slice()) {
        return Err(WordsFault::Usage);
    }
    match constants.push(constant) {
        Ok(()) => Ok(constants),
        Err(_) => Err(WordsFault::Memory),
    }
}

/// The constants that texts give, with different names.
pub(crate) fn settings_given(alloc: Global, texts: &[&str]) -> Result<Vec<Constant>, WordsFault>
    ensures { Reads (λ v. map setting_of v.items) (settings_from [] (map (λ s. s.now) texts.now)) result }
{
    let mut constants = Vec::new(alloc);
    for text in texts {
        let constant = setting_given(alloc, text)?;
        constants = with_setting(constants, constant)?;
    }
    Ok(constants)
}

// ---- files

fn are_filled(names: &[&str]) -> bool
    ensures { result ≡ list_all (λ name. not (length name.now == 0)) names.now }
{
    names.iter().all(|name| !name.is_empty())
}

/// Whether there are one to 10,000 names, of which none is empty.
#[tactic(auto, using(crate::proofs::Listing::are_files_by))]
fn are_files(names: &[&str]) -> bool
    ensures { result ≡ value.are_files (map (λ s. s.now) names.now) }
{
    !names.is_empty() && names.len() <= MOST_FILES && are_filled(names)
}

/// The names as texts of their own.
fn copied(alloc: Global, names: &[&str]) -> Result<Vec<String>, AllocError>
    ensures { IfOk result (λ v. texts_of v.items ≡ map (λ s. s.now) names.now) }
{
    let mut copies = Vec::new(alloc);
    for name in names {
        copies.push(String::from_str(alloc, name)?)?;
    }
    Ok(copies)
}

/// One to 10,000 files.
pub(crate) fn files_given(alloc: Global, names: &[&str]) -> Result<Vec<String>, WordsFault>
    ensures { Reads (λ v. texts_of v.items) (value.files_given (map (λ s. s.now) names.now)) result }
{
    if are_files(names) {
        Ok(copied(alloc, names)?)
    } else {
        Err(WordsFault::Usage)
    }
}

/// A file that is made.
fn made_given(offers: &str) -> Result<Input, WordsFault>
    ensures { Reads source_of (option_map value.made (value.number_in 1 5000 offers.now)) result }
{
    match number_in(offers.as_bytes(), 1, MOST_OFFERS) {
        Some(number) => Ok(Input::Made(number)),
        None => Err(WordsFault::Usage),
    }
}

/// What is read.
pub(crate) fn source_given(
    alloc: Global,
    offers: Option<&str>,
    names: &[&str],
) -> Result<Input, WordsFault>
    ensures { Reads source_of (value.source_given (option_map (λ s. s.now) offers.entry) (map (λ s. s.now) names.now)) result }
{
    match offers {
        None => Ok(Input::Files(files_given(alloc, names)?)),
        Some(_) if !names.is_empty() => Err(WordsFault::Usage),
        Some(offers) => made_given(offers),
    }
}

/// A first file and then one to 10,000 files.
pub(crate) fn led_by(alloc: Global, names: &[&str]) -> Result<LedFiles, WordsFault>
    ensures { Reads led_of (value.led_by (map (λ s. s.now) names.now)) result }
{
    match names {
        [first, files @ ..] if !first.is_empty() && are_files(files) => Ok(LedFiles {
            first: String::from_str(alloc, first)?,
            files: copied(alloc, files)?,
        }),
        _ => Err(WordsFault::Usage),
    }
}

// ---- the certificate

/// The certificate, of which the name is not empty.
pub(crate) fn certificate_given(
    alloc: Global,
    file: Option<&str>,
    binary: bool,
) -> Result<Option<Certificate>, WordsFault>
    ensures { Reads (option_map certificate_of) (value.certificate_given (option_map (λ s. s.now) file.entry) binary) result }
{
    match file {
        None if binary => Err(WordsFault::Usage),
        None => Ok(None),
        Some(file) if file.is_empty() => Err(WordsFault::Usage),
        Some(file) => Ok(Some(Certificate {
            file: String::from_str(alloc, file)?,
            binary,
        })),
    }
}
