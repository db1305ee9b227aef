// From words to what they ask for.
ghost use Rattle.std.specs.Prelude.{◌≡◌, [], List, codes, is_some, map, option_map};
ghost use Rattle.clap.specs.Words.{first_value, found_of, matched_of, raw_values};
ghost use Rattle.asprin_words.specs.Asked as ask;
ghost use Rattle.asprin_words.specs.Asked.{asked_by, led_asked_by, texts_of};
ghost use Rattle.asprin_words.specs.Gives.{Gives, LedGives, listed};
ghost use Rattle.asprin_words.specs.Reads.{Reads, asked_of, auditing_of, certificate_of, led_asked_of, led_of, setting_of, solving_of, source_of};
ghost use Rattle.asprin_words.specs.Spelled.{Text, Use, file_name, is_true};
ghost use Rattle.asprin_words.specs.Values as value;

use crate::reading::{asprin_matches, led_matches};
use crate::values::{
    LedFiles, certificate_given, chains_or_one, files_given, led_by, number_or, settings_given,
    source_given, wanted_given,
};
use crate::{Audit, Certificate, Constant, Input, LedWords, Solve, Words, WordsFault};
use clap::ArgMatches;
use std::alloc::Global;

/// The most clauses that a run may be allowed to learn.
const MOST_CLAUSES: u64 = 999_999_999_999_999_999;

/// How many clauses a run may learn where the words do not say.
const DEFAULT_BUDGET: u64 = 200_000;

// ---- parts

/// Whether a flag is used.
fn is_flagged(matches: &ArgMatches, name: &str) -> bool
    ensures { result ≡ is_true (first_value (found_of matches.now) name.now) }
{
    match matches.get_str(name) {
        None => false,
        Some(text) => text == "true",
    }
}

/// Whether an option is used.
fn is_used(matches: &ArgMatches, name: &str) -> bool
    ensures { result ≡ is_some (first_value (found_of matches.now) name.now) }
{
    matches.get_str(name).is_some()
}

/// How many clauses may be learned.
fn budget(matches: &ArgMatches) -> Result<u64, WordsFault>
    ensures { Reads (λ n. n) (value.number_or 0 999999999999999999 200000 (first_value (found_of matches.now) (codes "budget"))) result }
{
    number_or(matches.get_str("budget"), 0, MOST_CLAUSES, DEFAULT_BUDGET)
}

/// The certificate.
fn certificate(alloc: Global, matches: &ArgMatches) -> Result<Option<Certificate>, WordsFault>
    ensures { Reads (option_map certificate_of)
        (value.certificate_given (first_value (found_of matches.now) (codes "cert")) (is_true (first_value (found_of matches.now) (codes "binary")))) result }
{
    let binary = is_flagged(matches, "binary");
    certificate_given(alloc, matches.get_str("cert"), binary)
}

/// The constants.
fn constants(alloc: Global, matches: &ArgMatches) -> Result<Vec<Constant>, WordsFault>
    ensures { (texts : List Text) → option_map raw_values (matched_of (found_of matches.now) (codes "c")) ≡ listed texts
        → Reads (λ v. map setting_of v.items) (value.settings_from [] texts) result }
{
    match matches.get_strs("c") {
        Some(texts) => settings_given(alloc, texts),
        None => Ok(Vec::new(alloc)),
    }
}

/// The files.
fn files(alloc: Global, matches: &ArgMatches) -> Result<Vec<String>, WordsFault>
    ensures { (names : List Text) → option_map raw_values (matched_of (found_of matches.now) file_name) ≡ listed names
        → Reads (λ v. texts_of v.items) (value.files_given names) result }
{
    match matches.get_strs("FILE") {
        Some(names) => files_given(alloc, names),
        None => Err(WordsFault::Usage),
    }
}

/// What is read.
fn input(alloc: Global, matches: &ArgMatches) -> Result<Input, WordsFault>
    ensures { (names : List Text) → option_map raw_values (matched_of (found_of matches.now) file_name) ≡ listed names
        → Reads source_of (value.source_given (first_value (found_of matches.now) (codes "make")) names) result }
{
    let offers = matches.get_str("make");
    match matches.get_strs("FILE") {
        Some(names) => source_given(alloc, offers, names),
        None => source_given(alloc, offers, &[]),
    }
}

// ---- asprin

/// Whether an option is used that may not stand beside `--audit`.
fn asks_for_sets(matches: &ArgMatches) -> bool
    ensures { (uses : List Use) → Gives uses (found_of matches.now) → result ≡ ask.asks_for_sets uses }
{
    let sorted = is_flagged(matches, "sorted");
    let binary = is_flagged(matches, "binary");
    is_used(matches, "n")
        || sorted
        || is_used(matches, "chains")
        || is_used(matches, "cert")
        || is_used(matches, "make")
        || binary
}

/// What well spelled words without `--audit` ask for.
fn solving(alloc: Global, matches: &ArgMatches) -> Result<Solve, WordsFault>
    ensures { (uses : List Use) → Gives uses (found_of matches.now) → Reads solving_of (ask.solving uses) result }
{
    let wanted = wanted_given(matches.get_str("make"), matches.get_str("n"))?;
    let budget = budget(matches)?;
    let chains = chains_or_one(matches.get_str("chains"))?;
    let certificate = certificate(alloc, matches)?;
    let constants = constants(alloc, matches)?;
    let input = input(alloc, matches)?;
    Ok(Solve {
        wanted,
        sorted: is_flagged(matches, "sorted"),
        budget,
        chains,
        certificate,
        constants,
        input,
    })
}

/// What well spelled words with `--audit` ask for, where no other option may not stand beside it.
fn audited(alloc: Global, matches: &ArgMatches) -> Result<Audit, WordsFault>
    ensures { (uses : List Use) → Gives uses (found_of matches.now) → Reads auditing_of (ask.audited uses) result }
{
    let budget = budget(matches)?;
    let constants = constants(alloc, matches)?;
    let files = files(alloc, matches)?;
    Ok(Audit {
        budget,
        constants,
        files,
    })
}

/// What well spelled words with `--audit` ask for.
fn auditing(alloc: Global, matches: &ArgMatches) -> Result<Audit, WordsFault>
    ensures { (uses : List Use) → Gives uses (found_of matches.now) → Reads auditing_of (ask.auditing uses) result }
{
    if asks_for_sets(matches) {
        return Err(WordsFault::Usage);
    }
    audited(alloc, matches)
}

/// What well spelled words of `asprin` ask for.
fn asked(alloc: Global, matches: &ArgMatches) -> Result<Words, WordsFault>
    ensures { (uses : List Use) → Gives uses (found_of matches.now) → Reads asked_of (ask.asked uses) result }
{
    if is_flagged(matches, "audit") {
        Ok(Words::Audit(auditing(alloc, matches)?))
    } else {
        Ok(Words::Solve(solving(alloc, matches)?))
    }
}

/// What the words of `asprin` ask for, without the program's own name:
///
/// * `[-n K] [--sorted] [--budget=N] [--chains=C] [--cert=FILE [--binary]] [-c name=value].. FILE..`,
/// * the same with `--make=N` in place of the files and without `-n`,
/// * `--audit [--budget=N] [-c name=value].. FILE..`.
///
/// `Usage` comes exactly where the words are of none of these forms; `Memory` may come in any place.
pub fn read_words(alloc: Global, words: &[String]) -> Result<Words, WordsFault>
    ensures { Reads asked_of (asked_by (texts_of words.now)) result }
{
    let matches = asprin_matches(alloc, words)?;
    asked(alloc, &matches)
}

// ---- asprin_check and asprin_session

/// The first file and the files behind it.
fn led_files(alloc: Global, matches: &ArgMatches) -> Result<LedFiles, WordsFault>
    ensures { (names : List Text) → option_map raw_values (matched_of (found_of matches.now) file_name) ≡ listed names
        → Reads led_of (value.led_by names) result }
{
    match matches.get_strs("FILE") {
        Some(names) => led_by(alloc, names),
        None => Err(WordsFault::Usage),
    }
}

/// What well spelled words of `asprin_check` ask for.
fn led_asked(alloc: Global, matches: &ArgMatches) -> Result<LedWords, WordsFault>
    ensures { (uses : List Use) → LedGives uses (found_of matches.now) → Reads led_asked_of (ask.led_asked uses) result }
{
    let constants = constants(alloc, matches)?;
    let LedFiles { first, files } = led_files(alloc, matches)?;
    Ok(LedWords {
        constants,
        first,
        files,
    })
}

/// What the words of `asprin_check` ask for, `[-c name=value].. CERT FILE..`, and those of `asprin_session`,
/// `[-c name=value].. COMMANDS FILE..`, without the program's own name.
///
/// `Usage` comes exactly where the words are not of this form; `Memory` may come in any place.
pub fn read_led_words(alloc: Global, words: &[String]) -> Result<LedWords, WordsFault>
    ensures { Reads led_asked_of (led_asked_by (texts_of words.now)) result }
{
    let matches = led_matches(alloc, words)?;
    led_asked(alloc, &matches)
}
