// Reading the words.
ghost use Rattle.std.specs.Prelude.{◌≡◌, None, MatchOption, Some, string_bytes};
ghost use Rattle.std.specs.List.{list_all};
ghost use Rattle.ap_base.specs.Readings.{texts_of};
ghost use Rattle.asprin_cli.specs.Words.{are_files, files_of, is_file};

/// The most files of a run.
const MOST_FILES: usize = 10_000;

/// Whether a word can be the name of a file.
fn names_file(word: &str) -> bool
    ensures { result ≡ is_file word.now }
{
    match word.as_bytes() {
        [] => false,
        [first, ..] => *first != b'-',
    }
}

/// Whether each of some words can be the name of a file.
fn name_files(words: &[String]) -> bool
    ensures { result ≡ list_all (λ word. is_file (string_bytes word)) words.now }
{
    words.iter().all(|word| names_file(word.as_str()))
}

/// Whether words can be the names of the files of a run.
#[tactic(auto, using(crate::proofs::Naming::are_files_by))]
fn is_file_list(words: &[String]) -> bool
    ensures { result ≡ are_files (texts_of words.now) }
{
    !words.is_empty() && words.len() <= MOST_FILES && name_files(words)
}

/// The names of the files, where the words are `--sorted -n 0 FILE..`.
pub fn read_words(words: &[String]) -> Option<&[String]>
    ensures { MatchOption result (files_of (texts_of words.now) ≡ None)
        (λ files. files_of (texts_of words.now) ≡ Some (texts_of files.now)) }
{
    match words {
        [sorted, number, all, names @ ..]
            if sorted.as_str() == "--sorted"
                && number.as_str() == "-n"
                && all.as_str() == "0"
                && is_file_list(names) => Some(names),
        _ => None,
    }
}
