// The first of those that fail, in the order of the texts.
ghost use Rattle.std.specs.Prelude.{◌≡◌};
ghost use Rattle.ap_bindings.specs.Texts.{is_earlier, earlier_of, first_failing};

/// One that fails.
#[derive(Debug, Drop)]
pub struct Failing<T> {
    /// The number of its file.
    pub file: u32,
    /// The byte of the text at which it begins.
    pub at: u32,
    /// What is told of it.
    pub what: T,
}

/// Whether the place of the one is before that of the other.
fn is_before<T>(one: &Failing<T>, other: &Failing<T>) -> bool
    ensures { result ≡ is_earlier one.now other.now }
{
    one.file < other.file || (one.file == other.file && one.at < other.at)
}

fn earlier_failing<T: Drop>(one: Failing<T>, other: Failing<T>) -> Failing<T>
    ensures { result ≡ earlier_of one other }
{
    if is_before(&other, &one) { other } else { one }
}

/// The first of those that fail in two lists, the one before the other. `one` and `other` are the first in each of them.
pub fn earlier<T: Drop>(one: Option<Failing<T>>, other: Option<Failing<T>>) -> Option<Failing<T>>
    ensures { result ≡ first_failing one other }
{
    match (one, other) {
        (Some(one), Some(other)) => Some(earlier_failing(one, other)),
        (Some(one), None) => Some(one),
        (None, other) => other,
    }
}
