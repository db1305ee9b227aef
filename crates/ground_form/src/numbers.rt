//! Lists that are counted from 1.
ghost use Rattle.std.specs.Prelude.{◌≡◌, ◌↔◌, ◌<◌, ◌≤◌, IsTrue};
ghost use Rattle.std.specs.Option.{option_copied};
ghost use Rattle.ground_form.specs.Programs as spec;
ghost use Rattle.ground_form.specs.Ranges.{IsNumberOf};

/// What has this number in a list that is counted from 1.
pub fn numbered<T>(items: &[T], number: u64) -> Option<&T>
    ensures { option_copied result ≡ spec.numbered items.now number }
{
    let place = number.checked_sub(1)?;
    items.get(place as usize)
}

/// Whether a number is one of a list of this length that is counted from 1.
pub fn is_number_of(length: usize, number: u64) -> bool
    ensures { IsTrue result ↔ IsNumberOf length number }
{
    0 < number && number <= length as u64
}
