// What the source and the sink in memory have in common.
ghost use Rattle.std.specs.Prelude.{◌≡◌};
ghost use Rattle.ap_base.specs.Counts.{counted};
ghost use Rattle.ap_base.specs.Fakes.{fails_at};

/// Counts a call, and says whether it is one of those that fail.
pub fn next_fails(fails: &[u64], calls: &mut u64) -> bool
    ensures listed { result ≡ fails_at fails.now calls.old }
    ensures counted { calls.new ≡ counted calls.old 1 }
{
    let number = *calls;
    *calls = number.saturating_add(1);
    fails.contains(&number)
}
