// Numbers of variables.
ghost use Rattle.std.specs.Prelude.{◌≡◌, ◌+◌, IfOk};

use std::alloc::AllocError;

// The sum of two numbers. A theory of 2^64 variables fits no memory.
pub(crate) fn sum(m: u64, n: u64) -> Result<u64, AllocError>
    ensures { IfOk result (λ sum. sum ≡ m + n) }
{
    match m.checked_add(n) {
        Some(sum) => Ok(sum),
        None => Err(AllocError),
    }
}
