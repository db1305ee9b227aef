// How many clauses a run may still learn.
ghost use Rattle.std.specs.Prelude.{◌≡◌, ◌+◌, true, false};

/// How many clauses a run may still learn.
#[derive(Clone, Copy, Debug, PartialEq, Eq)]
pub struct Budget {
    /// So many are left, from 0, which is none, to the greatest `u64`.
    pub left: u64,
}

impl Budget {
    /// Takes one of those that are left, and answers whether there was one: false exactly where none is left, and nothing
    /// changes then.
    pub fn take(&mut self) -> bool
        ensures taken { result ≡ true → self.old.left ≡ self.new.left + 1 }
        ensures spent { result ≡ false → self.old.left ≡ 0 }
        ensures same { result ≡ false → self.new ≡ self.old }
    {
        if self.left == 0 {
            return false;
        }
        self.left -= 1;
        true
    }
}
