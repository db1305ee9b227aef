// What is wrong with a name.
ghost use Rattle.std.specs.Prelude.{◌≡◌, Some};
ghost use Rattle.pref_bind.specs.Causes.{name_of};

use std::fmt;

/// What is wrong with a name. At one statement the first of these counts.
#[derive(Clone, Copy, Debug, PartialEq, Eq)]
pub enum Cause {
    /// The type of a preference statement is not built in, and no part is of it.
    Type,
    /// A statement that is named or optimised is not declared.
    Statement,
    /// A preference statement before this one has its name.
    Twice,
    /// An `#optimize` stands before this one.
    Optimize,
    /// A `#const` before this one has its name.
    Const,
    /// A part is of a type that is built in.
    Reserved,
}

impl Cause {
    /// Its name, as messages have it.
    pub fn name(&self) -> &'static str
        ensures { result.now ≡ name_of self.now }
    {
        match self {
            Cause::Type => "type",
            Cause::Statement => "statement",
            Cause::Twice => "twice",
            Cause::Optimize => "optimize",
            Cause::Const => "const",
            Cause::Reserved => "reserved",
        }
    }
}

impl fmt::Display for Cause {
    ghost output = { λ c. Some (name_of c) };

    fn fmt<W: fmt::Write>(&self, f: &mut fmt::Formatter<W>) -> fmt::Result {
        f.write_str(self.name())
    }
}
