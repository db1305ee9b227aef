// Constructs that are not supported.
ghost use Rattle.std.specs.Prelude.{◌≡◌, Some};
ghost use Rattle.ap_lexemes.specs.Constructs.{name_of};

use std::fmt;

/// A construct of other answer set solvers that is not supported.
#[derive(Clone, Copy, Debug, PartialEq, Eq)]
pub enum Construct {
    /// `#external`
    External,
    /// `#script`
    Script,
    /// `#include`
    Include,
    /// `#theory` and `&`
    Theory,
    /// `#minimize` and `#maximize`
    Minimize,
    /// `:~`
    Weak,
    /// `|`, and `;` outside of parentheses
    Disjunction,
    /// `;` in parentheses
    Pool,
    /// `{`
    Braces,
    /// `:-` in a type's part
    Constraint,
    /// `#min` and `#max`
    MinMax,
    /// `#inf` and `#sup`
    Infimum,
    /// `#true` and `#false`
    Truth,
    /// `#heuristic`
    Heuristic,
    /// `#edge`
    Edge,
    /// `#project`
    Project,
    /// `@`
    Function,
    /// `?`, `^` and `~`
    Bits,
    /// `**`
    Power,
    /// `%*`
    Comment,
}

impl Construct {
    /// Its name, as messages have it.
    pub fn name(&self) -> &'static str
        ensures { result.now ≡ name_of self.now }
    {
        match self {
            Construct::External => "external",
            Construct::Script => "script",
            Construct::Include => "include",
            Construct::Theory => "theory",
            Construct::Minimize => "minimize",
            Construct::Weak => "weak",
            Construct::Disjunction => "disjunction",
            Construct::Pool => "pool",
            Construct::Braces => "braces",
            Construct::Constraint => "constraint",
            Construct::MinMax => "minmax",
            Construct::Infimum => "infimum",
            Construct::Truth => "truth",
            Construct::Heuristic => "heuristic",
            Construct::Edge => "edge",
            Construct::Project => "project",
            Construct::Function => "function",
            Construct::Bits => "bits",
            Construct::Power => "power",
            Construct::Comment => "comment",
        }
    }
}

impl fmt::Display for Construct {
    ghost output = { λ c. Some (name_of c) };

    fn fmt<W: fmt::Write>(&self, f: &mut fmt::Formatter<W>) -> fmt::Result {
        f.write_str(self.name())
    }
}
