//! The outermost level of a value, and the number of one.
ghost use Rattle.std.specs.Prelude.{◌≡◌};

use crate::args::Args;
use crate::text::Text;
use std::cmp::Ordering;

/// The number of a value: its place in the table that holds it, counted from 0. `<` and `cmp` on numbers are the order in
/// which the values came, and not the order of values: that is `Terms::compare`.
#[derive(Clone, Copy, Debug, PartialEq, Eq, PartialOrd, Ord, Hash)]
pub struct TermId(pub u64);

/// The outermost level of a value. Its arguments are values of the same table, by their numbers.
#[derive(Debug, Drop, PartialEq, Eq, Hash)]
pub enum Shape {
    /// An integer from -2147483647 to 2147483647.
    Int(i64),
    /// A symbolic constant, by its name.
    Sym(Text),
    /// A string, without its quotes and with nothing escaped.
    Str(Text),
    /// A compound term by its name and arguments. A tuple has the empty name.
    Fun(Text, Args),
}

impl Shape {
    ghost use Rattle.ap_term.specs.Outline.{rank, arguments_of, outline_cmp};

    /// The arguments of a compound term or the members of a tuple. Other values have none.
    pub fn arguments(&self) -> &[TermId]
        ensures { result.now ≡ arguments_of self.now }
    {
        match self {
            Shape::Fun(_, ids) => ids.as_slice(),
            _ => &[],
        }
    }

    // The order of two shapes, where it is settled without the values of their arguments.
    pub(crate) fn compare_outline(&self, other: &Shape) -> Ordering
        ensures { result ≡ outline_cmp self.now other.now }
    {
        match (self, other) {
            (Shape::Int(m), Shape::Int(n)) => m.cmp(n),
            (Shape::Sym(a), Shape::Sym(b)) => a.cmp(b),
            (Shape::Str(s), Shape::Str(t)) => s.cmp(t),
            (Shape::Fun(f, xs), Shape::Fun(g, ys)) => {
                xs.len().cmp(&ys.len()).then_with(|| f.cmp(g))
            }
            _ => self.rank().cmp(&other.rank()),
        }
    }

    // The place of its kind in the order of values.
    fn rank(&self) -> u8
        ensures { result ≡ rank self.now }
    {
        match self {
            Shape::Int(_) => 0,
            Shape::Sym(_) => 1,
            Shape::Str(_) => 2,
            Shape::Fun(..) => 3,
        }
    }
}
