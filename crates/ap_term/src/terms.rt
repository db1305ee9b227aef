//! The table of terms.
ghost use Rattle.std.specs.Prelude.{◌≡◌, ◌<◌, ◌≤◌, ◌↔◌, [], ◌++◌, ◌==◌, ◌&&◌, length, take, map, All, string_bytes, OnOk, OnErr, IfOk, IsErrOf, IsTrue, MatchOption};
ghost use Rattle.ap_term.specs.Value.{depth, deepest, arguments_from};
ghost use Rattle.ap_term.specs.Order.{value_cmp};
ghost use Rattle.ap_term.specs.Difference.{DifferFirstAt};
ghost use Rattle.ap_term.specs.Printed.{Extends, text};
ghost use Rattle.ap_term.specs.Table.{IsIdOf, IsShapeOver, value_at, value_of, insert_value, KeepsIds, HasDistinctValues};

use crate::fault::TermFault;
use crate::shape::{Shape, TermId};
use crate::written::{push_comma_if, push_quoted};
use indexmap::IndexMap;
use itoa::Buffer;
use std::alloc::{AllocError, Global};
use std::cmp::Ordering;
use std::marker::Model;

// No value is deeper.
const MAX_DEPTH: u8 = 128;

/// A table of ground terms. It holds each value once, and the value's number is its place.
///
/// Contracts see the list of the values, in the order in which they came. Values are distinct, no deeper than 128 levels, and
/// stand behind their arguments.
#[derive(Drop)]
pub struct Terms {
    // Each value by its outermost level, with its depth. The arguments stand before it.
    nodes: IndexMap<Shape, u8>,
}

impl Model for Terms {
    ghost use Rattle.std.specs.Prelude.{List, []};
    ghost use Rattle.std.specs.Coded.{coded_list};
    ghost use Rattle.ap_term.specs.Value.{Value as Term, value_code};
    ghost use Rattle.ap_term.specs.Built.{values_from, IsBuilt};

    ghost Value = { List Term };

    ghost coded = { coded_list value_code };

    ghost view = { λ t. values_from [] t.nodes.entries };

    ghost invariant = { λ t. IsBuilt [] t.nodes.entries };
}

impl Terms {
    /// An empty table.
    pub fn new(alloc: Global) -> Terms
        ensures { result ≡ [] }
    {
        Terms {
            nodes: IndexMap::new(alloc),
        }
    }

    /// How many values the table holds. They have the numbers below this one, each value one of them.
    pub fn len(&self) -> u64
        ensures count { result ≡ length self.now }
        ensures distinct { HasDistinctValues self.now }
    {
        self.nodes.len() as u64
    }

    /// Whether the table holds no value.
    pub fn is_empty(&self) -> bool
        ensures { IsTrue result ↔ (length self.now ≡ 0) }
    {
        self.len() == 0
    }

    /// The depth of a value: 1 without arguments, and else one more than its deepest argument's.
    pub fn depth(&self, id: TermId) -> u8
        requires { IsIdOf self.now id }
        ensures exact { result ≡ depth (value_at self.now id) }
        ensures bound { result ≤ 128 }
    {
        self.nodes[id.0 as usize]
    }

    /// The outermost level of a value.
    pub fn shape(&self, id: TermId) -> &Shape
        requires { IsIdOf self.now id }
        ensures value { value_of self.now result.now ≡ value_at self.now id }
        ensures over { IsShapeOver (take id.0 self.now) result.now }
        ensures distinct { HasDistinctValues self.now }
    {
        self.nodes.get_index(id.0 as usize).unwrap().0
    }

    /// The number of the value with this outermost level, which is put into the table where it is missing.
    ///
    /// `TooDeep` where the value is deeper than 128 levels; `Memory` only where there is no memory for a value that is missing.
    /// Both leave the table as it was.
    pub fn intern(&mut self, shape: Shape) -> Result<TermId, TermFault>
        requires { IsShapeOver self.old shape }
        ensures id { IfOk result (λ id. IsIdOf self.new id) }
        ensures value { IfOk result (λ id. value_at self.new id ≡ value_of self.old shape) }
        ensures table { OnOk result (self.new ≡ insert_value self.old (value_of self.old shape)) }

        // A refusal.
        ensures too_deep { IsErrOf result TermFault.TooDeep ↔ (128 < depth (value_of self.old shape)) }
        ensures err { OnErr result (self.new ≡ self.old) }

        // What stands in either case.
        ensures kept { KeepsIds self.old self.new }
        ensures distinct { HasDistinctValues self.new }
    {
        let depth = self.depth_of(&shape);
        if depth > MAX_DEPTH {
            return Err(TermFault::TooDeep);
        }
        let Ok((place, _)) = self.nodes.insert_full(shape, depth) else {
            return Err(TermFault::Memory);
        };
        Ok(TermId(place as u64))
    }

    /// The order of two values: integers by number, then constants by name, then strings, then compound terms and tuples by the number
    /// of their arguments, by name and by their arguments from first to last. Names and strings go by their bytes. It takes no memory.
    pub fn compare(&self, a: TermId, b: TermId) -> Ordering
        requires a { IsIdOf self.now a }
        requires b { IsIdOf self.now b }
        ensures order { result ≡ value_cmp (value_at self.now a) (value_at self.now b) }
        ensures equal { (result ≡ Ordering.Equal) ↔ (a ≡ b) }
    {
        if a == b {
            return Ordering::Equal;
        }
        let (s, t) = (self.shape(a), self.shape(b));
        match s.compare_outline(t) {
            Ordering::Equal => match first_difference(s.arguments(), t.arguments()) {
                Some((x, y)) => self.compare(x, y),
                None => Ordering::Equal,
            },
            unequal => unequal,
        }
    }

    /// Appends the text of a value. Without memory for all of it, nothing is appended.
    pub fn print(&self, id: TermId, out: &mut String) -> Result<(), AllocError>
        requires { IsIdOf self.now id }
        ensures ok { OnOk result (string_bytes out.new ≡ string_bytes out.old ++ text (value_at self.now id)) }
        ensures err { OnErr result (string_bytes out.new ≡ string_bytes out.old) }
    {
        let start = out.len();
        let printed = self.append(id, out);
        if printed.is_err() {
            out.truncate(start);
        }
        printed
    }

    // Appends the text of a value, or on an `Err` some front of it.
    fn append(&self, id: TermId, out: &mut String) -> Result<(), AllocError>
        requires { IsIdOf self.now id }
        ensures ok { OnOk result (string_bytes out.new ≡ string_bytes out.old ++ text (value_at self.now id)) }
        ensures extends { Extends (string_bytes out.old) (string_bytes out.new) }
    {
        match self.shape(id) {
            Shape::Int(number) => out.push_str(Buffer::new().format(*number)),
            Shape::Sym(name) => out.push_str(name.as_str()),
            Shape::Str(string) => push_quoted(string.as_str(), out),
            Shape::Fun(name, ids) => {
                out.push_str(name.as_str())?;
                out.push('(')?;
                for (place, argument) in ids.as_slice().iter().enumerate() {
                    push_comma_if(place > 0, out)?;
                    self.append(*argument, out)?;
                }
                push_comma_if(is_tuple_of_one(name.as_str(), ids.as_slice()), out)?;
                out.push(')')
            }
        }
    }

    // The depth of the value of a shape.
    fn depth_of(&self, shape: &Shape) -> u8
        requires { IsShapeOver self.now shape.now }
        ensures { result ≡ depth (value_of self.now shape.now) }
    {
        match shape {
            Shape::Fun(_, ids) => self.deepest(ids.as_slice()) + 1,
            _ => 1,
        }
    }

    // The depth of the deepest of these values, or 0 where there is none.
    fn deepest(&self, ids: &[TermId]) -> u8
        requires { All (IsIdOf self.now) ids.now }
        ensures exact { result ≡ deepest (arguments_from (map (value_at self.now) ids.now)) }
        ensures bound { result ≤ 128 }
    {
        let mut most = 0;
        for id in ids {
            most = self.depth(*id).max(most);
        }
        most
    }
}

// Whether a name and arguments are those of a tuple of one member.
fn is_tuple_of_one(name: &str, ids: &[TermId]) -> bool
    ensures { result ≡ (length name.now == 0 && length ids.now == 1) }
{
    name.is_empty() && ids.len() == 1
}

// The first place at which two lists of the same length differ.
fn first_difference(xs: &[TermId], ys: &[TermId]) -> Option<(TermId, TermId)>
    requires { length xs.now ≡ length ys.now }
    ensures { MatchOption result (xs.now ≡ ys.now) (λ p. DifferFirstAt xs.now ys.now p.0 p.1) }
{
    for (x, y) in xs.iter().zip(ys) {
        if x != y {
            return Some((*x, *y));
        }
    }
    None
}
