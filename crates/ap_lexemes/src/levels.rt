// The levels of a statement: outside of all parentheses, and in each pair that is open.
ghost use Rattle.std.specs.Prelude.{◌≡◌, IfOk};
ghost use Rattle.ap_lexemes.specs.Limits.{after, atom_limit, closed, comma_limit, conjunction_depth, deeper, depth_of, ended, formula_limit, is_too_deep, joined, limit_at, member_depth, no_levels, open_limit, with_and, with_member, with_not, with_or};
ghost use Rattle.ap_lexemes.specs.Scanning.{Goes};

use crate::limit::Limit;
use crate::role::Role;
use std::alloc::{AllocError, Global};
use std::marker::Model;

// How many parentheses may be open at once in a statement.
const MOST_OPEN: usize = 32;

// How many commas may stand directly in a pair of parentheses.
const MOST_COMMAS: u8 = 31;

// How deep a formula may be.
const MOST_DEEP: u8 = 64;

/// A level. The depth of a formula is 0 where there is none.
#[derive(Clone, Copy, Debug)]
pub struct Level {
    /// The commas directly in its parentheses; outside of all parentheses they are not counted.
    pub commas: u8,
    /// The depth of what stands before the last `|` of the formula at this level.
    pub disjunction: u8,
    /// The depth of what stands behind that `|`, and before the last `&` behind it.
    pub conjunction: u8,
    /// Whether `not` stands before the last member.
    pub negated: bool,
    /// The depth of the last member, with its `not`.
    pub member: u8,
}

// One more than a depth. All that is too deep is alike.
fn deeper(depth: u8) -> u8
    ensures { result ≡ deeper depth }
{
    if depth <= MOST_DEEP { depth + 1 } else { depth }
}

// The depth of two formulas with a sign between them, or of the one that is there.
fn joined(left: u8, right: u8) -> u8
    ensures { result ≡ joined left right }
{
    if left == 0 {
        right
    } else if right == 0 {
        left
    } else {
        deeper(left.max(right))
    }
}

// The depth of a member whose formula has this depth.
fn member_depth(negated: bool, depth: u8) -> u8
    ensures { result ≡ member_depth negated depth }
{
    if negated { deeper(depth) } else { depth }
}

fn is_too_deep(depth: u8) -> bool
    ensures { result ≡ is_too_deep depth }
{
    depth > MOST_DEEP
}

impl Level {
    // A level without formulas, behind some commas.
    fn new(commas: u8) -> Level
        ensures { result ≡ ended commas }
    {
        Level {
            commas,
            disjunction: 0,
            conjunction: 0,
            negated: false,
            member: 0,
        }
    }

    // The depth of the last conjunction so far.
    fn conjunction_depth(&self) -> u8
        ensures { result ≡ conjunction_depth self.now }
    {
        joined(self.conjunction, self.member)
    }

    // The depth of the formula so far.
    fn depth(&self) -> u8
        ensures { result ≡ depth_of self.now }
    {
        joined(self.disjunction, self.conjunction_depth())
    }

    // Behind a member, whose formula has this depth.
    fn with_member(self, depth: u8) -> Level
        ensures { result ≡ with_member self depth }
    {
        Level {
            member: member_depth(self.negated, depth),
            ..self
        }
    }

    // Behind `not`.
    fn with_not(self) -> Level
        ensures { result ≡ with_not self }
    {
        Level {
            negated: true,
            member: 0,
            ..self
        }
    }

    // Behind `&`.
    fn with_and(self) -> Level
        ensures { result ≡ with_and self }
    {
        Level {
            conjunction: self.conjunction_depth(),
            negated: false,
            member: 0,
            ..self
        }
    }

    // Behind `|`.
    fn with_or(self) -> Level
        ensures { result ≡ with_or self }
    {
        Level {
            disjunction: self.depth(),
            conjunction: 0,
            negated: false,
            member: 0,
            ..self
        }
    }

    // Behind a `)`, where what stood in the parentheses has this depth.
    fn closed(self, depth: u8) -> Level
        ensures { result ≡ closed self depth }
    {
        if self.member == 0 {
            self.with_member(depth)
        } else {
            self
        }
    }

    // The limit at the last token of a member.
    fn limit(&self, next: Role) -> Option<Limit>
        ensures { result ≡ formula_limit self.now next }
    {
        let too_deep = is_too_deep(self.conjunction_depth())
            || (next != Role::And && is_too_deep(self.depth()));
        if too_deep { Some(Limit::Formula) } else { None }
    }

    // The limit at the last token of an atom's name.
    fn name_limit(&self, next: Role) -> Option<Limit>
        ensures { result ≡ atom_limit self.now next }
    {
        match next {
            Role::Open => None,
            other => self.limit(other),
        }
    }
}

/// The levels of a statement, from the one outside of all parentheses to the innermost one. Contracts see the levels around
/// the innermost one from the inside.
#[derive(Drop)]
pub struct Levels {
    level: Level,
    outer: Vec<Level>,
}

impl Model for Levels {
    ghost use Rattle.std.specs.Prelude.{reverse};
    ghost use Rattle.ap_lexemes.specs.Limits.{Levels};

    ghost Value = { Levels };

    ghost view = { λ s. record { level = s.level; outer = reverse s.outer.items } };
}

impl Levels {
    /// The levels at the beginning of a statement: that outside of all parentheses.
    pub fn new(alloc: Global) -> Levels
        ensures { result ≡ no_levels }
    {
        Levels {
            level: Level::new(0),
            outer: Vec::new(alloc),
        }
    }

    /// Goes on behind a token, or answers the limit that stands at it. It answers nothing where none does, and fails for want
    /// of memory alone.
    pub fn read(&mut self, token: Role, next: Role) -> Result<Option<Limit>, AllocError>
        ensures found { IfOk result (λ found. found ≡ limit_at self.old token next) }
        ensures behind { IfOk result (Goes (after self.old token) self.new) }
    {
        match token {
            Role::Name => Ok(self.name(next)),
            Role::Open => self.open(),
            Role::Close => Ok(self.close(next)),
            Role::Comma => Ok(self.comma()),
            Role::Dot => {
                self.dot();
                Ok(None)
            }
            Role::Not => {
                self.level = self.level.with_not();
                Ok(None)
            }
            Role::And => {
                self.level = self.level.with_and();
                Ok(None)
            }
            Role::Or => {
                self.level = self.level.with_or();
                Ok(None)
            }
            Role::Other => {
                self.level = Level::new(self.level.commas);
                Ok(None)
            }
        }
    }

    fn name(&mut self, next: Role) -> Option<Limit>
        ensures found { result ≡ limit_at self.old Role.Name next }
        ensures behind { self.new ≡ after self.old Role.Name }
    {
        self.level = self.level.with_member(1);
        self.level.name_limit(next)
    }

    fn open(&mut self) -> Result<Option<Limit>, AllocError>
        ensures found { IfOk result (λ found. found ≡ open_limit self.old.outer) }
        ensures behind { IfOk result (Goes (after self.old Role.Open) self.new) }
    {
        if self.outer.len() >= MOST_OPEN {
            return Ok(Some(Limit::Nesting));
        }
        self.outer.push(self.level)?;
        self.level = Level::new(0);
        Ok(None)
    }

    fn close(&mut self, next: Role) -> Option<Limit>
        ensures found { result ≡ limit_at self.old Role.Close next }
        ensures behind { self.new ≡ after self.old Role.Close }
    {
        self.level = match self.outer.pop() {
            Some(around) => around.closed(self.level.depth()),
            None => Level::new(0),
        };
        self.level.limit(next)
    }

    fn comma(&mut self) -> Option<Limit>
        ensures found { result ≡ comma_limit self.old.level self.old.outer }
        ensures behind { Goes (after self.old Role.Comma) self.new result }
    {
        if self.outer.is_empty() {
            self.level = Level::new(0);
            return None;
        }
        if self.level.commas >= MOST_COMMAS {
            return Some(Limit::Arity);
        }
        self.level = Level::new(self.level.commas + 1);
        None
    }

    fn dot(&mut self)
        ensures { self.new ≡ no_levels }
    {
        self.level = Level::new(0);
        self.outer.clear();
    }
}
