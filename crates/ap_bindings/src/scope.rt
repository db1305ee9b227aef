// The first unbound occurrence in a rule or an element.
ghost use Rattle.std.specs.Prelude.{◌≡◌, ◌++◌, ◌∷◌, [], ℕ, List, false, flat_map, OnOk, IfOk};
ghost use Rattle.ap_pieces.specs.declared.pieces.Side.TheVariants as side;
ghost use Rattle.ap_pieces.specs.Pieces.{side_occurrences};
ghost use Rattle.ap_pieces.specs.Bound.{has_name, has_all, shown, is_bound_there, unbound, unbound_arguments, unbound_side, unbound_mention, unbound_part};
ghost use Rattle.ap_bindings.specs.Searches.{assumed_in, bound_inside, first_name};

use crate::binding::Bound;
use crate::names::NameSet;
use ap_pieces::{Mention, Occurrence, Side};
use ap_syntax::Text;
use std::alloc::{AllocError, Global};

/// What is bound in a part.
#[derive(Drop)]
pub(crate) struct Scope<'a> {
    /// The global variables.
    pub(crate) globals: &'a NameSet,
    /// Those of them that are bound.
    pub(crate) outside: &'a Bound,
    /// What the part's own condition binds.
    pub(crate) within: &'a Bound,
}

impl Scope<'_> {
    /// Whether the part's condition takes the variable as bound.
    fn takes(&self, name: &Text) -> bool
        ensures { result ≡ assumed_in self.now name.now }
    {
        self.globals.contains(name) || self.within.contains(name)
    }

    /// Whether the variable is bound.
    fn has(&self, name: &Text) -> bool
        ensures { result ≡ bound_inside self.now name.now }
    {
        if self.globals.contains(name) {
            self.outside.contains(name)
        } else {
            self.takes(name)
        }
    }

    fn takes_any(&self, name: &Option<Text>) -> bool
        ensures { result ≡ has_name (assumed_in self.now) name.now }
    {
        match name {
            Some(name) => self.takes(name),
            None => false,
        }
    }

    fn has_any(&self, name: &Option<Text>) -> bool
        ensures { result ≡ has_name (bound_inside self.now) name.now }
    {
        match name {
            Some(name) => self.has(name),
            None => false,
        }
    }

    /// Whether the occurrence is bound among the arguments of a positive atom.
    fn has_argument(&self, occurrence: &Occurrence) -> bool
        ensures { result ≡ is_bound_there (bound_inside self.now) occurrence.now.is_argument occurrence.now.name }
    {
        match &occurrence.name {
            Some(name) => self.has(name),
            None => occurrence.is_argument,
        }
    }

    fn takes_all(&self, occurrences: &[Occurrence]) -> bool
        ensures { result ≡ has_all (assumed_in self.now) occurrences.now }
    {
        for occurrence in occurrences {
            if !self.takes_any(&occurrence.name) {
                return false;
            }
        }
        true
    }

    /// Whether the condition takes all variables of a side as bound.
    fn takes_side(&self, side: &Side) -> bool
        ensures { result ≡ has_all (assumed_in self.now) (side_occurrences side.now) }
    {
        match side {
            Side::Variable(name) => self.takes(name),
            Side::Any => false,
            Side::Compound(occurrences) => self.takes_all(occurrences.as_slice()),
        }
    }
}

/// The name of a variable; `_` for one without a name.
fn shown_name(alloc: Global, name: &Option<Text>) -> Result<Text, AllocError>
    ensures { IfOk result (λ text. text ≡ shown name.now) }
{
    match name {
        Some(name) => name.copy(alloc),
        None => Text::new(alloc, "_"),
    }
}

/// The first of these occurrences that is not bound.
pub(crate) fn first_unbound_in(
    alloc: Global,
    scope: &Scope<'_>,
    occurrences: &[Occurrence],
) -> Result<Option<Text>, AllocError>
    ensures { IfOk result (λ name. name ≡ first_name (unbound (bound_inside scope.now) occurrences.now)) }
{
    for occurrence in occurrences {
        if !scope.has_any(&occurrence.name) {
            return Ok(Some(shown_name(alloc, &occurrence.name)?));
        }
    }
    Ok(None)
}

/// The first of the arguments of a positive atom that is not bound.
fn first_unbound_argument(
    alloc: Global,
    scope: &Scope<'_>,
    occurrences: &[Occurrence],
) -> Result<Option<Text>, AllocError>
    ensures { IfOk result (λ name. name ≡ first_name (unbound_arguments (bound_inside scope.now) occurrences.now)) }
{
    for occurrence in occurrences {
        if !scope.has_argument(occurrence) {
            return Ok(Some(shown_name(alloc, &occurrence.name)?));
        }
    }
    Ok(None)
}

fn unbound_variable(
    alloc: Global,
    scope: &Scope<'_>,
    name: &Text,
) -> Result<Option<Text>, AllocError>
    ensures { IfOk result (λ text. text ≡ first_name (unbound (bound_inside scope.now) (side_occurrences (side.Variable name.now)))) }
{
    if scope.has(name) {
        Ok(None)
    } else {
        Ok(Some(name.copy(alloc)?))
    }
}

fn unbound_any(alloc: Global, scope: &Scope<'_>, other: &Side) -> Result<Option<Text>, AllocError>
    ensures { IfOk result (λ text. text ≡ first_name (unbound_side (assumed_in scope.now) (bound_inside scope.now) side.Any other.now)) }
{
    if scope.takes_side(other) {
        Ok(None)
    } else {
        Ok(Some(Text::new(alloc, "_")?))
    }
}

/// The first occurrence in one side of `=` that is not bound.
pub(crate) fn first_unbound_side(
    alloc: Global,
    scope: &Scope<'_>,
    side: &Side,
    other: &Side,
) -> Result<Option<Text>, AllocError>
    ensures { IfOk result (λ name. name ≡ first_name (unbound_side (assumed_in scope.now) (bound_inside scope.now) side.now other.now)) }
{
    match side {
        Side::Variable(name) => unbound_variable(alloc, scope, name),
        Side::Any => unbound_any(alloc, scope, other),
        Side::Compound(occurrences) => first_unbound_in(alloc, scope, occurrences.as_slice()),
    }
}

fn first_unbound_sides(
    alloc: Global,
    scope: &Scope<'_>,
    left: &Side,
    right: &Side,
) -> Result<Option<Text>, AllocError>
    ensures { IfOk result (λ name. name ≡ first_name (unbound_side (assumed_in scope.now) (bound_inside scope.now) left.now right.now ++ unbound_side (assumed_in scope.now) (bound_inside scope.now) right.now left.now)) }
{
    match first_unbound_side(alloc, scope, left, right)? {
        Some(name) => Ok(Some(name)),
        None => first_unbound_side(alloc, scope, right, left),
    }
}

/// The first occurrence in a literal that binds which is not bound.
pub(crate) fn first_unbound_mention(
    alloc: Global,
    scope: &Scope<'_>,
    mention: &Mention,
) -> Result<Option<Text>, AllocError>
    ensures { IfOk result (λ name. name ≡ first_name (unbound_mention (assumed_in scope.now) (bound_inside scope.now) mention.now)) }
{
    match mention {
        Mention::Atom(occurrences) => first_unbound_argument(alloc, scope, occurrences.as_slice()),
        Mention::Equal(left, right) => first_unbound_sides(alloc, scope, left, right),
        Mention::Other(occurrences) => first_unbound_in(alloc, scope, occurrences.as_slice()),
    }
}

fn first_unbound_condition(
    alloc: Global,
    scope: &Scope<'_>,
    condition: &[Mention],
) -> Result<Option<Text>, AllocError>
    ensures { IfOk result (λ name. name ≡ first_name (flat_map (unbound_mention (assumed_in scope.now) (bound_inside scope.now)) condition.now)) }
{
    for mention in condition {
        if let Some(name) = first_unbound_mention(alloc, scope, mention)? {
            return Ok(Some(name));
        }
    }
    Ok(None)
}

/// The first occurrence in a part that is not bound.
pub(crate) fn first_unbound_part(
    alloc: Global,
    scope: &Scope<'_>,
    occurrences: &[Occurrence],
    condition: &[Mention],
) -> Result<Option<Text>, AllocError>
    ensures { IfOk result (λ name. name ≡ first_name (unbound_part (assumed_in scope.now) (bound_inside scope.now) occurrences.now condition.now)) }
{
    match first_unbound_in(alloc, scope, occurrences)? {
        Some(name) => Ok(Some(name)),
        None => first_unbound_condition(alloc, scope, condition),
    }
}
