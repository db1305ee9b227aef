// The rules by their heads.
ghost use Rattle.std.specs.Prelude.{◌≡◌, ◌-◌, ◌++◌, [], ◌∷◌, IfOk, OnOk, length, map, slice_index_or};
ghost use Rattle.ground_form.specs.Ranges.{IsHeadOf, IsNumberOf};
ghost use Rattle.std.specs.List.{range_with_len};
ghost use Rattle.theory_build.specs.Bodies.{body_lit, only_if};
ghost use Rattle.theory_build.specs.Heads as spec;
ghost use Rattle.theory_form.specs.declared.literals.Lit.{Lit as Literal};

use crate::frames::Frame;
use ground_form::{AtomId, BodyId, GroundProgram, Head};
use sqlite_items::Items;
use std::alloc::{AllocError, Global};
use theory_form::Lit;

// What an atom is supported by: the literals that are joined to it, the bodies of its rules, and the bodies of those of
// them that are no choices. A body stands there once for each rule.
#[derive(Drop)]
pub struct Supports {
    pub joined: Items<Lit>,
    pub allowing: Items<Lit>,
    pub forcing: Items<Lit>,
}

impl Supports {
    // Of an atom without rules, to which nothing is joined.
    fn new(alloc: Global) -> Supports
        ensures { result ≡ spec.no_supports }
    {
        Supports {
            joined: Items::new(alloc),
            allowing: Items::new(alloc),
            forcing: Items::new(alloc),
        }
    }

    // Adds the body of a rule.
    fn add(&mut self, forces: bool, body: Lit) -> Result<(), AllocError>
        ensures { OnOk result (self.new ≡ record self.old { allowing = self.old.allowing ++ body ∷ []; forcing = self.old.forcing ++ only_if forces body }) }
    {
        self.allowing.push(body)?;
        if forces {
            self.forcing.push(body)?;
        }
        Ok(())
    }
}

// The supports of each atom, and the bodies of the constraints.
#[derive(Drop)]
pub struct Heads {
    pub atoms: Vec<Supports>,
    pub constraints: Vec<Lit>,
}

impl Heads {
    // So many atoms without supports.
    fn new(alloc: Global, atoms: usize) -> Result<Heads, AllocError>
        ensures atoms { IfOk result (λ heads. heads.atoms.items ≡ map (λ k. spec.no_supports) (range_with_len 0 atoms)) }
        ensures constraints { IfOk result (λ heads. heads.constraints.items ≡ []) }
    {
        let atoms = (0..atoms).map(|_| Supports::new(alloc)).collect(alloc)?;
        Ok(Heads {
            atoms,
            constraints: Vec::new(alloc),
        })
    }

    // Joins a literal to an atom.
    fn join(&mut self, input: AtomId, join: Lit) -> Result<(), AllocError>
        requires { IsNumberOf (length self.old.atoms.items) input.0 }
        ensures { OnOk result (spec.AddsJoin self.old self.new input.0 join) }
    {
        let supports = &mut self.atoms[input.0 as usize - 1];
        supports.joined.push(join)
    }

    // Adds the body of a rule for an atom.
    fn add_atom(&mut self, atom: AtomId, forces: bool, body: Lit) -> Result<(), AllocError>
        requires { IsNumberOf (length self.old.atoms.items) atom.0 }
        ensures { OnOk result (spec.AddsAtom self.old self.new atom.0 forces body) }
    {
        let supports = &mut self.atoms[atom.0 as usize - 1];
        supports.add(forces, body)
    }

    // Adds the body of a rule.
    pub(crate) fn add(&mut self, head: Head, body: Lit) -> Result<(), AllocError>
        requires { IsHeadOf (length self.old.atoms.items) head }
        ensures { OnOk result (spec.AddsRule self.old self.new head body) }
    {
        match head {
            Head::One(atom) => self.add_atom(atom, true, body),
            Head::Choice(atom) => self.add_atom(atom, false, body),
            Head::Nothing => {
                self.constraints.push(body)?;
                Ok(())
            }
        }
    }
}

// The literals that are joined to the atoms, and no rules.
fn joined_heads(alloc: Global, p: &Frame, g: &GroundProgram) -> Result<Heads, AllocError>
    ensures { IfOk result (spec.HasHeads p.now g.now []) }
{
    let mut heads = Heads::new(alloc, g.atoms().len())?;
    for (place, input) in g.inputs().iter().enumerate() {
        if let Some(join) = p.joins.get(place) {
            heads.join(*input, *join)?;
        }
    }
    Ok(heads)
}

// The literal of a body.
fn literal_of(literals: &[Lit], body: BodyId) -> Lit
    requires { IsNumberOf (length literals.now) body.0 }
    ensures { (d : Literal) → result ≡ slice_index_or literals.now (body.0 - 1) d }
{
    literals[body.0 as usize - 1]
}

// The rules of a program by their heads. The literals are those of its bodies, by number.
pub(crate) fn heads_of(
    alloc: Global,
    p: &Frame,
    g: &GroundProgram,
    literals: &[Lit],
) -> Result<Heads, AllocError>
    requires { literals.now ≡ map (body_lit p.now g.now) (range_with_len 1 (length g.now.bodies)) }
    ensures { IfOk result (spec.HasHeads p.now g.now g.now.rules) }
{
    let mut heads = joined_heads(alloc, p, g)?;
    for rule in g.rules() {
        heads.add(rule.head, literal_of(literals, rule.body))?;
    }
    Ok(heads)
}
