// The variables and clauses of a program, before they stand in a theory.
ghost use Rattle.std.specs.Prelude.{◌≡◌, ◌++◌, IfOk};
ghost use Rattle.std.specs.Option.{option_to_list};
ghost use Rattle.theory_build.specs.Plans.{IsPlan};

use crate::atoms::{atom_entries, constraint_clauses};
use crate::bodies::{add_bodies, body_literals, rule_bodies};
use crate::drafts::Draft;
use crate::entries::Entry;
use crate::frames::Frame;
use crate::groups::add_groups;
use crate::heads::heads_of;
use ground_form::GroundProgram;
use std::alloc::{AllocError, Global};
use theory_form::Clause;

// The variables of a program, by what brings them in, and the clauses of its constraints.
#[derive(Drop)]
pub struct Plan {
    pub atoms: Vec<Entry>,
    pub groups: Vec<Entry>,
    pub bodies: Vec<Entry>,
    pub constraints: Vec<Clause>,
}

// The variables and clauses of a program that stands so in a theory.
pub(crate) fn plan_of(alloc: Global, p: &Frame, g: &GroundProgram) -> Result<Plan, AllocError>
    ensures { IfOk result (IsPlan p.now g.now) }
{
    let mut groups = Draft::new(alloc, p.groups_from);
    let guards = add_groups(alloc, p, &mut groups, g)?;
    let guards = guards.as_slice();
    let from = groups.next()?;
    let lists = rule_bodies(alloc, p, g, guards)?;
    let literals = body_literals(alloc, p, g, guards, lists.as_slice(), from)?;
    let heads = heads_of(alloc, p, g, literals.as_slice())?;
    let mut bodies = Draft::new(alloc, from);
    add_bodies(alloc, &mut bodies, lists)?;
    Ok(Plan {
        atoms: atom_entries(alloc, p, g, &heads)?,
        groups: groups.entries,
        bodies: bodies.entries,
        constraints: constraint_clauses(alloc, heads.constraints.as_slice())?,
    })
}

impl Plan {
    // All variables in their order, `truth` behind the atoms where there is one, and the clauses of the constraints.
    pub(crate) fn into_entries(
        self,
        truth: Option<Entry>,
    ) -> Result<(Vec<Entry>, Vec<Clause>), AllocError>
        ensures { IfOk result (λ all. (all.0.items ≡ self.atoms.items ++ (option_to_list truth ++ (self.groups.items ++ self.bodies.items))) × (all.1.items ≡ self.constraints.items)) }
    {
        let Plan {
            mut atoms,
            mut groups,
            mut bodies,
            constraints,
        } = self;
        if let Some(entry) = truth {
            atoms.push(entry)?;
        }
        atoms.append(&mut groups)?;
        atoms.append(&mut bodies)?;
        Ok((atoms, constraints))
    }
}
