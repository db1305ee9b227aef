// Where a program stands in a theory.
ghost use Rattle.std.specs.Prelude.{◌≡◌, ◌++◌, IfOk, OnOk, length, map};
ghost use Rattle.ground_form.specs.Programs.{Parts};
ghost use Rattle.theory_build.specs.Completion.{frame_behind};
ghost use Rattle.theory_build.specs.Frames as spec;

use crate::numbers::sum;
use crate::theories::base_atoms;
use sqlite_items::Items;
use std::alloc::{AllocError, Global};
use theory_form::{Lit, Theory, Var};

// Where a program stands in a theory.
//
// * `before`: how many variables stand before the program's atoms.
// * `block`: the program's number.
// * `truth`: the variable that is true.
// * `groups_from`: the number from which on the variables of the groups stand.
// * `joins`: the literals that are joined to the program's inputs, in their order.
#[derive(Drop)]
pub struct Frame {
    pub before: u64,
    pub block: u64,
    pub truth: u64,
    pub groups_from: u64,
    pub joins: Items<Lit>,
}

impl Frame {
    // Of the base program, with so many atoms.
    pub(crate) fn base(alloc: Global, atoms: u64) -> Result<Frame, AllocError>
        ensures { IfOk result (λ p. (g : Parts) → length g.atoms ≡ atoms → p ≡ spec.base_frame g) }
    {
        Ok(Frame {
            before: 0,
            block: 0,
            truth: sum(atoms, 1)?,
            groups_from: sum(atoms, 2)?,
            joins: Items::new(alloc),
        })
    }

    // Of a program with so many atoms that is appended to a theory.
    pub(crate) fn behind(
        alloc: Global,
        t: &Theory,
        atoms: u64,
        joins: &[Lit],
    ) -> Result<Frame, AllocError>
        ensures { IfOk result (λ p. (g : Parts) → length g.atoms ≡ atoms → p ≡ frame_behind t.now joins.now g) }
    {
        let before = t.var_count();
        Ok(Frame {
            before,
            block: t.blocks(),
            truth: sum(base_atoms(t), 1)?,
            groups_from: sum(sum(before, atoms)?, 1)?,
            joins: Items::from_slice(alloc, joins)?,
        })
    }

    // The literal of an atom's number, or of a negative one.
    pub(crate) fn atom_lit(&self, literal: i64) -> Result<Lit, AllocError>
        ensures { IfOk result (λ l. l ≡ spec.atom_lit self.now literal) }
    {
        let var = sum(self.before, literal.unsigned_abs())?;
        Ok(Lit {
            var: Var(var),
            yes: literal >= 0,
        })
    }

    // Appends the literals of a condition.
    pub(crate) fn push_atom_lits(
        &self,
        lits: &mut Vec<Lit>,
        literals: &[i64],
    ) -> Result<(), AllocError>
        ensures { OnOk result (lits.new.items ≡ lits.old.items ++ map (spec.atom_lit self.now) literals.now) }
    {
        for literal in literals {
            lits.push(self.atom_lit(*literal)?)?;
        }
        Ok(())
    }
}
