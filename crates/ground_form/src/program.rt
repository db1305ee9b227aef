//! Ground programs.
ghost use Rattle.std.specs.Prelude.{◌≡◌, Contains, Some, IfSome, IfNone};
ghost use Rattle.ground_form.specs.Programs.{numbered};
ghost use Rattle.ground_form.specs.Ranges.{IsInRange};

use crate::atoms::AtomId;
use crate::bodies::Body;
use crate::groups::Group;
use crate::rules::GroundRule;
use ap_term::TermId;
use std::marker::Model;

/// A ground program: its atoms, rules, bodies, groups and inputs. Its numbers are in range: each atom, body and group that
/// is named is there, and so is each guard that a body uses. No atom stands twice, the absolute values of the weights of
/// a group add up to less than 2^52, and the number of a guard is from -2147483647 to 2147483647.
#[derive(Debug, Drop)]
pub struct GroundProgram {
    atoms: Vec<TermId>,
    rules: Vec<GroundRule>,
    bodies: Vec<Body>,
    groups: Vec<Group>,
    inputs: Vec<AtomId>,
}

impl Model for GroundProgram {
    ghost use Rattle.ground_form.specs.Programs.{Parts};
    ghost use Rattle.ground_form.specs.Ranges.{IsInRange};

    ghost Value = { Parts };

    ghost view = { λ g. record { atoms = g.atoms.items; rules = g.rules.items; bodies = g.bodies.items; groups = g.groups.items; inputs = g.inputs.items } };

    ghost invariant = { λ g. IsInRange (record { atoms = g.atoms.items; rules = g.rules.items; bodies = g.bodies.items; groups = g.groups.items; inputs = g.inputs.items }) };
}

impl GroundProgram {
    /// The program of these lists. It takes no memory. `is_in_range` tells whether the lists are those of a program.
    pub fn new(
        atoms: Vec<TermId>,
        rules: Vec<GroundRule>,
        bodies: Vec<Body>,
        groups: Vec<Group>,
        inputs: Vec<AtomId>,
    ) -> GroundProgram
        requires { IsInRange (record { atoms = atoms.items; rules = rules.items; bodies = bodies.items; groups = groups.items; inputs = inputs.items }) }
        ensures { result ≡ record { atoms = atoms.items; rules = rules.items; bodies = bodies.items; groups = groups.items; inputs = inputs.items } }
    {
        GroundProgram {
            atoms,
            rules,
            bodies,
            groups,
            inputs,
        }
    }

    /// The atoms, by number.
    pub fn atoms(&self) -> &[TermId]
        ensures value { result.now ≡ self.now.atoms }
        ensures in_range { IsInRange self.now }
    {
        self.atoms.as_slice()
    }

    /// The rules.
    pub fn rules(&self) -> &[GroundRule]
        ensures value { result.now ≡ self.now.rules }
        ensures in_range { IsInRange self.now }
    {
        self.rules.as_slice()
    }

    /// The bodies, by number.
    pub fn bodies(&self) -> &[Body]
        ensures value { result.now ≡ self.now.bodies }
        ensures in_range { IsInRange self.now }
    {
        self.bodies.as_slice()
    }

    /// The groups, by number.
    pub fn groups(&self) -> &[Group]
        ensures value { result.now ≡ self.now.groups }
        ensures in_range { IsInRange self.now }
    {
        self.groups.as_slice()
    }

    /// The atoms that may be handed in as facts.
    pub fn inputs(&self) -> &[AtomId]
        ensures value { result.now ≡ self.now.inputs }
        ensures in_range { IsInRange self.now }
    {
        self.inputs.as_slice()
    }

    /// The number of an atom. None exactly where the program has no such atom. It looks through the atoms from the first.
    pub fn atom(&self, t: TermId) -> Option<AtomId>
        ensures found { IfSome result (λ a. numbered self.now.atoms a.0 ≡ Some t) }
        ensures none { IfNone result (Contains self.now.atoms t → ⊥) }
    {
        let place = self.atoms.iter().position(|atom| *atom == t)?;
        Some(AtomId(place as u64 + 1))
    }
}
