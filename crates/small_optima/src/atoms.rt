// The atoms of a program's rules.
ghost use Rattle.std.specs.Prelude.{◌≡◌, ◌<◌, ◌≤◌, ℕ, List, [], ◌∷◌, map, IfOk, OnOk, length};
ghost use Rattle.std.specs.BTreeSet.{btree_set_len};
ghost use Rattle.std.specs.List.{flat_map};
ghost use Rattle.std.specs.List.Sorted.{IsStrictlySortedBy};
ghost use Rattle.ap_eval.specs.AtomSets.{has};
ghost use Rattle.ap_eval.specs.Reduct.{element_name, literal_of, rules_of};
ghost use Rattle.small_optima.specs.Adds.{Adds, ExceedsTwelve};
ghost use Rattle.small_optima.specs.Atoms.{atom_count, head_names, literal_name, names_of, rule_names};
ghost use Rattle.small_optima.specs.Optimal.{atom_cmp};

use crate::optima::TrialFault;
use ap_syntax::Text;
use ap_syntax::small::{BodyItem, ChoiceElement, HeadForm, Literal, Program, Rule, Statement};
use std::alloc::{AllocError, Global};
use std::collections::BTreeSet;

/// The most atoms whose sets are tried.
pub const MOST_ATOMS: usize = 12;

/// Some atoms, at most `MOST_ATOMS`.
#[derive(Drop)]
struct FewAtoms {
    names: BTreeSet<Text>,
    ghost few: { btree_set_len names ≤ 12 },
}

impl FewAtoms {
    /// No atoms.
    fn new(alloc: Global) -> FewAtoms
        ensures { result.names.keys ≡ [] }
    {
        FewAtoms {
            names: BTreeSet::new(alloc),
        }
    }

    /// Adds an atom, unless it is there.
    fn add(&mut self, alloc: Global, name: &Text) -> Result<(), TrialFault>
        ensures added { OnOk result (Adds self.old.names.keys (name.now ∷ []) self.new.names.keys) }
        ensures many { result ≡ Err TrialFault.TooMany
            → ExceedsTwelve self.old.names.keys (name.now ∷ []) }
    {
        if self.names.contains(name) {
            return Ok(());
        }
        if self.names.len() == MOST_ATOMS {
            return Err(TrialFault::TooMany);
        }
        self.names.insert(name.copy(alloc)?)?;
        Ok(())
    }

    /// Adds the atoms of a choice.
    fn add_elements(&mut self, alloc: Global, elements: &[ChoiceElement]) -> Result<(), TrialFault>
        ensures added { OnOk result
            (Adds self.old.names.keys (map element_name elements.now) self.new.names.keys) }
        ensures many { result ≡ Err TrialFault.TooMany
            → ExceedsTwelve self.old.names.keys (map element_name elements.now) }
    {
        for element in elements {
            self.add(alloc, &element.atom.name)?;
        }
        Ok(())
    }

    /// Adds the atoms of a head.
    fn add_head(&mut self, alloc: Global, head: &HeadForm) -> Result<(), TrialFault>
        ensures added { OnOk result
            (Adds self.old.names.keys (head_names head.now) self.new.names.keys) }
        ensures many { result ≡ Err TrialFault.TooMany
            → ExceedsTwelve self.old.names.keys (head_names head.now) }
    {
        match head {
            HeadForm::One(atom) => self.add(alloc, &atom.name),
            HeadForm::Choice(elements) => self.add_elements(alloc, elements.as_slice()),
            HeadForm::Nothing => Ok(()),
        }
    }

    /// Adds the atom of a part of a body.
    fn add_item(&mut self, alloc: Global, item: &BodyItem) -> Result<(), TrialFault>
        ensures added { OnOk result
            (Adds self.old.names.keys (literal_name (literal_of item.now) ∷ []) self.new.names.keys) }
        ensures many { result ≡ Err TrialFault.TooMany
            → ExceedsTwelve self.old.names.keys (literal_name (literal_of item.now) ∷ []) }
    {
        match item {
            BodyItem::Plain(Literal::Pos(atom) | Literal::Not(atom)) => self.add(alloc, &atom.name),
        }
    }

    /// Adds the atoms of a body.
    fn add_body(&mut self, alloc: Global, body: &[BodyItem]) -> Result<(), TrialFault>
        ensures added { OnOk result
            (Adds self.old.names.keys (map literal_name (map literal_of body.now)) self.new.names.keys) }
        ensures many { result ≡ Err TrialFault.TooMany
            → ExceedsTwelve self.old.names.keys (map literal_name (map literal_of body.now)) }
    {
        for item in body {
            self.add_item(alloc, item)?;
        }
        Ok(())
    }

    /// Adds the atoms of a rule.
    fn add_rule(&mut self, alloc: Global, rule: &Rule) -> Result<(), TrialFault>
        ensures added { OnOk result
            (Adds self.old.names.keys (rule_names rule.now) self.new.names.keys) }
        ensures many { result ≡ Err TrialFault.TooMany
            → ExceedsTwelve self.old.names.keys (rule_names rule.now) }
    {
        self.add_head(alloc, &rule.head)?;
        self.add_body(alloc, rule.body.as_slice())
    }

    /// The atoms in order.
    fn into_vec(self, alloc: Global) -> Result<Vec<Text>, AllocError>
        ensures same { IfOk result (λ atoms. atoms.items ≡ self.names.keys) }
        ensures sorted { IfOk result (λ atoms. IsStrictlySortedBy atom_cmp atoms.items) }
        ensures few { OnOk result (btree_set_len self.names ≤ 12) }
    {
        let FewAtoms { names } = self;
        names.into_iter().collect(alloc)
    }
}

/// The atoms of the rules in order, each once. `TooMany` comes where they are more than 12, as soon as that is seen.
pub fn atoms_to_try(alloc: Global, p: &Program) -> Result<Vec<Text>, TrialFault>
    ensures same { IfOk result
        (λ atoms. (name : List ℕ) → has atoms.items name ≡ has (names_of p.now) name) }
    ensures sorted { IfOk result (λ atoms. IsStrictlySortedBy atom_cmp atoms.items) }
    ensures few { OnOk result (atom_count p.now ≤ 12) }
    ensures many { result ≡ Err TrialFault.TooMany → 12 < atom_count p.now }
{
    let mut atoms = FewAtoms::new(alloc);
    for statement in p.statements.as_slice() {
        if let Statement::Rule(rule) = statement {
            atoms.add_rule(alloc, rule)?;
        }
    }
    Ok(atoms.into_vec(alloc)?)
}
