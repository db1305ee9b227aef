//! Acyclic ground programs, and the one answer set of such a program.
ghost use Rattle.std.specs.Prelude.{◌≡◌, ◌↔◌, ℕ, ◌<◌, Bool, true, [], length, All, Contains, IsTrue, IfOk, OnOk, slice_set, if◌then◌else◌};
ghost use Rattle.std.specs.List.{list_all, list_any};
ghost use Rattle.definite.specs.Rules.{marked};
ghost use Rattle.ground_form.specs.Acyclic.{IsAcyclic, HasOnlyAtomHeads};
ghost use Rattle.ground_form.specs.AnswerSets.{IsAnswerSetWith};
ghost use Rattle.ground_form.specs.Ranges.{IsHeadOf, IsNumberOf};
ghost use Rattle.ground_form.specs.Sets.{has};
ghost use Rattle.ground_form.specs.Truth as spec;
ghost use Rattle.ground_form.specs.declared.atoms.AtomId.{AtomId as Id};
ghost use Rattle.ground_form.specs.declared.bodies.BodyId.{BodyId as BodyNumber};
ghost use Rattle.ground_form.specs.declared.rules.GroundRule.{GroundRule as Ground};
ghost use Rattle.ap_eval.specs.Looks as looks;
ghost use Rattle.ap_eval.specs.Supports as words;

use crate::looks::{atom_in, order};
use crate::tables::{marks_of, members};
use crate::truth::body_in;
use ground_form::{AtomSet, BodyId, GroundProgram, GroundRule};
use sqlite_items::Items;
use std::alloc::{AllocError, Global};

/// Adds the body of a rule to those of its atom.
fn add_body(bodies: &mut [Items<BodyId>], rule: GroundRule) -> Result<(), AllocError>
    requires { (n : ℕ) × IsHeadOf n rule.head × (n < length bodies.old) }
    ensures { OnOk result (words.AddsBody bodies.old bodies.new rule) }
{
    match atom_in(rule.head) {
        Some(atom) => bodies[atom.0 as usize].push(rule.body),
        None => Ok(()),
    }
}

/// Adds the bodies of the rules to those of their atoms.
fn add_bodies(bodies: &mut [Items<BodyId>], program: &[GroundRule]) -> Result<(), AllocError>
    requires { (n : ℕ) × All (λ (rule : Ground). IsHeadOf n rule.head) program.now × (n < length bodies.old) }
    ensures { OnOk result (words.AddsBodies bodies.old bodies.new program.now) }
{
    for rule in program {
        add_body(bodies, *rule)?;
    }
    Ok(())
}

/// So many empty lists.
fn no_bodies(alloc: Global, places: usize) -> Result<Vec<Items<BodyId>>, AllocError>
    ensures none { IfOk result (λ bodies. (a : ℕ) → words.bodies_at bodies.items a ≡ []) }
    ensures size { IfOk result (λ bodies. length bodies.items ≡ places) }
{
    let mut bodies = Vec::new(alloc);
    for _ in 0..places {
        bodies.push(Items::new(alloc))?;
    }
    Ok(bodies)
}

/// For each atom, and for 0, the bodies of its rules.
fn bodies_by_atom(alloc: Global, g: &GroundProgram) -> Result<Vec<Items<BodyId>>, AllocError>
    ensures { IfOk result (λ bodies. words.AreBodies g.now bodies.items) }
{
    let mut bodies = no_bodies(alloc, g.atoms().len() + 1)?;
    add_bodies(&mut bodies, g.rules())?;
    Ok(bodies)
}

/// Whether one of the bodies is true.
fn any_true(g: &GroundProgram, bodies: &[BodyId], x: &Items<bool>) -> bool
    ensures { result ≡ list_any (λ (id : BodyNumber). spec.body_true g.now (marked x.now) id.0) bodies.now }
{
    bodies.iter().any(|body| body_in(g, *body, x))
}

/// Marks an atom, if one of its bodies is true.
fn decide(g: &GroundProgram, bodies: &[Items<BodyId>], atom: usize, marks: &mut Items<bool>)
    requires bodies { words.AreBodies g.now bodies.now }
    requires atom { atom < length marks.old }
    requires size { length marks.old ≡ length bodies.now }
    ensures { marks.new ≡ (if list_any (words.derives g.now (marked marks.old) atom) g.now.rules then slice_set marks.old atom true else marks.old) }
{
    if any_true(g, bodies[atom].as_slice(), marks) {
        marks.set(atom, true);
    }
}

/// Decides the atoms in an order in which each stands behind those that its rules look at. The facts are marked.
fn decide_all(g: &GroundProgram, bodies: &[Items<BodyId>], order: &[usize], marks: &mut Items<bool>)
    requires bodies { words.AreBodies g.now bodies.now }
    requires order { looks.IsOrder g.now order.now }
    requires size { length marks.old ≡ length bodies.now }
    ensures { words.AreDecided g.now (marked marks.old) order.now marks.new }
{
    for atom in order {
        decide(g, bodies, *atom, marks);
    }
}

/// What the facts lead to, where the program is acyclic.
pub(crate) fn model(
    alloc: Global,
    g: &GroundProgram,
    facts: &AtomSet,
) -> Result<AtomSet, AllocError>
    requires { All (λ (id : Id). IsNumberOf (length g.now.atoms) id.0) facts.now }
    ensures { IfOk result (λ x. IsAcyclic g.now → words.IsSupported g.now (has facts.now) (has x)) }
{
    let found = order(alloc, g)?;
    let bodies = bodies_by_atom(alloc, g)?;
    let mut marks = marks_of(alloc, bodies.len(), facts.ids())?;
    decide_all(g, &bodies, found.order.as_slice(), &mut marks);
    members(alloc, marks.as_slice())
}

/// Whether the program is acyclic: its atoms have levels such that the head of each rule has a level above those of all atoms
/// that its body and the groups of its body look at. Its one error is want of memory.
pub fn is_acyclic(alloc: Global, g: &GroundProgram) -> Result<bool, AllocError>
    ensures { IfOk result (λ answer. IsTrue answer ↔ IsAcyclic g.now) }
{
    let _ = g.atoms(); // the numbers of the program are in range
    let found = order(alloc, g)?;
    Ok(all_marked(found.marks.as_slice()))
}

fn all_marked(marks: &[bool]) -> bool
    ensures { result ≡ list_all (λ mark. mark) marks.now }
{
    marks.iter().all(|mark| *mark)
}

/// The answer set of an acyclic program with these inputs as facts: there is exactly one. Each rule has to be for an atom:
/// the program has no choice and no constraint. `is_acyclic` tells whether a program is acyclic. Its one error is want of memory.
pub fn acyclic_model(
    alloc: Global,
    g: &GroundProgram,
    inputs: &AtomSet,
) -> Result<AtomSet, AllocError>
    requires acyclic { IsAcyclic g.now }
    requires heads { HasOnlyAtomHeads g.now }
    requires inputs { All (Contains g.now.inputs) inputs.now }
    ensures one { words.HasOneAnswerSet g.now (has inputs.now) }
    ensures answer { IfOk result (λ x. IsAnswerSetWith g.now (has inputs.now) (has x)) }
    ensures only { IfOk result (λ x. (y : ℕ → Bool) → IsAnswerSetWith g.now (has inputs.now) y → y ≡ has x) }
{
    let _ = g.inputs(); // each is an atom of the program
    let x = model(alloc, g, inputs)?;
    Ok(x)
}
