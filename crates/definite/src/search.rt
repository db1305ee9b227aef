//! The search for the least set: each rule waits for one atom of its body that is not derived yet, and looks at its body
//! from there on only once that atom is.
ghost use Rattle.std.specs.Prelude.{◌≡◌, ℕ, List, ◌<◌, [], length, take, slice_get, slice_index, Some, All, Contains, IsTrue, IsFalse, OnOk, IfOk, IfSome, IfNone, replicate};
ghost use Rattle.std.specs.List.{list_all};
ghost use Rattle.definite.specs.Rules.{IsDerived, IsRuleOf};
ghost use Rattle.definite.specs.Rules.{marked};
ghost use Rattle.definite.specs.Searches.{IsSearch, IsAdded, waiting_for, IsWaiter, IsTaken, IsSettled, AreSettled, Step};
ghost use Rattle.definite.specs.declared.Rule.{Rule as RuleSpec};
ghost use Rattle.definite.specs.declared.search.Waits.{Waits as WaitsSpec};

use crate::{Derived, Rule};
use sqlite_items::Items;
use std::alloc::{AllocError, Global};

/// Which rules wait for which atom, and how far each rule has looked at its body.
#[derive(Drop)]
struct Waits {
    /// For each atom the numbers of the rules that wait for it.
    waiting: Vec<Items<usize>>,
    /// For each rule how many atoms of its body, from the first one on, are derived.
    met: Vec<usize>,
}

/// The first atom of a body that is not marked, as its place, from this place on; or the body's length.
fn first_open(marks: &[bool], body: &[usize], from: usize) -> usize
    requires from { IsTrue (list_all (marked marks.now) (take from body.now)) }
    ensures met { IsTrue (list_all (marked marks.now) (take result body.now)) }
    ensures open { result < length body.now → IsFalse (marked marks.now (slice_index body.now result)) }
{
    let mut place = from;
    while place < body.len() && is_marked(marks, body[place]) {
        place += 1;
    }
    place
}

fn is_marked(marks: &[bool], atom: usize) -> bool
    ensures { result ≡ marked marks.now atom }
{
    if atom < marks.len() {
        marks[atom]
    } else {
        false
    }
}

/// Adds an atom, if it is not there.
fn add(found: &mut Derived, atom: usize) -> Result<(), AllocError>
    requires { atom < length found.old.marks }
    ensures { OnOk result (IsAdded found.old found.new atom) }
{
    if !is_marked(found.marks.as_slice(), atom) {
        found.order.push(atom)?;
        found.marks.set(atom, true);
    }
    Ok(())
}

/// Adds the heads of a rule whose body is there.
fn add_heads(found: &mut Derived, rule: &Rule) -> Result<(), AllocError>
    requires { All (λ a. a < length found.old.marks) rule.now.heads }
    ensures step { OnOk result ((rules : List RuleSpec) (waits : WaitsSpec) → Contains rules rule.now → IsSearch rules waits found.old → IsTrue (list_all (marked found.old.marks) rule.now.body) → Step rules waits found.old waits found.new) }
    ensures marked { OnOk result (IsTrue (list_all (marked found.new.marks) rule.now.heads)) }
{
    for atom in rule.heads.as_slice() {
        add(found, *atom)?;
    }
    Ok(())
}

/// Lets a rule wait for an atom.
fn wait(waits: &mut Waits, atom: usize, rule: usize) -> Result<(), AllocError>
    requires { atom < length waits.old.waiting.items }
    ensures { OnOk result (IsWaiter waits.old waits.new atom rule) }
{
    waits.waiting[atom].push(rule)
}

/// The rules that waited for an atom. None does any longer.
fn take_waiting(alloc: Global, waits: &mut Waits, atom: usize) -> Items<usize>
    requires { atom < length waits.old.waiting.items }
    ensures taken { result ≡ waiting_for waits.old atom }
    ensures waits { IsTaken waits.old waits.new atom }
{
    std::mem::replace(&mut waits.waiting[atom], Items::new(alloc))
}

/// The first atom of a rule's body that is not marked. The rule looks on from where it stopped.
fn advance(rules: &[Rule], waits: &mut Waits, found: &Derived, k: usize) -> Option<usize>
    requires k { k < length rules.now }
    requires search { IsSearch rules.now waits.old found.now }
    ensures step { Step rules.now waits.old found.now waits.new found.now }
    ensures open { IfSome result (λ a. IsFalse (marked found.now.marks a) × ((rule : RuleSpec) → slice_get rules.now k ≡ Some rule → Contains rule.body a)) }
    ensures none { IfNone result ((rule : RuleSpec) → slice_get rules.now k ≡ Some rule → IsTrue (list_all (marked found.now.marks) rule.body)) }
{
    let body = rules[k].body.as_slice();
    let place = first_open(found.marks.as_slice(), body, waits.met[k]);
    waits.met[k] = place;
    body.get(place).copied()
}

/// Adds the heads of a rule whose body is marked, or lets the rule wait for an atom that is not.
fn settle(
    rules: &[Rule],
    waits: &mut Waits,
    found: &mut Derived,
    k: usize,
) -> Result<(), AllocError>
    requires k { k < length rules.now }
    requires search { IsSearch rules.now waits.old found.old }
    ensures step { OnOk result (Step rules.now waits.old found.old waits.new found.new) }
    ensures settled { OnOk result ((rule : RuleSpec) → slice_get rules.now k ≡ Some rule → IsSettled waits.new found.new k rule) }
{
    match advance(rules, waits, found, k) {
        None => add_heads(found, &rules[k]),
        Some(atom) => wait(waits, atom, k),
    }
}

/// Settles the rules of a list.
fn settle_all(
    rules: &[Rule],
    waits: &mut Waits,
    found: &mut Derived,
    list: &[usize],
) -> Result<(), AllocError>
    requires list { All (λ k. k < length rules.now) list.now }
    requires search { IsSearch rules.now waits.old found.old }
    ensures { OnOk result (Step rules.now waits.old found.old waits.new found.new × ((k : ℕ) (rule : RuleSpec) → Contains list.now k → slice_get rules.now k ≡ Some rule → IsSettled waits.new found.new k rule)) }
{
    for k in list {
        settle(rules, waits, found, *k)?;
    }
    Ok(())
}

/// Takes the marked atoms one after the other, and settles the rules that wait for each.
fn drain(
    alloc: Global,
    rules: &[Rule],
    waits: &mut Waits,
    found: &mut Derived,
) -> Result<(), AllocError>
    requires search { IsSearch rules.now waits.old found.old }
    requires settled { AreSettled rules.now waits.old found.old }
    ensures { OnOk result (IsDerived rules.now (length found.old.marks) found.new) }
{
    let mut next = 0;
    while next < found.order.len() {
        let atom = found.order.as_slice()[next];
        next += 1;
        let list = take_waiting(alloc, waits, atom);
        settle_all(rules, waits, found, list.as_slice())?;
    }
    Ok(())
}

/// Settles each rule once.
fn settle_each(rules: &[Rule], waits: &mut Waits, found: &mut Derived) -> Result<(), AllocError>
    requires { IsSearch rules.now waits.old found.old }
    ensures { OnOk result (Step rules.now waits.old found.old waits.new found.new × AreSettled rules.now waits.new found.new) }
{
    for k in 0..rules.len() {
        settle(rules, waits, found, k)?;
    }
    Ok(())
}

/// Tables in which nothing is derived and no rule waits.
fn no_waits(alloc: Global, rules: usize, atoms: usize) -> Result<Waits, AllocError>
    ensures size { IfOk result (λ waits. length waits.waiting.items ≡ atoms) }
    ensures none { IfOk result (λ waits. (a : ℕ) → waiting_for waits a ≡ []) }
    ensures met { IfOk result (λ waits. waits.met.items ≡ replicate rules 0) }
{
    let mut waiting = Vec::new(alloc);
    for _ in 0..atoms {
        waiting.push(Items::new(alloc))?;
    }
    let met = vec![in alloc; 0; rules]?;
    Ok(Waits { waiting, met })
}

/// The least set that is closed under the rules.
pub fn search(alloc: Global, rules: &[Rule], atoms: usize) -> Result<Derived, AllocError>
    requires { All (IsRuleOf atoms) rules.now }
    ensures { IfOk result (IsDerived rules.now atoms) }
{
    let mut found = Derived {
        marks: Items::from_vec(vec![in alloc; false; atoms]?),
        order: Items::new(alloc),
    };
    let mut waits = no_waits(alloc, rules.len(), atoms)?;
    settle_each(rules, &mut waits, &mut found)?;
    drain(alloc, rules, &mut waits, &mut found)?;
    Ok(found)
}
