// Unfounded sets.
ghost use Rattle.std.specs.Prelude.{◌≡◌, ◌<◌, ℕ, Bool, [], filter, length, IfNone, IfOk, IfSome};
ghost use Rattle.theory_form.specs.declared.literals.Var.{Var as Variable};
ghost use Rattle.loop_nogoods.specs.Founding.{unfounded_in};
ghost use Rattle.loop_nogoods.specs.Sets.{AreAscending, has};
ghost use Rattle.loop_nogoods.specs.Unfounded.{IsUnfounded};

use crate::founding::Founding;
use std::alloc::{AllocError, Global};
use std::marker::Model;
use theory_form::{Assignment, Theory, Var};

/// The tables that `unfounded` works on. They grow with the theories that are looked at, and serve every later call.
#[derive(Drop)]
pub struct Tables {
    founding: Founding,
}

impl Model for Tables {
    ghost Value = { Unit {0} };

    ghost view = { λ _. tt };
}

impl Tables {
    /// The tables before the first call.
    pub fn new(alloc: Global) -> Self {
        Tables {
            founding: Founding::new(alloc),
        }
    }
}

// Those of the variables that are open atoms and not founded.
fn members(alloc: Global, vars: &[Var], search: &Founding) -> Result<Vec<Var>, AllocError>
    ensures { IfOk result (λ found. found.items ≡ filter (λ (v : Variable). unfounded_in search.now v.0) vars.now) }
{
    let mut found = Vec::new(alloc);
    for v in vars {
        if search.is_unfounded(*v) {
            found.push(*v)?;
        }
    }
    Ok(found)
}

// The list, unless it is empty.
fn unless_empty(vars: Vec<Var>) -> Option<Vec<Var>>
    ensures some { IfSome result (λ some. (some.items ≡ vars.items) × (0 < length vars.items)) }
    ensures none { IfNone result (vars.items ≡ []) }
{
    if vars.is_empty() { None } else { Some(vars) }
}

/// An unfounded set of atoms of the program `block` under an assignment that need not be total: a set of atoms, not
/// empty, none of which is false, and whose external supports are all false (Van Gelder, Ross and Schlipf, "The
/// Well-Founded Semantics for General Logic Programs", 1991). It ascends. `None` comes exactly where there is no such set.
/// The tables may come from any earlier call. Its one error is want of memory.
pub fn unfounded(
    alloc: Global,
    t: &Theory,
    block: u64,
    a: &Assignment,
    tables: &mut Tables,
) -> Result<Option<Vec<Var>>, AllocError>
    ensures found { IfOk result (λ answer. IfSome answer (λ vars. IsUnfounded t.now block a.now (has vars.items))) }
    ensures ascending { IfOk result (λ answer. IfSome answer (λ vars. AreAscending vars.items)) }
    ensures none { IfOk result (λ answer. IfNone answer ((u : ℕ → Bool) → IsUnfounded t.now block a.now u → ⊥)) }
{
    tables.founding.run(alloc, t, block, a)?;
    let vars = members(alloc, t.atoms(block), &tables.founding)?;
    Ok(unless_empty(vars))
}
