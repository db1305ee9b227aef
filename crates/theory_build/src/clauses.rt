// Clauses.
ghost use Rattle.std.specs.Prelude.{◌≡◌, [], ◌∷◌, ◌++◌, IfOk, OnOk, map};
ghost use Rattle.theory_build.specs.Ascending as order;
ghost use Rattle.theory_build.specs.Entries as spec;
ghost use Rattle.theory_form.specs.Literals.{lit_cmp, opposite};

use std::alloc::{AllocError, Global};
use std::marker::Model;
use theory_form::{Clause, Lit, Var};

// The clauses that come with a variable. Contracts see the list of them.
#[derive(Drop)]
pub struct Clauses {
    list: Vec<Clause>,
}

impl Model for Clauses {
    ghost use Rattle.std.specs.Prelude.{List};
    ghost use Rattle.theory_form.specs.declared.literals.Lit.{Lit};

    ghost Value = { List (List Lit) };

    ghost view = { λ c. c.list.items };
}

impl Clauses {
    // These clauses.
    pub(crate) fn new(list: Vec<Clause>) -> Self
        ensures { result ≡ list.items }
    {
        Clauses { list }
    }

    // The list of them.
    pub(crate) fn into_vec(self) -> Vec<Clause>
        ensures { result.items ≡ self }
    {
        let Clauses { list } = self;
        list
    }
}

// The variable of this number.
pub(crate) fn positive(v: u64) -> Lit
    ensures { result ≡ spec.yes v }
{
    Lit {
        var: Var(v),
        yes: true,
    }
}

// Its negation.
pub(crate) fn negative(v: u64) -> Lit
    ensures { result ≡ spec.no v }
{
    Lit {
        var: Var(v),
        yes: false,
    }
}

// These literals in ascending order, each once.
pub(crate) fn ascending(lits: Vec<Lit>) -> Result<Vec<Lit>, AllocError>
    ensures { IfOk result (λ sorted. sorted.items ≡ order.ascending lit_cmp lits.items) }
{
    let mut lits = lits;
    lits.sort()?;
    lits.dedup();
    Ok(lits)
}

// The clause of these literals.
pub(crate) fn clause(lits: Vec<Lit>) -> Result<Clause, AllocError>
    ensures { IfOk result (λ c. c ≡ spec.clause lits.items) }
{
    let c = Clause::sorted(lits)?;
    Ok(c)
}

// The clause of two literals.
pub(crate) fn pair(alloc: Global, l: Lit, m: Lit) -> Result<Clause, AllocError>
    ensures { IfOk result (λ c. c ≡ spec.clause (l ∷ m ∷ [])) }
{
    clause(vec![in alloc; l, m]?)
}

// The clause of a literal and these.
pub(crate) fn clause_with(alloc: Global, l: Lit, lits: &[Lit]) -> Result<Clause, AllocError>
    ensures { IfOk result (λ c. c ≡ spec.clause (l ∷ lits.now)) }
{
    let mut all = vec![in alloc; l]?;
    all.extend_from_slice(lits)?;
    clause(all)
}

// The opposites of these literals.
fn opposites(alloc: Global, lits: &[Lit]) -> Result<Vec<Lit>, AllocError>
    ensures { IfOk result (λ all. all.items ≡ map opposite lits.now) }
{
    lits.iter().map(|l| l.opposite()).collect(alloc)
}

// The clauses of l with each of these.
fn pairs_with(alloc: Global, l: Lit, lits: &[Lit]) -> Result<Vec<Clause>, AllocError>
    ensures { IfOk result (λ all. all.items ≡ map (λ m. spec.clause (l ∷ m ∷ [])) lits.now) }
{
    let mut clauses = Vec::new(alloc);
    for m in lits {
        clauses.push(pair(alloc, l, *m)?)?;
    }
    Ok(clauses)
}

// The clauses that say that v is the conjunction of these literals.
pub(crate) fn conjunction(alloc: Global, v: u64, lits: &[Lit]) -> Result<Clauses, AllocError>
    ensures { IfOk result (λ clauses. clauses ≡ spec.conjunction v lits.now) }
{
    let mut clauses = pairs_with(alloc, negative(v), lits)?;
    let opposites = opposites(alloc, lits)?;
    clauses.push(clause_with(alloc, positive(v), opposites.as_slice())?)?;
    Ok(Clauses::new(clauses))
}

// The clauses that say that v is true where a literal of `forcing` is, and only where one of `supports` is.
pub(crate) fn support_clauses(
    alloc: Global,
    v: u64,
    forcing: &[Lit],
    supports: &[Lit],
) -> Result<Clauses, AllocError>
    ensures { IfOk result (λ clauses. clauses ≡ spec.support_clauses v forcing.now supports.now) }
{
    let opposites = opposites(alloc, forcing)?;
    let mut clauses = pairs_with(alloc, positive(v), opposites.as_slice())?;
    clauses.push(clause_with(alloc, negative(v), supports)?)?;
    Ok(Clauses::new(clauses))
}
