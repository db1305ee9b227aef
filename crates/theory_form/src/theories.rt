// The theory: variables and clauses under numbers.
ghost use Rattle.std.specs.Prelude.{◌≡◌, ℕ, ◌+◌, ◌-◌, ◌<◌, ◌≤◌, ◌++◌, [], ◌∷◌, length, map, take, max, true, Some, None, IfOk, OnOk, OnErr};
ghost use Rattle.std.specs.List.{All};
ghost use Rattle.std.specs.Option.{option_copied};
ghost use Rattle.theory_form.specs.Kept.{AreLists, HasNumber, IsCutGuard, Unlists, guard_after, kept_body, kept_kind, kept_sum, listed};
ghost use Rattle.theory_form.specs.Kinds.{IsKind};
ghost use Rattle.theory_form.specs.Numbers.{at_number};
ghost use Rattle.theory_form.specs.Theories.{AreAtoms, CanAdd, IsMarkOf, IsSearch, IsTheory, block_of, body_of, clause_of, cut_to, mark_of, row_of, supports_of};

use crate::clauses::Clause;
use crate::literals::{ClauseId, Lit, Var};
use crate::rows::{BodyRow, SumRow, VarKind};
use sqlite_items::Items;
use std::alloc::{AllocError, Global};
use std::marker::Model;

/// How much a theory held: how many variables, clauses (skipped numbers among them) and programs.
#[derive(Clone, Copy, PartialEq, Eq, Debug)]
pub struct Mark {
    pub variables: u64,
    pub clauses: u64,
    pub blocks: u64,
}

// A variable as the theory keeps it, with its row.
#[derive(Drop)]
pub enum Variable {
    Atom { block: u64, supports: Items<Lit> },
    Sum(SumRow),
    Body(BodyRow),
    Search,
    Other,
}

impl Variable {
    // The row of a sum variable.
    fn as_sum(&self) -> Option<&SumRow>
        ensures { option_copied result ≡ kept_sum self.now }
    {
        match self {
            Variable::Sum(row) => Some(row),
            _ => None,
        }
    }

    // The row of a body variable.
    fn as_body(&self) -> Option<&BodyRow>
        ensures { option_copied result ≡ kept_body self.now }
    {
        match self {
            Variable::Body(row) => Some(row),
            _ => None,
        }
    }
}

/// Variables and clauses under numbers that count from 1, in the order in which they came.
///
/// Contracts see it as one value: its variables by what they stand for, its clauses with nothing at a number that was
/// skipped, the number of programs that were begun, and the number of entries that are reserved for `skip`.
#[derive(Drop)]
pub struct Theory {
    alloc: Global,
    variables: Vec<Variable>,
    clauses: Vec<Option<Clause>>,
    blocks: Vec<Items<Var>>,
    reserved: u64,
    guard: Option<Var>,
}

impl Model for Theory {
    ghost use Rattle.std.specs.Prelude.{length, map, vec_capacity};
    ghost use Rattle.theory_form.specs.Theories.{TheoryView};

    ghost Value = { TheoryView };

    ghost use Rattle.theory_form.specs.Kept.{kept_kind, HoldsTheory};

    ghost view = { λ t. record { variables = map kept_kind t.variables.items; clauses = t.clauses.items; blocks = length t.blocks.items; reserved = t.reserved } };

    ghost invariant = { λ t. HoldsTheory t.variables.items t.clauses.items t.blocks.items t.reserved t.guard (vec_capacity t.clauses) };
}

impl Theory {
    /// The empty theory.
    pub fn new(alloc: Global) -> Self
        ensures { result ≡ record { variables = []; clauses = []; blocks = 0; reserved = 0 } }
    {
        Theory {
            alloc,
            variables: Vec::new(alloc),
            clauses: Vec::new(alloc),
            blocks: Vec::new(alloc),
            reserved: 0,
            guard: None,
        }
    }

    /// How many variables there are.
    pub fn var_count(&self) -> u64
        ensures count { result ≡ length self.now.variables }
        ensures theory { IsTheory self.now }
    {
        self.variables.len() as u64
    }

    /// The clause of a number, and `None` exactly where there is none of it: the number is 0 or above the last one, or
    /// was skipped.
    pub fn clause(&self, id: ClauseId) -> Option<&Clause>
        ensures { option_copied result ≡ clause_of self.now id.0 }
    {
        match entry_at(self.clauses.as_slice(), id.0) {
            Some(slot) => slot.as_ref(),
            None => None,
        }
    }

    /// The row of a sum variable, and `None` exactly where `v` is no sum variable.
    pub fn row(&self, v: Var) -> Option<&SumRow>
        ensures { option_copied result ≡ row_of self.now v.0 }
    {
        match entry_at(self.variables.as_slice(), v.0) {
            Some(variable) => variable.as_sum(),
            None => None,
        }
    }

    /// The row of a body variable, and `None` exactly where `v` is no body variable.
    pub fn body(&self, v: Var) -> Option<&BodyRow>
        ensures { option_copied result ≡ body_of self.now v.0 }
    {
        match entry_at(self.variables.as_slice(), v.0) {
            Some(variable) => variable.as_body(),
            None => None,
        }
    }

    /// The program of an atom variable, 0 being the base, and `None` exactly where `v` is no atom variable.
    pub fn block_of(&self, v: Var) -> Option<u64>
        ensures { result ≡ block_of self.now v.0 }
    {
        match entry_at(self.variables.as_slice(), v.0) {
            Some(Variable::Atom { block, .. }) => Some(*block),
            _ => None,
        }
    }

    /// The supports of an atom variable, and `None` exactly where `v` is no atom variable.
    pub fn supports(&self, v: Var) -> Option<&[Lit]>
        ensures { option_copied result ≡ supports_of self.now v.0 }
    {
        match entry_at(self.variables.as_slice(), v.0) {
            Some(Variable::Atom { supports, .. }) => Some(supports.as_slice()),
            _ => None,
        }
    }

    /// How many programs were begun.
    pub fn blocks(&self) -> u64
        ensures { result ≡ self.now.blocks }
    {
        self.blocks.len() as u64
    }

    /// The atoms of a program, ascending; there are none where that program was not begun.
    pub fn atoms(&self, block: u64) -> &[Var]
        ensures { AreAtoms self.now block result.now }
    {
        match self.blocks.get(block as usize) {
            Some(atoms) => atoms.as_slice(),
            None => &[],
        }
    }

    /// The positive literal of the search guard. The theory has one: a variable of kind `Search` was added.
    pub fn search_guard(&self) -> Lit
        requires { (v : ℕ) × IsSearch self.now v }
        ensures guard { IsSearch self.now result.var.0 }
        ensures positive { result.yes ≡ true }
    {
        match self.guard {
            Some(var) => Lit { var, yes: true },
            None => unreachable!(),
        }
    }

    /// The number that the next clause gets.
    pub fn next_id(&self) -> ClauseId
        ensures { result.0 ≡ length self.now.clauses + 1 }
    {
        ClauseId(self.clauses.len() as u64 + 1)
    }

    /// Begins the next program, as yet without atoms, and answers its number, the first being 0. Only memory can run out,
    /// and then nothing changes.
    pub fn add_block(&mut self) -> Result<u64, AllocError>
        ensures number { IfOk result (λ block. block ≡ self.old.blocks) }
        ensures ok { OnOk result (self.new ≡ record self.old { blocks = self.old.blocks + 1 }) }
        ensures err { OnErr result (self.new ≡ self.old) }
    {
        let block = self.blocks.len() as u64;
        self.blocks.push(Items::new(self.alloc))?;
        Ok(block)
    }

    /// Adds a variable and answers it. The program of an atom was begun, the terms of a sum are reckoned without overflow
    /// and name no variable twice, and there is no search guard yet where one is added. The variables that `kind` names
    /// may be added later. Only memory can run out, and then nothing changes.
    pub fn add_var(&mut self, kind: VarKind) -> Result<Var, AllocError>
        requires { CanAdd self.old kind }
        ensures number { IfOk result (λ v. v.0 ≡ length self.old.variables + 1) }
        ensures ok { OnOk result (self.new ≡ record self.old { variables = self.old.variables ++ kind ∷ [] }) }
        ensures err { OnErr result (self.new ≡ self.old) }
    {
        self.variables.reserve(1)?;
        let var = Var(self.variables.len() as u64 + 1);
        list_atom(&mut self.blocks, var, &kind)?;
        self.guard = guard_with(self.guard, var, &kind);
        self.variables.push_reserved(kept(var, kind));
        Ok(var)
    }

    /// Adds a clause and answers its number. Only memory can run out, and then nothing changes.
    pub fn add_clause(&mut self, clause: Clause) -> Result<ClauseId, AllocError>
        ensures number { IfOk result (λ id. id.0 ≡ length self.old.clauses + 1) }
        ensures ok { OnOk result (self.new ≡ record self.old { clauses = self.old.clauses ++ Some clause ∷ [] }) }
        ensures err { OnErr result (self.new ≡ self.old) }
    {
        self.clauses.reserve(self.reserved as usize + 1)?;
        self.clauses.push_reserved(Some(clause));
        Ok(ClauseId(self.clauses.len() as u64))
    }

    /// Reserves an entry for `skip`, unless one is reserved. Only memory can run out, and then nothing changes.
    pub fn reserve_id(&mut self) -> Result<(), AllocError>
        ensures ok { OnOk result (self.new ≡ record self.old { reserved = max 1 self.old.reserved }) }
        ensures err { OnErr result (self.new ≡ self.old) }
    {
        if self.reserved > 0 {
            return Ok(());
        }
        self.clauses.reserve(1)?;
        self.reserved = 1;
        Ok(())
    }

    /// Takes the next number for a clause that is kept elsewhere. An entry is reserved, as `reserve_id` does; it is used, and
    /// no memory is taken.
    pub fn skip(&mut self) -> ClauseId
        requires { 0 < self.old.reserved }
        ensures number { result.0 ≡ length self.old.clauses + 1 }
        ensures skipped { self.new ≡ record self.old { clauses = self.old.clauses ++ None ∷ []; reserved = self.old.reserved - 1 } }
    {
        self.clauses.push_reserved(None);
        self.reserved -= 1;
        ClauseId(self.clauses.len() as u64)
    }

    /// Marks how much the theory holds.
    pub fn mark(&self) -> Mark
        ensures mark { result ≡ mark_of self.now }
        ensures theory { IsTheory self.now }
    {
        Mark {
            variables: self.variables.len() as u64,
            clauses: self.clauses.len() as u64,
            blocks: self.blocks.len() as u64,
        }
    }

    /// Takes away what was added since the mark, which was made of this theory when it held no more. The reserved entries
    /// stay. It takes no memory.
    pub fn cut(&mut self, m: &Mark)
        requires { IsMarkOf m.now self.old }
        ensures { self.new ≡ cut_to m.now self.old }
    {
        cut_variables(&mut self.variables, &mut self.blocks, m.variables);
        self.clauses.truncate(m.clauses as usize);
        self.blocks.truncate(m.blocks as usize);
        self.guard = guard_within(self.guard, m.variables);
    }
}

// The entry of a number.
fn entry_at<T>(entries: &[T], number: u64) -> Option<&T>
    ensures { option_copied result ≡ at_number entries.now number }
{
    match number.checked_sub(1) {
        Some(place) => entries.get(place as usize),
        None => None,
    }
}

// Lists a new variable among the atoms of its program, if it is an atom.
fn list_atom(blocks: &mut Vec<Items<Var>>, var: Var, kind: &VarKind) -> Result<(), AllocError>
    requires { IsKind (length blocks.old.items) kind.now }
    ensures ok { OnOk result (blocks.new.items ≡ listed blocks.old.items var kind.now) }
    ensures err { OnErr result (blocks.new.items ≡ blocks.old.items) }
{
    if let VarKind::Atom { block, .. } = kind {
        blocks[*block as usize].push(var)?;
    }
    Ok(())
}

// Takes the last variable out of the list of its program, if it is an atom.
fn unlist_atom(blocks: &mut Vec<Items<Var>>, last: &Variable)
    requires { IsKind (length blocks.old.items) (kept_kind last.now) }
    ensures { Unlists blocks.old.items blocks.new.items (kept_kind last.now) }
{
    if let Variable::Atom { block, .. } = last {
        blocks[*block as usize].pop();
    }
}

// Takes the variables above a number away, and their atoms out of the lists of their programs.
fn cut_variables(variables: &mut Vec<Variable>, blocks: &mut Vec<Items<Var>>, count: u64)
    requires kinds { All (λ x. IsKind (length blocks.old.items) (kept_kind x)) variables.old.items }
    requires lists { AreLists (map kept_kind variables.old.items) blocks.old.items }
    ensures size { length blocks.new.items ≡ length blocks.old.items }
    ensures variables { variables.new.items ≡ take count variables.old.items }
    ensures lists { AreLists (map kept_kind variables.new.items) blocks.new.items }
{
    while variables.len() as u64 > count {
        if let Some(last) = variables.pop() {
            unlist_atom(blocks, &last);
        }
    }
}

// The variable of this number, as it is kept.
fn kept(var: Var, kind: VarKind) -> Variable
    ensures same { kept_kind result ≡ kind }
    ensures number { HasNumber var.0 result }
{
    match kind {
        VarKind::Atom { block, supports } => Variable::Atom { block, supports },
        VarKind::Sum { terms, bound } => Variable::Sum(SumRow { var, terms, bound }),
        VarKind::Body { lits } => Variable::Body(BodyRow { var, lits }),
        VarKind::Search => Variable::Search,
        VarKind::Other => Variable::Other,
    }
}

// The search guard after one more variable.
fn guard_with(guard: Option<Var>, var: Var, kind: &VarKind) -> Option<Var>
    ensures { result ≡ guard_after guard var kind.now }
{
    match kind {
        VarKind::Search => Some(var),
        _ => guard,
    }
}

// The search guard, if it is among so many variables.
fn guard_within(guard: Option<Var>, variables: u64) -> Option<Var>
    ensures { IsCutGuard guard variables result }
{
    match guard {
        Some(var) if var.0 <= variables => Some(var),
        _ => None,
    }
}
