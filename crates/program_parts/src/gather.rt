// Taking a program apart.
ghost use Rattle.std.specs.Prelude.{◌≡◌, ◌<◌, ◌++◌, ◌∷◌, [], ℕ, List, Some, length, reverse, IfOk, OnOk};
ghost use Rattle.ap_syntax.specs.declared.programs.Statement.{Statement as Tree};
ghost use Rattle.ap_syntax.specs.declared.programs.Statement.TheVariants as trees;
ghost use Rattle.program_parts.specs.Parts.{parts_of};
ghost use Rattle.program_parts.specs.Taken.{AreGathered, AreRulesTaken, HasPlace, IsOpened, IsPlaced, IsSameBeside, IsRuleAdded, IsTaken, place_by};

use crate::parts::{Parts, TypeProgram};
use ap_syntax::{PartKind, Preference, Program, Rule, Statement, Statements, Text};
use sqlite_items::Items;
use std::alloc::{AllocError, Global};
use std::collections::HashMap;

/// What was taken of the first statements of a program.
#[derive(Drop)]
pub(crate) struct Taken {
    /// The place of each type among the preference programs.
    pub(crate) places: HashMap<String, usize>,
    /// The place of the type whose part is in force. None for the base.
    pub(crate) current: Option<usize>,
    /// The rules of the base.
    pub(crate) base: Items<Rule>,
    /// The preference programs.
    pub(crate) kinds: Vec<TypeProgram>,
    /// The preference statements.
    pub(crate) preferences: Items<Preference>,
    /// All other statements.
    pub(crate) others: Items<Statement>,
}

fn nothing_taken(alloc: Global) -> Taken
    ensures { IsTaken [] result }
{
    Taken {
        places: HashMap::new(alloc),
        current: None,
        base: Items::new(alloc),
        kinds: Vec::new(alloc),
        preferences: Items::new(alloc),
        others: Items::new(alloc),
    }
}

fn push_rule(kinds: &mut Vec<TypeProgram>, place: usize, rule: Rule) -> Result<(), AllocError>
    requires { place < length kinds.old.items }
    ensures { OnOk result (IsRuleAdded place rule kinds.old.items kinds.new.items) }
{
    kinds[place].rules.push(rule)
}

impl Taken {
    /// The place of a type.
    fn place(&self, name: &Text) -> Option<usize>
        ensures { result ≡ place_by self.now name.now }
    {
        self.places.get(name.as_str()).copied()
    }

    /// Makes a place for a type that has none.
    fn add(&mut self, alloc: Global, name: &Text) -> Result<usize, AllocError>
        ensures { IfOk result (IsPlaced self.old self.new name.now) }
    {
        let place = self.kinds.len();
        self.kinds.push(TypeProgram {
            name: name.copy(alloc)?,
            rules: Items::new(alloc),
        })?;
        self.places
            .insert(String::from_str(alloc, name.as_str())?, place)?;
        Ok(place)
    }

    /// The place of a type, which gets one if it has none.
    fn place_or_add(&mut self, alloc: Global, name: &Text) -> Result<usize, AllocError>
        ensures place { IfOk result (λ place. (ss : List Tree) → AreGathered ss self.old → HasPlace ss self.new name.now place) }
        ensures same { OnOk result (IsSameBeside self.old self.new) }
    {
        match self.place(name) {
            Some(place) => Ok(place),
            None => self.add(alloc, name),
        }
    }

    /// The place of a part that begins.
    fn place_of_part(&mut self, alloc: Global, part: &PartKind) -> Result<Option<usize>, AllocError>
        ensures place { IfOk result (λ place. (ss : List Tree) → AreGathered ss self.old → IsOpened ss self.new part.now place) }
        ensures same { OnOk result (IsSameBeside self.old self.new) }
    {
        match part {
            PartKind::Base => Ok(None),
            PartKind::Kind(name) => Ok(Some(self.place_or_add(alloc, name)?)),
        }
    }

    /// The part is in force from now on.
    fn open(&mut self, alloc: Global, part: &PartKind) -> Result<(), AllocError>
        ensures rules { OnOk result ((ss : List Tree) (file at : ℕ) → AreRulesTaken ss self.old → AreRulesTaken (ss ++ trees.Part file at part.now ∷ []) self.new) }
        ensures preferences { OnOk result (self.new.preferences ≡ self.old.preferences) }
        ensures others { OnOk result (self.new.others ≡ self.old.others) }
    {
        let place = self.place_of_part(alloc, part)?;
        self.current = place;
        Ok(())
    }

    fn take_rule(&mut self, rule: Rule) -> Result<(), AllocError>
        requires within { (j : ℕ) → self.old.current ≡ Some j → j < length self.old.kinds.items }
        ensures rules { OnOk result ((ss : List Tree) → AreRulesTaken ss self.old → AreRulesTaken (ss ++ trees.Rule rule ∷ []) self.new) }
        ensures preferences { OnOk result (self.new.preferences ≡ self.old.preferences) }
        ensures others { OnOk result (self.new.others ≡ self.old.others) }
    {
        match self.current {
            None => self.base.push(rule),
            Some(place) => push_rule(&mut self.kinds, place, rule),
        }
    }

    /// Takes the next statement.
    fn take(&mut self, alloc: Global, statement: Statement) -> Result<(), AllocError>
        requires within { (j : ℕ) → self.old.current ≡ Some j → j < length self.old.kinds.items }
        ensures { OnOk result ((ss : List Tree) → IsTaken ss self.old → IsTaken (ss ++ statement ∷ []) self.new) }
    {
        match statement {
            Statement::Rule(rule) => self.take_rule(rule),
            Statement::Preference(preference) => self.preferences.push(preference),
            Statement::Part { file, at, part } => {
                self.open(alloc, &part)?;
                self.others.push(Statement::Part { file, at, part })
            }
            other => self.others.push(other),
        }
    }
}

/// The statements with the last one first. Each is moved; the list that they stood in gives its block back as it empties.
fn reversed(alloc: Global, mut statements: Statements) -> Result<Vec<Statement>, AllocError>
    ensures { IfOk result (λ list. list.items ≡ reverse statements) }
{
    let mut list = Vec::with_capacity(alloc, statements.as_slice().len())?;
    'statements: while let Some(last) = statements.pop() {
        list.push(last)?;
    }
    Ok(list)
}

/// What is taken of all statements, which stand with the last one first.
fn taken_of(alloc: Global, mut statements: Vec<Statement>) -> Result<Taken, AllocError>
    ensures { IfOk result (IsTaken (reverse statements.items)) }
{
    let mut taken = nothing_taken(alloc);
    'statements: while let Some(first) = statements.pop() {
        taken.take(alloc, first)?;
    }
    Ok(taken)
}

/// Takes a program apart: the rules of the base, the rules of each type with a part, the preference statements, and all other
/// statements, each list in the order of the texts. The part `base` is in force at the beginning, and each `#program` opens
/// another one. The statements are moved. It fails for want of memory alone.
pub fn take_apart(alloc: Global, program: Program) -> Result<Parts, AllocError>
    ensures { IfOk result (λ parts. parts ≡ parts_of program.statements) }
{
    let statements = reversed(alloc, program.statements)?;
    let Taken {
        base,
        kinds,
        preferences,
        others,
        ..
    } = taken_of(alloc, statements)?;
    Ok(Parts {
        base,
        kinds: Items::from_vec(kinds),
        preferences,
        others,
    })
}
