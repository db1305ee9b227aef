// The numbers of preference statements, by their names.
ghost use Rattle.std.specs.Prelude.{◌≡◌, ◌++◌, ◌∷◌, [], List, length, IfOk, OnOk};
ghost use Rattle.program_form.specs.Programs.{preferences};
ghost use Rattle.pref_bind.specs.Tables.{IsTableOf, place_by};
ghost use Rattle.ap_syntax.specs.declared.preferences.Preference.{Preference as Tree};

use ap_syntax::{Preference, Statement, Text};
use std::alloc::{AllocError, Global};
use std::collections::HashMap;

/// The numbers of preference statements, by their names.
#[derive(Drop)]
pub(crate) struct Table {
    /// The number of each name.
    pub(crate) numbers: HashMap<String, usize>,
}

impl Table {
    /// The number of a name.
    pub(crate) fn place(&self, name: &Text) -> Option<usize>
        ensures { result ≡ place_by self.now name.now }
    {
        self.numbers.get(name.as_str()).copied()
    }

    /// Gives a name this number, unless it has one.
    fn add(
        &mut self,
        alloc: Global,
        number: usize,
        statement: &Preference,
    ) -> Result<(), AllocError>
        ensures { OnOk result ((ps : List Tree) → length ps ≡ number → IsTableOf ps self.old → IsTableOf (ps ++ statement.now ∷ []) self.new) }
    {
        if self.place(&statement.name).is_some() {
            return Ok(());
        }
        let name = String::from_str(alloc, statement.name.as_str())?;
        self.numbers.insert(name, number)?;
        Ok(())
    }
}

/// The number of each of the statements, which are counted from 0.
pub(crate) fn table_of(alloc: Global, statements: &[Statement]) -> Result<Table, AllocError>
    ensures { IfOk result (IsTableOf (preferences statements.now)) }
{
    let mut table = Table {
        numbers: HashMap::new(alloc),
    };
    let mut count = 0;
    for statement in statements {
        if let Statement::Preference(preference) = statement {
            table.add(alloc, count, preference)?;
            count += 1;
        }
    }
    Ok(table)
}
