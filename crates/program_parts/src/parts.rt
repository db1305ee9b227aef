// The parts of a program.
use ap_syntax::{Preference, Rule, Statement, Text};
use sqlite_items::Items;

/// The preference program of a type: the rules of all its parts.
#[derive(Debug, Drop)]
pub struct TypeProgram {
    /// The type, by its canonical text.
    pub name: Text,
    /// The rules, in the order of the texts.
    pub rules: Items<Rule>,
}

/// What the statements of a program are, each list in the order of the texts.
#[derive(Debug, Drop)]
pub struct Parts {
    /// The rules of the base.
    pub base: Items<Rule>,
    /// The preference programs, one for each type with a part, in the order of their first parts.
    pub kinds: Items<TypeProgram>,
    /// The preference statements.
    pub preferences: Items<Preference>,
    /// The statements that are neither rules nor preference statements.
    pub others: Items<Statement>,
}
