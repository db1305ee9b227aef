// Statements and programs.
ghost use Rattle.std.specs.Prelude.{◌≡◌, [], ◌∷◌, ◌++◌, MatchOption, OnOk, OnErr};

use crate::preferences::Preference;
use crate::rules::Rule;
use crate::terms::Term;
use crate::text::Text;
use std::alloc::{AllocError, Global};
use std::marker::Model;

/// A part of a program, to which the rules behind its `#program` belong.
#[derive(Debug, Drop)]
pub enum PartKind {
    /// `base`, in which each file begins.
    Base,
    /// `preference(type)`: the preference program of a type, by the type's canonical text.
    Kind(Text),
}

/// A statement.
#[derive(Debug, Drop)]
pub enum Statement {
    /// A rule.
    Rule(Rule),
    /// `#const name = value.`
    Const {
        /// The number of its file, from 1. 0 where the text is of no file.
        file: u32,
        /// The byte of the text, from 0, at which its first token begins.
        at: u32,
        /// The constant that is declared.
        name: Text,
        /// What stands for it: an `Int`, the `Minus` of one, a `Const` or a `Str`.
        value: Term,
    },
    /// `#show name/arity.`, with the arity up to 2,147,483,647, or `#show.`
    Show(Option<(Text, u32)>),
    /// `#defined name/arity.`, with the arity up to 2,147,483,647. It has no meaning.
    Defined(Text, u32),
    /// `#program base.` or `#program preference(type).`
    Part {
        /// The number of its file, from 1. 0 where the text is of no file.
        file: u32,
        /// The byte of the text, from 0, at which its first token begins.
        at: u32,
        /// The part that it opens.
        part: PartKind,
    },
    /// A preference statement.
    Preference(Preference),
    /// `#optimize(name).`: the answer sets are those to which none is preferred by the statement of this name.
    Optimize {
        /// The number of its file, from 1. 0 where the text is of no file.
        file: u32,
        /// The byte of the text, from 0, at which its first token begins.
        at: u32,
        /// The name of the statement.
        name: Text,
    },
}

/// Statements, which contracts see as their list. Those that are taken from the end give their memory back as they go.
#[derive(Debug, Drop)]
pub struct Statements {
    list: Vec<Statement>,
}

impl Model for Statements {
    ghost use Rattle.std.specs.Prelude.{List};
    ghost use Rattle.std.specs.Coded.{coded_list};
    ghost use Rattle.ap_syntax.specs.declared.programs.Statement.{Statement};
    ghost use Rattle.ap_syntax.specs.contracts.programs.Statement as statements;

    ghost Value = { List Statement };

    ghost coded = { coded_list statements.the_row.coded };

    ghost view = { λ s. s.list.items };
}

impl Statements {
    /// No statement.
    pub fn new(alloc: Global) -> Statements
        ensures { result ≡ [] }
    {
        Statements {
            list: Vec::new(alloc),
        }
    }

    /// The statements of a list. The code asks for a block of their length; the contract sees the statements alone.
    pub fn fitted(mut list: Vec<Statement>) -> Statements
        ensures { result ≡ list.items }
    {
        list.shrink_to_fit();
        Statements { list }
    }

    /// The statements, in order.
    pub fn as_slice(&self) -> &[Statement]
        ensures { result.now ≡ self.now }
    {
        self.list.as_slice()
    }

    /// Moves the statements of `more` to the end. Fails only for want of memory, and then leaves these as they were.
    pub fn append(&mut self, more: Statements) -> Result<(), AllocError>
        ensures joined { OnOk result (self.new ≡ self.old ++ more) }
        ensures kept { OnErr result (self.new ≡ self.old) }
    {
        let Statements { mut list } = more;
        self.list.append(&mut list)
    }

    /// Takes the last statement, if there is one. What is not used of the block is given back as soon as it is more than an
    /// eighth.
    pub fn pop(&mut self) -> Option<Statement>
        ensures { MatchOption result ((self.old ≡ []) × (self.new ≡ [])) (λ last. self.old ≡ self.new ++ last ∷ []) }
    {
        let last = self.list.pop();
        let block = self.list.capacity();
        if self.list.len() < block - block / 8 {
            self.list.shrink_to_fit();
        }
        last
    }
}

/// A program.
#[derive(Debug, Drop)]
pub struct Program {
    /// Its statements, in the order of the text.
    pub statements: Statements,
}
