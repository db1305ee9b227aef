// Why rules are refused.
use ap_syntax::Text;
use std::error::Error;
use thiserror::Error;

/// Why rules are refused.
#[derive(Debug, Drop, Error)]
pub enum SafetyFault {
    /// A variable of a rule or of an element of a preference statement is not bound: neither an argument of a positive literal of
    /// the body, nor one side of `=` whose other side has bound variables alone, nor the guard with `=` of an aggregate that is not
    /// negated, mentions definite predicates alone and has bound global variables alone between its braces.
    #[error("a variable is not bound")]
    Unsafe {
        /// The number of its file, from 1. 0 where the text is of no file.
        file: u32,
        /// The byte of the text, from 0, at which the first token of the rule or the element begins.
        at: u32,
        /// The first of its variables that is not bound, by its name; `_` for one without a name.
        variable: Text,
    },
    /// An aggregate of a base rule mentions a predicate of the component of one of the rule's heads.
    #[error("an aggregate goes through the head of its rule")]
    AggregateRecursion {
        /// The number of its file, from 1. 0 where the text is of no file.
        file: u32,
        /// The byte of the text, from 0, at which the first token of the rule begins.
        at: u32,
    },
    /// A rule depends on its own head in a way that its program may not.
    #[error("a rule goes through its head")]
    Recursion {
        /// The number of its file, from 1. 0 where the text is of no file.
        file: u32,
        /// The byte of the text, from 0, at which the first token of the rule begins.
        at: u32,
    },
    /// There is no memory left.
    #[error("out of memory")]
    Memory,
}

/// Why conditions are refused.
#[derive(Clone, Copy, Debug, PartialEq, Eq, Error)]
pub enum DomainFault {
    /// The condition of a conditional literal, or the `:` part of an element, has a predicate that is not definite.
    #[error("a condition has a predicate that is not definite")]
    NotDomain {
        /// The number of its file, from 1. 0 where the text is of no file.
        file: u32,
        /// The byte of the text, from 0, at which the first token of the literal or of the element begins.
        at: u32,
    },
    /// There is no memory left.
    #[error("out of memory")]
    Memory,
}
