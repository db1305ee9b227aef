// How a run ends, and its last line.
ghost use Rattle.std.specs.Prelude.{◌≡◌, IfOk, string_bytes};
ghost use Rattle.asprin_cli.specs.Lines.{line_of, refusal_line, refusal_status, status_of};

use ap_base::Status;
use ap_lexemes::{Construct, Limit};
use std::alloc::{AllocError, Global};

/// What is wrong with the words and the input, in the order in which it is looked for. Files are numbered from 1, and
/// their bytes from 0.
#[derive(Clone, Copy, Debug, PartialEq, Eq)]
pub enum Refusal {
    /// The words are not of the form `--sorted -n 0 FILE..`, with at most 10,000 files.
    Usage,
    /// The files have more than 16,777,216 bytes together.
    Bytes,
    /// The file is the first that is no text of the grammar: none goes on so at this byte.
    Syntax {
        /// The number of the file.
        file: u32,
        /// The byte.
        at: u32,
    },
    /// The same, and a construct begins there that is not supported.
    Unsupported {
        /// The number of the file.
        file: u32,
        /// The byte.
        at: u32,
        /// The construct.
        construct: Construct,
    },
    /// The first file that is no text of the grammar goes beyond this limit.
    Limit(Limit),
    /// The statement is the first that is not of the small language.
    Later {
        /// The number of the file.
        file: u32,
        /// The byte at which the statement begins.
        at: u32,
    },
    /// The statement is the first `#const` of a name that has one before it.
    ConstTwice {
        /// The number of the file.
        file: u32,
        /// The byte at which the statement begins.
        at: u32,
    },
    /// The rules have more than 12 atoms.
    Trial,
}

/// How a run ends.
#[derive(Clone, Copy, Debug, PartialEq, Eq)]
pub enum End {
    /// The source failed in the open of this number, counted from 1, or in reading what it opened.
    Source(u64),
    Refused(Refusal),
    /// There is no answer set.
    Unsatisfiable,
    /// There is an answer set, and none is optimal.
    NoOptimum,
    /// All optimal answer sets are listed, so many.
    Done(usize),
}

fn limit_line(alloc: Global, which: Limit) -> Result<String, AllocError>
    ensures { IfOk result (λ line. string_bytes line ≡ refusal_line (Refusal.Limit which)) }
{
    match which {
        Limit::Nesting => format!(in alloc; "LIMIT nesting 32\n"),
        Limit::Arity => format!(in alloc; "LIMIT arity 32\n"),
        Limit::Formula => format!(in alloc; "LIMIT formula 64\n"),
    }
}

impl Refusal {
    fn status(&self) -> Status
        ensures { result ≡ refusal_status self.now }
    {
        match self {
            Refusal::Usage => Status::Usage,
            Refusal::Bytes | Refusal::Limit(_) | Refusal::Trial => Status::Limit,
            Refusal::Syntax { .. } => Status::Syntax,
            Refusal::Unsupported { .. } | Refusal::Later { .. } => Status::Unsupported,
            Refusal::ConstTwice { .. } => Status::Naming,
        }
    }

    fn line(&self, alloc: Global) -> Result<String, AllocError>
        ensures { IfOk result (λ line. string_bytes line ≡ refusal_line self.now) }
    {
        match *self {
            Refusal::Usage => format!(in alloc; "USAGE\n"),
            Refusal::Bytes => format!(in alloc; "LIMIT bytes 16777216\n"),
            Refusal::Syntax { file, at } => format!(in alloc; "SYNTAX {file}:{at}\n"),
            Refusal::Unsupported {
                file,
                at,
                construct,
            } => {
                let name = construct.name();
                format!(in alloc; "UNSUPPORTED {file}:{at} {name}\n")
            }
            Refusal::Limit(which) => limit_line(alloc, which),
            Refusal::Later { file, at } => format!(in alloc; "UNSUPPORTED {file}:{at} later\n"),
            Refusal::ConstTwice { file, at } => format!(in alloc; "NAMING {file}:{at} const\n"),
            Refusal::Trial => format!(in alloc; "LIMIT trial 12\n"),
        }
    }
}

impl End {
    /// The status that the last line names.
    pub fn status(&self) -> Status
        ensures { result ≡ status_of self.now }
    {
        match self {
            End::Source(_) => Status::Source,
            End::Refused(refusal) => refusal.status(),
            End::Unsatisfiable => Status::Unsatisfiable,
            End::NoOptimum => Status::NoOptimum,
            End::Done(_) => Status::Done,
        }
    }

    /// The last line of a run, with its line feed.
    pub fn line(&self, alloc: Global) -> Result<String, AllocError>
        ensures { IfOk result (λ line. string_bytes line ≡ line_of self.now) }
    {
        match self {
            End::Source(opened) => format!(in alloc; "SOURCE {opened}\n"),
            End::Refused(refusal) => refusal.line(alloc),
            End::Unsatisfiable => format!(in alloc; "UNSATISFIABLE\n"),
            End::NoOptimum => format!(in alloc; "NO OPTIMUM\n"),
            End::Done(count) => format!(in alloc; "DONE {count}\n"),
        }
    }
}
