//! What words ask for.

/// What the words of `asprin` ask for.
#[derive(Debug, Drop)]
pub enum Words {
    /// The optimal sets: words without `--audit`.
    Solve(Solve),
    /// An audit of the order of preference: words with `--audit`.
    Audit(Audit),
}

/// What a run for the optimal sets is asked.
#[derive(Debug, Drop)]
pub struct Solve {
    /// How many sets at most, up to 4,294,967,295; 0 means all. 1 where the words do not say, and 0 with `--make`.
    pub wanted: u64,
    /// Whether the sets are sorted.
    pub sorted: bool,
    /// How many clauses may be learned, up to 999,999,999,999,999,999. 200,000 where the words do not say.
    pub budget: u64,
    /// How many chains there are, 1 to 8. 1 where the words do not say.
    pub chains: u8,
    /// Which certificate is written, if any.
    pub certificate: Option<Certificate>,
    /// The constants that are set, in order, with different names.
    pub constants: Vec<Constant>,
    /// What is read.
    pub input: Input,
}

/// What an audit is asked.
#[derive(Debug, Drop)]
pub struct Audit {
    /// How many clauses may be learned, up to 999,999,999,999,999,999. 200,000 where the words do not say.
    pub budget: u64,
    /// The constants that are set, in order, with different names.
    pub constants: Vec<Constant>,
    /// The names of the files, 1 to 10,000, none of them empty.
    pub files: Vec<String>,
}

/// A certificate that is asked for.
#[derive(Debug, Drop)]
pub struct Certificate {
    /// The name of its file, which is not empty.
    pub file: String,
    /// Whether it is binary, which is version 2, and not text, which is version 1.
    pub binary: bool,
}

/// A constant that the words set.
#[derive(Debug, Drop)]
pub struct Constant {
    /// Its name: any number of `_`, a letter a to z, and then letters, digits, `_` and `'`. It is not `not`.
    pub name: String,
    /// What it stands for.
    pub value: ConstantValue,
}

/// What a constant stands for.
#[derive(Debug, Drop)]
pub enum ConstantValue {
    /// The constant of this name, which is like that of a constant that is set.
    Name(String),
    /// A number up to 2147483647.
    Number(u64),
    /// A `-` before a number up to 2147483647.
    Minus(u64),
}

/// What is read.
#[derive(Debug, Drop)]
pub enum Input {
    /// The files of these names, 1 to 10,000, none of them empty.
    Files(Vec<String>),
    /// The one file that is made for so many offers, 1 to 5,000.
    Made(u64),
}

/// What the words of `asprin_check` ask for, where the first file is the certificate, and those of `asprin_session`,
/// where it has the commands.
#[derive(Debug, Drop)]
pub struct LedWords {
    /// The constants that are set, in order, with different names.
    pub constants: Vec<Constant>,
    /// The name of the first file, which is not empty.
    pub first: String,
    /// The names of the files behind it, 1 to 10,000, none of them empty.
    pub files: Vec<String>,
}
