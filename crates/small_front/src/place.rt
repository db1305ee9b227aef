// Places in files.

/// A place in a file.
#[derive(Clone, Copy, Debug, PartialEq, Eq)]
pub struct Place {
    /// The number of the file, from 1.
    pub file: u32,
    /// The byte, from 0.
    pub at: u32,
}
