// Why printing stopped.

/// Why printing stopped.
#[derive(Clone, Copy, Debug, PartialEq, Eq)]
pub enum Quit {
    /// The sink failed.
    Sink,
    /// Memory ran out.
    Memory,
}
