// Marks of nodes.
ghost use Rattle.std.specs.Prelude.{◌≡◌};
ghost use Rattle.definite.specs.Rules.{marked};

/// Whether a node is marked.
pub(crate) fn is_marked(marks: &[bool], node: usize) -> bool
    ensures { result ≡ marked marks.now node }
{
    match marks.get(node) {
        Some(mark) => *mark,
        None => false,
    }
}
