use ob_text::Name;

/// What became of the target of a name.
#[derive(Clone, Copy, Debug, PartialEq, Eq)]
pub enum Change {
    /// Only the new workspace has it.
    Created,
    /// Both have it, and say something else of it.
    Changed,
    /// Only the old workspace has it.
    Deleted,
}

/// A target that isn't what it was, by its name.
#[derive(Debug, Drop)]
pub struct ChangedTarget {
    pub name: Name,
    pub change: Change,
}
