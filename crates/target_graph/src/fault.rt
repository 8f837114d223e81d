use ob_text::{Name, NoMemory};
use std::alloc::AllocFailed;

/// What is wrong with a workspace file. The first of these that stands in the file refuses it.
#[derive(Clone, Copy, Debug, PartialEq, Eq)]
pub enum FaultKind {
    /// There is no text.
    NoFile,
    /// The text is no JSON.
    BadJson,
    /// A field is missing, of the wrong kind, or breaks a rule of its own. The name is its path.
    BadField,
    /// There are more targets, modules or dependencies than a workspace may have. The name says of
    /// which.
    TooMany,
    /// A target has an earlier one's name. The name is this name.
    NameTwice,
    /// A dependency is no target. The name is the dependency.
    UnknownDependency,
    /// A target depends on itself, directly or not. The name is that of the first such target.
    DependencyCycle,
    /// Two pairs that a target sees have one stem. The name is this stem.
    StemTwice,
}

/// Why a workspace file is refused: the kind of its first fault, and what the fault is about. The
/// name is empty where
/// it is about nothing in the file.
#[derive(Debug, Drop)]
pub struct WorkspaceFault {
    pub kind: FaultKind,
    pub name: Name,
}

/// Why there is no workspace.
#[derive(Debug, Drop)]
pub enum WorkspaceRefusal {
    Fault(WorkspaceFault),
    NoMemory,
}

impl From<NoMemory> for WorkspaceRefusal {
    ghost use Rattle.std.specs.Prelude.{◌≡◌};
    ghost use Rattle.target_graph.specs.declared.fault.WorkspaceRefusal.TheVariants as refusals;

    ghost from_gives = { λ _ refusal. refusal ≡ refusals.NoMemory };

    fn from(_error: NoMemory) -> WorkspaceRefusal {
        WorkspaceRefusal::NoMemory
    }
}

impl<T: Drop> From<AllocFailed<T>> for WorkspaceRefusal {
    ghost use Rattle.std.specs.Prelude.{◌≡◌};
    ghost use Rattle.target_graph.specs.declared.fault.WorkspaceRefusal.TheVariants as refusals;

    ghost from_gives = { λ _ refusal. refusal ≡ refusals.NoMemory };

    fn from(_failed: AllocFailed<T>) -> WorkspaceRefusal {
        WorkspaceRefusal::NoMemory
    }
}
