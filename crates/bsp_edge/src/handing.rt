ghost use Rattle.std.specs.Prelude.{◌≡◌, ℕ, List, Option, IfOk};
ghost use Rattle.std.specs.List.{All};
ghost use Rattle.ob_text.specs.declared.held.Held.{Held};
ghost use Rattle.ob_text.specs.Held.{IsReadable};
ghost use Rattle.bsp_edge.specs.Handing.{HandFaults, HandsOut, paths_of};
ghost use Rattle.bsp_edge.specs.declared.handing.TreeFault.TheVariants.{NoMemory};

use ob_text::{self, Path, Snapshot};
use std::alloc::{AllocError, AllocFailed};

/// Why a tree handed nothing out.
#[derive(Clone, Copy, Debug, PartialEq, Eq)]
pub enum TreeFault {
    /// A file could not be read.
    Failed,
    /// The call found no memory. The tree is as it was.
    NoMemory,
}

impl From<ob_text::NoMemory> for TreeFault {
    ghost from_gives = { λ _ fault. fault ≡ NoMemory };

    fn from(_error: ob_text::NoMemory) -> TreeFault {
        TreeFault::NoMemory
    }
}

impl From<AllocError> for TreeFault {
    ghost from_gives = { λ _ fault. fault ≡ NoMemory };

    fn from(_error: AllocError) -> TreeFault {
        TreeFault::NoMemory
    }
}

impl<T: Drop> From<AllocFailed<T>> for TreeFault {
    ghost from_gives = { λ _ fault. fault ≡ NoMemory };

    fn from(_failed: AllocFailed<T>) -> TreeFault {
        TreeFault::NoMemory
    }
}

/// Where the texts of files come from.
pub trait Tree {
    /// The snapshots handed out so far, oldest first, where the tree tells them.
    ghost handed: { Self → Option (List (List (List ℕ × Held))) };

    /// How many calls failed. It stays at 2^64 - 1.
    ghost faults: { Self → ℕ };

    /// Hands out what is held at each path, in order. A file that isn't there is Absent, one above the
    /// limit is TooLarge, and another that isn't UTF-8 is NotText; these are no faults.
    fn read_all(&mut self, paths: &[Path]) -> Result<Snapshot, TreeFault>
        ensures paths { IfOk result (λ snapshot. paths_of snapshot.entries ≡ paths.now) }
        ensures texts { IfOk result (λ snapshot. All (λ entry. IsReadable entry.1) snapshot.entries) }
        ensures handed { HandsOut (handed self.old) (handed self.new) result }
        ensures faults { HandFaults (faults self.old) (faults self.new) result };
}
