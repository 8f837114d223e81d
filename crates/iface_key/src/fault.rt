ghost use Rattle.std.specs.Prelude.{◌≡◌};
ghost use Rattle.iface_key.specs.declared.fault.Fault.TheVariants as faults;

use ob_text;
use std::alloc::{AllocError, AllocFailed};

/// Why a part of a key wasn't read.
#[derive(Clone, Copy, Debug)]
pub enum Fault {
    /// The bytes begin with no such part.
    NoKey,
    NoMemory,
}

impl From<ob_text::NoMemory> for Fault {
    ghost from_gives = { λ _ fault. fault ≡ faults.NoMemory };

    fn from(_error: ob_text::NoMemory) -> Fault {
        Fault::NoMemory
    }
}

impl From<AllocError> for Fault {
    ghost from_gives = { λ _ fault. fault ≡ faults.NoMemory };

    fn from(_error: AllocError) -> Fault {
        Fault::NoMemory
    }
}

impl<T: Drop> From<AllocFailed<T>> for Fault {
    ghost from_gives = { λ _ fault. fault ≡ faults.NoMemory };

    fn from(_failed: AllocFailed<T>) -> Fault {
        Fault::NoMemory
    }
}
