ghost use Rattle.std.specs.Prelude.{◌≡◌};

use ob_text::NoMemory;
use std::alloc::{AllocError, AllocFailed};

/// Why a part of a module wasn't read: the tokens stop being one before the last so many, or there was
/// no memory.
#[derive(Clone, Copy, Debug)]
pub enum Stop {
    Left(usize),
    NoMemory,
}

impl From<NoMemory> for Stop {
    ghost use Rattle.oberon_productions.specs.declared.stop.Stop.TheVariants as stop;

    ghost from_gives = { λ _ e. e ≡ stop.NoMemory };

    fn from(_error: NoMemory) -> Stop {
        Stop::NoMemory
    }
}

impl From<AllocError> for Stop {
    ghost use Rattle.oberon_productions.specs.declared.stop.Stop.TheVariants as stop;

    ghost from_gives = { λ _ e. e ≡ stop.NoMemory };

    fn from(_error: AllocError) -> Stop {
        Stop::NoMemory
    }
}

impl<T: Drop> From<AllocFailed<T>> for Stop {
    ghost use Rattle.oberon_productions.specs.declared.stop.Stop.TheVariants as stop;

    ghost from_gives = { λ _ e. e ≡ stop.NoMemory };

    fn from(_failed: AllocFailed<T>) -> Stop {
        Stop::NoMemory
    }
}
