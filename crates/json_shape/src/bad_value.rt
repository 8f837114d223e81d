ghost use Rattle.json_shape.specs.declared.bad_value.BadValue.TheVariants as bads;

use ob_text::{self, Text};
use std::alloc::{AllocError, AllocFailed, Global};

/// Why a value isn't what it was read as.
#[derive(Debug, Drop, PartialEq)]
pub enum BadValue {
    /// The path of the first place that is missing, of the wrong kind or breaks a rule, such as
    /// `targets[0].uri`.
    At(Text),
    /// The call found no memory.
    NoMemory,
}

impl From<ob_text::NoMemory> for BadValue {
    ghost use Rattle.std.specs.Prelude.{◌≡◌};

    ghost from_gives = { λ _ bad. bad ≡ bads.NoMemory };

    fn from(_error: ob_text::NoMemory) -> BadValue {
        BadValue::NoMemory
    }
}

impl From<AllocError> for BadValue {
    ghost use Rattle.std.specs.Prelude.{◌≡◌};

    ghost from_gives = { λ _ bad. bad ≡ bads.NoMemory };

    fn from(_error: AllocError) -> BadValue {
        BadValue::NoMemory
    }
}

impl<T: Drop> From<AllocFailed<T>> for BadValue {
    ghost use Rattle.std.specs.Prelude.{◌≡◌};

    ghost from_gives = { λ _ bad. bad ≡ bads.NoMemory };

    fn from(_failed: AllocFailed<T>) -> BadValue {
        BadValue::NoMemory
    }
}
