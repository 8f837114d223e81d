use ob_text::NoMemory;

/// The code of a body that is no JSON (JSON-RPC 2.0, section 5.1).
pub const PARSE_ERROR: i32 = -32700;

/// The code of a body that is JSON and no message (JSON-RPC 2.0, section 5.1).
pub const INVALID_REQUEST: i32 = -32600;

/// Why a body isn't a message: the code that its sender is answered, or no memory to read it.
#[derive(Clone, Copy, Debug, PartialEq, Eq)]
pub enum Refusal {
    Coded(i32),
    NoMemory,
}

impl From<NoMemory> for Refusal {
    ghost use Rattle.std.specs.Prelude.{◌≡◌};
    ghost use Rattle.rpc_peer.specs.declared.refusal.Refusal.TheVariants as refusals;

    ghost from_gives = { λ _ e. e ≡ refusals.NoMemory };

    fn from(_error: NoMemory) -> Refusal {
        Refusal::NoMemory
    }
}
