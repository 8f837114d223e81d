use ob_text::NoMemory;

/// What is wrong with a byte of a header part, or with the end of the input.
#[derive(Clone, Copy, Debug, PartialEq, Eq)]
pub enum DamageKind {
    /// The byte can't continue a name, a value or a line end.
    BadLine,
    /// The byte is the colon of a second `Content-Length`.
    TwoLengths,
    /// The byte can't continue the digits of `Content-Length`, or ends an empty value.
    BadLength,
    /// The value of `Content-Length` passes the limit of a content with this digit.
    TooLong,
    /// The header part ends without a `Content-Length`.
    NoLength,
    /// The header part has more bytes than its limit.
    HeaderTooLong,
    /// The input ended inside a frame. A decoder, which doesn't know the end, never tells it.
    Truncated,
}

/// Where a stream stops being frames, and why. The place is the offset of a byte in the whole stream.
#[derive(Clone, Copy, Debug, PartialEq, Eq)]
pub struct Damage {
    pub place: u64,
    pub kind: DamageKind,
}

/// Why a decoder takes no more of its stream.
#[derive(Clone, Copy, Debug, PartialEq, Eq)]
pub enum FeedFault {
    /// The stream begins no list of frames, and never will.
    Damaged(Damage),
    NoMemory,
}

impl From<NoMemory> for FeedFault {
    ghost use Rattle.std.specs.Prelude.{◌≡◌};
    ghost use Rattle.rpc_frame.specs.declared.damage.FeedFault.TheVariants as fault;

    ghost from_gives = { λ _ e. e ≡ fault.NoMemory };

    fn from(_error: NoMemory) -> FeedFault {
        FeedFault::NoMemory
    }
}
