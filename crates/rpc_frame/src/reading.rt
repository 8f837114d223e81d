ghost use Rattle.std.specs.Prelude.{◌≡◌, ℕ, ◌+◌, ◌<◌, ◌≤◌, ◌↔◌, List, [], ◌∷◌, ◌++◌, length, take, IsTrue, IsSome, IfSome, IfNone};
ghost use Rattle.rpc_frame.specs.Partial.{IsFitReading, IsFitStep, IsPartRead, Makes};
ghost use Rattle.rpc_frame.specs.Spots.{IsFit};
ghost use Rattle.rpc_frame.specs.Limits.{header_limit};

use crate::HEADER_LIMIT;
use crate::damage::{Damage, DamageKind};
use crate::head::{Head, Next, Spot};

/// What has come of the frame behind the last whole one.
#[derive(Clone, Copy, Debug)]
pub enum Reading {
    /// So many bytes of its header part.
    Header {
        came: usize,
        head: Head,
    },
    /// A header part of so many bytes, and a content of this size of which so many bytes are missing.
    Content {
        header: usize,
        size: usize,
        missing: usize,
    },
    /// No frame begins so, however it goes on.
    Broken(Damage),
}

/// How many bytes the header part and the content of a whole frame have.
#[derive(Clone, Copy, Debug)]
pub struct Mark {
    pub header: usize,
    pub content: usize,
}

/// What the next bytes make of a reading.
#[derive(Clone, Copy, Debug)]
pub enum Step {
    /// The frame isn't whole, or never will be.
    Inside(Reading),
    /// The frame is whole.
    Whole(Mark),
}

impl Reading {
    /// Where a frame begins.
    pub const START: Reading = Reading::Header {
        came: 0,
        head: Head::START,
    };

    /// Whether nothing has come of a frame.
    pub fn is_start(self) -> bool
        ensures start { IsTrue result → (head : Head) × (self ≡ Reading.Header 0 head) }
        ensures other { (head : Head) → self ≡ Reading.Header 0 head → IsTrue result }
    {
        match self {
            Reading::Header { came, .. } => came == 0,
            _ => false,
        }
    }

    pub fn damage(self) -> Option<Damage>
        ensures some { IfSome result (λ damage. self ≡ Reading.Broken damage) }
        ensures none { IfNone result ((damage : Damage) → self ≡ Reading.Broken damage → ⊥) }
    {
        match self {
            Reading::Broken(damage) => Some(damage),
            _ => None,
        }
    }

    /// Reads some of these bytes, which stand at this offset of the stream, and tells how many: one of
    /// a header part, or all of the content that have come.
    pub fn step(self, offset: u64, bytes: &[u8]) -> (Step, usize)
        requires some { 0 < length bytes.now }
        requires within { IsFitReading self }
        ensures progress { 0 < result.1 }
        ensures inside { result.1 ≤ length bytes.now }
        ensures within { IsFitStep result.0 }
        ensures makes { (start : ℕ) (part : List ℕ) → start + length part ≡ offset
            → IsPartRead start self part → Makes start result.0 (part ++ take result.1 bytes.now) }
    {
        match self {
            Reading::Header { came, head } => (after_header(came, head, offset, bytes[0]), 1),
            Reading::Content {
                header,
                size,
                missing,
            } => after_content(header, size, missing, bytes.len()),
            Reading::Broken(damage) => (Step::Inside(Reading::Broken(damage)), bytes.len()),
        }
    }
}

fn after_header(came: usize, head: Head, offset: u64, byte: u8) -> Step
    requires limit { came ≤ header_limit }
    requires fit { IsFit head.spot }
    ensures within { IsFitStep result }
    ensures makes { (start : ℕ) (part : List ℕ) → start + length part ≡ offset
        → IsPartRead start (Reading.Header came head) part → Makes start result (part ++ byte ∷ []) }
{
    let full = came == HEADER_LIMIT;
    if full {
        return broken(offset, DamageKind::HeaderTooLong);
    }
    match head.next(byte) {
        Next::On(head) => Step::Inside(Reading::Header {
            came: came + 1,
            head,
        }),
        Next::Closed(size) => opened(came + 1, size),
        Next::Bad(kind) => broken(offset, kind),
    }
}

fn broken(place: u64, kind: DamageKind) -> Step
    ensures { result ≡ Step.Inside (Reading.Broken (record { place = place; kind = kind })) }
{
    Step::Inside(Reading::Broken(Damage { place, kind }))
}

/// The start of a content behind a header part of so many bytes.
fn opened(header: usize, size: usize) -> Step
    requires { header ≤ header_limit }
    ensures within { IsFitStep result }
    ensures empty { size ≡ 0 → result ≡ Step.Whole (record { header = header; content = 0 }) }
    ensures some { 0 < size → result ≡ Step.Inside (Reading.Content header size size) }
{
    if size == 0 {
        return Step::Whole(Mark { header, content: 0 });
    }
    Step::Inside(Reading::Content {
        header,
        size,
        missing: size,
    })
}

fn after_content(header: usize, size: usize, missing: usize, ready: usize) -> (Step, usize)
    requires some { 0 < ready }
    requires missing { 0 < missing }
    requires limit { header ≤ header_limit }
    ensures progress { 0 < result.1 }
    ensures inside { result.1 ≤ ready }
    ensures within { IsFitStep result.0 }
    ensures makes { (start : ℕ) (part taken : List ℕ) → IsPartRead start (Reading.Content header size missing) part
        → length taken ≡ result.1 → Makes start result.0 (part ++ taken) }
{
    if ready < missing {
        let reading = Reading::Content {
            header,
            size,
            missing: missing - ready,
        };
        return (Step::Inside(reading), ready);
    }
    let mark = Mark {
        header,
        content: size,
    };
    (Step::Whole(mark), missing)
}
