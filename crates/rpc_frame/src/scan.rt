ghost use Rattle.std.specs.Prelude.{◌≡◌, ℕ, ◌+◌, ◌<◌, ◌≤◌, List, [], ◌∷◌, ◌++◌, length, take, IfOk, OnOk, OnErr};
ghost use Rattle.rpc_frame.specs.Partial.{GoesOn, IsFitReading, IsFitStep, Scanned, Stepped};
ghost use Rattle.rpc_frame.specs.Limits.{stream_limit};

use crate::reading::{Mark, Reading, Step};
use ob_text::NoMemory;
use std::collections::VecDeque;

/// Puts the next bytes of a stream, which has so many bytes before them, behind those that are kept,
/// and marks each frame that they make whole. Looks at the new bytes alone, and not at those of a
/// content. An `Err` changes nothing.
pub fn append(
    bytes: &mut Vec<u8>,
    marks: &mut VecDeque<Mark>,
    reading: Reading,
    begun: u64,
    piece: &[u8],
) -> Result<Reading, NoMemory>
    requires within { IsFitReading reading }
    requires bound { begun + length piece.now ≤ stream_limit }
    ensures bytes { OnOk result (bytes.new.items ≡ bytes.old.items ++ piece.now) }
    ensures within { IfOk result IsFitReading }
    ensures scanned { IfOk result (λ r. (from : ℕ) (waiting : List ℕ) → from + length waiting ≡ begun
        → Scanned from reading marks.old.items waiting
        → Scanned from r marks.new.items (waiting ++ piece.now)) }
    ensures err_bytes { OnErr result (bytes.new.items ≡ bytes.old.items) }
    ensures err_marks { OnErr result (marks.new.items ≡ marks.old.items) }
{
    let kept = bytes.len();
    let marked = marks.len();
    bytes.extend_from_slice(piece)?;
    match scan(reading, marks, begun, piece) {
        Ok(next) => Ok(next),
        Err(NoMemory) => {
            bytes.truncate(kept);
            marks.truncate(marked);
            Err(NoMemory)
        }
    }
}

/// Reads the next bytes of the stream. Where it finds no memory, some marks may have been made.
fn scan(
    mut reading: Reading,
    marks: &mut VecDeque<Mark>,
    begun: u64,
    piece: &[u8],
) -> Result<Reading, NoMemory>
    requires within { IsFitReading reading }
    requires bound { begun + length piece.now ≤ stream_limit }
    ensures within { IfOk result IsFitReading }
    ensures scanned { IfOk result (λ r. (from : ℕ) (waiting : List ℕ) → from + length waiting ≡ begun
        → Scanned from reading marks.old.items waiting
        → Scanned from r marks.new.items (waiting ++ piece.now)) }
    ensures goes_on { GoesOn marks.old.items marks.new.items }
{
    let mut rest = piece;
    let mut offset = begun;
    'pieces: while !rest.is_empty() {
        let (step, taken) = reading.step(offset, rest);
        reading = settle(step, marks)?;
        rest = rest.split_at(taken).1;
        offset += taken as u64;
    }
    Ok(reading)
}

/// Marks a frame that has come whole.
fn settle(step: Step, marks: &mut VecDeque<Mark>) -> Result<Reading, NoMemory>
    requires { IsFitStep step }
    ensures within { IfOk result IsFitReading }
    ensures scanned { IfOk result (λ r. (from : ℕ) (waiting : List ℕ)
        → Stepped from step marks.old.items waiting → Scanned from r marks.new.items waiting) }
    ensures goes_on { GoesOn marks.old.items marks.new.items }
{
    match step {
        Step::Inside(reading) => Ok(reading),
        Step::Whole(mark) => {
            marks.push_back(mark)?;
            Ok(Reading::START)
        }
    }
}
