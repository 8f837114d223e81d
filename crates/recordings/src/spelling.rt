ghost use Rattle.std.specs.Prelude.{◌≡◌, ◌<◌, ◌≤◌, ◌+◌, ◌^◌, ◌++◌, codes, length, option_map, OnOk, OnErr, vec_len, vec_capacity};
ghost use Rattle.recordings.specs.Recordings.{AreTexts, entry_text, first_line, handed, over, piece, spelled, written};

use crate::handed::handed_text;
use itoa::Buffer;
use ob_text::{NoMemory, Snapshot};
use std::alloc::Global;

/// Writes the line at the end with which each recording begins.
pub fn begin_into(out: &mut Vec<u8>) -> Result<(), NoMemory>
    ensures ok { OnOk result (out.new.items ≡ out.old.items ++ first_line) }
    ensures err { OnErr result (out.new.items ≡ out.old.items) }
{
    out.extend_from_slice(b"oberon-bsp record 1\n")?;
    Ok(())
}

/// Writes at the end that a piece of the input was read.
pub fn in_into(out: &mut Vec<u8>, bytes: &[u8]) -> Result<(), NoMemory>
    ensures ok { OnOk result (out.new.items ≡ out.old.items ++ entry_text (piece bytes.now)) }
    ensures err { OnErr result (out.new.items ≡ out.old.items) }
{
    spell(out, b"in", bytes)
}

/// Writes at the end that the tree handed these entries out, or that it failed.
pub fn tree_into(
    alloc: Global,
    out: &mut Vec<u8>,
    snapshot: Option<&Snapshot>,
) -> Result<(), NoMemory>
    requires { AreTexts (option_map (λ s. s.now.entries) snapshot) }
    ensures ok { OnOk result (out.new.items
        ≡ out.old.items ++ entry_text (handed (option_map (λ s. s.now.entries) snapshot.entry))) }
    ensures err { OnErr result (out.new.items ≡ out.old.items) }
{
    let text = handed_text(alloc, snapshot)?;
    spell(out, b"tree", text.as_slice())
}

/// Writes at the end that a frame was written.
pub fn out_into(out: &mut Vec<u8>, frame: &[u8]) -> Result<(), NoMemory>
    ensures ok { OnOk result (out.new.items ≡ out.old.items ++ entry_text (written frame.now)) }
    ensures err { OnErr result (out.new.items ≡ out.old.items) }
{
    spell(out, b"out", frame)
}

/// Writes at the end that the session ended with this status.
pub fn end_into(out: &mut Vec<u8>, status: u8) -> Result<(), NoMemory>
    ensures ok { OnOk result (out.new.items ≡ out.old.items ++ entry_text (over status)) }
    ensures err { OnErr result (out.new.items ≡ out.old.items) }
{
    let mut buffer = Buffer::new();
    let digits = buffer.format(status);
    spell(out, b"end", digits.as_bytes())
}

/// Writes an entry at the end, by its kind and its bytes.
fn spell(out: &mut Vec<u8>, kind: &[u8], bytes: &[u8]) -> Result<(), NoMemory>
    requires { length kind.now ≤ 4 }
    ensures ok { OnOk result (out.new.items ≡ out.old.items ++ spelled kind.now bytes.now) }
    ensures err { OnErr result (out.new.items ≡ out.old.items) }
{
    let mut buffer = Buffer::new();
    let digits = buffer.format(bytes.len()).as_bytes();
    out.reserve(kind.len() + digits.len() + bytes.len() + 3)?;
    put(out, kind);
    put(out, b" ");
    put(out, digits);
    put(out, b"\n");
    put(out, bytes);
    put(out, b"\n");
    Ok(())
}

/// Puts bytes at the end, for which there is room.
fn put(out: &mut Vec<u8>, bytes: &[u8])
    requires { vec_len out.old + length bytes.now ≤ vec_capacity out.old }
    ensures items { out.new.items ≡ out.old.items ++ bytes.now }
    ensures len { vec_len out.new ≡ vec_len out.old + length bytes.now }
    ensures capacity { vec_capacity out.old ≤ vec_capacity out.new }
{
    let Ok(()) = out.extend_from_slice(bytes) else {
        unreachable!()
    };
}
