ghost use Rattle.std.specs.Prelude.{◌≡◌, ℕ, ◌+◌, ◌≤◌, List, ◌++◌, length, OnOk, OnErr, vec_len, vec_capacity};
ghost use Rattle.rpc_frame.specs.Frames.{BeginsWith, IsFrame, written_frame};
ghost use Rattle.rpc_frame.specs.Limits.{content_limit};

use itoa::Buffer;
use ob_text::NoMemory;

/// The one header line of a frame, up to its number.
const LENGTH_FIELD: &[u8; 16] = b"Content-Length: ";

/// The end of that line, and the empty line that closes the header part.
const LINE_ENDS: &[u8; 4] = b"\r\n\r\n";

/// Writes a content at the end, as one frame.
pub fn frame_into(out: &mut Vec<u8>, body: &[u8]) -> Result<(), NoMemory>
    requires { length body.now ≤ content_limit }
    ensures ok { OnOk result (out.new.items ≡ out.old.items ++ written_frame body.now) }
    ensures frame { IsFrame (written_frame body.now) body.now }
    ensures again { (after : List ℕ)
        → BeginsWith (written_frame body.now ++ after) body.now after }
    ensures err { OnErr result (out.new.items ≡ out.old.items) }
{
    let mut buffer = Buffer::new();
    let digits = buffer.format(body.len()).as_bytes();
    out.reserve(LENGTH_FIELD.len() + digits.len() + LINE_ENDS.len() + body.len())?;
    put(out, LENGTH_FIELD);
    put(out, digits);
    put(out, LINE_ENDS);
    put(out, body);
    Ok(())
}

/// Puts bytes at the end, for which there is room.
fn put(out: &mut Vec<u8>, bytes: &[u8])
    requires { vec_len out.old + length bytes.now ≤ vec_capacity out.old }
    ensures items { out.new.items ≡ out.old.items ++ bytes.now }
    ensures len { vec_len out.new ≡ vec_len out.old + length bytes.now }
    ensures capacity { vec_capacity out.old ≤ vec_capacity out.new }
{
    let Ok(()) = out.extend_from_slice(bytes) else {
        unreachable!()
    };
}
