ghost use Rattle.std.specs.Prelude.{◌≡◌, ◌<◌, ℕ, List, Option, length, vec_len, IfOk, IfSome};
ghost use Rattle.std.specs.Bool.{OnTrue, OnFalse};
ghost use Rattle.std.specs.Io.KnownBytes.{Consumes, IsAtEnd};
ghost use Rattle.ob_text.specs.Held.{IsReadable, held_of};
ghost use Rattle.bsp_edge.specs.Documents.{as_handed};

use crate::handing::TreeFault;
use crate::reading::Got;
use crate::streams::read_piece;
use ob_text::{Held, NoMemory, TEXT_LIMIT};
use std::alloc::Global;
use std::io::Read;

/// What is handed out where a file holds this, as a value of its own.
pub(crate) fn handed_copy(alloc: Global, held: &Held) -> Result<Held, NoMemory>
    ensures { IfOk result (λ copy. copy ≡ as_handed held.now) }
{
    match held {
        Held::Text(text) => Ok(Held::from_bytes(text.copy(alloc)?.into_vec())),
        Held::Absent => Ok(Held::Absent),
        Held::TooLarge => Ok(Held::TooLarge),
        Held::NotText => Ok(Held::NotText),
    }
}

/// Reads a file to its end, or one byte beyond the limit, in pieces that `buffer` has room for.
pub(crate) fn read_document<I: Read>(
    alloc: Global,
    input: &mut I,
    buffer: &mut [u8],
) -> Result<Held, TreeFault>
    requires { 0 < length buffer.old }
    ensures readable { IfOk result IsReadable }
    ensures told { IfOk result (λ held. IfSome (I.remaining input.old)
        (λ bytes. held ≡ held_of bytes)) }
{
    let mut bytes = Vec::new(alloc);
    while bytes.len() <= TEXT_LIMIT {
        let room = (TEXT_LIMIT + 1 - bytes.len()).min(buffer.len());
        if !read_more(input, &mut buffer[..room], &mut bytes)? {
            return Ok(Held::from_bytes(bytes));
        }
    }
    Ok(Held::TooLarge)
}

/// Puts the next piece behind `bytes`. Was there one?
fn read_more<I: Read>(
    input: &mut I,
    piece: &mut [u8],
    bytes: &mut Vec<u8>,
) -> Result<bool, TreeFault>
    requires { 0 < length piece.old }
    ensures taken { IfOk result (λ more. OnTrue more ((whole : Option (List ℕ))
        → Consumes whole (I.remaining input.old) bytes.old.items
        → Consumes whole (I.remaining input.new) bytes.new.items)) }
    ensures longer { IfOk result (λ more. OnTrue more (vec_len bytes.old < vec_len bytes.new)) }
    ensures end { IfOk result (λ more. OnFalse more (IsAtEnd (I.remaining input.old))) }
    ensures same { IfOk result (λ more. OnFalse more (bytes.new.items ≡ bytes.old.items)) }
{
    match read_piece(input, piece) {
        Got::Bytes(count) => {
            bytes.extend_from_slice(&piece[..count])?;
            Ok(true)
        }
        Got::End => Ok(false),
        Got::Quiet | Got::Failed => Err(TreeFault::Failed),
    }
}
