ghost use Rattle.std.specs.Prelude.{◌≡◌, ◌++◌, codes, IfOk, OnOk, Some};
ghost use Rattle.rpc_peer.specs.Said.{body_of, said};
ghost use Rattle.serde_json.specs.Written.{compact_text};
ghost use Rattle.bsp_records.specs.Diagnostics.{publish_diagnostics_params_data};
ghost use Rattle.session_law.specs.Builds.{publication_said};
ghost use Rattle.session_law.specs.IsFramed.{IsFramed};
ghost use Rattle.build_messages.specs.Outgoing.{outgoing_said};

use ob_text::NoMemory;
use rpc_peer::{Message, write_message};
use std::alloc::Global;
use task_stream::Piece;

/// A message that waits to be written.
#[derive(Drop)]
pub enum Outgoing {
    /// As it is.
    Message(Message),
    /// A publication, which becomes JSON as it is written.
    Publication(Piece),
}

impl Outgoing {
    /// The body that it is written as. It is used up.
    pub fn into_body(self, alloc: Global) -> Result<Vec<u8>, NoMemory>
        requires { IsFramed (outgoing_said self) }
        ensures { IfOk result (λ body. body.items ≡ body_of (outgoing_said self)) }
    {
        match self {
            Outgoing::Message(message) => message_body(alloc, &message),
            Outgoing::Publication(piece) => publication_body(alloc, &piece),
        }
    }
}

fn message_body(alloc: Global, message: &Message) -> Result<Vec<u8>, NoMemory>
    requires { IsFramed (said message.now) }
    ensures { IfOk result (λ body. body.items ≡ body_of (said message.now)) }
{
    write_message(alloc, message)
}

/// The body of a publication.
fn publication_body(alloc: Global, piece: &Piece) -> Result<Vec<u8>, NoMemory>
    ensures { IfOk result (λ body. body.items ≡ body_of (publication_said piece.now)) }
{
    let front = b"{\"jsonrpc\":\"2.0\",\"method\":\"build/publishDiagnostics\",\"params\":";
    let mut body = Vec::from_slice(alloc, front)?;
    piece.print(alloc, &mut body)?;
    body.extend_from_slice(b"}")?;
    Ok(body)
}
