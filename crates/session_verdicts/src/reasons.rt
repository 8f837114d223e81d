ghost use Rattle.std.specs.Prelude.{◌≡◌, ◌++◌, IfOk, OnOk};
ghost use Rattle.session_law.specs.Methods.{kind_text, name_behind, refused_message};

use crate::verdicts::Reason;
use ob_text::{NoMemory, Text};
use std::alloc::Global;
use target_graph::{FaultKind, WorkspaceFault};

impl Reason {
    ghost use Rattle.std.specs.Prelude.{◌≡◌, IfOk};
    ghost use Rattle.session_verdicts.specs.Judging.{reason_code, reason_text};

    /// The code of the refusal (JSON-RPC 2.0, section 5.1; Language Server Protocol 3.17, ErrorCodes).
    /// -32010 is this server's own.
    pub fn code(&self) -> i64
        ensures { result ≡ reason_code self.now }
    {
        match self {
            Reason::ServerNotInitialized => -32002,
            Reason::InvalidRequest => -32600,
            Reason::MethodNotFound => -32601,
            Reason::InvalidParams(_) => -32602,
            Reason::InternalError => -32603,
            Reason::WorkspaceRefused(_) => -32010,
            Reason::RequestCancelled => -32800,
        }
    }

    pub fn message(&self, alloc: Global) -> Result<Text, NoMemory>
        ensures { IfOk result (λ text. text ≡ reason_text self.now) }
    {
        match self {
            Reason::ServerNotInitialized => Text::new(alloc, b"server not initialized"),
            Reason::InvalidRequest => Text::new(alloc, b"invalid request"),
            Reason::MethodNotFound => Text::new(alloc, b"method not found"),
            Reason::InvalidParams(path) => {
                Text::new(alloc, b"invalid params: ")?.followed_by(path.as_slice())
            }
            Reason::InternalError => Text::new(alloc, b"sources unreadable"),
            Reason::WorkspaceRefused(fault) => refused_message(alloc, fault),
            Reason::RequestCancelled => Text::new(alloc, b"request cancelled"),
        }
    }
}

// The kind of the fault, and what it is about where it is about something.
fn refused_message(alloc: Global, fault: &WorkspaceFault) -> Result<Text, NoMemory>
    ensures { IfOk result (λ text. text ≡ refused_message fault.now.kind fault.now.name) }
{
    let mut bytes = Vec::from_slice(alloc, b"workspace refused: ")?;
    bytes.extend_from_slice(kind_text(fault.kind))?;
    add_name(&mut bytes, fault.name.as_slice())?;
    Ok(Text::from_vec(bytes))
}

// A name goes behind a blank, where there is one.
fn add_name(bytes: &mut Vec<u8>, name: &[u8]) -> Result<(), NoMemory>
    ensures { OnOk result (bytes.new.items ≡ bytes.old.items ++ name_behind name.now) }
{
    match name {
        [] => Ok(()),
        [_first, ..] => {
            bytes.extend_from_slice(b" ")?;
            bytes.extend_from_slice(name)?;
            Ok(())
        }
    }
}

fn kind_text(kind: FaultKind) -> &'static [u8]
    ensures { result.now ≡ kind_text kind }
{
    match kind {
        FaultKind::NoFile => b"NoFile",
        FaultKind::BadJson => b"BadJson",
        FaultKind::BadField => b"BadField",
        FaultKind::TooMany => b"TooMany",
        FaultKind::NameTwice => b"NameTwice",
        FaultKind::UnknownDependency => b"UnknownDependency",
        FaultKind::DependencyCycle => b"DependencyCycle",
        FaultKind::StemTwice => b"StemTwice",
    }
}
