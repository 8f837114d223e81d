ghost use Rattle.std.specs.Prelude.{◌≡◌, ◌++◌, map, IfOk, IfSome, OnOk};
ghost use Rattle.std.specs.List.{list_any};
ghost use Rattle.json_shape.specs.Shapes.{IsTextWithin};
ghost use Rattle.bsp_records.specs.Limits.{origin_limit};
ghost use Rattle.ob_text.specs.Code.{severity_of};
ghost use Rattle.session_law.specs.Builds.{is_error_severity, publication_said};
ghost use Rattle.build_messages.specs.Outgoing.{outgoing_said};
ghost use Rattle.build_messages.specs.Publishing.{IsPublishedOne};
ghost use Rattle.task_stream.specs.Showing.{shows};

use crate::outgoing::Outgoing;
use ob_text::{Diagnostic, Name, NoMemory, Severity, Text};
use session_law::BuildDocument;
use std::alloc::Global;
use std::collections::VecDeque;
use std::sync::Arc;
use task_stream::{Piece, Shown};

/// An equal list of its own.
pub fn copy_of(alloc: Global, list: &[Diagnostic]) -> Result<Vec<Diagnostic>, NoMemory>
    ensures { IfOk result (λ own. own.items ≡ list.now) }
{
    let mut own = Vec::new(alloc);
    for diagnostic in list {
        own.push(copy_of_one(alloc, diagnostic)?)?;
    }
    Ok(own)
}

fn copy_of_one(alloc: Global, diagnostic: &Diagnostic) -> Result<Diagnostic, NoMemory>
    ensures { IfOk result (λ own. own ≡ diagnostic.now) }
{
    let name = copy_of_name(alloc, &diagnostic.name)?;
    Ok(Diagnostic {
        span: diagnostic.span,
        range: diagnostic.range,
        code: diagnostic.code,
        name,
    })
}

fn copy_of_name(alloc: Global, name: &Option<Name>) -> Result<Option<Name>, NoMemory>
    ensures { IfOk result (λ own. own ≡ name.now) }
{
    match name {
        Some(name) => Ok(Some(name.copy(alloc)?)),
        None => Ok(None),
    }
}

/// Publishes the list of one document, where a client shows another, and tells whether it has an error.
pub fn publish_one(
    shown: &mut Shown,
    document: &BuildDocument,
    origin: &Arc<Option<Text>>,
    list: Vec<Diagnostic>,
    out: &mut VecDeque<Outgoing>,
) -> Result<bool, NoMemory>
    requires { IfSome origin.now.value (IsTextWithin origin_limit) }
    ensures { IfOk result (IsPublishedOne (shows shown.old) (shows shown.new) document.now origin.now.value
        list.items (map outgoing_said out.old.items) (map outgoing_said out.new.items)) }
{
    let failed = has_error(list.as_slice());
    let pieces = shown.publish(&document.key, origin, list)?;
    say_all(pieces, out)?;
    Ok(failed)
}

pub fn has_error(list: &[Diagnostic]) -> bool
    ensures { result ≡ list_any (λ diagnostic. is_error_severity (severity_of diagnostic.code))
        list.now }
{
    list.iter()
        .any(|diagnostic| diagnostic.code.severity() == Severity::Error)
}

/// Puts some publications behind the others.
fn say_all(pieces: Vec<Piece>, out: &mut VecDeque<Outgoing>) -> Result<(), NoMemory>
    ensures { OnOk result (map outgoing_said out.new.items
        ≡ map outgoing_said out.old.items ++ map publication_said pieces.items) }
{
    for piece in pieces {
        out.push_back(Outgoing::Publication(piece))?;
    }
    Ok(())
}
