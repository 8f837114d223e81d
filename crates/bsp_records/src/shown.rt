ghost use Rattle.std.specs.Prelude.{◌≡◌, map, take, IfOk, IfSome};
ghost use Rattle.std.specs.Char.{is_ascii};
ghost use Rattle.std.specs.List.{All, take_while};
ghost use Rattle.std.specs.Str.{IsAscii, IsUtf8};
ghost use Rattle.bsp_records.specs.Diagnostics.{HasDiagnosticTexts};
ghost use Rattle.bsp_records.specs.Short.{IsShortPosition, IsShortRecord};
ghost use Rattle.bsp_records.specs.Shown.{shown, shown_message, name_shown, severity_shown};

use crate::diagnostics::{DiagnosticRecord, DiagnosticSeverity};
use crate::kinds::owned;
use ob_text::{Diagnostic, Items, Name, NoMemory, Range, Severity, Text};
use std::alloc::Global;

/// The most bytes of a name that a message shows.
const NAME_SHOWN: usize = 64;

/// The diagnostics as the protocol has them, in their order.
pub fn show_all(alloc: Global, list: &[Diagnostic]) -> Result<Items<DiagnosticRecord>, NoMemory>
    ensures shown { IfOk result (λ records. records ≡ map shown list.now) }
    ensures texts { IfOk result (All HasDiagnosticTexts) }
    ensures short { IfOk result (All IsShortRecord) }
{
    let mut records = Vec::new(alloc);
    for diagnostic in list {
        records.push(show(alloc, diagnostic)?)?;
    }
    Ok(Items::from_vec(records))
}

/// A diagnostic as the protocol has it. Its message ends with what is shown of its name, where it
/// has one.
pub fn show(alloc: Global, diagnostic: &Diagnostic) -> Result<DiagnosticRecord, NoMemory>
    ensures shown { IfOk result (λ made. made ≡ shown diagnostic.now) }
    ensures texts { IfOk result HasDiagnosticTexts }
    ensures short { IfOk result IsShortRecord }
{
    let code = owned(alloc, diagnostic.code.name())?;
    let source = owned(alloc, "oberon")?;
    let message = message_of(alloc, diagnostic.code.message(), &diagnostic.name)?;
    Ok(DiagnosticRecord {
        range: shown_range(diagnostic.range),
        severity: Some(shown_severity(diagnostic.code.severity())),
        code: Some(code),
        source: Some(source),
        message,
    })
}

/// The same range. Its numbers have 32 bits.
fn shown_range(range: Range) -> Range
    ensures same { result ≡ range }
    ensures start { IsShortPosition range.start }
    ensures end { IsShortPosition range.end }
{
    range
}

fn shown_severity(severity: Severity) -> DiagnosticSeverity
    ensures { result ≡ severity_shown severity }
{
    match severity {
        Severity::Error => DiagnosticSeverity::Error,
        Severity::Warning => DiagnosticSeverity::Warning,
    }
}

fn message_of(alloc: Global, message: &str, name: &Option<Name>) -> Result<Text, NoMemory>
    ensures shown { IfOk result (λ text. text ≡ shown_message message.now name.now) }
    ensures text { IfOk result IsUtf8 }
{
    let mut bytes = Vec::from_slice(alloc, message.as_bytes())?;
    bytes.extend_from_slice(name_shown(name))?;
    Ok(Text::from_vec(bytes))
}

/// As much of a name as a message shows: its first 64 bytes, as far as they are ASCII. Nothing is
/// shown where there is no name.
pub fn name_shown(name: &Option<Name>) -> &[u8]
    ensures shown { result.now ≡ name_shown name.now }
    // Names of the language are ASCII: of these the first 64 bytes are shown.
    ensures plain { IfSome name.now (λ name. IsAscii name → result.now ≡ take 64 name) }
{
    match name {
        Some(name) => ascii_front(front(name.as_slice())),
        None => &[],
    }
}

/// The first bytes of a name, no more than a message shows.
fn front(name: &[u8]) -> &[u8]
    ensures { result.now ≡ take NAME_SHOWN name.now }
{
    if name.len() > NAME_SHOWN {
        &name[..NAME_SHOWN]
    } else {
        name
    }
}

/// The bytes before the first that isn't ASCII.
fn ascii_front(bytes: &[u8]) -> &[u8]
    ensures { result.now ≡ take_while is_ascii bytes.now }
{
    let count = bytes.iter().take_while(|byte| byte.is_ascii()).count();
    bytes.split_at(count).0
}
