ghost use Rattle.std.specs.Prelude.{◌≡◌, IfOk};

use bsp_records::DiagnosticRecord;
use ob_text::{NoMemory, Text};
use std::alloc::Global;

/// An equal list of its own.
pub(crate) fn copy_records(
    alloc: Global,
    records: &[DiagnosticRecord],
) -> Result<Vec<DiagnosticRecord>, NoMemory>
    ensures { IfOk result (λ copies. copies.items ≡ records.now) }
{
    let mut copies = Vec::new(alloc);
    for record in records {
        copies.push(copy_record(alloc, record)?)?;
    }
    Ok(copies)
}

/// An equal diagnostic of its own.
pub(crate) fn copy_record(
    alloc: Global,
    item: &DiagnosticRecord,
) -> Result<DiagnosticRecord, NoMemory>
    ensures { IfOk result (λ copy. copy ≡ item.now) }
{
    Ok(DiagnosticRecord {
        range: item.range,
        severity: item.severity,
        code: copy_text(alloc, &item.code)?,
        source: copy_text(alloc, &item.source)?,
        message: item.message.copy(alloc)?,
    })
}

fn copy_text(alloc: Global, text: &Option<Text>) -> Result<Option<Text>, NoMemory>
    ensures { IfOk result (λ copy. copy ≡ text.now) }
{
    match text {
        None => Ok(None),
        Some(text) => Ok(Some(text.copy(alloc)?)),
    }
}
