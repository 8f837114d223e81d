ghost use Rattle.std.specs.Prelude.{◌≡◌, ◌++◌, ℕ, List, [], IfOk, OnOk, OnErr, if◌then◌else◌};
ghost use Rattle.client_table.specs.Showing.{after_reset, is_same, shown_on};

use bsp_records::DiagnosticRecord;
use ob_text::NoMemory;
use std::alloc::Global;
use std::collections::BTreeMap;

/// The diagnostics that are shown of one document, by the id of their target.
pub(crate) type Shelf = BTreeMap<Vec<u8>, Vec<DiagnosticRecord>>;

/// Puts records in the place of those that are shown for a target, or behind them.
pub(crate) fn put(
    alloc: Global,
    shelf: &mut Shelf,
    target: &[u8],
    reset: bool,
    records: Vec<DiagnosticRecord>,
) -> Result<(), NoMemory>
    ensures ok { OnOk result ((other : List ℕ) → shown_on shelf.new other
        ≡ (if is_same target.now other then after_reset reset (shown_on shelf.old other) records.items else shown_on shelf.old other)) }
    ensures err { OnErr result ((other : List ℕ) → shown_on shelf.new other ≡ shown_on shelf.old other) }
{
    match shelf.get_mut(target) {
        Some(shown) => join(shown, reset, records),
        None => {
            let target = Vec::from_slice(alloc, target)?;
            let replaced = shelf.insert(target, records)?;
            let_go(replaced);
            Ok(())
        }
    }
}

/// Puts records in the place of those that are shown, or behind them.
fn join(
    shown: &mut Vec<DiagnosticRecord>,
    reset: bool,
    records: Vec<DiagnosticRecord>,
) -> Result<(), NoMemory>
    ensures ok { OnOk result (shown.new.items ≡ after_reset reset shown.old.items records.items) }
    ensures err { OnErr result (shown.new.items ≡ shown.old.items) }
{
    if reset {
        *shown = records;
    } else {
        let mut records = records;
        shown.append(&mut records)?;
    }
    Ok(())
}

/// Drops what a target stood for.
fn let_go(_replaced: Option<Vec<DiagnosticRecord>>) {}
