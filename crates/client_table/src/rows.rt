ghost use Rattle.std.specs.Prelude.{◌≡◌, ◌++◌, IfOk, OnOk};
ghost use Rattle.client_table.specs.Rows.{AreRows, list_rows, shelf_rows};
ghost use Rattle.client_table.specs.Showing.{IsOrderedShelf, shown_in};

use crate::copies::copy_record;
use crate::shelf::Shelf;
use bsp_records::DiagnosticRecord;
use ob_text::{NoMemory, Text};
use std::alloc::Global;
use std::collections::BTreeMap;

/// A diagnostic that is shown, with the document and the target of which it is.
#[derive(Debug, Drop)]
pub struct Row {
    pub document: Text,
    pub target: Text,
    pub item: DiagnosticRecord,
}

/// All that is shown.
pub(crate) fn rows_of(
    alloc: Global,
    documents: &BTreeMap<Vec<u8>, Shelf>,
) -> Result<Vec<Row>, NoMemory>
    ensures { IfOk result (λ rows. AreRows (shown_in documents.now) rows.items) }
{
    let mut rows = Vec::new(alloc);
    for (document, shelf) in documents {
        add_shelf(alloc, &mut rows, document.as_slice(), shelf)?;
    }
    Ok(rows)
}

/// Adds what is shown of a document.
fn add_shelf(
    alloc: Global,
    rows: &mut Vec<Row>,
    document: &[u8],
    shelf: &Shelf,
) -> Result<(), NoMemory>
    ensures rows { OnOk result (rows.new.items ≡ rows.old.items ++ shelf_rows document.now shelf.now.entries) }
    ensures ordered { OnOk result (IsOrderedShelf shelf.now) }
{
    for (target, records) in shelf {
        add_list(alloc, rows, document, target.as_slice(), records.as_slice())?;
    }
    Ok(())
}

/// Adds what is shown of a document for a target.
fn add_list(
    alloc: Global,
    rows: &mut Vec<Row>,
    document: &[u8],
    target: &[u8],
    records: &[DiagnosticRecord],
) -> Result<(), NoMemory>
    ensures { OnOk result (rows.new.items ≡ rows.old.items ++ list_rows document.now target.now records.now) }
{
    for record in records {
        rows.push(Row {
            document: Text::new(alloc, document)?,
            target: Text::new(alloc, target)?,
            item: copy_record(alloc, record)?,
        })?;
    }
    Ok(())
}
