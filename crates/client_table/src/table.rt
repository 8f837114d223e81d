ghost use Rattle.std.specs.Prelude.{◌≡◌, ℕ, List, [], IfOk, IsTrue, OnOk, OnErr};
ghost use Rattle.bsp_records.specs.Table.{published};
ghost use Rattle.client_table.specs.Rows.{AreRows};
ghost use Rattle.client_table.specs.Showing.{IsSame, IsShownAt, Shows, after_reset, shown_in, shown_on, shows};

use crate::copies::copy_records;
use crate::rows::{Row, rows_of};
use crate::shelf::{Shelf, put};
use bsp_records::{DiagnosticRecord, PublishDiagnosticsParams};
use ob_text::NoMemory;
use std::alloc::Global;
use std::collections::BTreeMap;

/// What a client shows of each document and target. It takes the memory of what is shown, and finds a list in a time that
/// grows by the logarithm of how many there are.
#[derive(Drop)]
pub struct Table {
    alloc: Global,
    documents: BTreeMap<Vec<u8>, Shelf>,
}

impl Table {
    /// Nothing is shown yet. Takes no memory.
    pub fn new(alloc: Global) -> Table
        ensures { (document target : List ℕ) → shows result document target ≡ [] }
    {
        Table {
            alloc,
            documents: BTreeMap::new(alloc),
        }
    }

    /// Shows what is published, by the reset rule. Where there is no memory for it, it shows what it showed before.
    pub fn apply(&mut self, p: &PublishDiagnosticsParams) -> Result<(), NoMemory>
        ensures ok { OnOk result (Shows self.new (published p.now (shows self.old))) }
        ensures err { OnErr result (Shows self.new (shows self.old)) }
    {
        let document = p.text_document.uri.as_slice();
        let target = p.build_target.uri.as_slice();
        let records = p.diagnostics.as_slice();
        if records.is_empty() {
            if p.reset {
                clear(&mut self.documents, document, target);
            }
            return Ok(());
        }
        let records = copy_records(self.alloc, records)?;
        add(
            self.alloc,
            &mut self.documents,
            document,
            target,
            p.reset,
            records,
        )
    }

    /// What is shown of a document and a target, in the order in which it was published. Takes no memory.
    pub fn get(&self, document: &str, target: &str) -> &[DiagnosticRecord]
        ensures { result.now ≡ shows self.now document.now target.now }
    {
        match self.documents.get(document.as_bytes()) {
            Some(shelf) => on_shelf(shelf, target.as_bytes()),
            None => &[],
        }
    }

    /// All that is shown, by document, target and order, as the bytes of these ascend.
    pub fn rows(&self) -> Result<Vec<Row>, NoMemory>
        ensures { IfOk result (λ rows. AreRows (shows self.now) rows.items) }
    {
        rows_of(self.alloc, &self.documents)
    }
}

/// What is shown of a document, for a target.
fn on_shelf<'s>(shelf: &'s Shelf, target: &[u8]) -> &'s [DiagnosticRecord]
    ensures { result.now ≡ shown_on shelf.now target.now }
{
    match shelf.get(target) {
        Some(records) => records.as_slice(),
        None => &[],
    }
}

/// Puts records in the place of those that are shown of a document for a target, or behind them.
fn add(
    alloc: Global,
    documents: &mut BTreeMap<Vec<u8>, Shelf>,
    document: &[u8],
    target: &[u8],
    reset: bool,
    records: Vec<DiagnosticRecord>,
) -> Result<(), NoMemory>
    ensures ok { OnOk result (IsShownAt document.now target.now (after_reset reset (shown_in documents.old document.now target.now) records.items) (shown_in documents.old) (shown_in documents.new)) }
    ensures err { OnErr result (IsSame (shown_in documents.old) (shown_in documents.new)) }
{
    match documents.get_mut(document) {
        Some(shelf) => put(alloc, shelf, target, reset, records),
        None => {
            let mut shelf = BTreeMap::new(alloc);
            put(alloc, &mut shelf, target, reset, records)?;
            let document = Vec::from_slice(alloc, document)?;
            let replaced = documents.insert(document, shelf)?;
            let_go(replaced);
            Ok(())
        }
    }
}

/// Drops what a document stood for.
fn let_go(_replaced: Option<Shelf>) {}

/// Shows nothing of a document for a target any more, and keeps nothing of what shows nothing. Takes no memory.
fn clear(documents: &mut BTreeMap<Vec<u8>, Shelf>, document: &[u8], target: &[u8])
    ensures { IsShownAt document.now target.now [] (shown_in documents.old) (shown_in documents.new) }
{
    if is_last(documents, document, target) {
        let_go(documents.remove(document));
    }
}

/// Takes out what is shown of a document for a target, and says whether nothing is kept of that document then.
fn is_last(documents: &mut BTreeMap<Vec<u8>, Shelf>, document: &[u8], target: &[u8]) -> bool
    ensures shown { IsShownAt document.now target.now [] (shown_in documents.old) (shown_in documents.new) }
    ensures none { IsTrue result → (other : List ℕ) → shown_in documents.new document.now other ≡ [] }
{
    match documents.get_mut(document) {
        Some(shelf) => {
            drop_records(shelf.remove(target));
            shelf.is_empty()
        }
        None => false,
    }
}

/// Drops what a target stood for.
fn drop_records(_records: Option<Vec<DiagnosticRecord>>) {}
