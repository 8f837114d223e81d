ghost use Rattle.std.specs.Prelude.{◌≡◌, ℕ, List, Some, if◌then◌else◌, IfOk, IfSome, OnOk};
ghost use Rattle.std.specs.List.{All, slice_get};
ghost use Rattle.std.specs.Str.{bytes_eq};
ghost use Rattle.indexmap.specs.IndexMap.{get};
ghost use Rattle.ob_text.specs.Held.{IsReadable};
ghost use Rattle.oberon_module.specs.Reading.{IsRead, imports_read};
ghost use Rattle.oberon_module.specs.Views.{plain_views};
ghost use Rattle.oberon_rules.specs.Local.{Local, view_in};
ghost use Rattle.oberon_types.specs.Memory.{plain_view};
ghost use Rattle.build_rules.specs.World.{handed_at};
ghost use Rattle.build_sources.specs.Documents.{AreDocuments, AreKnown, AreRead, IsDocument, IsKnown, handed_out, shown_in};

use indexmap::IndexMap;
use ob_text::{Held, Name, NoMemory, Path, Snapshot};
use oberon_imports::imports_of;
use oberon_module::{Checked, Reading, check_module, check_read, read_tokens, read_tree};
use oberon_types::View;
use std::alloc::Global;
use std::sync::Arc;

/// A document, read at most once for all the modules that it is. What is held and what was read are shared with those who
/// check it.
pub struct Document {
    pub held: Arc<Held>,
    /// What was read of it; none where its imports were known.
    pub reading: Option<Arc<Reading>>,
    /// The names that it imports, each once, in the order of the text.
    pub imports: Vec<Name>,
}

impl Drop for Document {
    fn drop(self) {
        let Self {
            held: _,
            reading: _,
            imports: _,
        } = self;
    }
}

impl Document {
    /// What is held at a path, which is read unless its imports are known.
    fn new(alloc: Global, held: Arc<Held>, known: Option<&[Name]>) -> Result<Document, NoMemory>
        requires text { IsReadable held.value }
        requires known { IsKnown held.value known }
        ensures { IfOk result (IsDocument held.value) }
    {
        match known {
            Some(names) => {
                let imports = copies_of(alloc, names)?;
                Ok(Document {
                    held,
                    reading: None,
                    imports,
                })
            }
            None => Document::read(alloc, held),
        }
    }

    /// Reads what is held at a path.
    fn read(alloc: Global, held: Arc<Held>) -> Result<Document, NoMemory>
        requires { IsReadable held.value }
        ensures { IfOk result (IsDocument held.value) }
    {
        let reading = reading_of(alloc, &held)?;
        let imports = imports_in(alloc, &reading)?;
        let reading = Arc::new(alloc, reading)?;
        Ok(Document {
            held,
            reading: Some(reading),
            imports,
        })
    }

    /// Checks it by the views of its imports, and reads it before where that wasn't done. `stem` is the stem of its path.
    pub(crate) fn check(
        &self,
        alloc: Global,
        stem: &Name,
        views: &IndexMap<Name, View>,
    ) -> Result<Checked, NoMemory>
        requires text { IsReadable self.now.held.value }
        requires read { IfSome self.now.reading (λ reading. IsRead self.now.held.value reading.value) }
        ensures { IfOk result (λ checked. Local self.now.held.value stem.now (view_in (plain_views views.now.entries)) checked.list.items checked.imports.items (plain_view checked.view)) }
    {
        match &self.reading {
            Some(reading) => check_read(alloc, stem, &self.held, reading, views),
            None => check_module(alloc, stem, &self.held, views),
        }
    }
}

/// Reads what is held at a path.
fn reading_of(alloc: Global, held: &Held) -> Result<Reading, NoMemory>
    requires { IsReadable held.now }
    ensures { IfOk result (IsRead held.now) }
{
    let tokens = read_tokens(alloc, held)?;
    read_tree(alloc, held, tokens)
}

fn copies_of(alloc: Global, names: &[Name]) -> Result<Vec<Name>, NoMemory>
    ensures { IfOk result (λ copies. copies.items ≡ names.now) }
{
    let mut copies = Vec::new(alloc);
    for name in names {
        copies.push(name.copy(alloc)?)?;
    }
    Ok(copies)
}

/// The imports of a document that was read; what has no tree has none.
fn imports_in(alloc: Global, reading: &Reading) -> Result<Vec<Name>, NoMemory>
    ensures { IfOk result (λ names. names.items ≡ imports_read reading.now) }
{
    match reading {
        Reading::Parsed(tree) => imports_of(alloc, tree),
        Reading::Listed(_) | Reading::Scanned(_) => Ok(Vec::new(alloc)),
    }
}

/// The documents that were handed out, by their paths.
pub struct Documents {
    /// What was handed out, in order.
    entries: Vec<(Path, Arc<Held>)>,
    by_path: IndexMap<Path, Document>,
    /// What stands for each that wasn't handed out.
    absent: Box<Document>,
}

impl Drop for Documents {
    fn drop(self) {
        let Self {
            entries: _,
            by_path: _,
            absent: _,
        } = self;
    }
}

impl Documents {
    /// Reads each document that was handed out, but for those whose imports are known. Where a path stands twice its first
    /// entry counts. No text is copied.
    pub fn read(
        alloc: Global,
        snapshot: Snapshot,
        known: &[Option<&[Name]>],
    ) -> Result<Documents, NoMemory>
        requires texts { All (λ entry. IsReadable entry.1) snapshot.entries }
        requires known { AreKnown snapshot.entries known.now }
        ensures are { IfOk result AreDocuments }
        ensures entries { IfOk result (λ documents. handed_out documents ≡ snapshot.entries) }
    {
        let entries = shared(alloc, snapshot)?;
        let by_path = read_all(alloc, entries.as_slice(), known)?;
        let nothing = Arc::new(alloc, Held::Absent)?;
        let absent = Box::new(alloc, Document::read(alloc, nothing)?)?;
        Ok(Documents {
            entries,
            by_path,
            absent,
        })
    }

    /// The document at a path. Takes no memory.
    pub fn of(&self, path: &Path) -> &Document
        requires { AreDocuments self.now }
        ensures { IsDocument (handed_at (handed_out self.now) path.now) result.now }
    {
        self.by_path.get(path).unwrap_or(&*self.absent)
    }
}

/// Moves each text that was handed out to where it can be shared.
fn shared(alloc: Global, snapshot: Snapshot) -> Result<Vec<(Path, Arc<Held>)>, NoMemory>
    ensures { IfOk result (λ shared. shown_in shared.items ≡ snapshot.entries) }
{
    let Snapshot { entries } = snapshot;
    let mut shared = Vec::new(alloc);
    'entries: for (path, held) in entries.into_vec() {
        let held = Arc::new(alloc, held)?;
        shared.push((path, held))?;
    }
    Ok(shared)
}

/// Reads each of these documents, but for those whose imports are known.
fn read_all(
    alloc: Global,
    entries: &[(Path, Arc<Held>)],
    known: &[Option<&[Name]>],
) -> Result<IndexMap<Path, Document>, NoMemory>
    requires texts { All (λ entry. IsReadable entry.1) (shown_in entries.now) }
    requires known { AreKnown (shown_in entries.now) known.now }
    ensures { IfOk result (λ by_path. AreRead (shown_in entries.now) by_path) }
{
    let mut by_path = IndexMap::new(alloc);
    let mut left = entries.len();
    'entries: while left > 0 {
        left -= 1;
        let (path, held) = &entries[left];
        let own = held.clone()?;
        let document = Document::new(alloc, own, known_at(known, left))?;
        put(&mut by_path, path.copy(alloc)?, document)?;
    }
    Ok(by_path)
}

/// The names that are known to be imported by the document at an index.
fn known_at<'a>(known: &[Option<&'a [Name]>], index: usize) -> Option<&'a [Name]>
    ensures { IfSome result (λ names. slice_get known.now index ≡ Some (Some names)) }
{
    if index < known.len() {
        known[index]
    } else {
        None
    }
}

/// Puts a document at its path, in the place of any other.
fn put(
    by_path: &mut IndexMap<Path, Document>,
    path: Path,
    document: Document,
) -> Result<(), NoMemory>
    ensures { OnOk result ((other : List ℕ) → get bytes_eq by_path.new other ≡ (if bytes_eq path other then Some document else get bytes_eq by_path.old other)) }
{
    let old = by_path.insert(path, document)?;
    let_go(old);
    Ok(())
}

fn let_go(_old: Option<Document>) {}
