ghost use Rattle.std.specs.Prelude.{◌≡◌, ◌≢◌, ◌↔◌, ◌++◌, ℕ, [], List, None, map, IfOk, IfSome, IsTrue, OnOk, OnErr};
ghost use Rattle.std.specs.List.{All};
ghost use Rattle.std.specs.Str.{IsUtf8};
ghost use Rattle.ob_text.specs.Ascii.{IsWithin};
ghost use Rattle.bsp_records.specs.Limits.{origin_limit};
ghost use Rattle.bsp_address.specs.Address.{IsAddress};
ghost use Rattle.bsp_records.specs.Short.{IsShortPosition, IsShortPublication};
ghost use Rattle.bsp_records.specs.Shown.{shown};
ghost use Rattle.task_stream.specs.Pieces.{pieces, IsPiece};
ghost use Rattle.task_stream.specs.Showing.{shows, MakeShow, ShowsNow};
ghost use Rattle.task_stream.specs.Waiting.{IsShortDiagnostic, IsSoundWhole, records_of};

use crate::piece::{PIECE_LIMIT, Piece, Whole};
use crate::same::same_shown;
use bsp_address::Address;
use indexmap::IndexMap;
use ob_text::{Diagnostic, Items, NoMemory, Range, Text};
use std::alloc::Global;
use std::sync::Arc;

/// What a client's table is keyed by: the address of a document, and the id of a target that has it. A client shows
/// diagnostics for both together (Build Server Protocol 2.2, build/publishDiagnostics).
#[derive(Debug, PartialEq, Eq, Hash)]
pub struct TableKey {
    pub document: Address,
    pub target: Address,
}

impl Drop for TableKey {
    fn drop(self) {
        let Self {
            document: _,
            target: _,
        } = self;
    }
}

impl TableKey {
    /// An equal value of its own.
    pub fn copy(&self, alloc: Global) -> Result<TableKey, NoMemory>
        ensures same { IfOk result (λ key. key ≡ self.now) }
        ensures document { IfOk result (λ key. IsAddress key.document) }
        ensures target { IfOk result (λ key. IsAddress key.target) }
    {
        Ok(TableKey {
            document: self.document.copy(alloc)?,
            target: self.target.copy(alloc)?,
        })
    }
}

/// The list that a client shows at each key at which one was published.
pub struct Shown {
    alloc: Global,
    lists: IndexMap<TableKey, Arc<Items<Diagnostic>>>,
}

impl Drop for Shown {
    fn drop(self) {
        let Self { alloc: _, lists: _ } = self;
    }
}

impl Shown {
    /// Nothing is shown yet. Takes no memory.
    pub fn new(alloc: Global) -> Shown
        ensures { (document target : _) → shows result document target ≡ [] }
    {
        Shown {
            alloc,
            lists: IndexMap::new(alloc),
        }
    }

    /// The publications that make a client show this list by the reset rule, none where it shows it
    /// already. The list is in pieces of 100 diagnostics and a last one, of which the first resets. They share the list,
    /// and what is kept of the client shares it too.
    #[tactic(auto, using(crate::proofs::PieceLaws::none_make))]
    pub fn publish(
        &mut self,
        key: &TableKey,
        origin: &Arc<Option<Text>>,
        list: Vec<Diagnostic>,
    ) -> Result<Vec<Piece>, NoMemory>
        requires origin { IfSome origin.now.value IsUtf8 }
        ensures same { IfOk result (λ ps. shows self.old key.now.document key.now.target
            ≡ map shown list.items → ps.items ≡ []) }
        ensures other { IfOk result (λ ps. shows self.old key.now.document key.now.target
            ≢ map shown list.items
            → ps.items ≡ pieces key.now origin.now.value (map shown list.items)) }
        ensures none { IfOk result (λ ps. ps.items ≡ []
            → shows self.old key.now.document key.now.target ≡ map shown list.items) }
        ensures client { IfOk result (λ ps. MakeShow ps.items self.old key.now
            (map shown list.items)) }
        ensures table { OnOk result (ShowsNow self.old self.new key.now (map shown list.items)) }
        ensures few { IfOk result (λ ps. All IsPiece ps.items) }
        ensures short { IfSome origin.now.value (IsWithin origin_limit)
            → IfOk result (λ ps. All IsShortPublication ps.items) }
        ensures err { OnErr result ((document target : List ℕ)
            → shows self.new document target ≡ shows self.old document target) }
    {
        if self.is_shown(key, list.as_slice()) {
            return Ok(Vec::new(self.alloc));
        }
        let list = Arc::new(self.alloc, fitted(list))?;
        let pieces = pieces_of(self.alloc, key, origin, &list)?;
        let own = key.copy(self.alloc)?;
        self.lists.insert(own, list)?;
        Ok(pieces)
    }

    /// The publications that make a client show nothing at a key, none where it shows nothing there already. Nothing is kept
    /// of the key any more.
    pub fn clear(&mut self, key: &TableKey) -> Result<Vec<Piece>, NoMemory>
        ensures same { IfOk result (λ ps. shows self.old key.now.document key.now.target ≡ [] → ps.items ≡ []) }
        ensures other { IfOk result (λ ps. shows self.old key.now.document key.now.target ≢ [] → ps.items ≡ pieces key.now None []) }
        ensures none { IfOk result (λ ps. ps.items ≡ [] → shows self.old key.now.document key.now.target ≡ []) }
        ensures client { IfOk result (λ ps. MakeShow ps.items self.old key.now []) }
        ensures table { OnOk result (ShowsNow self.old self.new key.now []) }
        ensures few { IfOk result (λ ps. All IsPiece ps.items) }
        ensures short { IfOk result (λ ps. All IsShortPublication ps.items) }
        ensures err { OnErr result ((document target : List ℕ)
            → shows self.new document target ≡ shows self.old document target) }
    {
        let origin = Arc::new(self.alloc, None)?;
        let pieces = self.publish(key, &origin, Vec::new(self.alloc))?;
        self.lists.swap_remove(key);
        Ok(pieces)
    }

    fn is_shown(&self, key: &TableKey, list: &[Diagnostic]) -> bool
        ensures { IsTrue result
            ↔ (shows self.now key.now.document key.now.target ≡ map shown list.now) }
    {
        match self.lists.get(key) {
            Some(kept) => same_shown(kept.as_slice(), list),
            None => list.is_empty(),
        }
    }
}

/// The list, with no room for more.
fn fitted(list: Vec<Diagnostic>) -> Items<Diagnostic>
    ensures same { result ≡ list.items }
    ensures short { All IsShortDiagnostic result }
{
    read_ranges(list.as_slice());
    let mut list = list;
    list.shrink_to_fit();
    Items::from_vec(list)
}

/// Each number of the ranges has 32 bits. A proof learns that of a number as it is read, and so nothing else is done.
fn read_ranges(list: &[Diagnostic])
    ensures { All IsShortDiagnostic list.now }
{
    for diagnostic in list {
        read_range(diagnostic.range);
    }
}

fn read_range(range: Range)
    ensures start { IsShortPosition range.start }
    ensures end { IsShortPosition range.end }
{}

/// The pieces of a list at a key.
fn pieces_of(
    alloc: Global,
    key: &TableKey,
    origin: &Arc<Option<Text>>,
    list: &Arc<Items<Diagnostic>>,
) -> Result<Vec<Piece>, NoMemory>
    requires origin { IfSome origin.now.value IsUtf8 }
    ensures { IfOk result (λ ps. ps.items
        ≡ pieces key.now origin.now.value (map shown list.now.value)) }
{
    let whole = Whole {
        key: key.copy(alloc)?,
        origin: origin.clone()?,
        list: list.clone()?,
    };
    cut(alloc, whole)
}

/// A list as its pieces.
fn cut(alloc: Global, whole: Whole) -> Result<Vec<Piece>, NoMemory>
    requires { IsSoundWhole whole }
    ensures { IfOk result (λ ps. ps.items
        ≡ pieces whole.key whole.origin.value (records_of whole)) }
{
    let count = whole.list.as_slice().len();
    let whole = Arc::new(alloc, whole)?;
    let mut pieces = Vec::new(alloc);
    pieces.push(Piece::new(&whole, 0)?)?;
    let mut left = count - PIECE_LIMIT.min(count);
    'pieces: while left > 0 {
        pieces.push(Piece::new(&whole, count - left)?)?;
        left -= PIECE_LIMIT.min(left);
    }
    Ok(pieces)
}
