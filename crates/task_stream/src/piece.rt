ghost use Rattle.std.specs.Prelude.{◌≡◌, ◌≤◌, length, take, drop};
ghost use Rattle.bsp_records.specs.Short.{diagnostics_limit};

use crate::shown::TableKey;
use bsp_records::print_publication;
use ob_text::{Diagnostic, Items, NoMemory, Text};
use std::alloc::Global;
use std::marker::Model;
use std::sync::Arc;

/// The most diagnostics of one publication.
pub(crate) const PIECE_LIMIT: usize = 100;

/// A whole list that is published, which its pieces share.
pub(crate) struct Whole {
    pub key: TableKey,
    pub origin: Arc<Option<Text>>,
    pub list: Arc<Items<Diagnostic>>,
}

impl Drop for Whole {
    fn drop(self) {
        let Self {
            key: _,
            origin: _,
            list: _,
        } = self;
    }
}

/// A publication that waits to be written: the list that it is a piece of, and the index of its first diagnostic. Contracts
/// see it as the params that it is written as. The first piece resets.
pub struct Piece {
    whole: Arc<Whole>,
    first: usize,
}

impl Drop for Piece {
    fn drop(self) {
        let Self { whole: _, first: _ } = self;
    }
}

impl Model for Piece {
    ghost use Rattle.bsp_records.specs.declared.publishing.PublishDiagnosticsParams.{PublishDiagnosticsParams};

    ghost Value = { PublishDiagnosticsParams };

    ghost use Rattle.task_stream.specs.Waiting.{IsSoundPiece, piece_of};

    ghost view = { piece_of };

    ghost invariant = { IsSoundPiece };
}

impl Piece {
    ghost use Rattle.std.specs.Prelude.{◌≡◌, ◌==◌, ◌≤◌, ◌++◌, length, map, take, drop, IfOk, OnOk};
    ghost use Rattle.serde_json.specs.Written.{compact_text};
    ghost use Rattle.bsp_records.specs.Diagnostics.{HasPublishTexts, publish_diagnostics_params_data};
    ghost use Rattle.bsp_records.specs.Short.{diagnostics_limit};
    ghost use Rattle.bsp_records.specs.Shown.{shown};
    ghost use Rattle.task_stream.specs.Pieces.{piece};
    ghost use Rattle.task_stream.specs.Waiting.{IsSoundWhole, records_of};

    /// The piece of a list that begins at an index. Takes no memory, but shares the list.
    pub(crate) fn new(whole: &Arc<Whole>, first: usize) -> Result<Piece, NoMemory>
        requires sound { IsSoundWhole whole.now.value }
        requires within { first ≤ length whole.now.value.list.value }
        ensures { IfOk result (λ p. p ≡ piece whole.now.value.key whole.now.value.origin.value (first == 0)
            (take diagnostics_limit (drop first (records_of whole.now.value)))) }
    {
        Ok(Piece {
            whole: whole.clone()?,
            first,
        })
    }

    /// Prints its params behind `out`. One diagnostic after another becomes JSON.
    pub fn print(&self, alloc: Global, out: &mut Vec<u8>) -> Result<(), NoMemory>
        ensures { OnOk result (out.new.items
            ≡ out.old.items ++ compact_text (publish_diagnostics_params_data self.now)) }
    {
        let whole: &Whole = &self.whole;
        let (document, target) = (&whole.key.document, &whole.key.target);
        let list = part(&whole.list, self.first);
        print_publication(
            alloc,
            document,
            target,
            &whole.origin,
            self.first == 0,
            list,
            out,
        )
    }
}

/// The diagnostics of one piece, from this index on.
fn part(list: &Items<Diagnostic>, first: usize) -> &[Diagnostic]
    requires { first ≤ length list.now }
    ensures { result.now ≡ take diagnostics_limit (drop first list.now) }
{
    let rest = list.as_slice().split_at(first).1;
    rest.split_at(PIECE_LIMIT.min(rest.len())).0
}
