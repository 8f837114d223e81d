use crate::message::Id;
use indexmap::IndexSet;
use ob_text::NoMemory;
use std::alloc::{AllocFailed, Global};
use std::marker::Model;

/// How many ids a set has room for at first.
const FIRST_ROOM: usize = 16;

/// Why a request can't be opened.
#[derive(Clone, Copy, Debug, PartialEq, Eq)]
pub enum BeginFault {
    AlreadyOpen,
    NoMemory,
}

impl From<AllocFailed<Id>> for BeginFault {
    ghost use Rattle.std.specs.Prelude.{◌≡◌};
    ghost use Rattle.rpc_peer.specs.declared.open_ids.BeginFault.TheVariants as faults;

    ghost from_gives = { λ _ e. e ≡ faults.NoMemory };

    fn from(_failed: AllocFailed<Id>) -> BeginFault {
        BeginFault::NoMemory
    }
}

/// The ids of the requests that are open, in order of arrival.
#[derive(Drop)]
pub struct OpenIds {
    ids: IndexSet<Id>,
}

impl Model for OpenIds {
    ghost use Rattle.std.specs.Prelude.{List};
    ghost use Rattle.rpc_peer.specs.declared.message.Id.{Id};

    ghost Value = { List Id };

    ghost view = { λ o. o.ids.keys };
}

impl OpenIds {
    ghost use Rattle.std.specs.Prelude.{◌≡◌, ◌++◌, [], ◌∷◌, false, IfOk, OnOk, OnErr, option_copied, slice_get};
    ghost use Rattle.rpc_peer.specs.OpenIds.{has_id, without_id, BeginsAs};

    /// No id is open.
    pub fn new(alloc: Global) -> Result<OpenIds, NoMemory>
        ensures { IfOk result (λ o. o ≡ []) }
    {
        let ids = IndexSet::with_capacity(alloc, FIRST_ROOM)?;
        Ok(OpenIds { ids })
    }

    /// Opens an id, behind those that are open.
    pub fn begin(&mut self, id: Id) -> Result<(), BeginFault>
        ensures begun { OnOk result (self.new ≡ self.old ++ id ∷ []) }
        ensures unchanged { OnErr result (self.new ≡ self.old) }
        ensures open { BeginsAs result (has_id id self.old) }
    {
        let is_new = self.ids.insert(id)?;
        if is_new {
            Ok(())
        } else {
            Err(BeginFault::AlreadyOpen)
        }
    }

    /// Closes an id, and tells whether it was open. Takes no memory.
    pub fn close(&mut self, id: &Id) -> bool
        ensures open { result ≡ has_id id.now self.old }
        ensures others { self.new ≡ without_id id.now self.old }
        ensures closed { has_id id.now self.new ≡ false }
    {
        self.ids.shift_remove(id)
    }

    /// Takes no memory.
    pub fn is_open(&self, id: &Id) -> bool
        ensures { result ≡ has_id id.now self.now }
    {
        self.ids.contains(id)
    }

    /// The open id that came first. Takes no memory.
    pub fn first(&self) -> Option<&Id>
        ensures { option_copied result ≡ slice_get self.now 0 }
    {
        self.ids.first()
    }
}
