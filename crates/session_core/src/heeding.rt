ghost use Rattle.std.specs.Prelude.{◌≡◌, codes, suc, None, Some, Ok, OnOk, OnErr, if◌then◌else◌, option_map};
ghost use Rattle.json_shape.specs.Shapes.{at};
ghost use Rattle.rpc_peer.specs.Meaning.{id_in};
ghost use Rattle.rpc_peer.specs.Said.{notification};
ghost use Rattle.serde_json.specs.Data.{object};
ghost use Rattle.serde_json.specs.View.{members_view, view};
ghost use Rattle.session_core.specs.Acting.{ActsOn, ActsOnInVain};
ghost use Rattle.session_core.specs.Marking.{marked_one};
ghost use Rattle.session_core.specs.Moving.{KeepsJobs, StaysBare};
ghost use Rattle.session_core.specs.Settled.{HeadStays, IsAsking, IsSettled, NeedsNothing, StaysOrDrains};
ghost use Rattle.session_core.specs.Standing.{Carries, IsQuiet, IsUpHead, Loses};
ghost use Rattle.session_core.specs.State.{rest_of};
ghost use Rattle.session_law.specs.Requests.{cancelled_id};

use crate::session::Core;
use ob_text::{NoMemory, Text};
use rpc_peer::{Id, read_id};
use serde_json::{Map, Value};

/// Ends the session (Build Server Protocol 2.2).
const EXIT: &[u8] = b"build/exit";

/// Cancels a request (Language Server Protocol 3.17).
const CANCEL: &[u8] = b"$/cancelRequest";

impl Core {
    /// Acts on the notification of this ordinal.
    pub(crate) fn heed(
        &mut self,
        number: u64,
        method: &Text,
        params: Option<Value>,
    ) -> Result<(), NoMemory>
        requires quiet { IsQuiet self.old }
        requires settled { IsSettled (rest_of self.old) }
        requires needs { NeedsNothing (rest_of self.old) }
        requires up { IsUpHead self.old.head }
        requires running { self.old.status ≡ None }
        requires number { number ≡ suc self.old.taken }
        ensures ok { OnOk result (ActsOn self.old self.new (Ok (notification method.now (option_map view params)))) }
        ensures bare { OnOk result (StaysBare self.old self.new) }
        ensures lost { OnErr result (ActsOnInVain self.old self.new (Ok (notification method.now (option_map view params)))) }
        ensures settled { OnOk result (IsSettled (rest_of self.new)) }
        ensures asking { OnOk result (IsAsking (rest_of self.new)) }
        ensures stays { OnOk result (HeadStays self.old.head self.new.head) }
        ensures drains { OnOk result (StaysOrDrains (rest_of self.old) (rest_of self.new)) }
        ensures jobs { KeepsJobs self.old self.new }
    {
        self.taken = number;
        if EXIT == method.as_slice() {
            self.status = Some(exit_status(self.closed));
            return self.cancel_all();
        }
        if CANCEL == method.as_slice() {
            if let Some(id) = cancelled_id(params) {
                return self.cancel(&id);
            }
        }
        Ok(())
    }

    // Cancels the request of the queue with this id, where there is one.
    fn cancel(&mut self, id: &Id) -> Result<(), NoMemory>
        requires settled { IsSettled (rest_of self.old) }
        requires needs { NeedsNothing (rest_of self.old) }
        requires up { IsUpHead self.old.head }
        ensures ok { OnOk result (Carries (marked_one id.now self.old) self.new) }
        ensures bare { OnOk result (StaysBare self.old self.new) }
        ensures lost { OnErr result (Loses (marked_one id.now self.old) self.new) }
        ensures settled { OnOk result (IsSettled (rest_of self.new)) }
        ensures asking { OnOk result (IsAsking (rest_of self.new)) }
        ensures stays { OnOk result (HeadStays self.old.head self.new.head) }
        ensures drains { OnOk result (StaysOrDrains (rest_of self.old) (rest_of self.new)) }
        ensures jobs { KeepsJobs self.old self.new }
    {
        self.mark(id);
        self.settle()?;
        self.take_up_next()
    }
}

// The status that a session ends with that takes an exit.
fn exit_status(closed: bool) -> u8
    ensures { result ≡ (if closed then 0 else 1) }
{
    if closed { 0 } else { 1 }
}

// The id that a cancel names.
fn cancelled_id(params: Option<Value>) -> Option<Id>
    ensures { result ≡ cancelled_id (option_map view params) }
{
    match params {
        Some(params) => id_of(params),
        None => None,
    }
}

fn id_of(params: Value) -> Option<Id>
    ensures { result ≡ id_in (at (codes "id") (view params)) }
{
    match params {
        Value::Object(members) => id_among(members),
        _ => None,
    }
}

fn id_among(mut members: Map<String, Value>) -> Option<Id>
    ensures { result ≡ id_in (at (codes "id") (object (members_view members.entries))) }
{
    let Some(id) = members.remove("id") else {
        return None;
    };
    read_id(id)
}
