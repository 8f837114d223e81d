ghost use Rattle.std.specs.Prelude.{◌≡◌, suc, None, Ok, Err, OnOk, OnErr};
ghost use Rattle.rpc_peer.specs.Said.{HasId, said};
ghost use Rattle.session_core.specs.Acting.{Acts, ActsInVain, ActsOn, ActsOnInVain};
ghost use Rattle.session_core.specs.Moving.{KeepsJobs, StaysBare};
ghost use Rattle.session_core.specs.Settled.{HeadStays, IsAsking, IsSettled, NeedsNothing, StaysOrDrains};
ghost use Rattle.session_core.specs.Standing.{IsAlive, IsQuiet, IsUpHead};
ghost use Rattle.session_core.specs.State.{rest_of};
ghost use Rattle.session_law.specs.Order.{ends, take};
ghost use Rattle.session_law.specs.Past.{end_status};

use crate::session::Core;
use ob_text::NoMemory;
use rpc_peer::{Message, Refusal, read_message};
use session_law::InputEnd;
use session_verdicts::PARSE_ERROR;

impl Core {
    /// Takes the body of a frame.
    pub(crate) fn act(&mut self, body: &[u8]) -> Result<(), NoMemory>
        requires quiet { IsQuiet self.old }
        requires settled { IsSettled (rest_of self.old) }
        requires needs { NeedsNothing (rest_of self.old) }
        requires up { IsUpHead self.old.head }
        requires running { self.old.status ≡ None }
        ensures ok { OnOk result (Acts self.old self.new (take body.now)) }
        ensures bare { OnOk result (StaysBare self.old self.new) }
        ensures lost { OnErr result (ActsInVain self.old self.new (take body.now)) }
        ensures settled { OnOk result (IsSettled (rest_of self.new)) }
        ensures asking { OnOk result (IsAsking (rest_of self.new)) }
        ensures stays { OnOk result (HeadStays self.old.head self.new.head) }
        ensures drains { OnOk result (StaysOrDrains (rest_of self.old) (rest_of self.new)) }
        ensures jobs { KeepsJobs self.old self.new }
        ensures found { OnOk result (IsAlive self.old) }
    {
        if self.dead {
            return Err(NoMemory);
        }
        // Where no number is left for the body there is no memory.
        let Some(number) = self.taken.checked_add(1) else {
            return Err(NoMemory);
        };
        match read_message(self.alloc, body) {
            Ok(message) => self.act_on(number, message),
            Err(Refusal::Coded(code)) => self.refuse_body(number, code),
            Err(Refusal::NoMemory) => Err(NoMemory),
        }
    }

    // Acts on the message of this ordinal.
    fn act_on(&mut self, number: u64, message: Message) -> Result<(), NoMemory>
        requires quiet { IsQuiet self.old }
        requires settled { IsSettled (rest_of self.old) }
        requires needs { NeedsNothing (rest_of self.old) }
        requires up { IsUpHead self.old.head }
        requires running { self.old.status ≡ None }
        requires number { number ≡ suc self.old.taken }
        requires named { HasId (said message) }
        ensures ok { OnOk result (ActsOn self.old self.new (Ok (said message))) }
        ensures bare { OnOk result (StaysBare self.old self.new) }
        ensures lost { OnErr result (ActsOnInVain self.old self.new (Ok (said message))) }
        ensures settled { OnOk result (IsSettled (rest_of self.new)) }
        ensures asking { OnOk result (IsAsking (rest_of self.new)) }
        ensures stays { OnOk result (HeadStays self.old.head self.new.head) }
        ensures drains { OnOk result (StaysOrDrains (rest_of self.old) (rest_of self.new)) }
        ensures jobs { KeepsJobs self.old self.new }
    {
        match message {
            Message::Request { id, method, params } => self.serve(number, id, &method, params),
            Message::Notification { method, params } => self.heed(number, &method, params),
            Message::Response { .. } => {
                self.taken = number;
                Ok(())
            }
        }
    }

    // Answers a body that is no message.
    fn refuse_body(&mut self, number: u64, code: i32) -> Result<(), NoMemory>
        requires quiet { IsQuiet self.old }
        requires settled { IsSettled (rest_of self.old) }
        requires up { IsUpHead self.old.head }
        requires running { self.old.status ≡ None }
        requires number { number ≡ suc self.old.taken }
        ensures ok { OnOk result (ActsOn self.old self.new (Err code)) }
        ensures bare { OnOk result (StaysBare self.old self.new) }
        ensures lost { OnErr result (ActsOnInVain self.old self.new (Err code)) }
        ensures same { self.new ≡ record self.old { taken = number; out = self.new.out } }
    {
        self.taken = number;
        self.refuse(code)
    }

    /// Takes the end of the input.
    pub(crate) fn take_end(&mut self, how: InputEnd) -> Result<(), NoMemory>
        requires quiet { IsQuiet self.old }
        requires settled { IsSettled (rest_of self.old) }
        requires needs { NeedsNothing (rest_of self.old) }
        requires up { IsUpHead self.old.head }
        requires running { self.old.status ≡ None }
        ensures ok { OnOk result (Acts self.old self.new (ends how)) }
        ensures bare { OnOk result (StaysBare self.old self.new) }
        ensures lost { OnErr result (ActsInVain self.old self.new (ends how)) }
        ensures settled { OnOk result (IsSettled (rest_of self.new)) }
        ensures asking { OnOk result (IsAsking (rest_of self.new)) }
        ensures stays { OnOk result (HeadStays self.old.head self.new.head) }
        ensures drains { OnOk result (StaysOrDrains (rest_of self.old) (rest_of self.new)) }
        ensures idle { OnOk result (self.new.head ≡ None) }
        ensures jobs { KeepsJobs self.old self.new }
        ensures found { OnOk result (IsAlive self.old) }
    {
        if self.dead {
            return Err(NoMemory);
        }
        self.act_on_end(how)
    }

    // Cancels each request that is open, as the input ends.
    fn act_on_end(&mut self, how: InputEnd) -> Result<(), NoMemory>
        requires quiet { IsQuiet self.old }
        requires settled { IsSettled (rest_of self.old) }
        requires needs { NeedsNothing (rest_of self.old) }
        requires up { IsUpHead self.old.head }
        requires running { self.old.status ≡ None }
        ensures ok { OnOk result (Acts self.old self.new (ends how)) }
        ensures bare { OnOk result (StaysBare self.old self.new) }
        ensures lost { OnErr result (ActsInVain self.old self.new (ends how)) }
        ensures settled { OnOk result (IsSettled (rest_of self.new)) }
        ensures tree { OnOk result (self.new.tree ≡ None) }
        ensures idle { OnOk result (self.new.head ≡ None) }
        ensures drains { OnOk result (StaysOrDrains (rest_of self.old) (rest_of self.new)) }
        ensures jobs { KeepsJobs self.old self.new }
        ensures dead { self.new.dead ≡ self.old.dead }
    {
        self.status = Some(end_status(how));
        self.cancel_all()?;
        match how {
            InputEnd::Damaged => self.refuse(PARSE_ERROR),
            InputEnd::Border => Ok(()),
            InputEnd::Failed => Ok(()),
        }
    }
}

// The status that a session ends with whose input ends so.
fn end_status(how: InputEnd) -> u8
    ensures { result ≡ end_status how }
{
    match how {
        InputEnd::Border => 1,
        InputEnd::Damaged => 2,
        InputEnd::Failed => 3,
    }
}
