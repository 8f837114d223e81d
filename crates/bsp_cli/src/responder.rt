ghost use Rattle.std.specs.Prelude.{◌≡◌, ◌∷◌, ◌≤◌, ℕ, List, [], None, Some, vec_len, IfOk, OnOk, OnErr, IsErrOf};
ghost use Rattle.bsp_edge.specs.Faults.{Rose};
ghost use Rattle.rpc_frame.specs.Limits.{content_limit};
ghost use Rattle.rpc_peer.specs.Said.{body_of};
ghost use Rattle.build_messages.specs.Outgoing.{outgoing_said};
ghost use Rattle.session_law.specs.IsFramed.{IsFramed, text_of};
ghost use Rattle.session_law.specs.Order.{Event, take, ends};
ghost use Rattle.session_law.specs.Verdicts.{IsBare};
ghost use Rattle.session_core.specs.Standing.{StandsFor, IsQuiet, status_of};
ghost use Rattle.session_core.specs.State.{rest_of};
ghost use Rattle.bsp_cli.specs.Outside.{told};
ghost use Rattle.bsp_cli.specs.Progress.{IsMet, IsReady, TookMessage};
ghost use Rattle.bsp_cli.specs.Shares.{KeepsCrew, Shares};
ghost use Rattle.bsp_cli.specs.Writing.{ActsThrough, Flushes, Halts, HaltsAt, Sends, GoesThrough, Stops};

use crate::stop::Stop;
use crate::writing::{SinkFailed, write_all};
use bsp_edge::{Sink, Tree};
use build_messages::Outgoing;
use ob_text::NoMemory;
use rpc_frame::frame_into;
use session_core::Core;
use session_law::InputEnd;
use std::alloc::Global;
use worker_pool::Crew;

/// The session, which is told one event after another, with what it takes to write its answers.
#[derive(Drop)]
pub struct Responder {
    alloc: Global,
    pub core: Core,
    /// Room for a frame, which each message uses anew.
    frame: Vec<u8>,
}

impl Responder {
    /// A session to which nothing happened yet.
    pub fn new(alloc: Global) -> Responder
        ensures stands { StandsFor result.core [] }
        ensures ready { IsReady result.core }
        ensures idle { result.core.head ≡ None }
    {
        Responder {
            alloc,
            core: Core::new(alloc),
            frame: Vec::new(alloc),
        }
    }

    /// Acts on one body, meets what it leads to, and writes the answers. Answers the status that the session ended
    /// with, where it took an exit.
    pub fn act<T: Tree, C: Crew, K: Sink>(
        &mut self,
        body: &[u8],
        tree: &mut T,
        crew: &mut C,
        output: &mut K,
    ) -> Result<Option<u8>, Stop>
        requires ready { IsReady self.old.core }
        requires shares { Shares (rest_of self.old.core) (C.sight crew.old) }
        requires stood { (order : List Event) × StandsFor self.old.core order }
        ensures steps { OnOk result (GoesThrough IsBare self.old.core self.new.core (body.now ∷ []) None
            (told (K.given output.old) (T.handed tree.old) (T.faults tree.old))
            (told (K.given output.new) (T.handed tree.new) (T.faults tree.new))) }
        ensures met { OnOk result (IsMet self.new.core) }
        ensures shares { OnOk result (Shares (rest_of self.new.core) (C.sight crew.new)) }
        ensures status { IfOk result (λ status. status_of self.new.core ≡ status) }
        ensures stops { OnErr result (Stops IsBare self.old.core (body.now ∷ []) None
            (told (K.given output.old) (T.handed tree.old) (T.faults tree.old))
            (told (K.given output.new) (T.handed tree.new) (T.faults tree.new))) }
        ensures crew { KeepsCrew (C.sight crew.old) (C.sight crew.new) }
        ensures sink { IsErrOf result Stop.Sink → Rose (K.faults output.old) (K.faults output.new) }
        ensures same { (IsErrOf result Stop.Sink → ⊥) → K.faults output.new ≡ K.faults output.old }
    {
        match self.act_on_body(body, output) {
            Ok(()) => match self.meet_needs(tree, crew, output) {
                Ok(()) => Ok(self.core.exited()),
                Err(stop) => Err(stop),
            },
            Err(stop) => Err(stop),
        }
    }

    /// Acts on one body, and writes what is answered at once.
    fn act_on_body<K: Sink>(&mut self, body: &[u8], output: &mut K) -> Result<(), Stop>
        requires ready { IsReady self.old.core }
        requires stood { (order : List Event) × StandsFor self.old.core order }
        ensures acts { OnOk result (ActsThrough IsBare self.old.core self.new.core (take body.now)
            (K.given output.old) (K.given output.new)) }
        ensures quiet { OnOk result (IsQuiet self.new.core) }
        ensures took { OnOk result (TookMessage (rest_of self.old.core) (rest_of self.new.core)) }
        ensures halts { OnErr result (HaltsAt IsBare self.old.core (take body.now)
            (K.given output.old) (K.given output.new)) }
        ensures sink { IsErrOf result Stop.Sink → Rose (K.faults output.old) (K.faults output.new) }
        ensures same { (IsErrOf result Stop.Sink → ⊥) → K.faults output.new ≡ K.faults output.old }
    {
        match self.core.message(body) {
            Ok(()) => self.flush(output),
            Err(NoMemory) => Err(Stop::NoMemory),
        }
    }

    /// Acts on the end of the input, meets what it leads to, and writes the answers.
    pub fn end<T: Tree, C: Crew, K: Sink>(
        &mut self,
        how: InputEnd,
        tree: &mut T,
        crew: &mut C,
        output: &mut K,
    ) -> Result<(), Stop>
        requires ready { IsReady self.old.core }
        requires shares { Shares (rest_of self.old.core) (C.sight crew.old) }
        requires stood { (order : List Event) × StandsFor self.old.core order }
        ensures steps { OnOk result (GoesThrough IsBare self.old.core self.new.core [] (Some how)
            (told (K.given output.old) (T.handed tree.old) (T.faults tree.old))
            (told (K.given output.new) (T.handed tree.new) (T.faults tree.new))) }
        ensures met { OnOk result (IsMet self.new.core) }
        ensures stops { OnErr result (Stops IsBare self.old.core [] (Some how)
            (told (K.given output.old) (T.handed tree.old) (T.faults tree.old))
            (told (K.given output.new) (T.handed tree.new) (T.faults tree.new))) }
        ensures crew { KeepsCrew (C.sight crew.old) (C.sight crew.new) }
        ensures sink { IsErrOf result Stop.Sink → Rose (K.faults output.old) (K.faults output.new) }
        ensures same { (IsErrOf result Stop.Sink → ⊥) → K.faults output.new ≡ K.faults output.old }
    {
        match self.act_on_end(how, output) {
            Ok(()) => self.meet_needs(tree, crew, output),
            Err(stop) => Err(stop),
        }
    }

    /// Acts on the end of the input, and writes what is answered at once.
    fn act_on_end<K: Sink>(&mut self, how: InputEnd, output: &mut K) -> Result<(), Stop>
        requires ready { IsReady self.old.core }
        requires stood { (order : List Event) × StandsFor self.old.core order }
        ensures acts { OnOk result (ActsThrough IsBare self.old.core self.new.core (ends how)
            (K.given output.old) (K.given output.new)) }
        ensures quiet { OnOk result (IsQuiet self.new.core) }
        ensures took { OnOk result (TookMessage (rest_of self.old.core) (rest_of self.new.core)) }
        ensures halts { OnErr result (HaltsAt IsBare self.old.core (ends how)
            (K.given output.old) (K.given output.new)) }
        ensures sink { IsErrOf result Stop.Sink → Rose (K.faults output.old) (K.faults output.new) }
        ensures same { (IsErrOf result Stop.Sink → ⊥) → K.faults output.new ≡ K.faults output.old }
    {
        match self.core.end(how) {
            Ok(()) => self.flush(output),
            Err(NoMemory) => Err(Stop::NoMemory),
        }
    }

    /// Writes all that the core has to write.
    pub fn flush<K: Sink>(&mut self, output: &mut K) -> Result<(), Stop>
        requires { (order : List Event) × StandsFor self.old.core order }
        ensures flushes { OnOk result (Flushes self.old.core self.new.core (K.given output.old) (K.given output.new)) }
        ensures quiet { OnOk result (IsQuiet self.new.core) }
        ensures rest { rest_of self.new.core ≡ rest_of self.old.core }
        ensures halts { OnErr result (Halts self.old.core (K.given output.old) (K.given output.new)) }
        ensures sink { IsErrOf result Stop.Sink → Rose (K.faults output.old) (K.faults output.new) }
        ensures same { (IsErrOf result Stop.Sink → ⊥) → K.faults output.new ≡ K.faults output.old }
    {
        'messages: while let Some(message) = self.core.next_out() {
            match send(self.alloc, output, &mut self.frame, message) {
                Ok(()) => {}
                Err(stop) => return Err(stop),
            }
        }
        Ok(())
    }
}

// The body of a message, which is used up.
fn body(alloc: Global, message: Outgoing) -> Result<Vec<u8>, NoMemory>
    requires { IsFramed (outgoing_said message) }
    ensures text { IfOk result (λ b. b.items ≡ body_of (outgoing_said message)) }
    ensures fits { IfOk result (λ b. vec_len b ≤ content_limit) }
{
    message.into_body(alloc)
}

/// Writes a message as a frame. `frame` is room for it, which each message uses anew.
#[tactic(auto, unfolding(session_law::specs::IsFramed::text_of))]
fn send<K: Sink>(
    alloc: Global,
    output: &mut K,
    frame: &mut Vec<u8>,
    message: Outgoing,
) -> Result<(), Stop>
    requires { IsFramed (outgoing_said message) }
    ensures sends { Sends (K.given output.old) (K.given output.new) (text_of (outgoing_said message)) result }
    ensures sink { IsErrOf result Stop.Sink → Rose (K.faults output.old) (K.faults output.new) }
    ensures same { (IsErrOf result Stop.Sink → ⊥) → K.faults output.new ≡ K.faults output.old }
{
    let body = body(alloc, message)?;
    frame.clear();
    frame_into(frame, body.as_slice())?;
    match write_all(output, frame.as_slice()) {
        Ok(()) => Ok(()),
        Err(SinkFailed) => Err(Stop::Sink),
    }
}
