ghost use Rattle.std.specs.Prelude.{◌≡◌, ◌+◌, ◌++◌, ◌<◌, ◌≤◌, ℕ, suc, List, [], length, take, false, Option, Some, None, Ok, IfOk, IfSome, OnOk, OnErr, IsErrOf, IsSome};
ghost use Rattle.bsp_edge.specs.Course.{Course};
ghost use Rattle.bsp_edge.specs.Faults.{Rose};
ghost use Rattle.rpc_frame.specs.declared.damage.Damage.{Damage};
ghost use Rattle.rpc_frame.specs.Damages.{HasDamage};
ghost use Rattle.rpc_frame.specs.Frames.{HasNoFrame, IsSound};
ghost use Rattle.rpc_frame.specs.Limits.{stream_limit};
ghost use Rattle.session_law.specs.Order.{Event};
ghost use Rattle.session_core.specs.Standing.{StandsFor, status_of};
ghost use Rattle.session_core.specs.State.{rest_of};
ghost use Rattle.worker_pool.specs.Crews.{IsFresh};
ghost use Rattle.bsp_cli.specs.Offsets.{EndsInLast, IsAt, WhereTold};
ghost use Rattle.bsp_cli.specs.Progress.{EndsBy, EndsHere, Fetches, Finishes, HasEnded, IsMet, HasRunOut, IsReady, IsWithin, MayEnd, MayGoOn, Passes, Progress, Stopped, StoppedAt, StoppedWaiting, fed, with_piece};
ghost use Rattle.bsp_cli.specs.Served.{Serves};
ghost use Rattle.bsp_cli.specs.Session.{changed, crew_changed, input_changed, tree_changed};
ghost use Rattle.bsp_cli.specs.Shares.{KeepsCrew, Shares};
ghost use Rattle.bsp_cli.specs.declared.outcome.Ending.{Ending};
ghost use Rattle.bsp_cli.specs.Outside.{Heard, Told, heard, told};

use crate::outcome::{Ending, Outcome};
use crate::responder::Responder;
use crate::stop::Stop;
use bsp_edge::{Got, Sink, Source, Tree};
use ob_text::NoMemory;
use rpc_frame::{Damage, DamageKind, Decoder, FeedFault, STREAM_LIMIT};
use std::alloc::Global;
use worker_pool::Crew;

/// The most bytes of one piece of the input.
const PIECE: usize = 65_536;

/// Why serving is over, and how many bytes of the input were acted on.
#[derive(Clone, Copy, Debug, PartialEq, Eq)]
pub struct Served {
    pub outcome: Outcome,
    pub taken: u64,
}

/// What one turn of the loop leads to.
enum Turn {
    /// The next turn.
    GoesOn,
    /// The session took an exit, and has this status.
    Exits(u8),
    /// The input is found to have ended.
    Ends(Ending),
}

/// What was read of the input.
#[derive(Clone, Copy)]
enum Fetched {
    /// A piece of this many bytes.
    Piece(usize),
    /// The input is found to have ended.
    End(Ending),
}

/// A session that is served from a stream.
#[derive(Drop)]
struct Server {
    responder: Responder,
    decoder: Decoder,
}

impl Server {
    fn new(alloc: Global) -> Server
        ensures stands { StandsFor result.responder.core [] }
        ensures ready { IsReady result.responder.core }
        ensures idle { result.responder.core.head ≡ None }
        ensures fresh { result.decoder ≡ record { bytes = []; given_end = 0 } }
    {
        Server {
            responder: Responder::new(alloc),
            decoder: Decoder::new(alloc),
        }
    }

    /// Serves a client until it exits, its input ends, or the session has to stop.
    fn serve<S: Source, T: Tree, C: Crew, K: Sink>(
        &mut self,
        buffer: &mut [u8],
        input: &mut S,
        tree: &mut T,
        crew: &mut C,
        output: &mut K,
    ) -> Served
        requires room { 0 < length buffer.old }
        requires stands { StandsFor self.old.responder.core [] }
        requires ready { IsReady self.old.responder.core }
        requires shares { Shares (rest_of self.old.responder.core) (C.sight crew.old) }
        requires fresh { self.old.decoder ≡ record { bytes = []; given_end = 0 } }
        ensures serves { Serves
            (input_changed (S.left input.old) (S.left input.new) (S.course input.old) (S.course input.new)
            (S.faults input.old) (S.faults input.new))
            (tree_changed (T.handed tree.old) (T.handed tree.new) (T.faults tree.old) (T.faults tree.new))
            (changed (K.given output.old) (K.given output.new) (K.faults output.old) (K.faults output.new))
            (crew_changed (C.sight crew.old).collected (C.sight crew.new).collected)
            result.outcome result.taken }
        ensures going { (C.sight crew.new).finished ≡ false }
        ensures free { (C.sight crew.new).hand ≡ None }
    {
        'turns: loop {
            match self.take_turn(buffer, input, tree, crew, output) {
                Ok(Turn::GoesOn) => {}
                Ok(Turn::Exits(status)) => {
                    return Served {
                        outcome: Outcome::Exited {
                            closed: status == 0,
                        },
                        taken: self.decoder.given_end(),
                    };
                }
                Ok(Turn::Ends(ending)) => {
                    return Served {
                        outcome: self.finish(ending, tree, crew, output),
                        taken: self.count(),
                    };
                }
                Err(stop) => {
                    return Served {
                        outcome: Outcome::Stopped(stop),
                        taken: self.decoder.given_end(),
                    };
                }
            }
        }
    }

    /// One turn of the loop: reads a piece, acts on the frames that are whole now, and writes the answers.
    fn take_turn<S: Source, T: Tree, C: Crew, K: Sink>(
        &mut self,
        buffer: &mut [u8],
        input: &mut S,
        tree: &mut T,
        crew: &mut C,
        output: &mut K,
    ) -> Result<Turn, Stop>
        requires ready { IsReady self.old.responder.core }
        requires shares { Shares (rest_of self.old.responder.core) (C.sight crew.old) }
        requires stood { (order : List Event) × StandsFor self.old.responder.core order }
        requires room { 0 < length buffer.old }
        requires drained { HasNoFrame self.old.decoder.bytes }
        requires sound { IsSound self.old.decoder.bytes }
        ensures progress { OnOk result ((from : Heard) (start : Told)
            → Progress self.old.responder.core self.old.decoder from
            (heard (S.left input.old) (S.course input.old) (C.sight crew.old).collected) start
            (told (K.given output.old) (T.handed tree.old) (T.faults tree.old))
            → Progress self.new.responder.core self.new.decoder from
            (heard (S.left input.new) (S.course input.new) (C.sight crew.new).collected) start
            (told (K.given output.new) (T.handed tree.new) (T.faults tree.new))) }
        ensures stopped { OnErr result ((from : Heard) (start : Told)
            → Progress self.old.responder.core self.old.decoder from
            (heard (S.left input.old) (S.course input.old) (C.sight crew.old).collected) start
            (told (K.given output.old) (T.handed tree.old) (T.faults tree.old))
            → IsAt from.course (S.course input.old) (fed self.old.decoder)
            → StoppedAt (IsErrOf result Stop.Sink) self.new.decoder.given_end from
            (heard (S.left input.new) (S.course input.new) (C.sight crew.new).collected) start
            (told (K.given output.new) (T.handed tree.new) (T.faults tree.new))) }
        ensures at_end { IfOk result (λ turn. (ending : Ending) → turn ≡ Turn.Ends ending → (from : Heard) (start : Told)
            → Progress self.old.responder.core self.old.decoder from
            (heard (S.left input.old) (S.course input.old) (C.sight crew.old).collected) start
            (told (K.given output.old) (T.handed tree.old) (T.faults tree.old))
            → EndsHere self.new.responder.core self.new.decoder ending from
            (heard (S.left input.new) (S.course input.new) (C.sight crew.new).collected) start
            (told (K.given output.new) (T.handed tree.new) (T.faults tree.new))) }
        ensures goes_on { result ≡ Ok Turn.GoesOn → MayGoOn self.new.responder.core self.new.decoder
            (fed self.old.decoder) (S.faults input.old) (S.faults input.new) }
        ensures exits { IfOk result (λ turn. (status : ℕ) → turn ≡ Turn.Exits status
            → HasEnded self.new.responder.core (Some status)) }
        ensures ends { IfOk result (λ turn. (ending : Ending) → turn ≡ Turn.Ends ending
            → MayEnd self.new.responder.core self.new.decoder ending (S.left input.new)
            (S.faults input.old) (S.faults input.new)) }

        ensures within { result ≡ Ok Turn.GoesOn → fed self.new.decoder ≤ stream_limit }

        // No further piece is read behind an exit.
        ensures further { result ≡ Ok Turn.GoesOn → (start : Option Course)
            → IsAt start (S.course input.old) (fed self.old.decoder)
            → IsAt start (S.course input.new) (fed self.new.decoder) }
        ensures in_last { IfOk result (λ turn. (status : ℕ) → turn ≡ Turn.Exits status → (start : Option Course)
            → IsAt start (S.course input.old) (fed self.old.decoder)
            → WhereTold (EndsInLast self.new.decoder.given_end) start (S.course input.new)) }

        // Nor behind damage.
        ensures damaged_in_last { IfOk result (λ turn. (damage : Damage)
            → turn ≡ Turn.Ends (Ending.Damaged damage) → HasDamage self.new.decoder damage
            → (start : Option Course) → IsAt start (S.course input.old) (fed self.old.decoder)
            → WhereTold (EndsInLast (suc damage.place)) start (S.course input.new)) }
        ensures shares { OnOk result (Shares (rest_of self.new.responder.core) (C.sight crew.new)) }
        ensures going { (C.sight crew.new).finished ≡ false }
        ensures free { (C.sight crew.new).hand ≡ None }
        ensures stood { OnOk result ((order : List Event) × StandsFor self.new.responder.core order) }
        ensures sink { IsErrOf result Stop.Sink → Rose (K.faults output.old) (K.faults output.new) }
        ensures same { OnOk result (K.faults output.new ≡ K.faults output.old) }
    {
        let room = (buffer.len() as u64).min(self.decoder.room()) as usize;
        let into = &mut buffer[..room];
        match self.fetch(into, input, tree, crew, output) {
            Ok(Fetched::Piece(count)) => {
                self.take_piece(into.split_at(count).0, tree, crew, output)
            }
            Ok(Fetched::End(ending)) => Ok(Turn::Ends(ending)),
            Err(stop) => Err(stop),
        }
    }

    /// How many bytes of the input were read.
    fn count(&self) -> u64
        ensures { result ≡ fed self.now.decoder }
    {
        STREAM_LIMIT - self.decoder.room()
    }

    /// Waits for the next piece of the input, which is read into the front of `into`.
    fn fetch<S: Source, T: Tree, C: Crew, K: Sink>(
        &mut self,
        into: &mut [u8],
        input: &mut S,
        tree: &mut T,
        crew: &mut C,
        output: &mut K,
    ) -> Result<Fetched, Stop>
        requires full { length into.old ≡ 0 → fed self.old.decoder ≡ stream_limit }
        requires ready { IsReady self.old.responder.core }
        requires shares { Shares (rest_of self.old.responder.core) (C.sight crew.old) }
        requires stood { (order : List Event) × StandsFor self.old.responder.core order }
        requires drained { HasNoFrame self.old.decoder.bytes }
        requires sound { IsSound self.old.decoder.bytes }
        ensures piece { IfOk result (λ fetched. (count : ℕ) → fetched ≡ Fetched.Piece count
            → Fetches (S.left input.old) (S.left input.new) (S.course input.old) (S.course input.new) into.new count) }
        ensures progress { IfOk result (λ fetched. (count : ℕ) → fetched ≡ Fetched.Piece count
            → (from : Heard) (start : Told) → Progress self.old.responder.core self.old.decoder from
            (heard (S.left input.old) (S.course input.old) (C.sight crew.old).collected) start
            (told (K.given output.old) (T.handed tree.old) (T.faults tree.old))
            → Progress self.new.responder.core (with_piece (take count into.new) self.old.decoder) from
            (heard (S.left input.new) (S.course input.new) (C.sight crew.new).collected) start
            (told (K.given output.new) (T.handed tree.new) (T.faults tree.new))) }
        ensures same { IfOk result (λ fetched. (count : ℕ) → fetched ≡ Fetched.Piece count
            → S.faults input.new ≡ S.faults input.old) }
        ensures end { IfOk result (λ fetched. (ending : Ending) → fetched ≡ Fetched.End ending
            → EndsBy ending self.new.decoder (S.left input.new) (S.faults input.old) (S.faults input.new)) }
        ensures at_end { IfOk result (λ fetched. (ending : Ending) → fetched ≡ Fetched.End ending
            → (from : Heard) (start : Told) → Progress self.old.responder.core self.old.decoder from
            (heard (S.left input.old) (S.course input.old) (C.sight crew.old).collected) start
            (told (K.given output.old) (T.handed tree.old) (T.faults tree.old))
            → EndsHere self.new.responder.core self.new.decoder ending from
            (heard (S.left input.new) (S.course input.new) (C.sight crew.new).collected) start
            (told (K.given output.new) (T.handed tree.new) (T.faults tree.new))) }
        ensures stopped { OnErr result ((from : Heard) (start : Told)
            → Progress self.old.responder.core self.old.decoder from
            (heard (S.left input.old) (S.course input.old) (C.sight crew.old).collected) start
            (told (K.given output.old) (T.handed tree.old) (T.faults tree.old))
            → StoppedWaiting self.new.decoder.given_end from
            (heard (S.left input.new) (S.course input.new) (C.sight crew.new).collected) start
            (told (K.given output.new) (T.handed tree.new) (T.faults tree.new))) }
        ensures decoder { self.new.decoder ≡ self.old.decoder }
        ensures ready { OnOk result (IsReady self.new.responder.core) }
        ensures shares { OnOk result (Shares (rest_of self.new.responder.core) (C.sight crew.new)) }
        ensures stood { OnOk result ((order : List Event) × StandsFor self.new.responder.core order) }
        ensures going { (C.sight crew.new).finished ≡ false }
        ensures free { (C.sight crew.new).hand ≡ None }
        ensures sink { IsErrOf result Stop.Sink → Rose (K.faults output.old) (K.faults output.new) }
        ensures output { OnOk result (K.faults output.new ≡ K.faults output.old) }
    {
        if into.is_empty() {
            return Ok(Fetched::End(self.end()));
        }
        match self.responder.await_piece(into, input, tree, crew, output) {
            Ok(Got::Bytes(count)) => Ok(Fetched::Piece(count)),
            Ok(Got::End) => Ok(Fetched::End(self.end())),
            Ok(Got::Failed) => Ok(Fetched::End(Ending::Failed)),
            Ok(Got::Quiet) => unreachable!(),
            Err(stop) => Err(stop),
        }
    }

    /// How an input ends that has no more.
    fn end(&self) -> Ending
        requires drained { HasNoFrame self.now.decoder.bytes }
        requires sound { IsSound self.now.decoder.bytes }
        ensures { (left : Option (List ℕ)) (faults_old faults_new : ℕ) → HasRunOut self.now.decoder left
            → EndsBy result self.now.decoder left faults_old faults_new }
    {
        if self.decoder.at_border() {
            Ending::Border
        } else {
            Ending::Damaged(Damage {
                place: self.count(),
                kind: DamageKind::Truncated,
            })
        }
    }

    /// Acts on the frames that are whole with this piece, and writes the answers.
    fn take_piece<T: Tree, C: Crew, K: Sink>(
        &mut self,
        piece: &[u8],
        tree: &mut T,
        crew: &mut C,
        output: &mut K,
    ) -> Result<Turn, Stop>
        requires ready { IsReady self.old.responder.core }
        requires shares { Shares (rest_of self.old.responder.core) (C.sight crew.old) }
        requires stood { (order : List Event) × StandsFor self.old.responder.core order }
        requires some { 0 < length piece.now }
        requires limit { fed self.old.decoder + length piece.now ≤ stream_limit }
        requires drained { HasNoFrame self.old.decoder.bytes }
        requires sound { IsSound self.old.decoder.bytes }
        ensures progress { OnOk result ((from to : Heard) (start : Told)
            → Progress self.old.responder.core (with_piece piece.now self.old.decoder) from to start
            (told (K.given output.old) (T.handed tree.old) (T.faults tree.old))
            → Progress self.new.responder.core self.new.decoder from to start
            (told (K.given output.new) (T.handed tree.new) (T.faults tree.new))) }
        ensures stopped { OnErr result ((from to : Heard) (start : Told)
            → Progress self.old.responder.core (with_piece piece.now self.old.decoder) from to start
            (told (K.given output.old) (T.handed tree.old) (T.faults tree.old))
            → Stopped self.new.decoder.given_end from to start
            (told (K.given output.new) (T.handed tree.new) (T.faults tree.new))) }
        ensures goes_on { result ≡ Ok Turn.GoesOn → (faults : ℕ)
            → MayGoOn self.new.responder.core self.new.decoder (fed self.old.decoder) faults faults }
        ensures exits { IfOk result (λ turn. (status : ℕ) → turn ≡ Turn.Exits status
            → HasEnded self.new.responder.core (Some status)) }
        ensures ends { IfOk result (λ turn. (ending : Ending) → turn ≡ Turn.Ends ending → (left : Option (List ℕ))
            (faults_old faults_new : ℕ)
            → MayEnd self.new.responder.core self.new.decoder ending left faults_old faults_new) }
        ensures broken { IfOk result (λ turn. (ending : Ending) → turn ≡ Turn.Ends ending
            → IsSound self.new.decoder.bytes → ⊥) }
        ensures count { OnOk result (fed self.new.decoder ≡ fed self.old.decoder + length piece.now) }
        ensures within { result ≡ Ok Turn.GoesOn → fed self.new.decoder ≤ stream_limit }
        ensures passes { IfOk result (λ turn. (status : ℕ) → turn ≡ Turn.Exits status
            → fed self.old.decoder < self.new.decoder.given_end) }
        ensures damaged { IfOk result (λ turn. (damage : Damage) → turn ≡ Turn.Ends (Ending.Damaged damage)
            → IsWithin damage (fed self.old.decoder) (length piece.now)) }
        ensures failed { IsErrOf result Stop.Sink → (fed self.old.decoder < self.new.decoder.given_end)
            × (fed self.new.decoder ≡ fed self.old.decoder + length piece.now) }
        ensures shares { OnOk result (Shares (rest_of self.new.responder.core) (C.sight crew.new)) }
        ensures crew { KeepsCrew (C.sight crew.old) (C.sight crew.new) }
        ensures stood { OnOk result ((order : List Event) × StandsFor self.new.responder.core order) }
        ensures sink { IsErrOf result Stop.Sink → Rose (K.faults output.old) (K.faults output.new) }
        ensures same { OnOk result (K.faults output.new ≡ K.faults output.old) }
    {
        match self.feed(piece) {
            Ok(damage) => match self.act_on_frames(tree, crew, output) {
                Ok(Some(status)) => Ok(Turn::Exits(status)),
                Ok(None) => match damage {
                    None => Ok(Turn::GoesOn),
                    Some(damage) => Ok(Turn::Ends(Ending::Damaged(damage))),
                },
                Err(stop) => Err(stop),
            },
            Err(NoMemory) => Err(Stop::NoMemory),
        }
    }

    /// Feeds a piece to the decoder. Answers the damage that the stream has with it.
    fn feed(&mut self, piece: &[u8]) -> Result<Option<Damage>, NoMemory>
        requires { fed self.old.decoder + length piece.now ≤ stream_limit }
        ensures core { self.new.responder.core ≡ self.old.responder.core }
        ensures fed { OnOk result (self.new.decoder ≡ record self.old.decoder {
          bytes = self.old.decoder.bytes ++ piece.now;
        }) }
        ensures sound { result ≡ Ok None → IsSound self.new.decoder.bytes }
        ensures damaged { IfOk result (λ found. IfSome found (HasDamage self.new.decoder)) }
        ensures lost { OnErr result (self.new.decoder ≡ self.old.decoder) }
    {
        match self.decoder.feed(piece) {
            Ok(()) => Ok(None),
            Err(FeedFault::Damaged(damage)) => Ok(Some(damage)),
            Err(FeedFault::NoMemory) => Err(NoMemory),
        }
    }

    /// Acts on all whole frames that the decoder has, and writes the answers. Answers the status that
    /// the session ended with, where it took an exit.
    fn act_on_frames<T: Tree, C: Crew, K: Sink>(
        &mut self,
        tree: &mut T,
        crew: &mut C,
        output: &mut K,
    ) -> Result<Option<u8>, Stop>
        requires ready { IsReady self.old.responder.core }
        requires shares { Shares (rest_of self.old.responder.core) (C.sight crew.old) }
        requires stood { (order : List Event) × StandsFor self.old.responder.core order }
        ensures progress { OnOk result ((from to : Heard) (start : Told)
            → Progress self.old.responder.core self.old.decoder from to start
            (told (K.given output.old) (T.handed tree.old) (T.faults tree.old))
            → Progress self.new.responder.core self.new.decoder from to start
            (told (K.given output.new) (T.handed tree.new) (T.faults tree.new))) }
        ensures stopped { OnErr result ((from to : Heard) (start : Told)
            → Progress self.old.responder.core self.old.decoder from to start
            (told (K.given output.old) (T.handed tree.old) (T.faults tree.old))
            → Stopped self.new.decoder.given_end from to start
            (told (K.given output.new) (T.handed tree.new) (T.faults tree.new))) }
        ensures met { OnOk result (IsMet self.new.responder.core) }
        ensures shares { OnOk result (Shares (rest_of self.new.responder.core) (C.sight crew.new)) }
        ensures crew { KeepsCrew (C.sight crew.old) (C.sight crew.new) }
        ensures status { IfOk result (λ status. status_of self.new.responder.core ≡ status) }
        ensures stood { OnOk result ((order : List Event) × StandsFor self.new.responder.core order) }
        ensures drained { result ≡ Ok None → HasNoFrame self.new.decoder.bytes }
        ensures passes { IfOk result (λ found. IsSome found → Passes self.old.decoder self.new.decoder) }
        ensures failed { IsErrOf result Stop.Sink → Passes self.old.decoder self.new.decoder }
        ensures sound { OnOk result (IsSound self.old.decoder.bytes → IsSound self.new.decoder.bytes) }
        ensures damage { OnOk result ((damage : Damage) → HasDamage self.old.decoder damage
            → HasDamage self.new.decoder damage) }
        ensures fed { fed self.new.decoder ≡ fed self.old.decoder }
        ensures sink { IsErrOf result Stop.Sink → Rose (K.faults output.old) (K.faults output.new) }
        ensures same { OnOk result (K.faults output.new ≡ K.faults output.old) }
    {
        'frames: loop {
            let body = match self.decoder.next_body() {
                Ok(Some(body)) => body,
                Ok(None) => return Ok(None),
                Err(NoMemory) => return Err(Stop::NoMemory),
            };
            match self.responder.act(body.as_slice(), tree, crew, output) {
                Ok(None) => {}
                Ok(Some(status)) => return Ok(Some(status)),
                Err(stop) => return Err(stop),
            }
        }
    }

    /// Tells the session how its input ended, and writes what it answers then.
    fn finish<T: Tree, C: Crew, K: Sink>(
        &mut self,
        ending: Ending,
        tree: &mut T,
        crew: &mut C,
        output: &mut K,
    ) -> Outcome
        requires ready { IsReady self.old.responder.core }
        requires shares { Shares (rest_of self.old.responder.core) (C.sight crew.old) }
        requires stood { (order : List Event) × StandsFor self.old.responder.core order }
        ensures finishes { Finishes self.old.responder.core self.new.responder.core ending
            (told (K.given output.old) (T.handed tree.old) (T.faults tree.old))
            (told (K.given output.new) (T.handed tree.new) (T.faults tree.new)) result }
        ensures sink { result ≡ Outcome.Stopped Stop.Sink → Rose (K.faults output.old) (K.faults output.new) }
        ensures decoder { self.new.decoder ≡ self.old.decoder }
        ensures crew { KeepsCrew (C.sight crew.old) (C.sight crew.new) }
    {
        match self.responder.end(ending.how(), tree, crew, output) {
            Ok(()) => Outcome::InputEnded(ending),
            Err(stop) => Outcome::Stopped(stop),
        }
    }
}

/// Serves a client until it exits, its input ends, or the session has to stop.
pub fn serve<S: Source, T: Tree, C: Crew, K: Sink>(
    alloc: Global,
    input: &mut S,
    tree: &mut T,
    crew: &mut C,
    output: &mut K,
) -> Served
    requires { IsFresh (C.sight crew.old) }
    ensures serves { Serves
        (input_changed (S.left input.old) (S.left input.new) (S.course input.old) (S.course input.new)
        (S.faults input.old) (S.faults input.new))
        (tree_changed (T.handed tree.old) (T.handed tree.new) (T.faults tree.old) (T.faults tree.new))
        (changed (K.given output.old) (K.given output.new) (K.faults output.old) (K.faults output.new))
        (crew_changed (C.sight crew.old).collected (C.sight crew.new).collected)
        result.outcome result.taken }
    ensures going { (C.sight crew.new).finished ≡ false }
    ensures free { (C.sight crew.new).hand ≡ None }
{
    match vec![in alloc; 0u8; PIECE] {
        Ok(mut buffer) => {
            Server::new(alloc).serve(buffer.as_mut_slice(), input, tree, crew, output)
        }
        Err(_) => Served {
            outcome: Outcome::Stopped(Stop::NoMemory),
            taken: 0,
        },
    }
}
