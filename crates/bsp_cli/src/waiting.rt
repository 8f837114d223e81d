ghost use Rattle.std.specs.Prelude.{◌≡◌, ◌≢◌, ◌<◌, ℕ, List, [], false, length, None, Option, Ok, IfOk, OnOk, OnErr, IsErrOf};
ghost use Rattle.ob_text.specs.Held.{Entries};
ghost use Rattle.bsp_edge.specs.Course.{Course};
ghost use Rattle.bsp_edge.specs.Faults.{Rose};
ghost use Rattle.bsp_edge.specs.Reading.{ReadFaults, ReadLeaves, ReadMoves};
ghost use Rattle.rpc_frame.specs.Frames.{HasNoFrame, Waiting};
ghost use Rattle.session_law.specs.Order.{Event};
ghost use Rattle.session_core.specs.Settled.{IsBack};
ghost use Rattle.session_core.specs.Standing.{StandsFor, IsQuiet};
ghost use Rattle.session_core.specs.State.{rest_of};
ghost use Rattle.worker_pool.specs.Crews.{Collected, Sight, Waited};
ghost use Rattle.worker_pool.specs.Plain.{plain_job};
ghost use Rattle.bsp_cli.specs.Outside.{Heard, Told, heard, told};
ghost use Rattle.bsp_cli.specs.Progress.{Finds, IsReady, Progress, Stays, StoppedWaiting, TookOutcome};
ghost use Rattle.bsp_cli.specs.Shares.{CollectsOne, Shares, left_with};
ghost use Rattle.bsp_cli.specs.Writing.{GoesThrough, IsAny, Stops};

use crate::responder::Responder;
use crate::stop::Stop;
use bsp_edge::{Got, Sink, Source, Tree};
use ob_text::NoMemory;
use worker_pool::{Crew, Outcome};

impl Responder {
    /// Waits for the next piece of the input, and takes outcomes as long as the session needs some and there is no piece.
    pub fn await_piece<S: Source, T: Tree, C: Crew, K: Sink>(
        &mut self,
        into: &mut [u8],
        input: &mut S,
        tree: &mut T,
        crew: &mut C,
        output: &mut K,
    ) -> Result<Got, Stop>
        requires room { 0 < length into.old }
        requires ready { IsReady self.old.core }
        requires shares { Shares (rest_of self.old.core) (C.sight crew.old) }
        requires stood { (order : List Event) × StandsFor self.old.core order }
        ensures finds { IfOk result (λ got. (stream : Waiting) (from : Heard) (start : Told) → HasNoFrame stream.bytes
            → Progress self.old.core stream from
            (heard (S.left input.old) (S.course input.old) (C.sight crew.old).collected) start
            (told (K.given output.old) (T.handed tree.old) (T.faults tree.old))
            → Finds self.new.core stream from
            (heard (S.left input.new) (S.course input.new) (C.sight crew.new).collected) start
            (told (K.given output.new) (T.handed tree.new) (T.faults tree.new)) into.new got) }
        ensures stopped { OnErr result ((stream : Waiting) (from : Heard) (start : Told) → HasNoFrame stream.bytes
            → Progress self.old.core stream from
            (heard (S.left input.old) (S.course input.old) (C.sight crew.old).collected) start
            (told (K.given output.old) (T.handed tree.old) (T.faults tree.old))
            → StoppedWaiting stream.given_end from
            (heard (S.left input.new) (S.course input.new) (C.sight crew.new).collected) start
            (told (K.given output.new) (T.handed tree.new) (T.faults tree.new))) }
        ensures leaves { IfOk result (ReadLeaves (S.left input.old) (S.left input.new) into.new) }
        ensures moves { IfOk result (λ got. (before : Option Course) × Stays (S.course input.old) before
            × ReadMoves before (S.course input.new) got) }
        ensures awake { IfOk result (λ got. got ≢ Got.Quiet) }
        ensures input { IfOk result (ReadFaults (S.faults input.old) (S.faults input.new)) }
        ensures ready { OnOk result (IsReady self.new.core) }
        ensures shares { OnOk result (Shares (rest_of self.new.core) (C.sight crew.new)) }
        ensures stood { OnOk result ((order : List Event) × StandsFor self.new.core order) }
        ensures going { (C.sight crew.new).finished ≡ false }
        ensures free { (C.sight crew.new).hand ≡ None }
        ensures sink { IsErrOf result Stop.Sink → Rose (K.faults output.old) (K.faults output.new) }
        ensures same { OnOk result (K.faults output.new ≡ K.faults output.old) }
    {
        'outcomes: loop {
            if self.core.is_idle() {
                return Ok(input.read(into));
            }
            match input.poll(into) {
                Got::Quiet => match self.take_outcome(tree, crew, output) {
                    Ok(()) => {}
                    Err(stop) => return Err(stop),
                },
                Got::Bytes(count) => return Ok(Got::Bytes(count)),
                Got::End => return Ok(Got::End),
                Got::Failed => return Ok(Got::Failed),
            }
        }
    }

    /// Waits for the next outcome, acts on it, meets what it leads to, and writes what is answered.
    pub fn take_outcome<T: Tree, C: Crew, K: Sink>(
        &mut self,
        tree: &mut T,
        crew: &mut C,
        output: &mut K,
    ) -> Result<(), Stop>
        requires ready { IsReady self.old.core }
        requires busy { self.old.core.head ≡ None → ⊥ }
        requires shares { Shares (rest_of self.old.core) (C.sight crew.old) }
        requires stood { (order : List Event) × StandsFor self.old.core order }
        ensures steps { OnOk result (GoesThrough IsAny self.old.core self.new.core [] None
            (told (K.given output.old) (T.handed tree.old) (T.faults tree.old))
            (told (K.given output.new) (T.handed tree.new) (T.faults tree.new))) }
        ensures ready { OnOk result (IsReady self.new.core) }
        ensures shares { OnOk result (Shares (rest_of self.new.core) (C.sight crew.new)) }
        ensures falls { OnOk result (left_with (rest_of self.new.core) (C.sight crew.new)
            < left_with (rest_of self.old.core) (C.sight crew.old)) }
        ensures stops { OnErr result (Stops IsAny self.old.core [] None
            (told (K.given output.old) (T.handed tree.old) (T.faults tree.old))
            (told (K.given output.new) (T.handed tree.new) (T.faults tree.new))) }
        ensures crew { CollectsOne (C.sight crew.old) (C.sight crew.new) }
        ensures sink { IsErrOf result Stop.Sink → Rose (K.faults output.old) (K.faults output.new) }
        ensures same { (IsErrOf result Stop.Sink → ⊥) → K.faults output.new ≡ K.faults output.old }
    {
        let outcome = next_outcome(crew);
        match self.act_on_outcome(outcome, output) {
            Ok(()) => self.meet_needs(tree, crew, output),
            Err(stop) => Err(stop),
        }
    }

    /// Acts on an outcome, and writes what is answered then.
    fn act_on_outcome<K: Sink>(&mut self, outcome: Outcome, output: &mut K) -> Result<(), Stop>
        requires ready { IsReady self.old.core }
        requires back { IsBack (rest_of self.old.core) (plain_job outcome.job) }
        requires stood { (order : List Event) × StandsFor self.old.core order }
        ensures steps { OnOk result ((handed : Option (List Entries)) (faults : ℕ)
            → GoesThrough IsAny self.old.core self.new.core [] None
            (told (K.given output.old) handed faults) (told (K.given output.new) handed faults)) }
        ensures quiet { OnOk result (IsQuiet self.new.core) }
        ensures took { OnOk result (TookOutcome (rest_of self.old.core) (rest_of self.new.core) outcome.job.number) }
        ensures stops { OnErr result ((handed : Option (List Entries)) (faults : ℕ)
            → Stops IsAny self.old.core [] None
            (told (K.given output.old) handed faults) (told (K.given output.new) handed faults)) }
        ensures sink { IsErrOf result Stop.Sink → Rose (K.faults output.old) (K.faults output.new) }
        ensures same { (IsErrOf result Stop.Sink → ⊥) → K.faults output.new ≡ K.faults output.old }
    {
        match self.core.outcome(outcome) {
            Ok(()) => self.flush(output),
            Err(NoMemory) => Err(Stop::NoMemory),
        }
    }
}

/// Waits for an outcome and takes it.
fn next_outcome<C: Crew>(crew: &mut C) -> Outcome
    requires going { (C.sight crew.old).finished ≡ false }
    requires some { 0 < length (C.sight crew.old).out }
    ensures { (waited : Sight) × Waited (C.sight crew.old) waited × Collected waited (C.sight crew.new) result }
{
    if !crew.wait() {
        unreachable!();
    }
    match crew.collect() {
        Some(outcome) => outcome,
        None => unreachable!(),
    }
}
