ghost use Rattle.std.specs.Prelude.{◌≡◌, ◌≤◌, ◌<◌, ℕ, List, [], true, false, None, Ok, IfSome, OnOk, OnErr, IsErrOf};
ghost use Rattle.bsp_edge.specs.Faults.{Rose};
ghost use Rattle.session_law.specs.Order.{Event, hand};
ghost use Rattle.session_law.specs.Verdicts.{IsBare};
ghost use Rattle.session_core.specs.Settled.{HeadWants, IsSettled, NeedsNothing, Suits};
ghost use Rattle.session_core.specs.Standing.{StandsFor, IsAlive, IsQuiet, status_of};
ghost use Rattle.session_core.specs.State.{handed_of, rest_of};
ghost use Rattle.bsp_cli.specs.Outside.{told};
ghost use Rattle.bsp_cli.specs.Progress.{IsMet, MayNeed, TookHand};
ghost use Rattle.bsp_cli.specs.Shares.{KeepsCrew, Shares, left_with, needs_left};
ghost use Rattle.bsp_cli.specs.Writing.{ActsThrough, GoesThrough, HaltsAt, Stops};

use crate::responder::Responder;
use crate::stop::Stop;
use bsp_edge::{Sink, Tree, TreeFault};
use ob_text::{Items, NoMemory, Path, Snapshot};
use session_core::Need;
use worker_pool::Crew;

impl Responder {
    /// Gives the session all that it needs from outside, and writes what it answers.
    pub fn meet_needs<T: Tree, C: Crew, K: Sink>(
        &mut self,
        tree: &mut T,
        crew: &mut C,
        output: &mut K,
    ) -> Result<(), Stop>
        requires may { MayNeed self.old.core }
        requires shares { Shares (rest_of self.old.core) (C.sight crew.old) }
        requires stood { (order : List Event) × StandsFor self.old.core order }
        ensures steps { OnOk result (GoesThrough IsBare self.old.core self.new.core [] None
            (told (K.given output.old) (T.handed tree.old) (T.faults tree.old))
            (told (K.given output.new) (T.handed tree.new) (T.faults tree.new))) }
        ensures met { OnOk result (IsMet self.new.core) }
        ensures shares { OnOk result (Shares (rest_of self.new.core) (C.sight crew.new)) }
        ensures less { OnOk result (left_with (rest_of self.new.core) (C.sight crew.new)
            ≤ left_with (rest_of self.old.core) (C.sight crew.old)) }
        ensures status { OnOk result (status_of self.new.core ≡ status_of self.old.core) }
        ensures stops { OnErr result (Stops IsBare self.old.core [] None
            (told (K.given output.old) (T.handed tree.old) (T.faults tree.old))
            (told (K.given output.new) (T.handed tree.new) (T.faults tree.new))) }
        ensures crew { KeepsCrew (C.sight crew.old) (C.sight crew.new) }
        ensures sink { IsErrOf result Stop.Sink → Rose (K.faults output.old) (K.faults output.new) }
        ensures same { (IsErrOf result Stop.Sink → ⊥) → K.faults output.new ≡ K.faults output.old }
    {
        'needs: loop {
            match self.meet_need(tree, crew, output) {
                Ok(true) => {}
                Ok(false) => return Ok(()),
                Err(stop) => return Err(stop),
            }
        }
    }

    /// Gives the session what it needs next, where it needs something, and writes what it answers. Answers whether it
    /// needed something.
    fn meet_need<T: Tree, C: Crew, K: Sink>(
        &mut self,
        tree: &mut T,
        crew: &mut C,
        output: &mut K,
    ) -> Result<bool, Stop>
        requires may { MayNeed self.old.core }
        requires shares { Shares (rest_of self.old.core) (C.sight crew.old) }
        requires stood { (order : List Event) × StandsFor self.old.core order }
        ensures steps { OnOk result (GoesThrough IsBare self.old.core self.new.core [] None
            (told (K.given output.old) (T.handed tree.old) (T.faults tree.old))
            (told (K.given output.new) (T.handed tree.new) (T.faults tree.new))) }
        ensures may { OnOk result (MayNeed self.new.core) }
        ensures met { result ≡ Ok false → IsMet self.new.core }
        ensures shares { OnOk result (Shares (rest_of self.new.core) (C.sight crew.new)) }
        ensures falls { result ≡ Ok true → needs_left (rest_of self.new.core) < needs_left (rest_of self.old.core) }
        ensures less { OnOk result (left_with (rest_of self.new.core) (C.sight crew.new)
            ≤ left_with (rest_of self.old.core) (C.sight crew.old)) }
        ensures status { OnOk result (status_of self.new.core ≡ status_of self.old.core) }
        ensures drains { OnOk result (self.old.core.drains ≡ true → self.new.core.drains ≡ false
            → IfSome (C.sight crew.old).untaken (λ _. (C.sight crew.new).out ≡ [])) }
        ensures stops { OnErr result (Stops IsBare self.old.core [] None
            (told (K.given output.old) (T.handed tree.old) (T.faults tree.old))
            (told (K.given output.new) (T.handed tree.new) (T.faults tree.new))) }
        ensures crew { KeepsCrew (C.sight crew.old) (C.sight crew.new) }
        ensures sink { IsErrOf result Stop.Sink → Rose (K.faults output.old) (K.faults output.new) }
        ensures same { (IsErrOf result Stop.Sink → ⊥) → K.faults output.new ≡ K.faults output.old }
    {
        match self.core.next_need() {
            Ok(Some(Need::Tree(paths))) => match self.ask_tree(paths, tree, output) {
                Ok(()) => Ok(true),
                Err(stop) => Err(stop),
            },
            Ok(Some(Need::Job(job))) => match crew.give(job) {
                Ok(()) => Ok(true),
                Err(_) => Err(Stop::NoMemory),
            },
            Ok(Some(Need::Drain)) => {
                crew.drain();
                Ok(true)
            }
            Ok(None) => Ok(false),
            Err(NoMemory) => Err(Stop::NoMemory),
        }
    }

    /// Asks the tree for these paths, and acts on its answer.
    fn ask_tree<T: Tree, K: Sink>(
        &mut self,
        paths: Items<Path>,
        tree: &mut T,
        output: &mut K,
    ) -> Result<(), Stop>
        requires quiet { IsQuiet self.old.core }
        requires settled { IsSettled (rest_of self.old.core) }
        requires asked { NeedsNothing (rest_of self.old.core) }
        requires alive { IsAlive self.old.core }
        requires wanted { HeadWants self.old.core.head paths }
        requires stood { (order : List Event) × StandsFor self.old.core order }
        ensures steps { OnOk result (GoesThrough IsBare self.old.core self.new.core [] None
            (told (K.given output.old) (T.handed tree.old) (T.faults tree.old))
            (told (K.given output.new) (T.handed tree.new) (T.faults tree.new))) }
        ensures quiet { OnOk result (IsQuiet self.new.core) }
        ensures took { OnOk result (TookHand (rest_of self.old.core) (rest_of self.new.core)) }
        ensures stops { OnErr result (Stops IsBare self.old.core [] None
            (told (K.given output.old) (T.handed tree.old) (T.faults tree.old))
            (told (K.given output.new) (T.handed tree.new) (T.faults tree.new))) }
        ensures sink { IsErrOf result Stop.Sink → Rose (K.faults output.old) (K.faults output.new) }
        ensures same { (IsErrOf result Stop.Sink → ⊥) → K.faults output.new ≡ K.faults output.old }
    {
        match tree.read_all(paths.as_slice()) {
            Ok(snapshot) => self.act_on_hand(Some(snapshot), output),
            Err(TreeFault::Failed) => self.act_on_hand(None, output),
            Err(TreeFault::NoMemory) => Err(Stop::NoMemory),
        }
    }

    /// Acts on what the tree handed out, or on its failure, and writes what is answered then.
    fn act_on_hand<K: Sink>(&mut self, got: Option<Snapshot>, output: &mut K) -> Result<(), Stop>
        requires quiet { IsQuiet self.old.core }
        requires settled { IsSettled (rest_of self.old.core) }
        requires asked { NeedsNothing (rest_of self.old.core) }
        requires alive { IsAlive self.old.core }
        requires wanted { Suits (rest_of self.old.core) got }
        requires stood { (order : List Event) × StandsFor self.old.core order }
        ensures acts { OnOk result (ActsThrough IsBare self.old.core self.new.core (hand (handed_of got))
            (K.given output.old) (K.given output.new)) }
        ensures quiet { OnOk result (IsQuiet self.new.core) }
        ensures took { OnOk result (TookHand (rest_of self.old.core) (rest_of self.new.core)) }
        ensures halts { OnErr result (HaltsAt IsBare self.old.core (hand (handed_of got))
            (K.given output.old) (K.given output.new)) }
        ensures sink { IsErrOf result Stop.Sink → Rose (K.faults output.old) (K.faults output.new) }
        ensures same { (IsErrOf result Stop.Sink → ⊥) → K.faults output.new ≡ K.faults output.old }
    {
        match self.core.snapshot(got) {
            Ok(()) => self.flush(output),
            Err(NoMemory) => Err(Stop::NoMemory),
        }
    }
}
