ghost use Rattle.std.specs.Prelude.{◌≡◌, ◌<◌, ◌^◌, ℕ, suc, List, [], length, map, IfOk, IfSome, OnOk};
ghost use Rattle.std.specs.List.{All, AllPairs};
ghost use Rattle.ob_text.specs.Held.{IsReadable};
ghost use Rattle.json_shape.specs.Shapes.{IsTextWithin};
ghost use Rattle.bsp_records.specs.Limits.{origin_limit};
ghost use Rattle.bsp_records.specs.Table.{Table};
ghost use Rattle.rpc_peer.specs.Said.{Said};
ghost use Rattle.session_law.specs.Builds.{AreDocuments};
ghost use Rattle.session_law.specs.Course.{Given};
ghost use Rattle.session_build.specs.AtWork.{HasBegun, HasCancelled, HasGoneOn, IfOn, IsAtWork, IsOwnWork, IsWork, Leaves, Rests, Runs, begun_in};
ghost use Rattle.build_messages.specs.Documents.{build_of};
ghost use Rattle.build_messages.specs.Outgoing.{outgoing_said};
ghost use Rattle.session_build.specs.Pausing.{HasFinished, HasPaused, IsPaused};
ghost use Rattle.session_build.specs.Setting.{IsSetting};
ghost use Rattle.target_graph.specs.Workspace.{IsClosure};
ghost use Rattle.task_stream.specs.Showing.{shows};
ghost use Rattle.worker_pool.specs.Jobs.{plain_check};
ghost use Rattle.worker_pool.specs.Outcomes.{IsCheckOf};

use crate::cancelling::cancel_build;
use crate::documents::modules_of;
use crate::ending::end_build;
use crate::going::Going;
use crate::kept::Kept;
use crate::late::wait_for;
use crate::setting::Setting;
use crate::storing::store_all;
use crate::tally::NOTHING;
use crate::telling::tell_starts;
use build_checks::Checks;
use build_messages::Outgoing;
use indexmap::IndexSet;
use ob_text::{Items, NoMemory, Snapshot, Text};
use oberon_module::Checked;
use session_law::BuildDocument;
use std::alloc::Global;
use std::collections::VecDeque;
use std::sync::Arc;
use target_graph::Workspace;
use task_stream::Shown;
use worker_pool::Check;

/// What a build is asked for, and the documents that it is of.
#[derive(Drop)]
pub struct BuildRequest {
    /// The ordinal of its message.
    pub number: u64,
    /// The targets, by their indices.
    pub asked: Items<u32>,
    pub origin: Option<Text>,
    pub documents: Items<BuildDocument>,
}

/// A build that began, some of whose checks run. They are made elsewhere, and their outcomes come one at a time, in any order.
/// What it tells goes into the queue of messages that each call is passed.
pub struct Build {
    at: Setting,
    going: Going,
}

impl Drop for Build {
    fn drop(self) {
        let Self { at: _, going: _ } = self;
    }
}

/// What came of a build in a call.
#[derive(Drop)]
pub enum Went {
    /// It waits for its checks.
    On(Build),
    /// It told all, and some document has an error, or none has. What is left of it may be freed once its request is answered.
    Ended { failed: bool, remains: Remains },
}

/// What is left of a build that ended or was cancelled. Nothing more is done with it, but what was read of its documents takes
/// time to be freed.
#[derive(Drop)]
pub struct Remains {
    _checks: Checks,
}

impl Build {
    /// Begins to build some targets: tells of its tasks, starts the checks that are due as far as no other has to be made
    /// before, and publishes the list of each document whose check is kept where a client shows another. Where no check is
    /// due the build ends at once. What it told before an `Err` is not its whole step: no message may be told of the build
    /// any more.
    pub fn begin(
        alloc: Global,
        workspace: Arc<Workspace>,
        kept: &mut Kept,
        shown: &mut Shown,
        request: BuildRequest,
        snapshot: Snapshot,
        out: &mut VecDeque<Outgoing>,
    ) -> Result<Went, NoMemory>
        requires documents { AreDocuments (build_of workspace.value request.asked request.origin) request.documents }
        requires asked { All (λ target. target < length workspace.value.targets) request.asked }
        requires origin { IfSome request.origin (IsTextWithin origin_limit) }
        requires texts { All (λ entry. IsReadable entry.1) snapshot.entries }
        ensures begun { IfOk result (λ went. HasBegun workspace.value request snapshot.entries went kept.old kept.new (shows shown.old) (shows shown.new) (map outgoing_said out.old.items) (map outgoing_said out.new.items)) }
        ensures rests { IfOk result (λ went. IfOn went Rests) }
        // Each check that started runs.
        ensures run { IfOk result (λ went. IfOn went (λ b. (k : ℕ) → k < begun_in b → (pair : ℕ) × Runs b (suc k) pair)) }
    {
        let share = workspace.clone()?;
        let at = setting(alloc, workspace, request)?;
        let modules = modules_of(alloc, at.documents.as_slice())?;
        let checks = Checks::begin(
            alloc,
            share,
            modules.as_slice(),
            snapshot,
            &kept.cache,
            &mut kept.keys,
        )?;
        let mut going = begun(alloc, checks, at.documents.as_slice().len())?;
        tell_starts(&at, out)?;
        going.take_all(&at, &kept.cache, &mut kept.keys, shown, out)?;
        let went = Build { at, going }.go_on(kept, out)?;
        Ok(went)
    }

    /// Goes on by the outcome of a check that runs: by what it was of, and what it found. Where it was the last one the build
    /// ends: its targets are reported, and the checks that it made are kept. What it told before an `Err` is not its whole
    /// step.
    pub fn outcome(
        self,
        number: u64,
        check: Check,
        checked: Checked,
        kept: &mut Kept,
        shown: &mut Shown,
        out: &mut VecDeque<Outgoing>,
    ) -> Result<Went, NoMemory>
        requires rests { Rests self }
        requires runs { (pair : ℕ) × Runs self number pair }
        requires checked { IsCheckOf (plain_check check) checked }
        ensures went { IfOk result (λ went. HasGoneOn self number (plain_check check) went kept.old kept.new (shows shown.old) (shows shown.new) (map outgoing_said out.old.items) (map outgoing_said out.new.items)) }
        ensures rests { IfOk result (λ went. IfOn went Rests) }
        ensures jobs { IfOk result (Leaves self number) }
    {
        let Build { at, going } = self;
        let mut going = going;
        going.outcome(
            &at,
            &kept.cache,
            number,
            check,
            checked,
            &mut kept.keys,
            shown,
            out,
        )?;
        let went = Build { at, going }.go_on(kept, out)?;
        Ok(went)
    }

    /// Tells that each of its tasks is cancelled, and keeps the checks that it made. Those that run are waited for, where the
    /// job of its first check had the number `first`. What is left of it may be freed once its request is answered.
    pub fn cancel(
        self,
        first: u64,
        kept: &mut Kept,
        out: &mut VecDeque<Outgoing>,
    ) -> Result<Remains, NoMemory>
        requires { Rests self }
        ensures { OnOk result (HasCancelled self kept.old kept.new (map outgoing_said out.old.items) (map outgoing_said out.new.items)) }
    {
        let Build { at, going } = self;
        let Going {
            checks,
            jobs,
            made,
            ..
        } = going;
        cancel_build(&at, jobs.as_slice(), out)?;
        let space: &Workspace = &at.workspace;
        store_all(at.alloc, space, &mut kept.cache, made)?;
        wait_for(&checks, first, jobs, &mut kept.late)?;
        Ok(Remains { _checks: checks })
    }

    /// How many checks started.
    pub fn begun(&self) -> u64
        ensures begun { result ≡ begun_in self.now }
        // A number of 64 bits counts them.
        ensures few { begun_in self.now < 2 ^ 64 }
    {
        self.going.begun
    }

    /// The check with this number, which runs, as work.
    pub fn work(&self, number: u64) -> Result<Check, NoMemory>
        requires rests { Rests self.now }
        requires runs { (pair : ℕ) × Runs self.now number pair }
        ensures work { IfOk result (λ check. (g : Given) (told : List Said) (keys : List (List ℕ)) (table : Table) → IsAtWork g self.now told keys table → IsWork g self.now number (plain_check check)) }
        // It stays so while the check runs.
        ensures own { IfOk result (λ check. IsOwnWork self.now number (plain_check check)) }
    {
        let pair = self.going.pair_of(number);
        let check = self.going.checks.work(pair)?;
        Ok(check)
    }

    /// Waits for the checks that run. Where none does the build ends.
    fn go_on(self, kept: &mut Kept, out: &mut VecDeque<Outgoing>) -> Result<Went, NoMemory>
        requires { IsPaused self }
        ensures { IfOk result (λ went. HasPaused self went kept.old kept.new (map outgoing_said out.old.items) (map outgoing_said out.new.items)) }
    {
        if self.going.jobs.len() > 0 {
            let _count = self.begun();
            return Ok(Went::On(self));
        }
        let (failed, remains) = self.end(kept, out)?;
        Ok(Went::Ended { failed, remains })
    }

    /// Reports the targets, tells that the build finishes, and keeps the checks that it made.
    fn end(self, kept: &mut Kept, out: &mut VecDeque<Outgoing>) -> Result<(bool, Remains), NoMemory>
        requires sound { IsPaused self }
        requires idle { self.going.jobs.items ≡ [] }
        ensures { IfOk result (λ ended. HasFinished self kept.old kept.new (map outgoing_said out.old.items) (map outgoing_said out.new.items) ended.0) }
    {
        let Build { at, going } = self;
        let Going {
            checks,
            made,
            tallies,
            ..
        } = going;
        let failed = end_build(&at, tallies.as_slice(), out)?;
        let space: &Workspace = &at.workspace;
        store_all(at.alloc, space, &mut kept.cache, made)?;
        Ok((failed, Remains { _checks: checks }))
    }
}

/// A build of so many documents, of which none is taken yet.
fn begun(alloc: Global, checks: Checks, count: usize) -> Result<Going, NoMemory>
    ensures checks { IfOk result (λ going. going.checks ≡ checks) }
    ensures begun { IfOk result (λ going. going.begun ≡ 0) }
    ensures jobs { IfOk result (λ going. going.jobs.items ≡ []) }
    ensures made { IfOk result (λ going. going.made.items ≡ []) }
    ensures sized { IfOk result (λ going. length going.tallies.items ≡ count) }
{
    Ok(Going {
        checks,
        begun: 0,
        jobs: Vec::new(alloc),
        made: Vec::new(alloc),
        tallies: vec![in alloc; NOTHING; count]?,
    })
}

/// What a build goes by.
fn setting(
    alloc: Global,
    workspace: Arc<Workspace>,
    request: BuildRequest,
) -> Result<Setting, NoMemory>
    requires documents { AreDocuments (build_of workspace.value request.asked request.origin) request.documents }
    requires asked { All (λ target. target < length workspace.value.targets) request.asked }
    requires origin { IfSome request.origin (IsTextWithin origin_limit) }
    ensures setting { IfOk result IsSetting }
    ensures workspace { IfOk result (λ at. at.workspace.value ≡ workspace.value) }
    ensures number { IfOk result (λ at. at.number ≡ request.number) }
    ensures documents { IfOk result (λ at. at.documents ≡ request.documents) }
    ensures origin { IfOk result (λ at. at.origin.value ≡ request.origin) }
    ensures targets { IfOk result (λ at. IsClosure workspace.value.targets request.asked at.targets.keys) }
{
    let space: &Workspace = &workspace;
    let _pairs = space.pairs();
    let closure = space.closure(request.asked.as_slice())?;
    let targets = as_set(alloc, closure.as_slice())?;
    let modules = modules_of(alloc, request.documents.as_slice())?;
    let pairs = as_set(alloc, modules.as_slice())?;
    let BuildRequest {
        number,
        origin,
        documents,
        ..
    } = request;
    let origin = Arc::new(alloc, origin)?;
    Ok(Setting {
        alloc,
        workspace,
        number,
        origin,
        documents,
        pairs,
        targets,
    })
}

/// Numbers that rise as a set in their order.
fn as_set(alloc: Global, numbers: &[u32]) -> Result<IndexSet<u32>, NoMemory>
    requires { AllPairs ◌<◌ numbers.now }
    ensures { IfOk result (λ set. set.keys ≡ numbers.now) }
{
    let mut set = IndexSet::new(alloc);
    for number in numbers {
        set.insert(*number)?;
    }
    Ok(set)
}
