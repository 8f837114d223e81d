ghost use Rattle.std.specs.Prelude.{◌≡◌, ◌≤◌, ◌<◌, ℕ, List, [], ◌∷◌, length, map, true, false, IfOk, OnOk, Contains};
ghost use Rattle.check_cache.specs.Facts.{FactTree};
ghost use Rattle.worker_pool.specs.Jobs.{plain_check};
ghost use Rattle.worker_pool.specs.Outcomes.{IsCheckOf};
ghost use Rattle.build_checks.specs.Kept.{Extends};
ghost use Rattle.build_checks.specs.Stand.{AreChecks, left_of, modules_of, settled_of, taken_of};
ghost use Rattle.session_law.specs.Builds.{build_status};
ghost use Rattle.session_build.specs.Going.{AreSound, Begins, FinishesOne, Goes, GoesBy, GoesOnBy, GoesThrough, IsAmong, IsJob, IsJobIndex, IsSound, KeepsViews, NoneCanBeTaken, SettlesBy, StartsMore, TakesOut, all_left, numbers_of};
ghost use Rattle.build_messages.specs.Outgoing.{outgoing_said};
ghost use Rattle.session_build.specs.Setting.{IsSetting};
ghost use Rattle.task_stream.specs.Showing.{shows};

use crate::making::fact_by;
use crate::setting::Setting;
use crate::tally::{Tally, counted};
use bsp_records::StatusCode;
use build_checks::Checks;
use build_messages::{Outgoing, check_finishes, check_starts, copy_of, has_error, publish_one};
use check_cache::{Cache, Fact};
use iface_key::Keys;
use ob_text::{Name, NoMemory};
use oberon_module::Checked;
use std::collections::VecDeque;
use task_stream::Shown;
use worker_pool::Check;

/// A check that started and hasn't finished.
#[derive(Drop)]
pub(crate) struct Job {
    pub pair: u32,
    /// The index of its document.
    pub document_index: usize,
    /// The number of the document's target.
    pub target: u64,
    /// Its own number.
    pub number: u64,
    pub imports: Vec<(Name, u64)>,
}

/// A check that finished.
#[derive(Drop)]
pub(crate) struct Made {
    pub pair: u32,
    pub fact: Fact,
}

/// How far a build is.
#[derive(Drop)]
pub(crate) struct Going {
    pub checks: Checks,
    /// How many checks started.
    pub begun: u64,
    /// Those that haven't finished, the oldest first.
    pub jobs: Vec<Job>,
    /// Those that have.
    pub made: Vec<Made>,
    /// What came of each document that is settled, at its index.
    pub tallies: Vec<Tally>,
}

impl Going {
    /// Takes the documents that are ready, until none is.
    pub fn take_all(
        &mut self,
        at: &Setting,
        cache: &Cache,
        keys: &mut Keys,
        shown: &mut Shown,
        out: &mut VecDeque<Outgoing>,
    ) -> Result<(), NoMemory>
        requires setting { IsSetting at.now }
        requires sound { IsSound at.now self.old }
        ensures sound { OnOk result (IsSound at.now self.new) }
        ensures goes { OnOk result (Goes at.now cache.now self.old self.new (map outgoing_said out.old.items) (map outgoing_said out.new.items) keys.old keys.new (shows shown.old) (shows shown.new)) }
        ensures jobs { OnOk result (StartsMore self.old self.new) }
        ensures none { OnOk result (NoneCanBeTaken self.new.checks) }
        ensures through { OnOk result (GoesThrough self.new.checks) }
        ensures left { OnOk result (all_left self.new.checks self.new.jobs.items ≤ all_left self.old.checks self.old.jobs.items) }
    {
        'documents: while self.take(at, cache, keys, shown, out)? {}
        Ok(())
    }

    /// Takes the document that is next, and tells whether there is one. It is settled where its check is kept, and else a
    /// check starts.
    fn take(
        &mut self,
        at: &Setting,
        cache: &Cache,
        keys: &mut Keys,
        shown: &mut Shown,
        out: &mut VecDeque<Outgoing>,
    ) -> Result<bool, NoMemory>
        requires setting { IsSetting at.now }
        requires sound { IsSound at.now self.old }
        ensures sound { OnOk result (IsSound at.now self.new) }
        ensures goes { OnOk result (Goes at.now cache.now self.old self.new (map outgoing_said out.old.items) (map outgoing_said out.new.items) keys.old keys.new (shows shown.old) (shows shown.new)) }
        ensures jobs { OnOk result (StartsMore self.old self.new) }
        ensures less { IfOk result (λ more. more ≡ true
            → all_left self.new.checks self.new.jobs.items < all_left self.old.checks self.old.jobs.items) }
        ensures left { OnOk result (all_left self.new.checks self.new.jobs.items ≤ all_left self.old.checks self.old.jobs.items) }
        ensures none { IfOk result (λ more. more ≡ false → NoneCanBeTaken self.new.checks) }
        ensures through { IfOk result (λ more. more ≡ false → GoesThrough self.new.checks) }
    {
        let Some(pair) = self.checks.next() else {
            return Ok(false);
        };
        keys.numbers_differ();
        let imports = self.checks.imports(pair)?;
        match self.checks.look(cache, pair, imports.as_slice())? {
            Some(hit) => self.settle(at, pair, false, hit.fact, keys, shown, out)?,
            None => self.begin(at, pair, imports, out)?,
        }
        Ok(true)
    }

    /// A check of a pair's document starts.
    fn begin(
        &mut self,
        at: &Setting,
        pair: u32,
        imports: Vec<(Name, u64)>,
        out: &mut VecDeque<Outgoing>,
    ) -> Result<(), NoMemory>
        requires setting { IsSetting at.now }
        requires among { Contains (map (λ document. document.pair) at.now.documents) pair }
        ensures { OnOk result (Begins at.now self.old self.new pair imports.items (map outgoing_said out.old.items) (map outgoing_said out.new.items)) }
    {
        let index = at.document_index(pair);
        let target = at.target_of(pair);
        let Some(number) = self.begun.checked_add(1) else {
            return Err(NoMemory);
        };
        let documents = at.documents.as_slice();
        let document = &documents[index].key.document;
        let start = check_starts(at.alloc, at.number, number, target, document)?;
        out.push_back(start)?;
        self.begun = number;
        self.jobs.push(Job {
            pair,
            document_index: index,
            target,
            number,
            imports,
        })?;
        Ok(())
    }

    /// The check with this number finishes: of this, with what it found. Then the documents are taken that are ready.
    pub fn outcome(
        &mut self,
        at: &Setting,
        cache: &Cache,
        number: u64,
        check: Check,
        checked: Checked,
        keys: &mut Keys,
        shown: &mut Shown,
        out: &mut VecDeque<Outgoing>,
    ) -> Result<(), NoMemory>
        requires setting { IsSetting at.now }
        requires sound { IsSound at.now self.old }
        requires none { NoneCanBeTaken self.old.checks }
        requires runs { Contains (numbers_of self.old.jobs.items) number }
        requires checked { IsCheckOf (plain_check check) checked }
        ensures sound { OnOk result (IsSound at.now self.new) }
        ensures goes { OnOk result (GoesOnBy at.now cache.now number (plain_check check) self.old self.new (map outgoing_said out.old.items) (map outgoing_said out.new.items) keys.old keys.new (shows shown.old) (shows shown.new)) }
        ensures jobs { OnOk result (FinishesOne self.old number self.new) }
        ensures none { OnOk result (NoneCanBeTaken self.new.checks) }
        ensures through { OnOk result (GoesThrough self.new.checks) }
    {
        let job = self.take_job(number);
        let fact = fact_by(at.alloc, job.imports.as_slice(), check, checked)?;
        self.finish(at, job, fact, keys, shown, out)?;
        self.take_all(at, cache, keys, shown, out)?;
        Ok(())
    }

    /// Takes out the check with this number.
    fn take_job(&mut self, number: u64) -> Job
        requires { Contains (numbers_of self.old.jobs.items) number }
        ensures number { result.number ≡ number }
        ensures jobs { TakesOut self.old.jobs.items self.new.jobs.items result }
        ensures others { self.new ≡ record self.old { jobs = self.new.jobs } }
    {
        let index = job_index(self.jobs.as_slice(), number);
        self.jobs.remove(index)
    }

    /// The pair of the check with this number.
    pub fn pair_of(&self, number: u64) -> u32
        requires { Contains (numbers_of self.now.jobs.items) number }
        ensures { IsAmong self.now.jobs.items number result }
    {
        let jobs = self.jobs.as_slice();
        let index = job_index(jobs, number);
        jobs[index].pair
    }

    /// A check that isn't among the others finishes with this fact, and its document is settled.
    fn finish(
        &mut self,
        at: &Setting,
        job: Job,
        fact: Fact,
        keys: &mut Keys,
        shown: &mut Shown,
        out: &mut VecDeque<Outgoing>,
    ) -> Result<(), NoMemory>
        requires setting { IsSetting at.now }
        requires sound { AreSound at.now self.old.checks (job ∷ self.old.jobs.items) self.old.tallies.items }
        requires none { NoneCanBeTaken self.old.checks }
        ensures sound { OnOk result (IsSound at.now self.new) }
        ensures goes { OnOk result (GoesBy at.now job fact self.old self.new (map outgoing_said out.old.items) (map outgoing_said out.new.items) keys.old keys.new (shows shown.old) (shows shown.new)) }
        ensures left { OnOk result (left_of self.new.checks ≡ left_of self.old.checks) }
        ensures jobs { OnOk result (self.new.jobs ≡ self.old.jobs) }
        ensures begun { OnOk result (self.new.begun ≡ self.old.begun) }
        ensures keeps { OnOk result (KeepsViews self.old.checks self.new.checks) }
    {
        let Job {
            pair,
            target,
            number,
            ..
        } = job;
        let status = status_of(has_error(fact.checked().list.as_slice()));
        let finish = check_finishes(at.alloc, at.number, number, target, status)?;
        out.push_back(finish)?;
        self.settle(at, pair, true, &fact, keys, shown, out)?;
        self.made.push(Made { pair, fact })?;
        Ok(())
    }

    /// A pair's document is settled by this check: its list is published where a client shows another.
    fn settle(
        &mut self,
        at: &Setting,
        pair: u32,
        begun: bool,
        fact: &Fact,
        keys: &mut Keys,
        shown: &mut Shown,
        out: &mut VecDeque<Outgoing>,
    ) -> Result<(), NoMemory>
        requires setting { IsSetting at.now }
        requires checks { AreChecks self.old.checks }
        requires among { Contains (map (λ document. document.pair) at.now.documents) pair }
        requires taken { Contains (taken_of self.old.checks) pair }
        requires unsettled { ¬ (Contains (settled_of self.old.checks) pair) }
        requires sized { length self.old.tallies.items ≡ length at.now.documents }
        ensures { OnOk result (SettlesBy at.now self.old self.new pair begun fact.now keys.old keys.new (shows shown.old) (shows shown.new) (map outgoing_said out.old.items) (map outgoing_said out.new.items)) }
    {
        let index = at.document_index(pair);
        let checked = fact.checked();
        self.checks.settle(pair, &checked.view, keys)?;
        self.tallies[index] = counted(begun, checked.list.as_slice());
        let list = copy_of(at.alloc, checked.list.as_slice())?;
        let documents = at.documents.as_slice();
        publish_one(shown, &documents[index], &at.origin, list, out)?;
        Ok(())
    }
}

/// The index of the check with this number.
fn job_index(jobs: &[Job], number: u64) -> usize
    requires { Contains (numbers_of jobs.now) number }
    ensures { IsJobIndex jobs.now number result }
{
    match jobs.iter().position(|job| job.number == number) {
        Some(index) => index,
        None => unreachable!(),
    }
}

/// The status of what has an error, or has none.
pub(crate) fn status_of(failed: bool) -> StatusCode
    ensures { result ≡ build_status failed }
{
    if failed {
        StatusCode::Error
    } else {
        StatusCode::Ok
    }
}
