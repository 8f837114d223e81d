ghost use Rattle.std.specs.Prelude.{◌≡◌, ◌↔◌, ℕ, Contains, IsTrue, IfOk, OnOk};
ghost use Rattle.std.specs.List.{All};
ghost use Rattle.build_checks.specs.Kept.{Extends};
ghost use Rattle.build_checks.specs.Stand.{AreChecks};
ghost use Rattle.oberon_module.specs.Views.{plain_views};
ghost use Rattle.oberon_rules.specs.Local.{view_in};
ghost use Rattle.session_build.specs.Going.{IsJob};
ghost use Rattle.session_build.specs.declared.late.Late.{Late};
ghost use Rattle.session_build.specs.Late.{AddsLate, AddsLateOf, HasKept, IsLateIndex, IsLateJob, IsSameCheck, ShowsAs, TakesLate};
ghost use Rattle.worker_pool.specs.Jobs.{plain_check};
ghost use Rattle.worker_pool.specs.Outcomes.{IsCheckOf};

use crate::going::Job;
use crate::kept::Kept;
use crate::making::fact_by;
use build_checks::{Checks, key_of_import};
use check_cache::PairKey;
use iface_key::Keys;
use indexmap::IndexMap;
use ob_text::{Held, Name, NoMemory};
use oberon_module::Checked;
use oberon_types::View;
use std::alloc::Global;
use std::collections::VecDeque;
use std::sync::Arc;
use worker_pool::Check;

/// So many checks of cancelled builds are waited for. One that is forgotten is made again once it is due.
const LATE_LIMIT: usize = 4096;

/// A check of a cancelled build, whose outcome may still come.
pub(crate) struct Late {
    /// The number of its job.
    pub number: u64,
    /// The key of its pair.
    pub key: PairKey,
    /// The stem of its document's path.
    pub stem: Name,
    /// What it is of.
    pub held: Arc<Held>,
    /// The names that it imports, with the numbers of the keys of what they show.
    pub imports: Vec<(Name, u64)>,
}

impl Drop for Late {
    fn drop(self) {
        let Self {
            number: _,
            key: _,
            stem: _,
            held: _,
            imports: _,
        } = self;
    }
}

impl Kept {
    /// Keeps what a check of a cancelled build found, whose job has this number: in the other place of its pair, if it is
    /// still waited for.
    pub fn outcome(&mut self, number: u64, check: Check, checked: Checked) -> Result<(), NoMemory>
        requires { IsCheckOf (plain_check check) checked }
        ensures { OnOk result (HasKept number (plain_check check) checked self.old self.new) }
    {
        let Some(late) = take_late(&mut self.late, number) else {
            return Ok(());
        };
        if !is_of(self.alloc, &late, &check, &mut self.keys)? {
            return Ok(());
        }
        let fact = fact_by(self.alloc, late.imports.as_slice(), check, checked)?;
        self.cache.store_late(&late.key, fact)?;
        Ok(())
    }
}

/// Waits for the checks of a cancelled build that run. The job of its first check had the number `first`.
pub(crate) fn wait_for(
    checks: &Checks,
    first: u64,
    jobs: Vec<Job>,
    late: &mut VecDeque<Late>,
) -> Result<(), NoMemory>
    requires checks { AreChecks checks.now }
    requires jobs { All (IsJob checks.now) jobs.items }
    ensures { OnOk result (AddsLateOf checks.now jobs.items late.old.items late.new.items) }
{
    'jobs: for job in jobs {
        let one = late_of(checks, first, job)?;
        put(late, one)?;
    }
    Ok(())
}

/// A check that runs, as one that may come late.
fn late_of(checks: &Checks, first: u64, job: Job) -> Result<Late, NoMemory>
    requires checks { AreChecks checks.now }
    requires job { IsJob checks.now job }
    ensures { IfOk result (IsLateJob checks.now job) }
{
    let Job {
        pair,
        number,
        imports,
        ..
    } = job;
    // The first check has the number 1.
    let Some(number) = number.saturating_sub(1).checked_add(first) else {
        return Err(NoMemory);
    };
    let key = checks.key(pair)?;
    let stem = checks.stem(pair)?;
    let held = checks.held(pair)?;
    Ok(Late {
        number,
        key,
        stem,
        held,
        imports,
    })
}

/// Puts one behind the others. The oldest is forgotten where no more are waited for.
fn put(late: &mut VecDeque<Late>, one: Late) -> Result<(), NoMemory>
    ensures { OnOk result (AddsLate late.old.items one late.new.items) }
{
    make_room(late);
    late.push_back(one)?;
    Ok(())
}

/// Forgets the oldest where no more are waited for.
fn make_room(late: &mut VecDeque<Late>)
    ensures { (one : Late) → Contains late.new.items one → Contains late.old.items one }
{
    if late.len() >= LATE_LIMIT {
        let _oldest = late.pop_front();
    }
}

/// Takes out the one whose job has this number.
fn take_late(late: &mut VecDeque<Late>, number: u64) -> Option<Late>
    ensures { TakesLate late.old.items number result late.new.items }
{
    let index = late_index(late, number)?;
    late.remove(index)
}

/// The index of the one whose job has this number.
fn late_index(late: &VecDeque<Late>, number: u64) -> Option<usize>
    ensures { IsLateIndex late.now.items number result }
{
    for index in 0..late.len() {
        if late[index].number == number {
            return Some(index);
        }
    }
    None
}

/// Whether this is the check that is late: whether it is of the same text, under the same stem, and its imports show what
/// they did.
fn is_of(alloc: Global, late: &Late, check: &Check, keys: &mut Keys) -> Result<bool, NoMemory>
    ensures same { IfOk result (λ same. IsTrue same ↔ IsSameCheck keys.new late.now (plain_check check.now)) }
    ensures earlier { OnOk result (Extends keys.old keys.new) }
{
    let held: &Held = &late.held;
    if is_document(check, held, &late.stem) {
        shows_same(alloc, late.imports.as_slice(), check.views(), keys)
    } else {
        Ok(false)
    }
}

/// Whether the check is of what is held there, under this stem.
fn is_document(check: &Check, held: &Held, name: &Name) -> bool
    ensures { IsTrue result ↔ (check.now.held ≡ held.now) × (check.now.stem ≡ name.now) }
{
    check.held() == held && check.stem() == name
}

/// Whether each of these names shows what has its number.
fn shows_same(
    alloc: Global,
    imports: &[(Name, u64)],
    views: &IndexMap<Name, View>,
    keys: &mut Keys,
) -> Result<bool, NoMemory>
    ensures same { IfOk result (λ same. IsTrue same ↔ All (ShowsAs keys.new (view_in (plain_views views.now.entries))) imports.now) }
    ensures earlier { OnOk result (Extends keys.old keys.new) }
{
    for import in imports {
        if number_of(alloc, &import.0, views, keys)? != import.1 {
            return Ok(false);
        }
    }
    Ok(true)
}

/// The number of the key of what a name shows.
fn number_of(
    alloc: Global,
    name: &Name,
    views: &IndexMap<Name, View>,
    keys: &mut Keys,
) -> Result<u64, NoMemory>
    ensures number { IfOk result (λ number. ShowsAs keys.new (view_in (plain_views views.now.entries)) (name.now, number)) }
    ensures only { IfOk result (λ number. (other : ℕ) → ShowsAs keys.new (view_in (plain_views views.now.entries)) (name.now, other) → other ≡ number) }
    ensures earlier { OnOk result (Extends keys.old keys.new) }
{
    keys.intern(key_of_import(alloc, name, views)?)
}
