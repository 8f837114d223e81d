ghost use Rattle.std.specs.Prelude.{◌≡◌, ◌<◌, ◌^◌, length, map, OnOk};
ghost use Rattle.session_build.specs.Cancels.{cancels_said, checks_said, targets_said};
ghost use Rattle.build_messages.specs.Outgoing.{outgoing_said};
ghost use Rattle.session_build.specs.Telling.{TellsBehind};

use crate::going::Job;
use crate::setting::Setting;
use bsp_records::StatusCode;
use build_messages::{Outgoing, build_finishes, check_finishes, target_cancelled};
use ob_text::NoMemory;
use std::collections::VecDeque;

/// Puts behind the messages what is told as a build is cancelled: the checks that run, the targets and the build finish.
pub(crate) fn cancel_build(
    at: &Setting,
    jobs: &[Job],
    out: &mut VecDeque<Outgoing>,
) -> Result<(), NoMemory>
    ensures tells { OnOk result (TellsBehind (cancels_said at.now jobs.now) (map outgoing_said out.old.items) (map outgoing_said out.new.items)) }
    // A number of 64 bits counts the targets.
    ensures few { length at.now.targets.keys < 2 ^ 64 }
{
    let _count = at.targets.len();
    cancel_checks(at, jobs, out)?;
    cancel_targets(at, out)?;
    let finish = build_finishes(at.alloc, at.number, StatusCode::Cancelled)?;
    out.push_back(finish)?;
    Ok(())
}

fn cancel_checks(at: &Setting, jobs: &[Job], out: &mut VecDeque<Outgoing>) -> Result<(), NoMemory>
    ensures { OnOk result (TellsBehind (checks_said at.now jobs.now) (map outgoing_said out.old.items) (map outgoing_said out.new.items)) }
{
    for job in jobs {
        let (number, target) = (job.number, job.target);
        let finish = check_finishes(at.alloc, at.number, number, target, StatusCode::Cancelled)?;
        out.push_back(finish)?;
    }
    Ok(())
}

fn cancel_targets(at: &Setting, out: &mut VecDeque<Outgoing>) -> Result<(), NoMemory>
    ensures { OnOk result (TellsBehind (targets_said at.now 1 at.now.targets.keys) (map outgoing_said out.old.items) (map outgoing_said out.new.items)) }
{
    for index in 0..at.targets.len() {
        let finish = target_cancelled(at.alloc, at.number, index as u64 + 1)?;
        out.push_back(finish)?;
    }
    Ok(())
}
