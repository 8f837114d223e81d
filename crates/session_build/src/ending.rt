ghost use Rattle.std.specs.Prelude.{◌≡◌, ◌<◌, ◌+◌, ◌^◌, length, slice_index, map, IfOk, OnOk};
ghost use Rattle.std.specs.List.{list_any};
ghost use Rattle.bsp_address.specs.Address.{IsAddress};
ghost use Rattle.session_law.specs.IsFramed.{IsFramed};
ghost use Rattle.session_build.specs.Ending.{ends_said, no_op_by, report_by, target_reported, targets_reported};
ghost use Rattle.build_messages.specs.Outgoing.{outgoing_said};
ghost use Rattle.session_build.specs.Setting.{IsSetting};
ghost use Rattle.session_build.specs.Tallies.{has_errors};
ghost use Rattle.session_build.specs.Telling.{TellsBehind};

use crate::going::status_of;
use crate::setting::Setting;
use crate::tally::{Tally, has_errors, tally_of};
use bsp_address::Address;
use bsp_records::{BuildTargetIdentifier, CompileReport};
use build_messages::{Outgoing, build_finishes, target_finishes};
use ob_text::{NoMemory, Text};
use std::alloc::Global;
use std::collections::VecDeque;
use target_graph::Workspace;

/// Puts behind the messages the reports of the targets and the build's finish, and tells whether some document has an error.
/// What came of each document stands at its index.
pub(crate) fn end_build(
    at: &Setting,
    tallies: &[Tally],
    out: &mut VecDeque<Outgoing>,
) -> Result<bool, NoMemory>
    requires setting { IsSetting at.now }
    requires sized { length tallies.now ≡ length at.now.documents }
    ensures tells { OnOk result (TellsBehind (ends_said at.now tallies.now) (map outgoing_said out.old.items) (map outgoing_said out.new.items)) }
    ensures failed { IfOk result (λ failed. failed ≡ list_any has_errors tallies.now) }
    // A number of 64 bits counts the targets.
    ensures few { length at.now.targets.keys < 2 ^ 64 }
{
    let _count = at.targets.len();
    report_targets(at, tallies, out)?;
    let failed = has_errors(tallies);
    let finish = build_finishes(at.alloc, at.number, status_of(failed))?;
    out.push_back(finish)?;
    Ok(failed)
}

/// Puts the reports of the targets behind the messages, in their order.
fn report_targets(
    at: &Setting,
    tallies: &[Tally],
    out: &mut VecDeque<Outgoing>,
) -> Result<(), NoMemory>
    requires setting { IsSetting at.now }
    requires sized { length tallies.now ≡ length at.now.documents }
    ensures { OnOk result (TellsBehind (targets_reported at.now tallies.now 1 at.now.targets.keys) (map outgoing_said out.old.items) (map outgoing_said out.new.items)) }
{
    for index in 0..at.targets.len() {
        out.push_back(report_target(at, tallies, index)?)?;
    }
    Ok(())
}

/// The target at this index among those of the build finishes, with its report.
fn report_target(at: &Setting, tallies: &[Tally], index: usize) -> Result<Outgoing, NoMemory>
    requires setting { IsSetting at.now }
    requires sized { length tallies.now ≡ length at.now.documents }
    requires within { index < length at.now.targets.keys }
    ensures said { IfOk result (λ m. outgoing_said m
        ≡ target_reported at.now tallies.now (index + 1) (slice_index at.now.targets.keys index)) }
    ensures framed { IfOk result (λ m. IsFramed (outgoing_said m)) }
{
    let _count = at.targets.len();
    let number = index as u64 + 1;
    let Some(target) = at.targets.get_index(index) else {
        unreachable!()
    };
    let space: &Workspace = &at.workspace;
    let id = space.target_id(*target)?;
    let sum = tally_of(at.documents.as_slice(), tallies, &id)?;
    let report = report_of(at.alloc, &at.origin, &id, sum)?;
    target_finishes(at.alloc, at.number, number, report)
}

/// The report of the target with this id, where this came of its documents.
fn report_of(
    alloc: Global,
    origin: &Option<Text>,
    id: &Address,
    sum: Tally,
) -> Result<CompileReport, NoMemory>
    ensures report { IfOk result (λ report. report ≡ report_by origin.now id.now sum) }
    ensures target { IfOk result (λ report. IsAddress report.target.uri) }
{
    let origin_id = match origin {
        Some(text) => Some(text.copy(alloc)?),
        None => None,
    };
    let target = BuildTargetIdentifier {
        uri: id.as_text().copy(alloc)?,
    };
    Ok(CompileReport {
        target,
        origin_id,
        errors: sum.errors,
        warnings: sum.warnings,
        no_op: no_op_by(sum.begun),
    })
}

/// No check started, which is left out where one did.
fn no_op_by(begun: bool) -> Option<bool>
    ensures { result ≡ no_op_by begun }
{
    if begun { None } else { Some(true) }
}
