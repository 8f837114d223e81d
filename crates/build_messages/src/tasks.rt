ghost use Rattle.std.specs.Prelude.{◌≡◌, ◌∷◌, [], IfOk, Some};
ghost use Rattle.bsp_records.specs.declared.tasks.TaskId.{TaskId};
ghost use Rattle.std.specs.Option.{IfSome};
ghost use Rattle.bsp_address.specs.Address.{IsAddress};
ghost use Rattle.bsp_records.specs.Limits.{origin_limit};
ghost use Rattle.bsp_records.specs.Tasks.{HasTaskFinishTexts, HasTaskIdTexts, HasTaskStartTexts};
ghost use Rattle.json_shape.specs.Shapes.{IsTextWithin};
ghost use Rattle.session_law.specs.IsFramed.{IsFramed};
ghost use Rattle.session_law.specs.Tasks.{build_finishes, build_starts, check_finishes, check_starts, checking, checking_name, compiling, compiling_name, finish_said, report_status, start_said, target_cancelled, target_finishes, target_starts, task_id, whole, whole_name};
ghost use Rattle.build_messages.specs.Outgoing.{outgoing_said};

use crate::outgoing::Outgoing;
use bsp_address::Address;
use bsp_records::{
    BuildTargetIdentifier, CompileReport, CompileTask, StatusCode, TaskFinishBody,
    TaskFinishParams, TaskId, TaskStartBody, TaskStartParams, write_task_finish_params,
    write_task_start_params,
};
use ob_text::{Items, NoMemory, Text};
use rpc_peer::Message;
use std::alloc::Global;

/// A build starts, the one that is this message of the session.
pub fn build_starts(alloc: Global, build: u64) -> Result<Outgoing, NoMemory>
    ensures said { IfOk result (λ m. outgoing_said m ≡ build_starts build) }
    ensures framed { IfOk result (λ m. IsFramed (outgoing_said m)) }
{
    let params = TaskStartParams {
        task_id: whole_id(alloc, build)?,
        message: None,
        body: None,
    };
    start(alloc, params)
}

/// The target with this id and number starts.
pub fn target_starts(
    alloc: Global,
    build: u64,
    number: u64,
    id: &Address,
) -> Result<Outgoing, NoMemory>
    ensures said { IfOk result (λ m. outgoing_said m ≡ target_starts build number id.now) }
    ensures framed { IfOk result (λ m. IsFramed (outgoing_said m)) }
{
    let target = BuildTargetIdentifier {
        uri: id.as_text().copy(alloc)?,
    };
    let params = TaskStartParams {
        task_id: compiling_id(alloc, build, number)?,
        message: None,
        body: Some(TaskStartBody::CompileTask(CompileTask { target })),
    };
    start(alloc, params)
}

/// A check of the document at this address starts.
pub fn check_starts(
    alloc: Global,
    build: u64,
    number: u64,
    target: u64,
    document: &Address,
) -> Result<Outgoing, NoMemory>
    ensures said { IfOk result (λ m. outgoing_said m ≡ check_starts build number target document.now) }
    ensures framed { IfOk result (λ m. IsFramed (outgoing_said m)) }
{
    let params = TaskStartParams {
        task_id: checking_id(alloc, build, number, target)?,
        message: Some(document.as_text().copy(alloc)?),
        body: None,
    };
    start(alloc, params)
}

/// The check with this number finishes.
pub fn check_finishes(
    alloc: Global,
    build: u64,
    number: u64,
    target: u64,
    status: StatusCode,
) -> Result<Outgoing, NoMemory>
    ensures said { IfOk result (λ m. outgoing_said m ≡ check_finishes build number target status) }
    ensures framed { IfOk result (λ m. IsFramed (outgoing_said m)) }
{
    let task_id = checking_id(alloc, build, number, target)?;
    let params = TaskFinishParams {
        task_id,
        status,
        body: None,
    };
    finish(alloc, params)
}

/// The target with this number finishes, with its report.
pub fn target_finishes(
    alloc: Global,
    build: u64,
    number: u64,
    report: CompileReport,
) -> Result<Outgoing, NoMemory>
    requires target { IsAddress report.target.uri }
    requires origin { IfSome report.origin_id (IsTextWithin origin_limit) }
    ensures said { IfOk result (λ m. outgoing_said m ≡ target_finishes build number report) }
    ensures framed { IfOk result (λ m. IsFramed (outgoing_said m)) }
{
    let params = TaskFinishParams {
        task_id: compiling_id(alloc, build, number)?,
        status: report_status(&report),
        body: Some(TaskFinishBody::CompileReport(report)),
    };
    finish(alloc, params)
}

/// The target with this number finishes as cancelled, without a report.
pub fn target_cancelled(alloc: Global, build: u64, number: u64) -> Result<Outgoing, NoMemory>
    ensures said { IfOk result (λ m. outgoing_said m ≡ target_cancelled build number) }
    ensures framed { IfOk result (λ m. IsFramed (outgoing_said m)) }
{
    let task_id = compiling_id(alloc, build, number)?;
    let params = TaskFinishParams {
        task_id,
        status: StatusCode::Cancelled,
        body: None,
    };
    finish(alloc, params)
}

/// The build finishes.
pub fn build_finishes(alloc: Global, build: u64, status: StatusCode) -> Result<Outgoing, NoMemory>
    ensures said { IfOk result (λ m. outgoing_said m ≡ build_finishes build status) }
    ensures framed { IfOk result (λ m. IsFramed (outgoing_said m)) }
{
    let params = TaskFinishParams {
        task_id: whole_id(alloc, build)?,
        status,
        body: None,
    };
    finish(alloc, params)
}

/// The status of a target with this report.
fn report_status(report: &CompileReport) -> StatusCode
    ensures { result ≡ report_status report.now }
{
    if report.errors == 0 {
        StatusCode::Ok
    } else {
        StatusCode::Error
    }
}

/// A task starts.
#[tactic(auto, unfolding(session_law::specs::Tasks::start_said))]
fn start(alloc: Global, params: TaskStartParams) -> Result<Outgoing, NoMemory>
    requires { HasTaskStartTexts params }
    ensures { IfOk result (λ m. outgoing_said m ≡ start_said params) }
{
    let value = write_task_start_params(alloc, &params)?;
    Ok(Outgoing::Message(Message::Notification {
        method: Text::new(alloc, b"build/taskStart")?,
        params: Some(value),
    }))
}

/// A task finishes.
#[tactic(auto, unfolding(session_law::specs::Tasks::finish_said))]
fn finish(alloc: Global, params: TaskFinishParams) -> Result<Outgoing, NoMemory>
    requires { HasTaskFinishTexts params }
    ensures { IfOk result (λ m. outgoing_said m ≡ finish_said params) }
{
    let value = write_task_finish_params(alloc, &params)?;
    Ok(Outgoing::Message(Message::Notification {
        method: Text::new(alloc, b"build/taskFinish")?,
        params: Some(value),
    }))
}

/// The id of a build.
fn whole_id(alloc: Global, build: u64) -> Result<TaskId, NoMemory>
    ensures id { IfOk result (λ id. id ≡ task_id build whole) }
    ensures texts { IfOk result HasTaskIdTexts }
{
    Ok(TaskId {
        id: whole_name(alloc, build)?,
        parents: None,
    })
}

/// The id of a target's compiling in a build.
fn compiling_id(alloc: Global, build: u64, number: u64) -> Result<TaskId, NoMemory>
    ensures id { IfOk result (λ id. id ≡ task_id build (compiling number)) }
    ensures texts { IfOk result HasTaskIdTexts }
{
    let build_name = whole_name(alloc, build)?;
    let id = compiling_name(alloc, build, number)?;
    inside(alloc, id, build_name)
}

/// The id of a check in a build, with the number of its target.
fn checking_id(alloc: Global, build: u64, number: u64, target: u64) -> Result<TaskId, NoMemory>
    ensures id { IfOk result (λ id. id ≡ task_id build (checking number target)) }
    ensures texts { IfOk result HasTaskIdTexts }
{
    let target_name = compiling_name(alloc, build, target)?;
    let id = checking_name(alloc, build, number)?;
    inside(alloc, id, target_name)
}

/// The id of a task inside another.
fn inside(alloc: Global, id: Text, parent: Text) -> Result<TaskId, NoMemory>
    ensures { IfOk result (λ t. t ≡ record { id = id; parents = Some (parent ∷ []) }) }
{
    let parents = Items::from_vec(vec![in alloc; parent]?);
    Ok(TaskId {
        id,
        parents: Some(parents),
    })
}

fn whole_name(alloc: Global, build: u64) -> Result<Text, NoMemory>
    ensures { IfOk result (λ name. name ≡ whole_name build) }
{
    let name = format!(in alloc; "r{build}")?;
    Text::new(alloc, name.as_bytes())
}

fn compiling_name(alloc: Global, build: u64, number: u64) -> Result<Text, NoMemory>
    ensures { IfOk result (λ name. name ≡ compiling_name build number) }
{
    let name = format!(in alloc; "r{build}.t{number}")?;
    Text::new(alloc, name.as_bytes())
}

fn checking_name(alloc: Global, build: u64, number: u64) -> Result<Text, NoMemory>
    ensures { IfOk result (λ name. name ≡ checking_name build number) }
{
    let name = format!(in alloc; "r{build}.c{number}")?;
    Text::new(alloc, name.as_bytes())
}
