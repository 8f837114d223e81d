ghost use Rattle.std.specs.Prelude.{◌≡◌, ◌<◌, length, None, Some, IfOk, IfSome, IsSome, option_map};
ghost use Rattle.std.specs.List.{All};
ghost use Rattle.bsp_records.specs.Params.{IsTarget, HasCompileTexts};
ghost use Rattle.bsp_records.specs.Requests.{HasRequestTexts, request_in};
ghost use Rattle.json_shape.specs.Shapes.{IsTextWithin};
ghost use Rattle.bsp_records.specs.Limits.{root_uri_limit};
ghost use Rattle.bsp_records.specs.declared.requests.Method.TheVariants.{Initialize};
ghost use Rattle.serde_json.specs.View.{view};
ghost use Rattle.session_law.specs.Methods.{opening, verdict, verdict_for, is_initialize, served_in, read_in, first_asked, asked_of, rooted, sourced, found_from, found_build, found_clean, target_path, taken_in};
ghost use Rattle.session_verdicts.specs.Judging.{Judges, Fits, IsFoundAs, IsSaid, IsSaidOwed, IsSaidUp, HasQueuedTexts, TakesUp, queued_call};
ghost use Rattle.target_graph.specs.Address.{root_at};
ghost use Rattle.target_graph.specs.Workspace.{named};

use crate::documents::documents_of;
use crate::force::InForce;
use crate::planned::Planned;
use crate::verdicts::{Answer, Owed, Queued, Reason, TakenUp};
use bsp_records::{
    BadParams, BuildTargetIdentifier, CleanCacheParams, CompileParams, Method, Request,
    SourcesParams, read_request,
};
use itoa::Buffer;
use ob_text::{Held, Items, NoMemory, Text};
use serde_json::Value;
use session_answers::{inverse_answer, sources_answer, targets_answer};
use std::alloc::Global;
use target_graph::{Root, RootFault, Workspace, WorkspaceRefusal, root_of};

/// What a request is owed where this workspace is in force, judged as it is taken.
pub fn judge(
    alloc: Global,
    name: &[u8],
    params: Option<Value>,
    workspace: &Option<InForce>,
    closed: bool,
) -> Result<Owed, NoMemory>
    ensures judged { IfOk result (Judges workspace.now
        (verdict name.now (option_map view params) workspace.now closed)) }
    ensures short { IfOk result IsSaidOwed }
{
    judge_method(alloc, Method::named(name), params, workspace, closed)
}

fn judge_method(
    alloc: Global,
    method: Option<Method>,
    params: Option<Value>,
    workspace: &Option<InForce>,
    closed: bool,
) -> Result<Owed, NoMemory>
    ensures judged { IfOk result (Judges workspace.now
        (verdict_for method (option_map view params) workspace.now closed)) }
    ensures short { IfOk result IsSaidOwed }
{
    if is_initialize(method) {
        if workspace.is_some() {
            Ok(refused(Reason::InvalidRequest))
        } else {
            judge_initialize(alloc, params)
        }
    } else {
        match workspace {
            None => Ok(refused(Reason::ServerNotInitialized)),
            Some(workspace) => judge_served(alloc, method, params, workspace.get(), closed),
        }
    }
}

fn is_initialize(method: Option<Method>) -> bool
    ensures { result ≡ is_initialize method }
{
    matches!(method, Some(Method::Initialize))
}

fn refused(reason: Reason) -> Owed
    ensures { result ≡ Owed.Answer (Answer.Refused reason) }
{
    Owed::Answer(Answer::Refused(reason))
}

// The params are bad at a path that is said here.
fn bad_at(alloc: Global, path: &[u8]) -> Result<Owed, NoMemory>
    ensures { IfOk result (λ owed. owed ≡ Owed.Answer (Answer.Refused (Reason.InvalidParams path.now))) }
{
    Ok(refused(Reason::InvalidParams(Text::new(alloc, path)?)))
}

fn judge_initialize(alloc: Global, params: Option<Value>) -> Result<Owed, NoMemory>
    ensures judged { IfOk result (Judges None
        (read_in None (request_in Initialize (option_map view params)))) }
    ensures short { IfOk result IsSaidOwed }
{
    match read_request(alloc, Method::Initialize, params) {
        Ok(request) => judge_first(alloc, request),
        Err(BadParams::At(path)) => Ok(refused(Reason::InvalidParams(path))),
        Err(BadParams::NoMemory) => Err(NoMemory),
    }
}

// What a request asks where no workspace is in force.
fn judge_first(alloc: Global, request: Request) -> Result<Owed, NoMemory>
    requires { HasRequestTexts request }
    ensures judged { IfOk result (Judges None (first_asked request)) }
    ensures short { IfOk result IsSaidOwed }
{
    match request {
        Request::Initialize(params) => judge_root(alloc, &params.root_uri),
        _ => Ok(refused(Reason::ServerNotInitialized)),
    }
}

fn judge_root(alloc: Global, uri: &Text) -> Result<Owed, NoMemory>
    requires { IsTextWithin root_uri_limit uri.now }
    ensures judged { IfOk result (Judges None (rooted (root_at uri.now))) }
    ensures short { IfOk result IsSaidOwed }
{
    match root_of(alloc, uri.as_str()) {
        Ok(root) => Ok(Owed::Opening(root)),
        Err(RootFault::BadRoot) => bad_at(alloc, b"rootUri"),
        Err(RootFault::NoMemory) => Err(NoMemory),
    }
}

// A request that isn't an initialize, behind one.
fn judge_served(
    alloc: Global,
    method: Option<Method>,
    params: Option<Value>,
    workspace: &Workspace,
    closed: bool,
) -> Result<Owed, NoMemory>
    ensures judged { IfOk result (Judges (Some workspace.now)
        (served_in (Some workspace.now) method (option_map view params) closed)) }
    ensures short { IfOk result IsSaidOwed }
{
    if closed {
        return Ok(refused(Reason::InvalidRequest));
    }
    match method {
        Some(method) => judge_params(alloc, method, params, workspace),
        None => Ok(refused(Reason::MethodNotFound)),
    }
}

fn judge_params(
    alloc: Global,
    method: Method,
    params: Option<Value>,
    workspace: &Workspace,
) -> Result<Owed, NoMemory>
    ensures judged { IfOk result (Judges (Some workspace.now)
        (read_in (Some workspace.now) (request_in method (option_map view params)))) }
    ensures short { IfOk result IsSaidOwed }
{
    match read_request(alloc, method, params) {
        Ok(request) => judge_request(alloc, request, workspace),
        Err(BadParams::At(path)) => Ok(refused(Reason::InvalidParams(path))),
        Err(BadParams::NoMemory) => Err(NoMemory),
    }
}

// What a request asks of the workspace in force.
fn judge_request(alloc: Global, request: Request, workspace: &Workspace) -> Result<Owed, NoMemory>
    requires { HasRequestTexts request }
    ensures judged { IfOk result (Judges (Some workspace.now) (asked_of workspace.now request)) }
    ensures short { IfOk result IsSaidOwed }
{
    match request {
        Request::Initialize(_) => Ok(refused(Reason::InvalidRequest)),
        Request::Shutdown => Ok(Owed::Answer(Answer::Closing)),
        Request::BuildTargets => Ok(told(targets_answer(alloc, workspace)?)),
        Request::Reload => Ok(Owed::Queued(Queued::Reload)),
        Request::Sources(params) => judge_sources(alloc, &params, workspace),
        Request::InverseSources(params) => {
            let uri = params.text_document.uri.as_str();
            Ok(told(inverse_answer(alloc, workspace, uri)?))
        }
        Request::Compile(params) => Ok(Owed::Queued(Queued::Build(params))),
        Request::CleanCache(params) => Ok(Owed::Queued(Queued::Clean(params))),
    }
}

// A question is answered with this result.
fn told(value: Value) -> Owed
    ensures { result ≡ Owed.Answer (Answer.Result value) }
{
    Owed::Answer(Answer::Result(value))
}

fn judge_sources(
    alloc: Global,
    params: &SourcesParams,
    workspace: &Workspace,
) -> Result<Owed, NoMemory>
    requires { All IsTarget params.now.targets }
    ensures judged { IfOk result (Judges (Some workspace.now)
        (sourced workspace.now (found_from workspace.now 0 params.now.targets))) }
    ensures short { IfOk result IsSaidOwed }
{
    match find_targets(alloc, params.targets.as_slice(), workspace)? {
        Ok(asked) => Ok(told(sources_answer(alloc, workspace, asked.as_slice())?)),
        Err(index) => Ok(refused(unknown_target(alloc, index)?)),
    }
}

/// What a request of the queue is owed that is taken up in this workspace.
pub fn take_up(
    alloc: Global,
    call: Queued,
    workspace: &Option<InForce>,
) -> Result<TakenUp, NoMemory>
    requires texts { HasQueuedTexts call }
    requires begun { IsSome workspace.now }
    ensures taken { IfOk result (TakesUp workspace.now (taken_in workspace.now (queued_call call))) }
    ensures short { IfOk result IsSaidUp }
{
    match workspace {
        Some(workspace) => match call {
            Queued::Build(params) => plan_build(alloc, params, workspace.get()),
            Queued::Reload => Ok(TakenUp::Rereading),
            Queued::Clean(params) => plan_clean(alloc, &params, workspace.get()),
        },
        None => unreachable!(),
    }
}

fn plan_build(
    alloc: Global,
    params: CompileParams,
    workspace: &Workspace,
) -> Result<TakenUp, NoMemory>
    requires { HasCompileTexts params }
    ensures taken { IfOk result (TakesUp (Some workspace.now)
        (found_build workspace.now params.origin_id (found_from workspace.now 0 params.targets))) }
    ensures short { IfOk result IsSaidUp }
{
    match find_targets(alloc, params.targets.as_slice(), workspace)? {
        Ok(asked) => {
            let documents = documents_of(alloc, workspace, asked.as_slice())?;
            let asked = Items::from_vec(asked);
            Ok(TakenUp::Building(Planned::new(asked, params.origin_id, documents)))
        }
        Err(index) => Ok(TakenUp::Refused(unknown_target(alloc, index)?)),
    }
}

fn plan_clean(
    alloc: Global,
    params: &CleanCacheParams,
    workspace: &Workspace,
) -> Result<TakenUp, NoMemory>
    requires { All IsTarget params.now.targets }
    ensures taken { IfOk result (TakesUp (Some workspace.now)
        (found_clean workspace.now (found_from workspace.now 0 params.now.targets))) }
    ensures short { IfOk result IsSaidUp }
{
    match find_targets(alloc, params.targets.as_slice(), workspace)? {
        Ok(asked) => Ok(TakenUp::Cleaning(Items::from_vec(asked))),
        Err(index) => Ok(TakenUp::Refused(unknown_target(alloc, index)?)),
    }
}

// The target that stands at this index of a list isn't one of the workspace.
fn unknown_target(alloc: Global, index: usize) -> Result<Reason, NoMemory>
    ensures refused { IfOk result (λ reason. reason ≡ Reason.InvalidParams (target_path index)) }
    ensures short { IfOk result (λ reason. IsSaid (Answer.Refused reason)) }
{
    Ok(Reason::InvalidParams(target_path(alloc, index)?))
}

/// The targets that a list of addresses names, or the index of the first one that names none.
fn find_targets(
    alloc: Global,
    ids: &[BuildTargetIdentifier],
    workspace: &Workspace,
) -> Result<Result<Vec<u32>, usize>, NoMemory>
    requires { All IsTarget ids.now }
    ensures found { IfOk result (IsFoundAs (found_from workspace.now 0 ids.now)) }
    ensures within { IfOk result (λ found. IfOk found (λ targets. All (λ target. target
        < length workspace.now.targets) targets.items)) }
{
    let mut asked = Vec::new(alloc);
    for index in 0..ids.len() {
        match target_named(&ids[index], workspace)? {
            Some(target) => asked.push(target)?,
            None => return Ok(Err(index)),
        }
    }
    Ok(Ok(asked))
}

fn target_named(id: &BuildTargetIdentifier, workspace: &Workspace) -> Result<Option<u32>, NoMemory>
    requires { IsTarget id.now }
    ensures named { IfOk result (λ found. found ≡ named workspace.now id.now.uri) }
    ensures within { IfOk result (λ found. IfSome found (λ target. target
        < length workspace.now.targets)) }
{
    workspace.target_named(id.uri.as_str())
}

/// The path of the target that stands at this index of a list.
#[tactic(auto, unfolding(session_law::specs::Methods::target_path))]
fn target_path(alloc: Global, index: usize) -> Result<Text, NoMemory>
    ensures { IfOk result (λ path. path ≡ target_path index) }
{
    let mut buffer = Buffer::new();
    let mut path = Vec::from_slice(alloc, b"targets[")?;
    path.extend_from_slice(buffer.format(index).as_bytes())?;
    path.extend_from_slice(b"].uri")?;
    Ok(Text::from_vec(path))
}

/// How an initialize with this root is answered, by what was handed out for the workspace file.
pub fn judge_workspace(alloc: Global, file: &Held, root: Root) -> Result<Answer, NoMemory>
    ensures fits { IfOk result (Fits (opening root file.now)) }
    ensures short { IfOk result IsSaid }
{
    match Workspace::read(alloc, file, root) {
        Ok(workspace) => Ok(Answer::Opening(workspace)),
        Err(WorkspaceRefusal::Fault(fault)) => Ok(Answer::Refused(Reason::WorkspaceRefused(fault))),
        Err(WorkspaceRefusal::NoMemory) => Err(NoMemory),
    }
}
