ghost use Rattle.std.specs.Prelude.{◌≡◌, true, IfOk};
ghost use Rattle.std.specs.Option.{IfSome};
ghost use Rattle.json_shape.specs.Shapes.{IsTextWithin};
ghost use Rattle.bsp_records.specs.Limits.{origin_limit};
ghost use Rattle.bsp_records.specs.Results.{clean_cache_result_data};
ghost use Rattle.serde_json.specs.Data.{null};
ghost use Rattle.serde_json.specs.View.{view};
ghost use Rattle.rpc_peer.specs.Said.{said, result as answers, failure};
ghost use Rattle.session_law.specs.Builds.{build_said, cancelled_said};
ghost use Rattle.session_law.specs.IsFramed.{IsFramed};
ghost use Rattle.session_law.specs.Methods.{capabilities, initialize_result, null_message};
ghost use Rattle.session_law.specs.CancelsForCause as spec;
ghost use Rattle.session_verdicts.specs.Judging.{HasQueuedTexts, answer_unread, queued_call, reason_code, reason_text};

use crate::verdicts::{Queued, Reason};
use bsp_records::{
    CleanCacheResult, CompileResult, StatusCode, write_clean_cache_result, write_compile_result,
};
use ob_text::{NoMemory, Text};
use rpc_peer::{ErrorObject, Id, Message};
use serde_json::{Value, json};
use std::alloc::{AllocError, Global};

/// The code of an input that is no list of frames (JSON-RPC 2.0, section 5.1).
pub const PARSE_ERROR: i32 = -32700;

/// The response that refuses a request for this reason.
pub fn refusal(alloc: Global, id: Id, reason: &Reason) -> Result<Message, NoMemory>
    ensures { IfOk result (λ m. said m ≡ failure (Some id) (reason_code reason.now) (reason_text reason.now)) }
{
    let message = reason.message(alloc)?;
    Ok(failure(Some(id), reason.code(), message))
}

/// The response to a compile that was sent with this `originId`, where a document has an error and where none has.
#[tactic(auto, unfolding(session_law::specs::Builds::build_said))]
pub fn compiled(
    alloc: Global,
    id: Id,
    origin: &Option<Text>,
    failed: bool,
) -> Result<Message, NoMemory>
    requires { IfSome origin.now (IsTextWithin origin_limit) }
    ensures { IfOk result (λ m. said m ≡ build_said id origin.now failed) }
{
    let origin_id = match origin {
        Some(text) => Some(text.copy(alloc)?),
        None => None,
    };
    let status_code = if failed {
        StatusCode::Error
    } else {
        StatusCode::Ok
    };
    let answer = CompileResult {
        origin_id,
        status_code,
    };
    Ok(success(id, write_compile_result(alloc, &answer)?))
}

/// The response to a compile that was sent with this `originId` and is cancelled.
#[tactic(auto, unfolding(session_law::specs::Builds::cancelled_said))]
pub fn cancelled(alloc: Global, id: Id, origin: &Option<Text>) -> Result<Message, NoMemory>
    requires { IfSome origin.now (IsTextWithin origin_limit) }
    ensures { IfOk result (λ m. said m ≡ cancelled_said id origin.now) }
{
    let origin_id = match origin {
        Some(text) => Some(text.copy(alloc)?),
        None => None,
    };
    let answer = CompileResult {
        origin_id,
        status_code: StatusCode::Cancelled,
    };
    Ok(success(id, write_compile_result(alloc, &answer)?))
}

/// The response to a request that waited and is cancelled.
#[tactic(auto, unfolding(session_law::specs::CancelsForCause::refused_cancelled))]
pub fn call_cancelled(alloc: Global, id: Id, call: &Queued) -> Result<Message, NoMemory>
    requires { HasQueuedTexts call.now }
    ensures { IfOk result (λ m. said m ≡ spec.call_cancelled id (queued_call call.now)) }
{
    match call {
        Queued::Build(params) => cancelled(alloc, id, &params.origin_id),
        Queued::Reload | Queued::Clean(_) => refusal(alloc, id, &Reason::RequestCancelled),
    }
}

/// The response to a cleaning.
pub fn cleaned(alloc: Global, id: Id) -> Result<Message, NoMemory>
    ensures { IfOk result (λ m. said m ≡ answers (Some id) (clean_cache_result_data (record { cleaned = true }))) }
{
    let answer = CleanCacheResult { cleaned: true };
    Ok(success(id, write_clean_cache_result(alloc, &answer)?))
}

/// The response to what couldn't be read, with this code.
pub fn unread_answer(alloc: Global, code: i32) -> Result<Message, NoMemory>
    ensures answer { IfOk result (λ m. said m ≡ answer_unread code) }
    ensures framed { IsFramed (answer_unread code) }
{
    let message = Text::new(alloc, unread_message(code))?;
    Ok(failure(None, i64::from(code), message))
}

#[tactic(auto, unfolding(session_law::specs::Methods::null_message))]
fn unread_message(code: i32) -> &'static [u8]
    ensures { result.now ≡ null_message code }
{
    if code == PARSE_ERROR {
        b"parse error"
    } else {
        b"invalid request"
    }
}

/// The response without a result: to a shutdown that closes the session, and to a reload.
pub fn null_answer(id: Id) -> Message
    ensures { said result ≡ answers (Some id) null }
{
    success(id, Value::Null)
}

/// The response that gives a request this result.
pub fn success(id: Id, value: Value) -> Message
    ensures { said result ≡ answers (Some id) (view value) }
{
    Message::Response {
        id: Some(id),
        answer: Ok(value),
    }
}

fn failure(id: Option<Id>, code: i64, message: Text) -> Message
    ensures { said result ≡ failure id code message }
{
    Message::Response {
        id,
        answer: Err(ErrorObject { code, message }),
    }
}

/// The result of an initialize.
#[tactic(auto, unfolding(session_law::specs::Methods::initialize_result))]
pub fn initialize_value(alloc: Global) -> Result<Value, AllocError>
    ensures { IfOk result (λ v. view v ≡ initialize_result) }
{
    let capabilities = capabilities_value(alloc)?;
    json!(in alloc; {
        "bspVersion": "2.2.0",
        "capabilities": capabilities,
        "displayName": "oberon-bsp",
        "version": "1.0.0"
    })
}

fn capabilities_value(alloc: Global) -> Result<Value, AllocError>
    ensures { IfOk result (λ v. view v ≡ capabilities) }
{
    json!(in alloc; {
        "buildTargetChangedProvider": true,
        "canReload": true,
        "compileProvider": {"languageIds": ["oberon"]},
        "inverseSourcesProvider": true,
        "runProvider": {"languageIds": ["oberon"]},
        "testProvider": {"languageIds": ["oberon"]}
    })
}
