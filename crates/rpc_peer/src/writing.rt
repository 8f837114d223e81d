ghost use Rattle.std.specs.Prelude.{◌≡◌, FitsSigned, IfOk, OnOk, false};
ghost use Rattle.std.specs.Int.{w64};
ghost use Rattle.std.specs.Str.{IsUtf8};
ghost use Rattle.serde_json.specs.View.{view};
ghost use Rattle.serde_json.specs.Written.{has_float};
ghost use Rattle.rpc_peer.specs.Meaning.{meaning};
ghost use Rattle.rpc_peer.specs.Returning.{Returns, HasCode};
ghost use Rattle.rpc_peer.specs.Said.{said, said_data, id_data, answered_data, error_data, body_of, HasText, HasAnyText, HasTexts, request, notification, result as answers, failure};

use crate::message::{ErrorObject, Id, Message};
use ob_text::{NoMemory, Text};
use serde_json::{Value, json};
use std::alloc::Global;

/// The body of a message: its JSON with no space and the members in the order of their names. No
/// contract says which digits a floating-point number is written with.
#[tactic(auto, unfolding(crate::specs::Said::body_of))]
pub fn write_message(alloc: Global, message: &Message) -> Result<Vec<u8>, NoMemory>
    requires { HasTexts (said message.now) }
    ensures body { IfOk result (λ b. has_float (said_data (said message.now)) ≡ false
        → b.items ≡ body_of (said message.now)) }
    ensures again { IfOk result (λ b. Returns (said message.now)
        → meaning b.items ≡ Ok (said message.now)) }
{
    let value = message_value(alloc, message)?;
    let text = value.to_string(alloc)?;
    Ok(text.into_bytes())
}

fn message_value(alloc: Global, message: &Message) -> Result<Value, NoMemory>
    requires { HasTexts (said message.now) }
    ensures value { IfOk result (λ v. view v ≡ said_data (said message.now)) }
    ensures code { OnOk result (HasCode (said message.now)) }
{
    match message {
        Message::Request { id, method, params } => match params {
            Some(params) => full_request(alloc, id, method, params),
            None => plain_request(alloc, id, method),
        },
        Message::Notification { method, params } => match params {
            Some(params) => full_notification(alloc, method, params),
            None => plain_notification(alloc, method),
        },
        Message::Response { id, answer } => match answer {
            Ok(value) => success(alloc, id, value),
            Err(error) => failure(alloc, id, error),
        },
    }
}

fn full_request(alloc: Global, id: &Id, method: &Text, params: &Value) -> Result<Value, NoMemory>
    requires id { HasText id.now }
    requires method { IsUtf8 method.now }
    ensures { IfOk result (λ v. view v
        ≡ said_data (request id.now method.now (Some (view params.now)))) }
{
    let id = id_value(alloc, id)?;
    let method = method.as_str();
    Ok(json!(in alloc; {"id": id, "jsonrpc": "2.0", "method": method, "params": params})?)
}

fn plain_request(alloc: Global, id: &Id, method: &Text) -> Result<Value, NoMemory>
    requires id { HasText id.now }
    requires method { IsUtf8 method.now }
    ensures { IfOk result (λ v. view v ≡ said_data (request id.now method.now None)) }
{
    let id = id_value(alloc, id)?;
    let method = method.as_str();
    Ok(json!(in alloc; {"id": id, "jsonrpc": "2.0", "method": method})?)
}

fn full_notification(alloc: Global, method: &Text, params: &Value) -> Result<Value, NoMemory>
    requires { IsUtf8 method.now }
    ensures { IfOk result (λ v. view v
        ≡ said_data (notification method.now (Some (view params.now)))) }
{
    let method = method.as_str();
    Ok(json!(in alloc; {"jsonrpc": "2.0", "method": method, "params": params})?)
}

fn plain_notification(alloc: Global, method: &Text) -> Result<Value, NoMemory>
    requires { IsUtf8 method.now }
    ensures { IfOk result (λ v. view v ≡ said_data (notification method.now None)) }
{
    let method = method.as_str();
    Ok(json!(in alloc; {"jsonrpc": "2.0", "method": method})?)
}

fn success(alloc: Global, id: &Option<Id>, value: &Value) -> Result<Value, NoMemory>
    requires { HasAnyText id.now }
    ensures { IfOk result (λ v. view v ≡ said_data (answers id.now (view value.now))) }
{
    let id = answered_value(alloc, id)?;
    Ok(json!(in alloc; {"id": id, "jsonrpc": "2.0", "result": value})?)
}

fn failure(alloc: Global, id: &Option<Id>, error: &ErrorObject) -> Result<Value, NoMemory>
    requires id { HasAnyText id.now }
    requires message { IsUtf8 error.now.message }
    ensures value { IfOk result (λ v. view v
        ≡ said_data (failure id.now error.now.code error.now.message)) }
    ensures code { OnOk result (FitsSigned w64 error.now.code) }
{
    let id = answered_value(alloc, id)?;
    let error = error_value(alloc, error)?;
    Ok(json!(in alloc; {"error": error, "id": id, "jsonrpc": "2.0"})?)
}

fn error_value(alloc: Global, error: &ErrorObject) -> Result<Value, NoMemory>
    requires { IsUtf8 error.now.message }
    ensures value { IfOk result (λ v. view v ≡ error_data error.now.code error.now.message) }
    ensures code { OnOk result (FitsSigned w64 error.now.code) }
{
    let code = error.code;
    let message = error.message.as_str();
    Ok(json!(in alloc; {"code": code, "message": message})?)
}

fn answered_value(alloc: Global, id: &Option<Id>) -> Result<Value, NoMemory>
    requires { HasAnyText id.now }
    ensures { IfOk result (λ v. view v ≡ answered_data id.now) }
{
    match id {
        Some(id) => id_value(alloc, id),
        None => Ok(Value::Null),
    }
}

fn id_value(alloc: Global, id: &Id) -> Result<Value, NoMemory>
    requires { HasText id.now }
    ensures { IfOk result (λ v. view v ≡ id_data id.now) }
{
    match id {
        Id::Number(number) => Ok(Value::from(*number)),
        Id::Text(name) => Ok(Value::String(name.as_str().to_string(alloc)?)),
    }
}
