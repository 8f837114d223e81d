ghost use Rattle.std.specs.Prelude.{◌≡◌, ◌≤◌, Some, codes, string_bytes, IfOk, IfSome, option_map, option_and_then};
ghost use Rattle.std.specs.Str.{IsUtf8};
ghost use Rattle.serde_json.specs.Find.{get, as_i64, as_number, as_str};
ghost use Rattle.serde_json.specs.View.{view, members_view};
ghost use Rattle.serde_json.specs.Data.{Data, depth, object};
ghost use Rattle.rpc_peer.specs.Said.{said, request, HasId, HasTexts, IsAnyId, IsId};
ghost use Rattle.rpc_peer.specs.Meaning.{meaning, message_in, body_value, id_in, answered_id, params_of, call_of, call_with, response_of, answer_of, failure_of, whole_number, by_method, is_text, nesting_limit, text_member, ReadAs};

use crate::members::take_member;
use crate::message::{ErrorObject, ID_LIMIT, Id, Message};
use crate::refusal::{INVALID_REQUEST, PARSE_ERROR, Refusal};
use ob_text::{Bytes, NoMemory, Text};
use serde_json::{Map, Value};
use std::alloc::Global;

/// Reads the body of a frame as a message. A body whose values nest deeper than 127 is no JSON. An error object's data, and members of other names, aren't kept.
#[tactic(auto, unfolding(crate::specs::Meaning::meaning), using(crate::proofs::Bodies::body_nests))]
pub fn read_message(alloc: Global, body: &[u8]) -> Result<Message, Refusal>
    ensures meaning { ReadAs result (meaning body.now) }
    ensures nests { (d : Data) → body_value body.now ≡ Some d → depth d ≤ nesting_limit }
    ensures texts { IfOk result (λ m. HasTexts (said m)) }
    ensures id { IfOk result (λ m. HasId (said m)) }
{
    let Some(value) = value_of(alloc, body)? else {
        return Err(Refusal::Coded(PARSE_ERROR));
    };
    message_in(value).ok_or(Refusal::Coded(INVALID_REQUEST))
}

// The JSON value of a body, where it is one.
fn value_of(alloc: Global, body: &[u8]) -> Result<Option<Value>, NoMemory>
    ensures { IfOk result (λ v. option_map view v ≡ body_value body.now) }
{
    let Ok(text) = std::str::from_utf8(body) else {
        return Ok(None);
    };
    match Value::from_str(alloc, text) {
        Ok(value) => Ok(Some(value)),
        Err(error) => if error.is_memory() {
            Err(NoMemory)
        } else {
            Ok(None)
        },
    }
}

fn message_in(value: Value) -> Option<Message>
    ensures meaning { option_map said result ≡ message_in (view value) }
    ensures texts { IfSome result (λ m. HasTexts (said m)) }
    ensures id { IfSome result (λ m. HasId (said m)) }
{
    if is_version(&value) {
        message_within(value)
    } else {
        None
    }
}

fn message_within(value: Value) -> Option<Message>
    ensures meaning { option_map said result
        ≡ (let d = view value in by_method (get (codes "method") d) d) }
    ensures texts { IfSome result (λ m. HasTexts (said m)) }
    ensures id { IfSome result (λ m. HasId (said m)) }
{
    match value {
        Value::Object(members) => message_among(members),
        _ => None,
    }
}

fn is_version(value: &Value) -> bool
    ensures { result ≡ is_text (codes "2.0") (text_member (codes "jsonrpc") (view value.now)) }
{
    match value.get("jsonrpc").and_then(Value::as_str) {
        Some(version) => "2.0" == version,
        None => false,
    }
}

fn message_among(mut members: Map<String, Value>) -> Option<Message>
    ensures meaning { option_map said result
        ≡ (let d = object (members_view members.entries) in by_method (get (codes "method") d) d) }
    ensures texts { IfSome result (λ m. HasTexts (said m)) }
    ensures id { IfSome result (λ m. HasId (said m)) }
{
    match take_member(&mut members, "method") {
        Some(method) => call_among(method, members),
        None => response_among(members),
    }
}

// ---- with a method

fn call_among(method: Value, mut members: Map<String, Value>) -> Option<Message>
    ensures meaning { option_map said result
        ≡ (let d = object (members_view members.entries) in
        call_of (view method) (get (codes "id") d) (get (codes "params") d)) }
    ensures texts { IfSome result (λ m. HasTexts (said m)) }
    ensures id { IfSome result (λ m. HasId (said m)) }
{
    let id = take_member(&mut members, "id");
    let params = take_member(&mut members, "params");
    call_of(method, id, params)
}

fn call_of(method: Value, id: Option<Value>, params: Option<Value>) -> Option<Message>
    ensures meaning { option_map said result
        ≡ call_of (view method) (option_map view id) (option_map view params) }
    ensures texts { IfSome result (λ m. HasTexts (said m)) }
    ensures id { IfSome result (λ m. HasId (said m)) }
{
    let method = text_in(method)?;
    let params = params_of(params)?;
    call_with(id, method, params)
}

fn params_of(params: Option<Value>) -> Option<Option<Value>>
    ensures { option_map (option_map view) result ≡ params_of (option_map view params) }
{
    match params {
        None | Some(Value::Null) => Some(None),
        Some(Value::Array(items)) => Some(Some(Value::Array(items))),
        Some(Value::Object(members)) => Some(Some(Value::Object(members))),
        Some(_) => None,
    }
}

fn call_with(id: Option<Value>, method: Text, params: Option<Value>) -> Option<Message>
    requires { IsUtf8 method }
    ensures meaning { option_map said result
        ≡ call_with (option_map view id) method (option_map view params) }
    ensures texts { IfSome result (λ m. HasTexts (said m)) }
    ensures id { IfSome result (λ m. HasId (said m)) }
{
    match id {
        Some(id) => {
            let id = read_id(id)?;
            Some(Message::Request { id, method, params })
        }
        None => Some(Message::Notification { method, params }),
    }
}

// ---- without a method

fn response_among(mut members: Map<String, Value>) -> Option<Message>
    ensures meaning { option_map said result
        ≡ (let d = object (members_view members.entries) in
        response_of (get (codes "id") d) (get (codes "result") d) (get (codes "error") d)) }
    ensures texts { IfSome result (λ m. HasTexts (said m)) }
    ensures id { IfSome result (λ m. HasId (said m)) }
{
    let id = take_member(&mut members, "id");
    let value = take_member(&mut members, "result");
    let error = take_member(&mut members, "error");
    response_of(id, value, error)
}

fn response_of(id: Option<Value>, value: Option<Value>, error: Option<Value>) -> Option<Message>
    ensures meaning { option_map said result
        ≡ response_of (option_map view id) (option_map view value) (option_map view error) }
    ensures texts { IfSome result (λ m. HasTexts (said m)) }
    ensures id { IfSome result (λ m. HasId (said m)) }
{
    let id = answered_id(id)?;
    answer_of(value, error, id)
}

fn answered_id(id: Option<Value>) -> Option<Option<Id>>
    ensures id { result ≡ option_and_then answered_id (option_map view id) }
    ensures found { IfSome result IsAnyId }
{
    match id {
        None => None,
        Some(Value::Null) => Some(None),
        Some(id) => read_id(id).map(Some),
    }
}

fn answer_of(value: Option<Value>, error: Option<Value>, id: Option<Id>) -> Option<Message>
    requires { IsAnyId id }
    ensures meaning { option_map said result
        ≡ answer_of (option_map view value) (option_map view error) id }
    ensures texts { IfSome result (λ m. HasTexts (said m)) }
    ensures id { IfSome result (λ m. HasId (said m)) }
{
    match (value, error) {
        (Some(value), None) => {
            let answer = Ok(value);
            Some(Message::Response { id, answer })
        }
        (None, Some(error)) => failure_of(id, error),
        (Some(_), Some(_)) | (None, None) => None,
    }
}

fn failure_of(id: Option<Id>, error: Value) -> Option<Message>
    requires { IsAnyId id }
    ensures meaning { option_map said result ≡ failure_of id (view error) }
    ensures texts { IfSome result (λ m. HasTexts (said m)) }
    ensures id { IfSome result (λ m. HasId (said m)) }
{
    match error {
        Value::Object(members) => failure_among(id, members),
        _ => None,
    }
}

fn failure_among(id: Option<Id>, mut members: Map<String, Value>) -> Option<Message>
    requires { IsAnyId id }
    ensures meaning { option_map said result ≡ failure_of id (object (members_view members.entries)) }
    ensures texts { IfSome result (λ m. HasTexts (said m)) }
    ensures id { IfSome result (λ m. HasId (said m)) }
{
    let code = take_member(&mut members, "code").and_then(whole_number)?;
    let message = take_member(&mut members, "message").and_then(text_in)?;
    let answer = Err(ErrorObject { code, message });
    Some(Message::Response { id, answer })
}

// ---- ids, numbers and texts

fn whole_number(value: Value) -> Option<i64>
    ensures { result ≡ whole_number (view value) }
{
    value.as_i64()
}

fn text_in(value: Value) -> Option<Text>
    ensures text { result ≡ as_str (view value) }
    ensures utf8 { IfSome result IsUtf8 }
{
    match value {
        Value::String(text) => Some(text_of(text)),
        _ => None,
    }
}

/// The id that a value is: a whole number of 64 bits or a short text, where it is one. Takes no memory.
pub fn read_id(value: Value) -> Option<Id>
    ensures id { result ≡ id_in (view value) }
    ensures found { IfSome result IsId }
{
    match value {
        Value::Number(number) => number.as_i64().map(Id::Number),
        Value::String(text) => if text.len() <= ID_LIMIT {
            Some(Id::Text(text_of(text)))
        } else {
            None
        },
        _ => None,
    }
}

// The bytes of a text, which aren't copied.
fn text_of<K>(text: String) -> Bytes<K>
    ensures bytes { result ≡ string_bytes text }
    ensures utf8 { IsUtf8 result }
{
    Bytes::from_vec(text.into_bytes())
}
