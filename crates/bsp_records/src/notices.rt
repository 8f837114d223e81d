ghost use Rattle.std.specs.Prelude.{⊤, ◌≡◌, false, IfOk};
ghost use Rattle.std.specs.List.{All};
ghost use Rattle.serde_json.specs.View.{view};
ghost use Rattle.serde_json.specs.Written.{has_float};
ghost use Rattle.bsp_records.specs.Notices.{message_type_data, log_message_params_data, event_kind_data, event_data, did_change_params_data, HasLogMessageTexts, HasEventTexts};

use crate::identifiers::BuildTargetIdentifier;
use crate::writing::{Write, put, put_some};
use ob_text::{Items, NoMemory, Text};
use serde_json::{Map, Value};
use std::alloc::Global;

/// How much a message matters (Build Server Protocol 2.2, MessageType). Its number in the protocol is
/// `kind as u8`.
#[derive(Clone, Copy, Debug, PartialEq, Eq)]
pub enum MessageType {
    Error = 1,
    Warning,
    Info,
    Log,
}

/// A line for the log (Build Server Protocol 2.2, build/logMessage). The kind is the member `type`.
#[derive(Debug)]
pub struct LogMessageParams {
    pub kind: MessageType,
    pub origin_id: Option<Text>,
    pub message: Text,
}

impl Drop for LogMessageParams {
    fn drop(self) {
        let Self {
            kind: _,
            origin_id: _,
            message: _,
        } = self;
    }
}

/// What happened to a target (Build Server Protocol 2.2, BuildTargetEventKind). Its number in the
/// protocol is `kind as u8`.
#[derive(Clone, Copy, Debug, PartialEq, Eq)]
pub enum BuildTargetEventKind {
    Created = 1,
    Changed,
    Deleted,
}

/// What happened to which target.
#[derive(Debug, Drop)]
pub struct BuildTargetEvent {
    pub target: BuildTargetIdentifier,
    pub kind: BuildTargetEventKind,
}

/// Targets changed (Build Server Protocol 2.2, buildTarget/didChange).
#[derive(Debug, Drop)]
pub struct DidChangeParams {
    pub changes: Items<BuildTargetEvent>,
}

/// Writes the params of build/logMessage.
pub fn write_log_message_params(alloc: Global, params: &LogMessageParams) -> Result<Value, NoMemory>
    requires { HasLogMessageTexts params.now }
    ensures data { IfOk result (λ value. view value ≡ log_message_params_data params.now) }
    ensures exact { IfOk result (λ value. has_float (view value) ≡ false) }
{
    params.write(alloc)
}

/// Writes the params of buildTarget/didChange.
pub fn write_did_change_params(alloc: Global, params: &DidChangeParams) -> Result<Value, NoMemory>
    requires { All HasEventTexts params.now.changes }
    ensures data { IfOk result (λ value. view value ≡ did_change_params_data params.now) }
    ensures exact { IfOk result (λ value. has_float (view value) ≡ false) }
{
    params.write(alloc)
}

impl Write for MessageType {
    ghost data_of = { message_type_data };

    ghost HasTexts = { λ _. ⊤ };

    fn write(&self, _alloc: Global) -> Result<Value, NoMemory> {
        Ok(Value::from(*self as u8))
    }
}

impl Write for BuildTargetEventKind {
    ghost data_of = { event_kind_data };

    ghost HasTexts = { λ _. ⊤ };

    fn write(&self, _alloc: Global) -> Result<Value, NoMemory> {
        Ok(Value::from(*self as u8))
    }
}

impl Write for LogMessageParams {
    ghost data_of = { log_message_params_data };

    ghost HasTexts = { HasLogMessageTexts };

    fn write(&self, alloc: Global) -> Result<Value, NoMemory> {
        let mut object = Map::new(alloc);
        put(alloc, &mut object, "type", &self.kind)?;
        put_some(alloc, &mut object, "originId", &self.origin_id)?;
        put(alloc, &mut object, "message", &self.message)?;
        Ok(Value::Object(object))
    }
}

impl Write for BuildTargetEvent {
    ghost data_of = { event_data };

    ghost HasTexts = { HasEventTexts };

    fn write(&self, alloc: Global) -> Result<Value, NoMemory> {
        let mut object = Map::new(alloc);
        put(alloc, &mut object, "target", &self.target)?;
        put(alloc, &mut object, "kind", &self.kind)?;
        Ok(Value::Object(object))
    }
}

impl Write for DidChangeParams {
    ghost data_of = { did_change_params_data };

    ghost HasTexts = { λ params. All HasEventTexts params.changes };

    fn write(&self, alloc: Global) -> Result<Value, NoMemory> {
        let mut object = Map::new(alloc);
        put(alloc, &mut object, "changes", &self.changes)?;
        Ok(Value::Object(object))
    }
}
