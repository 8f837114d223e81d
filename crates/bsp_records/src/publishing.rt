ghost use Rattle.std.specs.Prelude.{◌≡◌, ◌≤◌, false, length, IfOk};
ghost use Rattle.serde_json.specs.View.{view};
ghost use Rattle.serde_json.specs.Written.{compact_text, has_float};
ghost use Rattle.bsp_records.specs.Diagnostics.{publish_diagnostics_params, publish_diagnostics_params_in, publish_diagnostics_params_data, HasPublishTexts, IsPublishDiagnosticsParams, BadPublishDiagnosticsParams};
ghost use Rattle.json_shape.specs.Reading.{IfBad, ReadBy};
ghost use Rattle.bsp_records.specs.Reading.{IsPlainPath};
ghost use Rattle.bsp_records.specs.Short.{IsShortPublication, publication_limit};

use crate::BadParams;
use crate::diagnostics::DiagnosticRecord;
use crate::identifiers::{BuildTargetIdentifier, TextDocumentIdentifier};
use crate::reading::read_params;
use crate::writing::{Write, put, put_some};
use json_shape::{Read, bad_here, optional, required};
use ob_text::{Items, NoMemory, Text};
use serde_json::{Map, Value};
use std::alloc::Global;

/// A list of diagnostics of one document and target, or a piece of it (Build Server Protocol 2.2,
/// build/publishDiagnostics). With `reset` it replaces what is shown, else it goes behind that.
#[derive(Debug)]
pub struct PublishDiagnosticsParams {
    pub text_document: TextDocumentIdentifier,
    pub build_target: BuildTargetIdentifier,
    pub origin_id: Option<Text>,
    pub diagnostics: Items<DiagnosticRecord>,
    pub reset: bool,
}

impl Drop for PublishDiagnosticsParams {
    fn drop(self) {
        let Self {
            text_document: _,
            build_target: _,
            origin_id: _,
            diagnostics: _,
            reset: _,
        } = self;
    }
}

/// Reads the params of build/publishDiagnostics.
pub fn read_publish_diagnostics_params(
    alloc: Global,
    value: &Value,
) -> Result<PublishDiagnosticsParams, BadParams>
    ensures read { ReadBy (IsPublishDiagnosticsParams (view value.now))
        (BadPublishDiagnosticsParams (view value.now)) result }
    ensures texts { IfOk result HasPublishTexts }
    ensures path { IfBad result IsPlainPath }
{
    read_params(alloc, value)
}

/// Writes the params of build/publishDiagnostics. Those of a short publication print in a part of a
/// frame.
#[tactic(auto, using(crate::proofs::ShortLaws::prints_short))]
pub fn write_publish_diagnostics_params(
    alloc: Global,
    params: &PublishDiagnosticsParams,
) -> Result<Value, NoMemory>
    requires { HasPublishTexts params.now }
    ensures data { IfOk result (λ value. view value ≡ publish_diagnostics_params_data params.now) }
    ensures exact { IfOk result (λ value. has_float (view value) ≡ false) }
    ensures short { IsShortPublication params.now
        → IfOk result (λ value. length (compact_text (view value)) ≤ publication_limit) }
{
    params.write(alloc)
}

impl Read for PublishDiagnosticsParams {
    ghost shape = { publish_diagnostics_params };

    ghost value_in = { publish_diagnostics_params_in };

    ghost HasTexts = { HasPublishTexts };

    fn read(alloc: Global, value: &Value) -> Result<PublishDiagnosticsParams, BadParams> {
        if !value.is_object() {
            return Err(bad_here(alloc));
        }
        let text_document = required(alloc, value, "textDocument")?;
        let build_target = required(alloc, value, "buildTarget")?;
        let origin_id = optional(alloc, value, "originId")?;
        let diagnostics = required(alloc, value, "diagnostics")?;
        let reset = required(alloc, value, "reset")?;
        Ok(PublishDiagnosticsParams {
            text_document,
            build_target,
            origin_id,
            diagnostics,
            reset,
        })
    }
}

impl Write for PublishDiagnosticsParams {
    ghost data_of = { publish_diagnostics_params_data };

    ghost HasTexts = { HasPublishTexts };

    fn write(&self, alloc: Global) -> Result<Value, NoMemory> {
        let mut object = Map::new(alloc);
        put(alloc, &mut object, "textDocument", &self.text_document)?;
        put(alloc, &mut object, "buildTarget", &self.build_target)?;
        put_some(alloc, &mut object, "originId", &self.origin_id)?;
        put(alloc, &mut object, "diagnostics", &self.diagnostics)?;
        put(alloc, &mut object, "reset", &self.reset)?;
        Ok(Value::Object(object))
    }
}
