ghost use Rattle.std.specs.Prelude.{⊤};

use crate::BadParams;
use crate::kinds::plain;
use crate::writing::{Write, put, put_some};
use json_shape::{LabelKind, Read, bad_here, optional, read_between, required};
use ob_text::{Bytes, NoMemory, Position, Range, Text};
use serde_json::{Map, Value};
use std::alloc::Global;

/// How much a diagnostic matters (Language Server Protocol 3.17, section DiagnosticSeverity). Its
/// number in the protocol is `severity as u8`.
#[derive(Clone, Copy, Debug, PartialEq, Eq)]
pub enum DiagnosticSeverity {
    Error = 1,
    Warning,
    Information,
    Hint,
}

/// A diagnostic as the protocol has it (Language Server Protocol 3.17, section Diagnostic). A code
/// that was a number is kept as its decimal text.
#[derive(Debug, PartialEq)]
pub struct DiagnosticRecord {
    pub range: Range,
    pub severity: Option<DiagnosticSeverity>,
    pub code: Option<Text>,
    pub source: Option<Text>,
    pub message: Text,
}

impl Drop for DiagnosticRecord {
    fn drop(self) {
        let Self {
            range: _,
            severity: _,
            code: _,
            source: _,
            message: _,
        } = self;
    }
}

/// A position as a record that is read.
#[derive(Drop)]
struct PositionRecord(Position);

/// A range as a record that is read.
#[derive(Drop)]
struct RangeRecord(Range);

impl Read for PositionRecord {
    ghost use Rattle.bsp_records.specs.Diagnostics.{position, position_in};

    ghost shape = { position };

    ghost value_in = { λ d. record { 0 = position_in d } };

    ghost HasTexts = { λ _. ⊤ };

    fn read(alloc: Global, value: &Value) -> Result<PositionRecord, BadParams> {
        if !value.is_object() {
            return Err(bad_here(alloc));
        }
        let line = required(alloc, value, "line")?;
        let character = required(alloc, value, "character")?;
        Ok(PositionRecord(Position { line, character }))
    }
}

impl Write for Position {
    ghost use Rattle.bsp_records.specs.Diagnostics.{position_data};

    ghost data_of = { position_data };

    ghost HasTexts = { λ _. ⊤ };

    fn write(&self, alloc: Global) -> Result<Value, NoMemory> {
        let mut object = Map::new(alloc);
        put(alloc, &mut object, "line", &self.line)?;
        put(alloc, &mut object, "character", &self.character)?;
        Ok(Value::Object(object))
    }
}

impl Read for RangeRecord {
    ghost use Rattle.bsp_records.specs.Diagnostics.{range, range_in};

    ghost shape = { range };

    ghost value_in = { λ d. record { 0 = range_in d } };

    ghost HasTexts = { λ _. ⊤ };

    fn read(alloc: Global, value: &Value) -> Result<RangeRecord, BadParams> {
        if !value.is_object() {
            return Err(bad_here(alloc));
        }
        let PositionRecord(start) = required(alloc, value, "start")?;
        let PositionRecord(end) = required(alloc, value, "end")?;
        Ok(RangeRecord(Range { start, end }))
    }
}

impl Write for Range {
    ghost use Rattle.bsp_records.specs.Diagnostics.{range_data};

    ghost data_of = { range_data };

    ghost HasTexts = { λ _. ⊤ };

    fn write(&self, alloc: Global) -> Result<Value, NoMemory> {
        let mut object = Map::new(alloc);
        put(alloc, &mut object, "start", &self.start)?;
        put(alloc, &mut object, "end", &self.end)?;
        Ok(Value::Object(object))
    }
}

impl Read for DiagnosticSeverity {
    ghost use Rattle.bsp_records.specs.Diagnostics.{severity, severity_in};

    ghost shape = { severity };

    ghost value_in = { severity_in };

    ghost HasTexts = { λ _. ⊤ };

    fn read(alloc: Global, value: &Value) -> Result<DiagnosticSeverity, BadParams> {
        match read_between(alloc, value, 1, 4)? {
            1 => Ok(DiagnosticSeverity::Error),
            2 => Ok(DiagnosticSeverity::Warning),
            3 => Ok(DiagnosticSeverity::Information),
            _ => Ok(DiagnosticSeverity::Hint),
        }
    }
}

impl Write for DiagnosticSeverity {
    ghost use Rattle.bsp_records.specs.Diagnostics.{severity_data};

    ghost data_of = { severity_data };

    ghost HasTexts = { λ _. ⊤ };

    fn write(&self, _alloc: Global) -> Result<Value, NoMemory> {
        Ok(Value::from(*self as u8))
    }
}

impl Read for DiagnosticRecord {
    ghost use Rattle.bsp_records.specs.Diagnostics.{diagnostic, diagnostic_in, HasDiagnosticTexts};

    ghost shape = { diagnostic };

    ghost value_in = { diagnostic_in };

    ghost HasTexts = { HasDiagnosticTexts };

    fn read(alloc: Global, value: &Value) -> Result<DiagnosticRecord, BadParams> {
        if !value.is_object() {
            return Err(bad_here(alloc));
        }
        let RangeRecord(range) = required(alloc, value, "range")?;
        let severity = optional(alloc, value, "severity")?;
        let code = plain(optional::<Bytes<LabelKind>>(alloc, value, "code")?);
        let source = optional(alloc, value, "source")?;
        let message = required(alloc, value, "message")?;
        Ok(DiagnosticRecord {
            range,
            severity,
            code,
            source,
            message,
        })
    }
}

impl Write for DiagnosticRecord {
    ghost use Rattle.bsp_records.specs.Diagnostics.{diagnostic_data, HasDiagnosticTexts};

    ghost data_of = { diagnostic_data };

    ghost HasTexts = { HasDiagnosticTexts };

    fn write(&self, alloc: Global) -> Result<Value, NoMemory> {
        let mut object = Map::new(alloc);
        put(alloc, &mut object, "range", &self.range)?;
        put_some(alloc, &mut object, "severity", &self.severity)?;
        put_some(alloc, &mut object, "code", &self.code)?;
        put_some(alloc, &mut object, "source", &self.source)?;
        put(alloc, &mut object, "message", &self.message)?;
        Ok(Value::Object(object))
    }
}
