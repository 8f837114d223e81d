ghost use Rattle.std.specs.Str.{IsUtf8};

use crate::BadParams;
use crate::writing::{Write, put};
use json_shape::{Read, bad_here, required};
use ob_text::{NoMemory, Text};
use serde_json::{Map, Value};
use std::alloc::Global;

/// The address of a build target (Build Server Protocol 2.2).
#[derive(Debug, Drop, PartialEq)]
pub struct BuildTargetIdentifier {
    pub uri: Text,
}

/// The address of a document (Language Server Protocol 3.17, section TextDocumentIdentifier).
#[derive(Debug, Drop, PartialEq)]
pub struct TextDocumentIdentifier {
    pub uri: Text,
}

impl Read for BuildTargetIdentifier {
    ghost use Rattle.bsp_records.specs.Identifiers.{identifier, target_in};

    ghost shape = { identifier };

    ghost value_in = { target_in };

    ghost HasTexts = { λ target. IsUtf8 target.uri };

    fn read(alloc: Global, value: &Value) -> Result<BuildTargetIdentifier, BadParams> {
        if !value.is_object() {
            return Err(bad_here(alloc));
        }
        let uri = required(alloc, value, "uri")?;
        Ok(BuildTargetIdentifier { uri })
    }
}

impl Read for TextDocumentIdentifier {
    ghost use Rattle.bsp_records.specs.Identifiers.{identifier, document_in};

    ghost shape = { identifier };

    ghost value_in = { document_in };

    ghost HasTexts = { λ document. IsUtf8 document.uri };

    fn read(alloc: Global, value: &Value) -> Result<TextDocumentIdentifier, BadParams> {
        if !value.is_object() {
            return Err(bad_here(alloc));
        }
        let uri = required(alloc, value, "uri")?;
        Ok(TextDocumentIdentifier { uri })
    }
}

impl Write for BuildTargetIdentifier {
    ghost use Rattle.bsp_records.specs.Identifiers.{identifier_data};

    ghost data_of = { λ target. identifier_data target.uri };

    ghost HasTexts = { λ target. IsUtf8 target.uri };

    fn write(&self, alloc: Global) -> Result<Value, NoMemory> {
        let mut object = Map::new(alloc);
        put(alloc, &mut object, "uri", &self.uri)?;
        Ok(Value::Object(object))
    }
}

impl Write for TextDocumentIdentifier {
    ghost use Rattle.bsp_records.specs.Identifiers.{identifier_data};

    ghost data_of = { λ document. identifier_data document.uri };

    ghost HasTexts = { λ document. IsUtf8 document.uri };

    fn write(&self, alloc: Global) -> Result<Value, NoMemory> {
        let mut object = Map::new(alloc);
        put(alloc, &mut object, "uri", &self.uri)?;
        Ok(Value::Object(object))
    }
}
