ghost use Rattle.std.specs.Prelude.{◌≡◌, ◌∷◌, [], IfOk};
ghost use Rattle.std.specs.Str.{IsUtf8};

mod read;
mod shows;
mod written;

use bsp_records::BadParams;
use ob_text::{Items, NoMemory, Text};
use serde_json::Value;
use std::alloc::Global;
use std::test::Fail;

fn parsed(alloc: Global, text: &str) -> Result<Value, Fail> {
    Ok(Value::from_str(alloc, text)?)
}

/// Is what was written printed so?
fn is_printed(alloc: Global, value: &Value, want: &str) -> Result<bool, Fail> {
    Ok(value.to_string(alloc)?.as_str() == want)
}

/// The path of a refusal, and none where the record was read.
fn path_of<T: Drop>(alloc: Global, read: Result<T, BadParams>) -> Result<Text, NoMemory> {
    match read {
        Ok(_record) => Text::new(alloc, b""),
        Err(BadParams::At(path)) => Ok(path),
        Err(BadParams::NoMemory) => Err(NoMemory),
    }
}

/// Owns a copy of a text.
fn owned(alloc: Global, text: &str) -> Result<Text, NoMemory>
    ensures { IfOk result IsUtf8 }
{
    Text::new(alloc, text.as_bytes())
}

fn one<T: Drop>(alloc: Global, item: T) -> Result<Items<T>, NoMemory>
    ensures { IfOk result (λ items. items ≡ item ∷ []) }
{
    let mut items = Vec::new(alloc);
    items.push(item)?;
    Ok(Items::from_vec(items))
}
