ghost use Rattle.std.specs.Prelude.{⊤};
ghost use Rattle.serde_json.specs.Data.{number, unsigned};

use crate::writing::Write;
use ob_text::NoMemory;
use serde_json::Value;
use std::alloc::Global;

impl Write for u32 {
    ghost data_of = { λ n. number (unsigned n) };

    ghost HasTexts = { λ _. ⊤ };

    fn write(&self, _alloc: Global) -> Result<Value, NoMemory> {
        Ok(Value::from(*self))
    }
}

impl Write for u64 {
    ghost data_of = { λ n. number (unsigned n) };

    ghost HasTexts = { λ _. ⊤ };

    fn write(&self, _alloc: Global) -> Result<Value, NoMemory> {
        Ok(Value::from(*self))
    }
}
