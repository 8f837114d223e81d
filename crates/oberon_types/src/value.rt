ghost use Rattle.std.specs.Prelude.{◌≡◌, IfOk};

use ob_text::{NoMemory, Text};
use std::alloc::Global;

/// What a constant is (The Programming Language Oberon-07, sections 3 and 5).
#[derive(Debug, Drop)]
pub enum Value {
    Integer(i32),
    Char(u8),
    Boolean(bool),
    /// A set of the numbers 0 to 31: number n is in it where bit n is 1.
    Set(u32),
    /// The bytes of a string, without quotes. A string of one byte stands for that character too.
    Str(Text),
}

impl Value {
    /// An equal value of its own.
    pub fn copy(&self, alloc: Global) -> Result<Value, NoMemory>
        ensures { IfOk result (λ value. value ≡ self.now) }
    {
        Ok(match self {
            Value::Integer(x) => Value::Integer(*x),
            Value::Char(code) => Value::Char(*code),
            Value::Boolean(truth) => Value::Boolean(*truth),
            Value::Set(set) => Value::Set(*set),
            Value::Str(text) => Value::Str(text.copy(alloc)?),
        })
    }
}
