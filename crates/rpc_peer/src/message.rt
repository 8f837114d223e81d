use ob_text::{Name, NoMemory, Text};
use serde_json::Value;
use std::alloc::Global;

/// The most bytes of an id that is a text.
pub const ID_LIMIT: usize = 1_024;

/// The id of a request, which its response repeats (JSON-RPC 2.0, section 4).
#[derive(Debug, Drop, PartialEq, Eq, Hash)]
pub enum Id {
    Number(i64),
    Text(Name),
}

impl Id {
    ghost use Rattle.std.specs.Prelude.{◌≡◌, IfOk};

    /// An equal id of its own.
    pub fn copy(&self, alloc: Global) -> Result<Id, NoMemory>
        ensures { IfOk result (λ id. id ≡ self.now) }
    {
        match self {
            Id::Number(number) => Ok(Id::Number(*number)),
            Id::Text(name) => Ok(Id::Text(name.copy(alloc)?)),
        }
    }
}

/// Why a request failed (JSON-RPC 2.0, section 5.1). It has no data.
#[derive(Drop)]
pub struct ErrorObject {
    pub code: i64,
    pub message: Text,
}

/// A message of either side (JSON-RPC 2.0, sections 4 and 5). A response with no id answers a
/// request whose id couldn't be read.
#[derive(Drop)]
pub enum Message {
    Request {
        id: Id,
        method: Text,
        params: Option<Value>,
    },
    Notification {
        method: Text,
        params: Option<Value>,
    },
    Response {
        id: Option<Id>,
        answer: Result<Value, ErrorObject>,
    },
}
