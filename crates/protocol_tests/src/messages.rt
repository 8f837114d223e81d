use ob_text::{Name, NoMemory, Text};
use rpc_peer::{
    BeginFault, ErrorObject, INVALID_REQUEST, Id, Message, OpenIds, PARSE_ERROR, Refusal,
    read_message, write_message,
};
use std::alloc::Global;
use std::process::Abort;
use std::test::Fail;

/// A body, and the one that its message is written as.
const READ: [(&str, &str); 14] = [
    (
        r#"{"params":{"a":[1]},"method":"build\/initialize","id":-7,"jsonrpc":"2.0"}"#,
        r#"{"id":-7,"jsonrpc":"2.0","method":"build/initialize","params":{"a":[1]}}"#,
    ),
    (
        r#"{"method":"x","id":"a\u00e9","params":[],"more":{},"jsonrpc":"2.0"}"#,
        r#"{"id":"aé","jsonrpc":"2.0","method":"x","params":[]}"#,
    ),
    (
        r#"{"id":"a\"b", "params":[1], "jsonrpc":"2.0","method":"x"}"#,
        r#"{"id":"a\"b","jsonrpc":"2.0","method":"x","params":[1]}"#,
    ),
    (
        r#"{"id":1,"jsonrpc":"2.0","method":"x","params":null}"#,
        r#"{"id":1,"jsonrpc":"2.0","method":"x"}"#,
    ),
    (
        r#"{"jsonrpc":"2.0","method":"build/exit"}"#,
        r#"{"jsonrpc":"2.0","method":"build/exit"}"#,
    ),
    (
        r#"{"jsonrpc":"2.0","method":"build/exit","params":null}"#,
        r#"{"jsonrpc":"2.0","method":"build/exit"}"#,
    ),
    (
        r#"{"method":1,"jsonrpc":"2.0","method":"build/exit","result":1}"#,
        r#"{"jsonrpc":"2.0","method":"build/exit"}"#,
    ),
    (
        r#"{"params":{"z":1,"a":2},"jsonrpc":"2.0","method":"x"}"#,
        r#"{"jsonrpc":"2.0","method":"x","params":{"a":2,"z":1}}"#,
    ),
    (
        r#"{"jsonrpc":"2.0","id":9223372036854775807,"result":null}"#,
        r#"{"id":9223372036854775807,"jsonrpc":"2.0","result":null}"#,
    ),
    (
        r#"{"params":3,"jsonrpc":"2.0","id":-9223372036854775808,"result":{}}"#,
        r#"{"id":-9223372036854775808,"jsonrpc":"2.0","result":{}}"#,
    ),
    (
        r#"{"jsonrpc":"2.0","id":null,"error":{"code":-1,"message":"no","data":1}}"#,
        r#"{"error":{"code":-1,"message":"no"},"id":null,"jsonrpc":"2.0"}"#,
    ),
    (
        r#"{"jsonrpc":"2.0","id":7,"error":{"message":"server not initialized","code":-32002}}"#,
        r#"{"error":{"code":-32002,"message":"server not initialized"},"id":7,"jsonrpc":"2.0"}"#,
    ),
    (
        r#"{"jsonrpc":"2.0","id":"1","result":[true,"é"]}"#,
        r#"{"id":"1","jsonrpc":"2.0","result":[true,"é"]}"#,
    ),
    (
        r#"{"jsonrpc":"2.0","id":0,"result":"\u0007\/"}"#,
        r#"{"id":0,"jsonrpc":"2.0","result":"\u0007/"}"#,
    ),
];

#[test]
fn writes_what_it_reads(rt: HostRuntime) -> Result<(), Fail> {
    for &(body, written) in &READ {
        match read_message(rt.alloc(), body.as_bytes()) {
            Ok(message) => {
                let again = write_message(rt.alloc(), &message)?;
                assert_eq!(rt; again.as_slice(), written.as_bytes(), "{body}");
            }
            Err(_) => panic!(rt; "{body} is refused"),
        }
    }
    Ok(())
}

/// A body that is no message, and the code that its sender is answered.
const REFUSED: [(&[u8], i32); 31] = [
    (b"", -32700),
    (b"{", -32700),
    (b"\xff", -32700),
    (b"\"\xff\"", -32700),
    (br#"{"jsonrpc":"2.0","method":"x"}}"#, -32700),
    (br#"{"jsonrpc":"2.0","method":"x",}"#, -32700),
    (br#"{"jsonrpc":"2.0","method":"x","id":1e999}"#, -32700),
    (b"[]", -32600),
    (b"null", -32600),
    (br#"[{"jsonrpc":"2.0","method":"x"}]"#, -32600),
    (b"{}", -32600),
    (br#"{"method":"x"}"#, -32600),
    (br#"{"jsonrpc":2.0,"method":"x"}"#, -32600),
    (br#"{"jsonrpc":"2.1","method":"x"}"#, -32600),
    (br#"{"jsonrpc":"2.0","method":1}"#, -32600),
    (
        br#"{"jsonrpc":"2.0","method":null,"id":1,"result":1}"#,
        -32600,
    ),
    (br#"{"jsonrpc":"2.0","method":"x","params":"y"}"#, -32600),
    (br#"{"jsonrpc":"2.0","id":1.5,"method":"x"}"#, -32600),
    (br#"{"jsonrpc":"2.0","id":1.0,"method":"x"}"#, -32600),
    (br#"{"jsonrpc":"2.0","id":null,"method":"x"}"#, -32600),
    (
        br#"{"jsonrpc":"2.0","id":9223372036854775808,"method":"x"}"#,
        -32600,
    ),
    (br#"{"jsonrpc":"2.0","id":1}"#, -32600),
    (br#"{"jsonrpc":"2.0","result":1}"#, -32600),
    (br#"{"jsonrpc":"2.0","id":1.0,"result":1}"#, -32600),
    (
        br#"{"jsonrpc":"2.0","id":1,"result":1,"error":null}"#,
        -32600,
    ),
    (br#"{"jsonrpc":"2.0","id":1,"error":null}"#, -32600),
    (br#"{"jsonrpc":"2.0","id":1,"error":{"code":1}}"#, -32600),
    (
        br#"{"jsonrpc":"2.0","id":1,"error":{"message":"no"}}"#,
        -32600,
    ),
    (
        br#"{"jsonrpc":"2.0","id":1,"error":{"code":1.0,"message":"no"}}"#,
        -32600,
    ),
    (
        br#"{"jsonrpc":"2.0","id":1,"error":{"code":1,"message":null}}"#,
        -32600,
    ),
    (br#"{"jsonrpc":"2.0","id":true,"method":"x"}"#, -32600),
];

/// The code that the sender of a body is answered; 0 where it is a message.
fn code_of(alloc: Global, body: &[u8]) -> Result<i32, NoMemory> {
    match read_message(alloc, body) {
        Ok(_) => Ok(0),
        Err(Refusal::Coded(code)) => Ok(code),
        Err(Refusal::NoMemory) => Err(NoMemory),
    }
}

#[test]
fn refuses_what_is_no_message(rt: HostRuntime) -> Result<(), Fail> {
    for &(body, code) in &REFUSED {
        assert_eq!(rt; code_of(rt.alloc(), body)?, code, "{body:?}");
    }
    assert_eq!(rt; PARSE_ERROR, -32700);
    assert_eq!(rt; INVALID_REQUEST, -32600);
    Ok(())
}

fn add(body: &mut Vec<u8>, part: &[u8], count: u32) -> Result<(), Fail> {
    for _ in 0..count {
        body.extend_from_slice(part)?;
    }
    Ok(())
}

/// A front, and then so many times `more`, so many times `close`, and an end.
fn grown(
    alloc: Global,
    (front, more, close, end): (&[u8], &[u8], &[u8], &[u8]),
    count: u32,
) -> Result<Vec<u8>, Fail> {
    let mut body = Vec::from_slice(alloc, front)?;
    add(&mut body, more, count)?;
    add(&mut body, close, count)?;
    add(&mut body, end, 1)?;
    Ok(body)
}

const NAMED: (&[u8], &[u8], &[u8], &[u8]) = (
    br#"{"jsonrpc":"2.0","method":"x","id":""#,
    b"a",
    b"",
    b"\"}",
);

const NESTED: (&[u8], &[u8], &[u8], &[u8]) = (
    br#"{"jsonrpc":"2.0","method":"x","params":"#,
    b"[",
    b"]",
    b"}",
);

/// The parts of a body, how often they stand in it, and its code. A body counts as a level too.
const GROWN: [((&[u8], &[u8], &[u8], &[u8]), u32, i32); 4] = [
    (NAMED, 1_024, 0),
    (NAMED, 1_025, -32600),
    (NESTED, 126, 0),
    (NESTED, 127, -32700),
];

#[test]
fn limits_ids_and_nesting(rt: HostRuntime) -> Result<(), Fail> {
    for &(parts, count, code) in &GROWN {
        let body = grown(rt.alloc(), parts, count)?;
        assert_eq!(rt; code_of(rt.alloc(), body.as_slice())?, code, "{count}");
    }
    Ok(())
}

#[test]
fn writes_a_failure(rt: HostRuntime) -> Result<(), Fail> {
    let alloc = rt.alloc();
    let error = ErrorObject {
        code: -32700,
        message: Text::new(alloc, "parse error".as_bytes())?,
    };
    let message = Message::Response {
        id: None,
        answer: Err(error),
    };
    let body = write_message(alloc, &message)?;
    let want = br#"{"error":{"code":-32700,"message":"parse error"},"id":null,"jsonrpc":"2.0"}"#;
    assert_eq!(rt; body.as_slice(), want.as_slice());
    Ok(())
}

/// What is called of the open ids.
#[derive(Clone, Copy, Debug)]
enum Call {
    Begin,
    Close,
    IsOpen,
}

/// Calls one after another: what is called, with which id, what it answers, and which id is the first one then. The
/// ids go by their numbers in `id_of`.
const CALLS: [(Call, u32, bool, u32); 10] = [
    (Call::Begin, 0, true, 0),
    (Call::Begin, 1, true, 0),
    (Call::Begin, 2, true, 0),
    (Call::Begin, 0, false, 0),
    (Call::Close, 3, false, 0),
    (Call::Close, 0, true, 1),
    (Call::IsOpen, 0, false, 1),
    (Call::IsOpen, 1, true, 1),
    (Call::Begin, 0, true, 1),
    (Call::Close, 1, true, 2),
];

fn id_of(alloc: Global, number: u32) -> Result<Id, NoMemory> {
    match number {
        0 => Ok(Id::Number(7)),
        1 => Ok(Id::Text(Name::new(alloc, b"7")?)),
        2 => Ok(Id::Number(-7)),
        _ => Ok(Id::Number(8)),
    }
}

fn called(open: &mut OpenIds, call: Call, id: Id) -> Result<bool, NoMemory> {
    match call {
        Call::Begin => match open.begin(id) {
            Ok(()) => Ok(true),
            Err(BeginFault::AlreadyOpen) => Ok(false),
            Err(BeginFault::NoMemory) => Err(NoMemory),
        },
        Call::Close => Ok(open.close(&id)),
        Call::IsOpen => Ok(open.is_open(&id)),
    }
}

/// Is this the first of the open ids?
fn is_first(alloc: Global, open: &OpenIds, number: u32) -> Result<bool, NoMemory> {
    let id = id_of(alloc, number)?;
    Ok(open.first() == Some(&id))
}

#[test]
fn keeps_open_ids_in_order(rt: HostRuntime) -> Result<(), Fail> {
    let mut open = OpenIds::new(rt.alloc())?;
    assert!(rt; open.first().is_none());
    for &(call, number, want, first) in &CALLS {
        let id = id_of(rt.alloc(), number)?;
        assert_eq!(rt; called(&mut open, call, id)?, want, "{call:?} {number}");
        assert!(rt; is_first(rt.alloc(), &open, first)?, "{call:?} {number}");
    }
    Ok(())
}
