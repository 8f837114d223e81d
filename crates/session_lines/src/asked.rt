//! What clients send, each message as a line of words.
//!
//!     initialize              opens the session, with id 1
//!     compile 2 app lib       a compile with this id of these targets
//!     clean 2 app lib         a cleaning with this id of what is kept of these targets
//!     reload 3                a reload with this id
//!     targets 3               a question with this id, which is answered at once
//!     cancel 2
//!     shutdown 4
//!     exit
//!     body {"id":1}           a message as it is written
//!     bytes Content           bytes as they are written
//!     cut                     what follows comes in another piece, which is there at once
//!     wait                    what follows comes when all is answered
//!     wait 2                  what follows comes behind so many outcomes
//!
//! An id is written as in JSON.
use crate::fixed::{EXIT, INITIALIZE};
use crate::sent::Sent;
use std::alloc::Global;
use std::test::Fail;

/// Sends the messages of these lines behind others. The compiles have the member `originId`, or none.
pub fn add_asked(alloc: Global, lines: &str, origin: &str, sent: &mut Sent) -> Result<(), Fail> {
    for line in lines.lines() {
        if !line.is_empty() {
            add_line(alloc, line, origin, sent)?;
        }
    }
    Ok(())
}

fn add_line(alloc: Global, line: &str, origin: &str, sent: &mut Sent) -> Result<(), Fail> {
    let (kind, rest) = line.split_once(" ").unwrap_or((line, ""));
    match kind {
        "initialize" => sent.add(INITIALIZE),
        "exit" => sent.add(EXIT),
        "bytes" => sent.add(rest.as_bytes()),
        "cut" => sent.cut(),
        "wait" => wait(rest, sent),
        "body" => sent.add_body(alloc, rest.as_bytes()),
        _ => {
            let body = body_of(alloc, kind, rest, origin)?;
            sent.add_body(alloc, body.as_bytes())
        }
    }
}

fn wait(outcomes: &str, sent: &mut Sent) -> Result<(), Fail> {
    if outcomes.is_empty() {
        return sent.wait_for_all();
    }
    match outcomes.parse::<u32>() {
        Ok(count) => sent.wait(count),
        Err(_) => Err(Fail::from("a wait has no number")),
    }
}

fn body_of(alloc: Global, kind: &str, rest: &str, origin: &str) -> Result<String, Fail> {
    match kind {
        "compile" => {
            let (id, targets) = rest.split_once(" ").unwrap_or((rest, ""));
            of_targets(alloc, "compile", id, targets, origin)
        }
        "clean" => {
            let (id, targets) = rest.split_once(" ").unwrap_or((rest, ""));
            of_targets(alloc, "cleanCache", id, targets, "")
        }
        "reload" => Ok(format!(in alloc;
            "{{\"jsonrpc\":\"2.0\",\"id\":{rest},\"method\":\"workspace/reload\"}}"
        )?),
        "targets" => Ok(format!(in alloc;
            "{{\"jsonrpc\":\"2.0\",\"id\":{rest},\"method\":\"workspace/buildTargets\"}}"
        )?),
        "cancel" => Ok(format!(in alloc;
            "{{\"jsonrpc\":\"2.0\",\"method\":\"$/cancelRequest\",\"params\":{{\"id\":{rest}}}}}"
        )?),
        "shutdown" => Ok(format!(in alloc;
            "{{\"jsonrpc\":\"2.0\",\"id\":{rest},\"method\":\"build/shutdown\"}}"
        )?),
        _ => Err(Fail::from("a line sends nothing")),
    }
}

/// The body of a compile with this id of targets that are named with blanks between.
pub fn compile(alloc: Global, id: &str, asked: &str, origin: &str) -> Result<String, Fail> {
    of_targets(alloc, "compile", id, asked, origin)
}

/// The body of a request of this method of some targets.
fn of_targets(
    alloc: Global,
    method: &str,
    id: &str,
    asked: &str,
    origin: &str,
) -> Result<String, Fail> {
    let mut targets = String::new(alloc);
    for name in asked.split_whitespace() {
        let comma = if targets.is_empty() { "" } else { "," };
        let target = format!(in alloc; "{comma}{{\"uri\":\"file:///w/?id={name}\"}}")?;
        targets.push_str(target.as_str())?;
    }
    Ok(format!(in alloc;
        "{{\"jsonrpc\":\"2.0\",\"id\":{id},\"method\":\"buildTarget/{method}\",\"params\":{{{origin}\"targets\":[{targets}]}}}}"
    )?)
}
