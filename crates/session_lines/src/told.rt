//! Messages of builds, each as a line of words.
//!
//! `r2` is the build that is message 2 of the session, `r2.t1` its first target, and `r2.c1` the check that started first.
//!
//!     initialized                     the answer that opens the session
//!     start r2
//!     start r2.t1 app                 a target
//!     start r2.c1 r2.t1 A.Mod         a check, inside its target's task, of a document
//!     finish r2.c1 r2.t1 2            a check, with its status
//!     publish app A.Mod               the empty list of a document in a target
//!     publish app A.Mod; 0:17-0:18 1 noName unknown name: T
//!     finish r2.t1 r2 3               a target of a build that was cancelled
//!     report r2.t1 app 1 0            a target, with how many errors and warnings it has
//!     report r2.t1 app 1 0 noop       the same where no check of it started
//!     finish r2 2                     a build, with its status
//!     result 2 2                      an answer, with its status
//!     null 2                          an answer without a value
//!     cleaned 2                       the answer to a cleaning
//!     clear old Z.Mod                 the empty list of a document that a reload drops: it has no originId
//!     changed new 1 old 3             targets that were created (1), changed (2) or deleted (3)
//!     targets 4 app application       an answer that lists targets, each with its kind, and none with a dependency
//!     error 2 -32603 sources unreadable
//!     body {"id":1}                   a message as it is written
use crate::fixed::INITIALIZED;
use crate::lists::published;
use crate::sent::add_frame;
use std::alloc::Global;
use std::test::Fail;

/// Puts the messages of these lines behind others. The build has the member `originId`, or none.
pub fn add_told(alloc: Global, lines: &str, origin: &str, bytes: &mut Vec<u8>) -> Result<(), Fail> {
    for line in lines.lines() {
        if !line.is_empty() {
            add_line(alloc, line, origin, bytes)?;
        }
    }
    Ok(())
}

fn add_line(alloc: Global, line: &str, origin: &str, bytes: &mut Vec<u8>) -> Result<(), Fail> {
    if line == "initialized" {
        return Ok(bytes.extend_from_slice(INITIALIZED)?);
    }
    let body = body_of(alloc, line, origin)?;
    add_frame(alloc, body.as_slice(), bytes)
}

/// The body of the message of a line.
fn body_of(alloc: Global, line: &str, origin: &str) -> Result<Vec<u8>, Fail> {
    let (kind, rest) = parted(line, " ")?;
    match kind {
        "publish" => publication(alloc, rest, origin),
        "clear" => publication(alloc, rest, ""),
        "error" => error(alloc, rest),
        "null" => null(alloc, rest),
        "cleaned" => cleaned(alloc, rest),
        "changed" => changed(alloc, rest),
        "targets" => targets(alloc, rest),
        "result" => result(alloc, rest, origin),
        "report" => report(alloc, rest, origin),
        "start" => start(alloc, rest),
        "finish" => finish(alloc, rest),
        "body" => Ok(Vec::from_slice(alloc, rest.as_bytes())?),
        _ => Err(Fail::from("a line tells nothing")),
    }
}

/// What stands before the first such mark, and what stands behind it.
fn parted<'a>(text: &'a str, mark: &str) -> Result<(&'a str, &'a str), Fail> {
    match text.split_once(mark) {
        Some(parts) => Ok(parts),
        None => Err(Fail::from("a part of a line is missing")),
    }
}

fn words_of<'a>(alloc: Global, text: &'a str) -> Result<Vec<&'a str>, Fail> {
    Ok(text.split(' ').collect(alloc)?)
}

/// The words of a text, two by two.
fn pairs_of<'a>(alloc: Global, text: &'a str) -> Result<Vec<(&'a str, &'a str)>, Fail> {
    let words = words_of(alloc, text)?;
    let mut pairs = Vec::new(alloc);
    for pair in words.as_slice().chunks(2) {
        let [first, second] = pair else {
            return Err(Fail::from("a word of a pair is missing"));
        };
        pairs.push((*first, *second))?;
    }
    Ok(pairs)
}

fn owned(alloc: Global, text: String) -> Result<Vec<u8>, Fail> {
    Ok(Vec::from_slice(alloc, text.as_bytes())?)
}

fn publication(alloc: Global, rest: &str, origin: &str) -> Result<Vec<u8>, Fail> {
    let parts: Vec<&str> = rest.split("; ").collect(alloc)?;
    let Some((place, found)) = parts.as_slice().split_first() else {
        return Err(Fail::from("a publication has no place"));
    };
    let (target, path) = parted(place, " ")?;
    published(alloc, &(target, path, found), origin)
}

fn error(alloc: Global, rest: &str) -> Result<Vec<u8>, Fail> {
    let (id, rest) = parted(rest, " ")?;
    let (code, message) = parted(rest, " ")?;
    let body = format!(in alloc;
        "{{\"error\":{{\"code\":{code},\"message\":\"{message}\"}},\"id\":{id},\"jsonrpc\":\"2.0\"}}"
    )?;
    owned(alloc, body)
}

fn null(alloc: Global, id: &str) -> Result<Vec<u8>, Fail> {
    let body = format!(in alloc; "{{\"id\":{id},\"jsonrpc\":\"2.0\",\"result\":null}}")?;
    owned(alloc, body)
}

fn cleaned(alloc: Global, id: &str) -> Result<Vec<u8>, Fail> {
    let body = format!(in alloc;
        "{{\"id\":{id},\"jsonrpc\":\"2.0\",\"result\":{{\"cleaned\":true}}}}"
    )?;
    owned(alloc, body)
}

fn changed(alloc: Global, rest: &str) -> Result<Vec<u8>, Fail> {
    let pairs = pairs_of(alloc, rest)?;
    let mut changes = String::new(alloc);
    for (name, kind) in pairs.as_slice() {
        let comma = if changes.is_empty() { "" } else { "," };
        let told = format!(in alloc;
            "{comma}{{\"kind\":{kind},\"target\":{{\"uri\":\"file:///w/?id={name}\"}}}}"
        )?;
        changes.push_str(told.as_str())?;
    }
    let body = format!(in alloc;
        "{{\"jsonrpc\":\"2.0\",\"method\":\"buildTarget/didChange\",\"params\":{{\"changes\":[{changes}]}}}}"
    )?;
    owned(alloc, body)
}

fn targets(alloc: Global, rest: &str) -> Result<Vec<u8>, Fail> {
    let (id, rest) = parted(rest, " ")?;
    let pairs = pairs_of(alloc, rest)?;
    let mut targets = String::new(alloc);
    for (name, kind) in pairs.as_slice() {
        let comma = if targets.is_empty() { "" } else { "," };
        let (runs, tests) = (*kind == "application", *kind == "test");
        let told = format!(in alloc;
            "{comma}{{\"capabilities\":{{\"canCompile\":true,\"canRun\":{runs},\"canTest\":{tests}}},\"dependencies\":[],\"displayName\":\"{name}\",\"id\":{{\"uri\":\"file:///w/?id={name}\"}},\"languageIds\":[\"oberon\"],\"tags\":[\"{kind}\"]}}"
        )?;
        targets.push_str(told.as_str())?;
    }
    let body = format!(in alloc;
        "{{\"id\":{id},\"jsonrpc\":\"2.0\",\"result\":{{\"targets\":[{targets}]}}}}"
    )?;
    owned(alloc, body)
}

fn result(alloc: Global, rest: &str, origin: &str) -> Result<Vec<u8>, Fail> {
    let (id, status) = parted(rest, " ")?;
    let body = format!(in alloc;
        "{{\"id\":{id},\"jsonrpc\":\"2.0\",\"result\":{{{origin}\"statusCode\":{status}}}}}"
    )?;
    owned(alloc, body)
}

/// A notification of a task: its id, and its parent where it has one. What else it tells stands before that.
fn task(
    alloc: Global,
    method: &str,
    told: &str,
    id: &str,
    parent: Option<&str>,
) -> Result<Vec<u8>, Fail> {
    let parents = match parent {
        Some(parent) => format!(in alloc; ",\"parents\":[\"{parent}\"]")?,
        None => String::new(alloc),
    };
    let body = format!(in alloc;
        "{{\"jsonrpc\":\"2.0\",\"method\":\"build/{method}\",\"params\":{{{told}\"taskId\":{{\"id\":\"{id}\"{parents}}}}}}}"
    )?;
    owned(alloc, body)
}

fn start(alloc: Global, rest: &str) -> Result<Vec<u8>, Fail> {
    let words = words_of(alloc, rest)?;
    match words.as_slice() {
        [id] => task(alloc, "taskStart", "", id, None),
        [id, target] => {
            let told = format!(in alloc;
                "\"data\":{{\"target\":{{\"uri\":\"file:///w/?id={target}\"}}}},\"dataKind\":\"compile-task\","
            )?;
            let (build, _) = parted(id, ".")?;
            task(alloc, "taskStart", told.as_str(), id, Some(build))
        }
        [id, parent, path] => {
            let told = format!(in alloc; "\"message\":\"file:///w/{path}\",")?;
            task(alloc, "taskStart", told.as_str(), id, Some(parent))
        }
        _ => Err(Fail::from("a start has other words")),
    }
}

fn finish(alloc: Global, rest: &str) -> Result<Vec<u8>, Fail> {
    let words = words_of(alloc, rest)?;
    let (id, parent, status) = match words.as_slice() {
        [id, status] => (*id, None, *status),
        [id, parent, status] => (*id, Some(*parent), *status),
        _ => return Err(Fail::from("a finish has other words")),
    };
    let told = format!(in alloc; "\"status\":{status},")?;
    task(alloc, "taskFinish", told.as_str(), id, parent)
}

fn report(alloc: Global, rest: &str, origin: &str) -> Result<Vec<u8>, Fail> {
    let words = words_of(alloc, rest)?;
    let (id, target, errors, warnings, noop) = match words.as_slice() {
        [id, target, errors, warnings] => (*id, *target, *errors, *warnings, ""),
        [id, target, errors, warnings, _] => (*id, *target, *errors, *warnings, "\"noOp\":true,"),
        _ => return Err(Fail::from("a report has other words")),
    };
    let status = if errors == "0" { 1 } else { 2 };
    let told = format!(in alloc;
        "\"data\":{{\"errors\":{errors},{noop}{origin}\"target\":{{\"uri\":\"file:///w/?id={target}\"}},\"warnings\":{warnings}}},\"dataKind\":\"compile-report\",\"status\":{status},"
    )?;
    let (build, _) = parted(id, ".")?;
    task(alloc, "taskFinish", told.as_str(), id, Some(build))
}
