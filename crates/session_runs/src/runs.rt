ghost use Rattle.worker_pool.specs.Crews.{IsFresh};

use crate::files::Files;
use bsp_cli::{Ended, read_words, run_words};
use bsp_edge::{MemSink, MemSource, MemTree, Sink, Source, Tree};
use ob_text::{Held, Items, Path, Snapshot, Text};
use session_lines::{CLOSED, EXIT, INITIALIZE, INITIALIZED, SHUTDOWN, Sent, framed, joined};
use std::alloc::Global;
use std::test::Fail;
use worker_pool::{Crew, InlineCrew};

/// The ordinals of the calls that fail.
#[derive(Clone, Copy)]
pub struct Fails {
    pub input: &'static [u64],
    pub output: &'static [u64],
    pub notes: &'static [u64],
}

/// No call fails.
pub const NOTHING_FAILS: Fails = Fails {
    input: &[],
    output: &[],
    notes: &[],
};

/// What a run left: how it ended, and its sinks.
pub struct Left {
    pub ended: Ended,
    pub output: MemSink,
    pub notes: MemSink,
}

impl Drop for Left {
    fn drop(self) {
        let Self {
            ended: _,
            output: _,
            notes: _,
        } = self;
    }
}

/// A file of this path and text.
pub fn file(alloc: Global, path: &[u8], text: &[u8]) -> Result<(Path, Held), Fail> {
    let path = Path::new(alloc, path)?;
    Ok((path, Held::Text(Text::new(alloc, text)?)))
}

fn snapshot(alloc: Global, files: Files) -> Result<Snapshot, Fail> {
    let mut entries = Vec::new(alloc);
    for (path, text) in files {
        entries.push(file(alloc, path, text)?)?;
    }
    Ok(Snapshot {
        entries: Items::from_vec(entries),
    })
}

/// What is put in and what is taken out before a call of a tree.
fn changed(
    alloc: Global,
    changes: &[(u64, &[u8], &[u8])],
    gone: &[(u64, &[u8])],
) -> Result<Vec<(u64, Path, Held)>, Fail> {
    let mut later = Vec::new(alloc);
    for (call, path, text) in changes {
        let (path, held) = file(alloc, path, text)?;
        later.push((*call, path, held))?;
    }
    for (call, path) in gone {
        later.push((*call, Path::new(alloc, path)?, Held::Absent))?;
    }
    Ok(later)
}

/// A tree with these files, of which the second list is put in before the tree's call of that number.
pub fn tree(
    alloc: Global,
    files: Files,
    changes: &[(u64, &[u8], &[u8])],
    failing: &[u64],
) -> Result<MemTree, Fail> {
    changing_tree(alloc, files, changes, &[], failing)
}

/// The same, and the third list is taken out before the call of that number.
pub(crate) fn changing_tree(
    alloc: Global,
    files: Files,
    changes: &[(u64, &[u8], &[u8])],
    gone: &[(u64, &[u8])],
    failing: &[u64],
) -> Result<MemTree, Fail> {
    let files = snapshot(alloc, files)?;
    let later = changed(alloc, changes, gone)?;
    Ok(MemTree::new(alloc, files, later, Vec::from_slice(alloc, failing)?))
}

fn source(alloc: Global, sent: Sent, failing: &[u64]) -> Result<MemSource, Fail> {
    Ok(sent.into_source(Vec::from_slice(alloc, failing)?))
}

fn sink(alloc: Global, failing: &[u64]) -> Result<MemSink, Fail> {
    let failing = Vec::from_slice(alloc, failing)?;
    Ok(MemSink::new(alloc, 262_144, failing)?)
}

fn serve<S: Source, T: Tree, K: Sink, C: Crew>(
    alloc: Global,
    input: &mut S,
    tree: &mut T,
    output: &mut K,
    notes: &mut K,
    crew: &mut C,
) -> Result<Ended, Fail>
    requires { IsFresh (C.sight crew.old) }
{
    let mut words = Vec::new(alloc);
    words.push(Text::new(alloc, b"serve")?)?;
    words.push(Text::new(alloc, b"w")?)?;
    let asked = read_words(words.as_slice());
    Ok(run_words(alloc, asked, input, tree, output, notes, crew))
}

/// Runs `serve` over what is sent, by a crew that was given no job.
pub(crate) fn run_by<C: Crew>(
    alloc: Global,
    sent: Sent,
    fails: Fails,
    tree: &mut MemTree,
    crew: &mut C,
) -> Result<Left, Fail>
    requires { IsFresh (C.sight crew.old) }
{
    let mut input = source(alloc, sent, fails.input)?;
    let mut output = sink(alloc, fails.output)?;
    let mut notes = sink(alloc, fails.notes)?;
    let ended = serve(alloc, &mut input, tree, &mut output, &mut notes, crew)?;
    Ok(Left {
        ended,
        output,
        notes,
    })
}

/// The same by the crew that the program has.
pub fn run(alloc: Global, sent: Sent, fails: Fails, tree: &mut MemTree) -> Result<Left, Fail> {
    let mut crew = InlineCrew::new(alloc);
    run_by(alloc, sent, fails, tree, &mut crew)
}

fn expect_end(left: &Left, status: u8, taken: u64, notes: &[u8]) -> Result<(), Fail> {
    let code = left.ended.status.code();
    if code != status {
        return Err(Fail::new(format_args!("status {code} and not {status}")));
    }
    if left.ended.taken != taken {
        return Err(Fail::new(format_args!("{} bytes taken and not {taken}", left.ended.taken)));
    }
    if left.notes.given() != notes {
        return Err(Fail::new("other notes"));
    }
    Ok(())
}

/// Looks at all that a run left.
pub fn expect_left(
    left: &Left,
    status: u8,
    taken: u64,
    output: &[u8],
    notes: &[u8],
) -> Result<(), Fail> {
    expect_end(left, status, taken, notes)?;
    expect_output(left.output.given(), output)
}

fn expect_output(given: &[u8], output: &[u8]) -> Result<(), Fail> {
    if given != output {
        return Err(Fail::new("other output"));
    }
    Ok(())
}

/// Runs a session that is taken whole over a tree, and looks at its status and its output.
pub fn expect_whole(
    alloc: Global,
    tree: &mut MemTree,
    session: Sent,
    status: u8,
    output: &[u8],
) -> Result<(), Fail> {
    let taken = session.bytes.len() as u64;
    let left = run(alloc, session, NOTHING_FAILS, tree)?;
    expect_left(&left, status, taken, output, b"")
}

const HEAD: &str = "Content-Length: ";

/// The frames of an output that tell of no task.
fn without_tasks(alloc: Global, output: &[u8]) -> Result<String, Fail> {
    let Ok(text) = std::str::from_utf8(output) else {
        return Err(Fail::from("the output is not UTF-8"));
    };
    let mut kept = String::new(alloc);
    for frame in text.split(HEAD) {
        if !frame.is_empty() && !frame.contains("\"method\":\"build/task") {
            kept.push_str(HEAD)?;
            kept.push_str(frame)?;
        }
    }
    Ok(kept)
}

/// Runs a session as `expect_whole` does, and looks at its output but for what tells of tasks.
fn expect_shown(
    alloc: Global,
    tree: &mut MemTree,
    session: Sent,
    output: &[u8],
) -> Result<(), Fail> {
    let taken = session.bytes.len() as u64;
    let left = run(alloc, session, NOTHING_FAILS, tree)?;
    expect_end(&left, 0, taken, b"")?;
    let shown = without_tasks(alloc, left.output.given())?;
    expect_output(shown.as_bytes(), output)
}

/// A session that is opened, sends these requests, each when those before are answered, and is closed.
pub fn session_of(alloc: Global, requests: &[&[u8]]) -> Result<Sent, Fail> {
    let mut sent = Sent::new(alloc);
    sent.add(INITIALIZE)?;
    for request in requests {
        sent.add_body(alloc, request)?;
        sent.wait_for_all()?;
    }
    sent.add(SHUTDOWN)?;
    sent.add(EXIT)?;
    Ok(sent)
}

/// What it is answered, with these answers between.
fn output_of(alloc: Global, answers: &[&[u8]]) -> Result<Vec<u8>, Fail> {
    let answered = framed(alloc, answers)?;
    joined(alloc, &[INITIALIZED, answered.as_slice(), CLOSED])
}

/// Runs a session that is opened, sends these requests and is closed over a tree, and looks at what is answered and
/// published between.
pub fn expect_answers(
    alloc: Global,
    tree: &mut MemTree,
    requests: &[&[u8]],
    answers: &[&[u8]],
) -> Result<(), Fail> {
    let output = output_of(alloc, answers)?;
    let session = session_of(alloc, requests)?;
    expect_shown(alloc, tree, session, output.as_slice())
}
