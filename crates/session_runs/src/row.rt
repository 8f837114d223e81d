//! Sessions as lines: what is sent and what is written, and how such a session is run.
//!
//! Each message counts: the build of message 3 is `r3`, whatever its id. The crew of the program does one check in each wait,
//! so `wait 2` is behind two checks.
ghost use Rattle.worker_pool.specs.Crews.{IsFresh};

use crate::files::{A, APP, Files};
use crate::runs::{Fails, NOTHING_FAILS, changing_tree, expect_left, run_by};
use session_lines::{Sent, add_asked, add_told};
use std::alloc::Global;
use std::test::Fail;
use worker_pool::{Crew, InlineCrew};

/// A session: the files, what changes and what goes before a call of the tree (the second call is that of the first build),
/// which calls of it fail, what is sent, the member `originId` of its compiles, which reads of the input and which writes fail,
/// what is written, the note, and the status.
#[derive(Clone, Copy)]
pub struct Row<'a> {
    pub files: Files<'a>,
    pub changes: &'a [(u64, &'a [u8], &'a [u8])],
    pub gone: &'a [(u64, &'a [u8])],
    pub unread: &'a [u64],
    pub sent: &'a str,
    pub origin: &'a str,
    pub failing: &'static [u64],
    pub unwritten: &'static [u64],
    pub told: &'a str,
    pub notes: &'a str,
    pub status: u8,
}

/// A session over the workspace of one target and a module without faults, in which nothing changes and nothing fails.
pub const ROW: Row<'static> = Row {
    files: &[APP, A],
    changes: &[],
    gone: &[],
    unread: &[],
    sent: "",
    origin: "",
    failing: &[],
    unwritten: &[],
    told: "",
    notes: "",
    status: 0,
};

/// Runs the session of a row by the crew that the program has, and looks at all that it is answered.
pub fn expect_row(alloc: Global, row: &Row) -> Result<(), Fail> {
    let mut crew = InlineCrew::new(alloc);
    expect_by(alloc, row, &mut crew)
}

/// The same of each of these rows.
pub fn expect_rows(alloc: Global, rows: &[Row]) -> Result<(), Fail> {
    for row in rows {
        expect_row(alloc, row)?;
    }
    Ok(())
}

/// The same by a crew that was given no job.
pub fn expect_by<C: Crew>(alloc: Global, row: &Row, crew: &mut C) -> Result<(), Fail>
    requires { IsFresh (C.sight crew.old) }
{
    let session = sent_of(alloc, row)?;
    let output = output_of(alloc, row)?;
    expect_told(alloc, row, session, output.as_slice(), crew)
}

/// Runs a session over the files of a row, whose reads and writes fail as there, and looks for this output, and for the row's
/// note and status. All that is sent must be taken.
fn expect_told<C: Crew>(
    alloc: Global,
    row: &Row,
    session: Sent,
    output: &[u8],
    crew: &mut C,
) -> Result<(), Fail>
    requires { IsFresh (C.sight crew.old) }
{
    let mut tree = changing_tree(alloc, row.files, row.changes, row.gone, row.unread)?;
    let taken = session.bytes.len() as u64;
    let fails = Fails {
        input: row.failing,
        output: row.unwritten,
        ..NOTHING_FAILS
    };
    let left = run_by(alloc, session, fails, &mut tree, crew)?;
    expect_left(&left, row.status, taken, output, row.notes.as_bytes())
}

fn sent_of(alloc: Global, row: &Row) -> Result<Sent, Fail> {
    let mut sent = Sent::new(alloc);
    add_asked(alloc, row.sent, row.origin, &mut sent)?;
    Ok(sent)
}

fn output_of(alloc: Global, row: &Row) -> Result<Vec<u8>, Fail> {
    let mut output = Vec::new(alloc);
    add_told(alloc, row.told, row.origin, &mut output)?;
    Ok(output)
}

/// The session of a row with more lines behind it, and what these write.
pub fn expect_longer(alloc: Global, row: &Row, sent: &str, told: &str) -> Result<(), Fail> {
    let mut session = sent_of(alloc, row)?;
    add_asked(alloc, sent, row.origin, &mut session)?;
    let mut output = output_of(alloc, row)?;
    add_told(alloc, told, row.origin, &mut output)?;
    let mut crew = InlineCrew::new(alloc);
    expect_told(alloc, row, session, output.as_slice(), &mut crew)
}
