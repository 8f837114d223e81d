//! Sessions as parts of bytes: what is sent and what a run must leave.
use bsp_edge::MemTree;
use session_lines::{Parts, Sent, joined};
use session_runs::{Fails, NOTHING_FAILS, WORKSPACE_ALONE, expect_left, run, tree};
use std::alloc::Global;
use std::test::Fail;

/// A run of `serve`: the parts of its input, where that is cut and what fails, and what the run must leave.
#[derive(Clone, Copy)]
pub struct Row<'a> {
    pub sent: Parts<'a>,
    pub cuts: &'a [u64],
    pub fails: Fails,
    pub status: u8,
    pub taken: u64,
    pub output: Parts<'a>,
    pub notes: &'a [u8],
}

/// A row whose input is in one piece, where nothing fails and nothing is noted.
pub fn plain<'a>(sent: Parts<'a>, status: u8, taken: u64, output: Parts<'a>) -> Row<'a> {
    Row {
        sent,
        cuts: &[],
        fails: NOTHING_FAILS,
        status,
        taken,
        output,
        notes: b"",
    }
}

/// Runs a row over a tree, and looks at what it leaves.
pub fn expect_over(alloc: Global, row: &Row, tree: &mut MemTree) -> Result<(), Fail> {
    let output = joined(alloc, row.output)?;
    let mut sent = Sent::whole(alloc, joined(alloc, row.sent)?);
    sent.cuts.extend_from_slice(row.cuts)?;
    let left = run(alloc, sent, row.fails, tree)?;
    expect_left(&left, row.status, row.taken, output.as_slice(), row.notes)
}

/// The same over a workspace without targets.
pub fn expect(alloc: Global, row: &Row) -> Result<(), Fail> {
    let mut tree = tree(alloc, WORKSPACE_ALONE, &[], &[])?;
    expect_over(alloc, row, &mut tree)
}
