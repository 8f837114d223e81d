//! Runs of `serve` over a source, a tree and sinks in memory, and what they must leave.
//!
//! For the rows of whole sessions in crates above; it stands on `bsp_cli` and `bsp_edge`, on `worker_pool` for crews, and on
//! `session_lines` for what is sent and told. It may know what they make public, and nothing of how the program goes on
//! inside. Begin with `row.rt`, for a session as lines.
#![tactic(auto)]

mod crews;
mod files;
mod row;
mod runs;

pub use bsp_cli::{Ended, Status, read_words, run_words};
pub use crews::{CountingCrew, KeenCrew};
pub use files::{A, APP, APP_ALONE, Files, ODD_Z, WORKSPACE, WORKSPACE_ALONE, WORKSPACE_FILE};
pub use row::{ROW, Row, expect_by, expect_longer, expect_row, expect_rows};
pub use runs::{
    Fails, Left, NOTHING_FAILS, expect_answers, expect_left, expect_whole, file, run, session_of,
    tree,
};
