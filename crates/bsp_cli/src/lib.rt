//! The program as a library: the words of its command line, its loop over an input, a tree of files, a crew
//! that does jobs and an output, its notes and its exit status.
//!
//! The loop acts on all frames that were read. Where the session is idle then, it waits for more input. Else it looks
//! whether more input is there, and where there is none it waits for an outcome of the crew. After each step it meets
//! what the session needs: it asks the tree, gives the crew a job, or drains it.
//!
//! It stands on the session (`session_core`, by the law of `session_law`), on frames and messages, on the crews of
//! `worker_pool`, and on `bsp_edge` for what is outside. It knows all of these and nothing of the language. Begin with
//! `run_words` (`run.rt`), whose contract is the headline, and with `specs/Session.antt` and `specs/Patience.antt`.
//! The loop itself is in `serve.rt` (turns), `waiting.rt` (for pieces and outcomes) and `needs.rt`.
#![tactic(auto)]

mod needs;
mod notes;
mod outcome;
mod responder;
mod run;
mod serve;
mod status;
mod stop;
mod waiting;
mod words;
mod writing;

pub use run::{Ended, run_words};
pub use status::Status;
pub use words::{Command, Usage, read_words};
