//! Jobs that are done apart from those who need them. A job is a number and its work, with all that the work takes: for now
//! the check of one module. A crew is given jobs, and hands the outcomes back one by one; whoever waits for one learns of
//! which job it is, and that what it says is what the rules say of that job's work.
//!
//! It stands on `oberon_module`, whose check it runs; nothing of builds, targets and messages is known here, nor what an
//! outcome is wanted for. Begin reading at `specs/Outcomes.antt`, which says what an outcome promises, and at
//! `specs/Crews.antt` beside `crew.rt`. No crew here has threads: `inline.rt` is the one that the program has, and
//! `script.rt` is for tests.
#![tactic(auto)]

mod backlog;
mod check;
mod crew;
mod inline;
mod job;
mod outcome;
mod script;
mod totals;

pub use check::Check;
pub use crew::Crew;
pub use inline::InlineCrew;
pub use job::{Job, Work};
pub use outcome::{Done, Outcome};
pub use script::ScriptCrew;
pub use totals::Totals;
