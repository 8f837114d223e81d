//! What each request is owed: judged in its shape as it is taken, and in its targets as it is taken up; and its answer,
//! as a message. It stands on `session_law`, which says which verdict is right, on `bsp_records` for requests and
//! results, on `session_answers` for questions that are answered at once, and on `build_messages` for the documents of a
//! build. It knows one request and the workspace in force, and nothing of what is open, waits or runs. Begin with
//! `Owed` and `TakenUp` (`verdicts.rt`), then `judge` and `take_up` (`judging.rt`) and `specs/Judging.antt`.
#![tactic(auto)]

mod answers;
mod documents;
mod force;
mod judging;
mod planned;
mod reasons;
mod verdicts;

pub use answers::{
    PARSE_ERROR, call_cancelled, cancelled, cleaned, compiled, initialize_value, null_answer,
    refusal, success, unread_answer,
};
pub use documents::{documents_of, paths_of};
pub use force::InForce;
pub use judging::{judge, judge_workspace, take_up};
pub use planned::Planned;
pub use verdicts::{Answer, Owed, Queued, Reason, TakenUp};
