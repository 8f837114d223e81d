//! What the workspace in force is asked about and answered at once: its targets, their documents, and the
//! targets of a document.
//!
//! It stands on `target_graph` for the workspace and on `session_law`, which says what each question is answered
//! (`specs/Questions.antt` there: begin with it). It knows one question, and nothing of other requests.
#![tactic(auto)]

mod identifiers;
mod sources;
mod targets;

pub use sources::{inverse_answer, sources_answer};
pub use targets::targets_answer;
