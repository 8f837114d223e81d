//! In which order the modules of a build are checked: each behind those that it imports, the least first, where the
//! modules are places, numbers from 0 on, and imports may go in cycles.
//!
//! A `Plan` gives a place as soon as every place that it imports is finished or on a cycle. Which places are on a cycle it
//! finds when it is made. It stands on `ob_text` for want of memory alone, and knows numbers alone: no text, no module and
//! no target. Begin with `specs/Rows.antt` and `specs/Places.antt`, then `plan.rt`; `laws.rt` states what follows for a
//! whole build.
#![tactic(auto)]

mod countdown;
mod cycles;
mod front;
mod laws;
mod links;
mod marks;
mod peel;
mod plan;
mod walk;

pub use laws::gets_through;
pub use plan::Plan;
