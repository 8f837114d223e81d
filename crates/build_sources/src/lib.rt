//! What the checks of a build go by: each document that was handed out, read once unless its imports are known; which
//! modules each imports; and the check of one module by the views that are kept of its imports.
//!
//! It stands on `oberon_module` for the check of one module, on `build_plan` for cycles of imports, and on `target_graph`
//! for what a name means to a module. It knows no messages, and nothing of an order of the checks. Begin with
//! `specs/Documents.antt` and `specs/Known.antt`, then `sources.rt`.
#![tactic(auto)]

mod documents;
mod numbers;
mod output;
mod sources;
mod views;

pub use documents::{Document, Documents};
pub use numbers::set_of;
pub use output::out_view;
pub use sources::Sources;
pub use views::first_views;
