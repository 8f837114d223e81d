//! What a value of JSON has to look like, the first place at which it doesn't, and what is read of it.
//!
//! It stands on `ob_text`, and on `serde_json` for the values. It knows neither the protocol nor the workspace
//! file: these have their own tables of members. Begin with `specs/Shapes.antt`, where `bad` finds the first
//! bad place; `Read` in `reading.rt` is what a type has that is read of a value.
#![tactic(auto)]

mod bad_value;
mod paths;
mod reading;
mod values;

pub use bad_value::BadValue;
pub use reading::{Read, bad_here, if_given, optional, passing, read_named, required};
pub use values::{AnyText, Checked, LabelKind, Rule, Within, read_between, text_within};
