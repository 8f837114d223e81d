//! Keys of interfaces: what a module shows, as a list of bytes in a canonical form. Two views have one key exactly
//! where they show the same, so views are compared, held and told apart by their keys.
//!
//! It stands on the views of `oberon_types`, the words of `ob_text` and the maps of `indexmap`, and knows nothing of
//! sources, of targets and of files. Begin reading at `specs/Keys.antt`, the form read aloud, and at
//! `specs/Laws.antt`; then `printing.rt`, which makes a key, `reading_view.rt`, which reads one, and `keys.rt`, which
//! gives keys their numbers. `specs/Views.antt` says which views a key can be read as.
#![tactic(auto)]

mod fault;
mod key;
mod keys;
mod laws;
mod printing;
mod reading;
mod reading_parts;
mod reading_types;
mod reading_view;

pub use key::{Key, KeyKind};
pub use keys::Keys;
pub use laws::{one_key, one_view};
pub use printing::key_of;
pub use reading_view::view_of;
