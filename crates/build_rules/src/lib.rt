//! What the clean build of a workspace finds, as definitions: what names mean to the modules of a target, which modules
//! are on a cycle of imports, what each module declares and exports, and which list of diagnostics each has. And the
//! laws that checks by views find the same lists, and that there is one clean build.
//!
//! It stands on `oberon_rules` for what is said of one module by what its imports show, on `target_graph` for what a
//! target sees, and on `build_plan` for paths of imports. It has no code but laws. Begin with `specs/World.antt`, and read
//! `specs/Views.antt` and `specs/Locality.antt` behind it.
#![tactic(auto)]

mod laws;

pub use laws::{one_clean_build, views_suffice};
