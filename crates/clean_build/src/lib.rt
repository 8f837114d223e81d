//! The clean build: which diagnostics each module of a build has, by what was handed out of the workspace alone. Each
//! document is read once, and each module is checked behind those that it imports, by their views. That this finds what
//! the whole declarations of the imports give is `views_suffice` of `build_rules`.
//!
//! It stands on `build_sources` for what was handed out and for the check of one module, and on `build_plan` for the order
//! of the checks. It knows no messages, and nothing of an earlier build. Begin with `Views.antt` of `build_rules`, which
//! says what a clean build is, and with `clean_build` in `build.rt`.
#![tactic(auto)]

mod build;

pub use build::clean_build;
