//! Tests of the public calls of the language's crates, each with rows of texts whose answers come from
//! `docs/LANGUAGE.md`. It stands on `oberon_scan`, `oberon_parse`, `oberon_imports` and `oberon_check` and may
//! know what they make public and nothing else; it has no code of its own. Begin reading at `checking.rt`,
//! whose rows are whole documents.
#![tactic(auto)]

#[cfg(test)]
mod checking;
#[cfg(test)]
mod importing;
#[cfg(test)]
mod parsing;
#[cfg(test)]
mod scanning;
#[cfg(test)]
mod texts;
