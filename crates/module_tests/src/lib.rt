//! Tests of what `oberon_module` offers, in tables of modules: what each shows, and for each diagnostic a smallest module
//! that has it, beside one that just doesn't; and which changes of a module change the key of what it shows.
//!
//! It stands above `oberon_module`, and for keys above `iface_key`, so that neither is proved once more with its tests, and
//! may know what they and `oberon_types` make public. There is nothing here to call. Begin with `diagnostics.rt`, and with
//! `rules.rt` for rows that are told with their names, and `shown.rt` for what modules show.
#![tactic(auto)]

#[cfg(test)]
mod bodies;
#[cfg(test)]
mod diagnostics;
#[cfg(test)]
mod importing;
#[cfg(test)]
mod keys;
#[cfg(test)]
mod rules;
#[cfg(test)]
mod shown;
#[cfg(test)]
mod texts;
