//! The program `oberon-bsp`, with its stored session.
//!
//! `program.rt` hands the real input, files and outputs to `run_words` of `bsp_cli`, which does all of its work: begin there,
//! and go on with `bsp_cli/src/run.rt`.
#![tactic(auto)]

mod program;

use crate::program::run_program;
use std::process::ExitCode;

fn main(rt: HostRuntime) -> ExitCode {
    run_program(rt, rt)
}
