ghost use Rattle.std.specs.Prelude.{◌≡◌, IfOk};
ghost use Rattle.bsp_cli.specs.Outcomes.{exit_of};
ghost use Rattle.bsp_cli.specs.Words.{folder_of};

use bsp_cli::{Command, Ended, Status, Usage, read_words, run_words};
use bsp_edge::{FolderTree, RealSink};
use bsp_input::StdinSource;
use ob_text::{NoMemory, Text};
use std::alloc::Global;
use std::env;
use std::io::{ErrorKind, StdinLock};
use std::process::ExitCode;
use std::rt::Env;
use std::sync::Wait;
use std::thread::Threads;
use worker_pool::InlineCrew;

/// Runs the program over the words of its command line, standard input, the folder that they name, standard
/// output and standard error.
pub fn run_program<
    R: Input<Reader = StdinLock<'static>> + Threads + Wait + Copy + Drop + Send + Sync + 'static,
>(rt: HostRuntime, threads: R) -> ExitCode {
    exit_code(run_real(rt, threads))
}

/// The exit status of the process.
fn exit_code(ran: Result<Ended, NoMemory>) -> ExitCode
    ensures { result ≡ record { status = exit_of ran } }
{
    match ran {
        Ok(ended) => ExitCode::from(ended.status.code()),
        Err(NoMemory) => ExitCode::from(Status::NoMemory.code()),
    }
}

fn run_real<
    R: Input<Reader = StdinLock<'static>> + Threads + Wait + Copy + Drop + Send + Sync + 'static,
>(rt: HostRuntime, threads: R) -> Result<Ended, NoMemory> {
    let alloc = rt.alloc();
    let words = program_words(&rt)?;
    let asked = read_words(words.as_slice());
    let folder = folder_of(alloc, asked)?;
    let mut input = StdinSource::new(threads, alloc)?;
    let mut tree = FolderTree::new(rt, alloc, folder);
    let mut output = RealSink::output(rt);
    let mut notes = RealSink::notes(rt);
    let mut crew = InlineCrew::new(alloc);
    Ok(run_words(
        alloc,
        asked,
        &mut input,
        &mut tree,
        &mut output,
        &mut notes,
        &mut crew,
    ))
}

/// The folder that is asked for, or the current one.
fn folder_of(alloc: Global, asked: Result<Command<'_>, Usage>) -> Result<Text, NoMemory>
    ensures { IfOk asked.entry (λ command. IfOk result (λ folder. folder ≡ folder_of command)) }
{
    match asked {
        Ok(Command::Serve { folder }) => folder.copy(alloc),
        Err(Usage) => Text::new(alloc, b"."),
    }
}

/// The words of the command line, without the program's own name. Where one of them isn't UTF-8 there
/// are none, so that the usage is told.
fn program_words(rt: &(impl Env + AllocGlobal)) -> Result<Vec<Text>, NoMemory> {
    let mut words = Vec::new(rt.alloc());
    match env::args(rt) {
        Ok(arguments) => {
            for word in arguments.skip(1) {
                words.push(Text::from_vec(word.into_bytes()))?;
            }
        }
        Err(error) => {
            if error.kind() == ErrorKind::OutOfMemory {
                return Err(NoMemory);
            }
        }
    }
    Ok(words)
}
