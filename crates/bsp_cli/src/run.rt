ghost use Rattle.std.specs.Prelude.{◌≡◌, ◌≤◌, ◌⊎◌, false, None, OnOk, OnErr, IsErr};
ghost use Rattle.bsp_edge.specs.Faults.{Rose};
ghost use Rattle.bsp_cli.specs.Notes.{Noted, note_of};
ghost use Rattle.bsp_cli.specs.Outcomes.{code_of, status_by};
ghost use Rattle.bsp_cli.specs.Served.{Idle, Served};
ghost use Rattle.bsp_cli.specs.Session.{changed, crew_changed, input_changed, tree_changed};
ghost use Rattle.bsp_cli.specs.Shares.{IsDismissed};
ghost use Rattle.worker_pool.specs.Crews.{IsFresh};

use crate::notes::write_note;
use crate::outcome::Outcome;
use crate::serve::serve;
use crate::status::Status;
use crate::stop::Stop;
use crate::words::{Command, Usage};
use crate::writing::SinkFailed;
use bsp_edge::{Sink, Source, Tree};
use std::alloc::Global;
use worker_pool::Crew;

/// How a run ended, and how many bytes of its input it acted on.
#[derive(Clone, Copy, Debug, PartialEq, Eq)]
pub struct Ended {
    pub status: Status,
    pub taken: u64,
}

/// Runs the program on what the words of its command line ask for, as `read_words` reads them. The folder
/// is the tree's, which the caller makes of it.
pub fn run_words<S: Source, T: Tree, K: Sink, C: Crew>(
    alloc: Global,
    asked: Result<Command<'_>, Usage>,
    input: &mut S,
    tree: &mut T,
    output: &mut K,
    notes: &mut K,
    crew: &mut C,
) -> Ended
    requires { IsFresh (C.sight crew.old) }

    // The bytes taken, what the tree handed out and the bytes written are the takes, the hands and
    // the writes of one lawful order, and the notes tell the damage that ended it. Where the source tells its
    // quiet offsets and where its pieces began, the same order says that more input was waited for only where no
    // request was open, and that what the frames before the last piece owed at once was written.
    ensures session { OnOk asked.entry (Served
        (input_changed (S.left input.old) (S.left input.new) (S.course input.old) (S.course input.new)
        (S.faults input.old) (S.faults input.new))
        (tree_changed (T.handed tree.old) (T.handed tree.new) (T.faults tree.old) (T.faults tree.new))
        (changed (K.given output.old) (K.given output.new) (K.faults output.old) (K.faults output.new))
        (changed (K.given notes.old) (K.given notes.new) (K.faults notes.old) (K.faults notes.new))
        (crew_changed (C.sight crew.old).collected (C.sight crew.new).collected)
        (code_of result.status) result.taken) }

    // Other words read nothing, ask the tree nothing and write nothing.
    ensures idle { OnErr asked.entry (Idle
        (input_changed (S.left input.old) (S.left input.new) (S.course input.old) (S.course input.new)
        (S.faults input.old) (S.faults input.new))
        (tree_changed (T.handed tree.old) (T.handed tree.new) (T.faults tree.old) (T.faults tree.new))
        (changed (K.given output.old) (K.given output.new) (K.faults output.old) (K.faults output.new))
        (changed (K.given notes.old) (K.given notes.new) (K.faults notes.old) (K.faults notes.new))
        (code_of result.status) result.taken) }
    ensures usage { code_of result.status ≡ 6 → IsErr asked.entry }

    // Why a run fails that isn't the client's fault.
    ensures input { code_of result.status ≡ 3 → Rose (S.faults input.old) (S.faults input.new) }
    ensures sink { code_of result.status ≡ 4 → Rose (K.faults output.old) (K.faults output.new)
        ⊎ Rose (K.faults notes.old) (K.faults notes.new) }

    // A session that nothing outside failed ends as its client has it, or for want of memory.
    ensures complete { OnOk asked.entry ((Rose (S.faults input.old) (S.faults input.new) → ⊥)
        → (Rose (K.faults output.old) (K.faults output.new) → ⊥)
        → (Rose (K.faults notes.old) (K.faults notes.new) → ⊥)
        → (code_of result.status ≤ 2) ⊎ (code_of result.status ≡ 5)) }

    // Whatever the words, the crew is dismissed.
    ensures crew { IsDismissed (C.sight crew.new) }
{
    let ended = run_asked(alloc, asked, input, tree, output, notes, crew);
    crew.finish();
    ended
}

/// The same, with a crew that isn't dismissed yet.
fn run_asked<S: Source, T: Tree, K: Sink, C: Crew>(
    alloc: Global,
    asked: Result<Command<'_>, Usage>,
    input: &mut S,
    tree: &mut T,
    output: &mut K,
    notes: &mut K,
    crew: &mut C,
) -> Ended
    requires { IsFresh (C.sight crew.old) }
    ensures session { OnOk asked.entry (Served
        (input_changed (S.left input.old) (S.left input.new) (S.course input.old) (S.course input.new)
        (S.faults input.old) (S.faults input.new))
        (tree_changed (T.handed tree.old) (T.handed tree.new) (T.faults tree.old) (T.faults tree.new))
        (changed (K.given output.old) (K.given output.new) (K.faults output.old) (K.faults output.new))
        (changed (K.given notes.old) (K.given notes.new) (K.faults notes.old) (K.faults notes.new))
        (crew_changed (C.sight crew.old).collected (C.sight crew.new).collected)
        (code_of result.status) result.taken) }
    ensures idle { OnErr asked.entry (Idle
        (input_changed (S.left input.old) (S.left input.new) (S.course input.old) (S.course input.new)
        (S.faults input.old) (S.faults input.new))
        (tree_changed (T.handed tree.old) (T.handed tree.new) (T.faults tree.old) (T.faults tree.new))
        (changed (K.given output.old) (K.given output.new) (K.faults output.old) (K.faults output.new))
        (changed (K.given notes.old) (K.given notes.new) (K.faults notes.old) (K.faults notes.new))
        (code_of result.status) result.taken) }
    ensures usage { code_of result.status ≡ 6 → IsErr asked.entry }
    ensures input { code_of result.status ≡ 3 → Rose (S.faults input.old) (S.faults input.new) }
    ensures sink { code_of result.status ≡ 4 → Rose (K.faults output.old) (K.faults output.new)
        ⊎ Rose (K.faults notes.old) (K.faults notes.new) }
    ensures within { OnOk asked.entry (code_of result.status ≤ 5) }
    ensures going { (C.sight crew.new).finished ≡ false }
    ensures free { (C.sight crew.new).hand ≡ None }
{
    match asked {
        Ok(Command::Serve { folder: _ }) => {
            let served = serve(alloc, input, tree, crew, output);
            Ended {
                status: note(notes, served.outcome),
                taken: served.taken,
            }
        }
        Err(Usage) => Ended {
            status: note(notes, Outcome::Unasked),
            taken: 0,
        },
    }
}

/// Says what belongs to the outcome, and answers the status that the run ends with.
fn note<K: Sink>(notes: &mut K, outcome: Outcome) -> Status
    ensures { Noted
        (changed (K.given notes.old) (K.given notes.new) (K.faults notes.old) (K.faults notes.new))
        (note_of outcome) (status_by outcome) (code_of result) }
{
    match write_note(notes, outcome) {
        Ok(()) => outcome.status(),
        Err(SinkFailed) => Outcome::Stopped(Stop::Sink).status(),
    }
}
