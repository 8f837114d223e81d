ghost use Rattle.std.specs.Prelude.{◌≡◌, ◌≢◌, ◌++◌, map, OnOk};
ghost use Rattle.std.specs.List.{AllPairs};
ghost use Rattle.reload_messages.specs.Cleared.{HasCleared, HasClearedOne};
ghost use Rattle.build_messages.specs.Outgoing.{outgoing_said};
ghost use Rattle.session_law.specs.Builds.{publication_said};
ghost use Rattle.task_stream.specs.Showing.{shows};

use build_messages::Outgoing;
use ob_text::NoMemory;
use std::collections::VecDeque;
use task_stream::{Piece, Shown, TableKey};

/// Clears what is shown at these keys, one after another.
pub(crate) fn clear_all(
    shown: &mut Shown,
    keys: &[TableKey],
    told: &mut VecDeque<Outgoing>,
) -> Result<(), NoMemory>
    requires { AllPairs ◌≢◌ keys.now }
    ensures { OnOk result (HasCleared (shows shown.old) (shows shown.new) keys.now (map outgoing_said told.old.items) (map outgoing_said told.new.items)) }
{
    for key in keys {
        clear_one(shown, key, told)?;
    }
    Ok(())
}

/// Clears what is shown at a key.
fn clear_one(
    shown: &mut Shown,
    key: &TableKey,
    told: &mut VecDeque<Outgoing>,
) -> Result<(), NoMemory>
    ensures { OnOk result (HasClearedOne (shows shown.old) (shows shown.new) key.now (map outgoing_said told.old.items) (map outgoing_said told.new.items)) }
{
    let pieces = shown.clear(key)?;
    say_all(pieces, told)
}

/// Puts some publications behind the others.
fn say_all(pieces: Vec<Piece>, told: &mut VecDeque<Outgoing>) -> Result<(), NoMemory>
    ensures { OnOk result (map outgoing_said told.new.items ≡ map outgoing_said told.old.items ++ map publication_said pieces.items) }
{
    for piece in pieces {
        told.push_back(Outgoing::Publication(piece))?;
    }
    Ok(())
}
