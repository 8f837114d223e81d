ghost use Rattle.std.specs.Prelude.{◌≡◌, OnOk, OnErr};
ghost use Rattle.bsp_edge.specs.Faults.{Rose};
ghost use Rattle.bsp_edge.specs.Streams.{Gives};
ghost use Rattle.bsp_cli.specs.Notes.{damaged_note, kind_name, note_of};
ghost use Rattle.bsp_cli.specs.Writing.{GivesFront};

use crate::outcome::{Ending, Outcome};
use crate::writing::{SinkFailed, write_all};
use bsp_edge::Sink;
use itoa::Buffer;
use rpc_frame::{Damage, DamageKind};

/// Writes the note that belongs to an outcome: where and how the input is damaged, that reading
/// failed, or the usage. Takes no memory.
#[tactic(auto, unfolding(crate::specs::Notes::failed_note, crate::specs::Notes::usage_note))]
pub fn write_note<K: Sink>(notes: &mut K, outcome: Outcome) -> Result<(), SinkFailed>
    ensures given { OnOk result (Gives (K.given notes.old) (K.given notes.new) (note_of outcome)) }
    ensures part { OnErr result (GivesFront (K.given notes.old) (K.given notes.new) (note_of outcome)) }
    ensures rose { OnErr result (Rose (K.faults notes.old) (K.faults notes.new)) }
{
    match outcome {
        Outcome::InputEnded(Ending::Damaged(damage)) => write_damage(notes, damage),
        Outcome::InputEnded(Ending::Failed) => write_all(notes, b"input failed\n"),
        Outcome::Unasked => write_all(
            notes,
            b"usage: oberon-bsp serve DIR [--workers N] [--record] | client SCRIPT | check | soak N\n",
        ),
        Outcome::Exited { closed: _ } | Outcome::InputEnded(Ending::Border) | Outcome::Stopped(_) =>
            { write_all(notes, b"") }
    }
}

fn write_damage<K: Sink>(notes: &mut K, damage: Damage) -> Result<(), SinkFailed>
    ensures given { OnOk result (Gives (K.given notes.old) (K.given notes.new)
        (damaged_note damage)) }
    ensures part { OnErr result (GivesFront (K.given notes.old) (K.given notes.new)
        (damaged_note damage)) }
    ensures rose { OnErr result (Rose (K.faults notes.old) (K.faults notes.new)) }
{
    let mut buffer = Buffer::new();
    let offset = buffer.format(damage.place).as_bytes();
    write_all(notes, b"damaged input at byte ")?;
    write_all(notes, offset)?;
    write_all(notes, b": ")?;
    write_all(notes, kind_name(damage.kind))?;
    write_all(notes, b"\n")
}

#[tactic(auto, unfolding(crate::specs::Notes::kind_name))]
fn kind_name(kind: DamageKind) -> &'static [u8]
    ensures { result.now ≡ kind_name kind }
{
    match kind {
        DamageKind::BadLine => b"bad line",
        DamageKind::TwoLengths => b"two lengths",
        DamageKind::BadLength => b"bad length",
        DamageKind::TooLong => b"too long",
        DamageKind::NoLength => b"no length",
        DamageKind::HeaderTooLong => b"header too long",
        DamageKind::Truncated => b"truncated",
    }
}
