ghost use Rattle.std.specs.Prelude.{◌≡◌, OnOk, OnErr};
ghost use Rattle.bsp_edge.specs.Faults.{Rose};
ghost use Rattle.bsp_edge.specs.Streams.{Gives};
ghost use Rattle.bsp_cli.specs.Writing.{GivesFront};

use bsp_edge::{Put, Sink};

/// The sink failed.
#[derive(Clone, Copy, Debug, PartialEq, Eq)]
pub struct SinkFailed;

/// Gives a sink all the bytes.
pub fn write_all<K: Sink>(output: &mut K, bytes: &[u8]) -> Result<(), SinkFailed>
    ensures given { OnOk result (Gives (K.given output.old) (K.given output.new) bytes.now) }
    ensures part { OnErr result (GivesFront (K.given output.old) (K.given output.new) bytes.now) }
    ensures rose { OnErr result (Rose (K.faults output.old) (K.faults output.new)) }
    ensures same { OnOk result (K.faults output.new ≡ K.faults output.old) }
{
    let mut rest = bytes;
    'pieces: while !rest.is_empty() {
        match output.write(rest) {
            Put::Took(count) => rest = rest.split_at(count).1,
            Put::Failed => return Err(SinkFailed),
        }
    }
    Ok(())
}
