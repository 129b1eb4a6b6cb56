ghost use Rattle.std.specs.Prelude.{◌≡◌, OnOk, OnErr};
ghost use Rattle.scq_collect.specs.Exports.{pieces_bytes};
ghost use Rattle.scq_outside.specs.Exports.{Rose};
ghost use Rattle.scq_service.specs.Exports.{written_with, WrotePart};

use scq_collect::Text;
use scq_outside::{Failed, Sink};

/// Writes all of the bytes, piece by piece. No bytes make no write.
pub fn write_all<K: Sink>(sink: &mut K, bytes: &[u8]) -> Result<(), Failed>
    ensures whole { OnOk result (K.written sink.new ≡ written_with (K.written sink.old) bytes.now) }
    ensures kept { OnOk result (K.faults sink.new ≡ K.faults sink.old) }

    // After a fault the sink has a front of the bytes.
    ensures part { WrotePart (K.written sink.old) (K.written sink.new) bytes.now }
    ensures rose { OnErr result (Rose (K.faults sink.old) (K.faults sink.new)) }
{
    let mut done = 0;
    while done < bytes.len() {
        done += sink.write(&bytes[done..])?;
    }
    Ok(())
}

/// Writes a text, piece by piece.
pub fn write_text<K: Sink>(sink: &mut K, text: &Text) -> Result<(), Failed>
    ensures whole { OnOk result (K.written sink.new ≡ written_with (K.written sink.old) text.now) }
    ensures kept { OnOk result (K.faults sink.new ≡ K.faults sink.old) }

    // After a fault the sink has a front of the bytes.
    ensures part { WrotePart (K.written sink.old) (K.written sink.new) text.now }
    ensures rose { OnErr result (Rose (K.faults sink.old) (K.faults sink.new)) }
{
    write_pieces(sink, text.pieces())
}

/// Writes all pieces, one behind the other.
fn write_pieces<K: Sink>(sink: &mut K, pieces: &[Vec<u8>]) -> Result<(), Failed>
    ensures whole { OnOk result (K.written sink.new
        ≡ written_with (K.written sink.old) (pieces_bytes pieces.now)) }
    ensures kept { OnOk result (K.faults sink.new ≡ K.faults sink.old) }

    // After a fault the sink has a front of the bytes.
    ensures part { WrotePart (K.written sink.old) (K.written sink.new) (pieces_bytes pieces.now) }
    ensures rose { OnErr result (Rose (K.faults sink.old) (K.faults sink.new)) }
{
    for piece in pieces {
        write_all(sink, piece.as_slice())?;
    }
    Ok(())
}
