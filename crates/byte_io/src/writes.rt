ghost use Rattle.std.specs.Prelude.{◌≤◌, length, OnOk, OnErr};
ghost use Rattle.byte_io.specs.Faults.{HasCause};
ghost use Rattle.byte_io.specs.Sink.{HasRoom, Wrote, WrotePart};

use crate::{Failed, Sink};

/// Writes all of `bytes`, in as many writes as the sink takes.
///
/// # Errors
///
/// [`Failed`] where a write failed, after a prefix of the bytes was written.
pub fn write_all<K: Sink>(sink: &mut K, bytes: &[u8]) -> Result<(), Failed>
    requires { HasRoom (K.room sink.old) (length bytes.now) }
    ensures whole { OnOk result (Wrote (K.written sink.old) (K.written sink.new)
        (K.room sink.old) (K.room sink.new) bytes.now) }
    ensures part { OnErr result (WrotePart (K.written sink.old) (K.written sink.new)
        (K.room sink.old) (K.room sink.new) bytes.now) }
    ensures cause { HasCause (K.faults sink.old) (K.faults sink.new) result }
    ensures never_falls { K.faults sink.old ≤ K.faults sink.new }
{
    let mut at = 0;
    'writes: while at < bytes.len() {
        at += sink.write(&bytes[at..])?;
    }
    Ok(())
}
