//! Writing a text.
ghost use Rattle.std.specs.Prelude.{OnErr, OnOk};
ghost use Rattle.std.specs.Io.KnownBytes.{Appends};
ghost use Rattle.nquads_core.specs.Device.{Stays};
ghost use Rattle.nquads_core.specs.Transfer.{WroteBeginning};
ghost use Rattle.spq_run.specs.Writing.{WriterFailed};

use nquads_core::{DeviceFailed, Sink, write_all};

/// Writes a text.
///
/// # Errors
/// `DeviceFailed` if the writer fails, or if a write takes no byte. A beginning of the text is written
/// then, and not all of it.
pub fn write_text<K: Sink>(writer: &mut K, text: &[u8]) -> Result<(), DeviceFailed>
    ensures written { OnOk result (Appends (K.held writer.old) (K.held writer.new) text.now) }
    ensures written_count { OnOk result (Stays (K.failures writer.old) (K.failures writer.new)) }
    ensures failed { OnErr result
        (WroteBeginning (K.held writer.old) (K.held writer.new) text.now) }
    ensures failed_count { OnErr result
        (WriterFailed K.write_gives (K.failures writer.old) (K.failures writer.new)
        (K.held writer.old) (K.held writer.new) text.now writer.new) }
{
    write_all(writer, text)
}
