//! A command over a reader and a writer.
ghost use Rattle.std.specs.Prelude.{◌≡◌, Err, IfErr, OnErr, OnOk};
ghost use Rattle.nquads_core.specs.Device.{Rises, Stays};
ghost use Rattle.nquads_core.specs.Transfer.{IsReadInPart};
ghost use Rattle.part_core.specs.Output.{HasPartitions};
ghost use Rattle.part_core.specs.Run.{HasFault, IsDone, IsWrittenInPart};
ghost use Rattle.part_core.specs.declared.fault.PartFault.TheVariants.{Read, Write};

use crate::command::Command;
use crate::composing::compose;
use crate::fault::PartFault;
use crate::reading::read_input;
use nquads_core::{Sink, Source, write_all};
use std::alloc::Global;
use std::hash::RandomState;

/// Runs a command over the rest of the reader. The output is written after the whole input was read.
///
/// # Requires
/// The command has at least one partition.
///
/// # Errors
/// - `Read` if the reader fails.
/// - `Write` if the writer fails, or takes no byte of a text that is not empty. A beginning of the output was written, and
///   not all of it.
/// - Those of [`compose`]. The reader was read to its end, unless the fault is `Memory`.
///
/// On every error, the bytes that were taken are a beginning of what the reader had left. On every error but `Write`, the writer is
/// unchanged. If the reader exposes how many of its calls failed, the count rises on `Read` and on no other result. If the
/// writer exposes it, the count is unchanged on every result but `Write`.
pub fn run<S: Source, K: Sink>(
    alloc: Global,
    state: RandomState,
    command: &Command,
    reader: &mut S,
    writer: &mut K,
) -> Result<(), PartFault>
    requires partitions { HasPartitions command.now }
    ensures done { OnOk result (IsDone command.now (S.left reader.old) (S.left reader.new)
        (K.held writer.old) (K.held writer.new)) }
    ensures fault { IfErr result (HasFault command.now (S.left reader.old) (S.left reader.new)) }
    ensures taken { OnErr result (IsReadInPart (S.left reader.old) (S.left reader.new)) }
    ensures read { result ≡ Err Read → Rises (S.failures reader.old) (S.failures reader.new) }
    ensures unfailed { (result ≡ Err Read → ⊥) → Stays (S.failures reader.old) (S.failures reader.new) }
    ensures write { result ≡ Err Write → IsWrittenInPart command.now (S.left reader.old) (S.left reader.new)
        K.held K.failures K.write_gives writer.old writer.new }
    ensures write_count { OnOk result (Stays (K.failures writer.old) (K.failures writer.new)) }
    ensures unwritten { (result ≡ Err Write → ⊥) → OnErr result (writer.new ≡ writer.old) }
{
    let input = match read_input(alloc, reader) {
        Ok(input) => input,
        Err(fault) => return Err(PartFault::of_read(fault)),
    };
    let output = match compose(alloc, state, command, input.as_slice()) {
        Ok(output) => output,
        Err(fault) => return Err(fault),
    };
    match write_all(writer, output.as_slice()) {
        Ok(()) => Ok(()),
        Err(_) => Err(PartFault::Write),
    }
}
