//! Reading the input.
ghost use Rattle.std.specs.Prelude.{◌≡◌, IfOk, OnErr, OnOk};
ghost use Rattle.std.specs.Io.KnownBytes.{Consumes, IsAtEnd};
ghost use Rattle.nquads_core.specs.Transfer.{CountsRead, IsReadInPart, ReadsMore};

use nquads_core::{ReadFault, Source};
use std::alloc::Global;

/// Appends the bytes of one read, and returns their number. It is 0 only at the end.
///
/// It reads at most 64 KiB, which is what a pipe holds.
fn read_more<S: Source>(reader: &mut S, bytes: &mut Vec<u8>) -> Result<usize, ReadFault>
    ensures more { IfOk result
        (ReadsMore (S.left reader.old) (S.left reader.new) bytes.old.items bytes.new.items) }
    ensures unchanged { OnErr result (bytes.new.items ≡ bytes.old.items) }
    ensures taken { OnErr result (IsReadInPart (S.left reader.old) (S.left reader.new)) }
    ensures count { CountsRead (S.failures reader.old) (S.failures reader.new) result }
{
    let mut chunk = [0u8; 65536];
    let Ok(n) = reader.read(&mut chunk) else {
        return Err(ReadFault::Read);
    };
    let Ok(()) = bytes.extend_from_slice(&chunk[..n]) else {
        return Err(ReadFault::Memory);
    };
    Ok(n)
}

/// Reads the rest of the reader.
pub(crate) fn read_input<S: Source>(alloc: Global, reader: &mut S) -> Result<Vec<u8>, ReadFault>
    ensures bytes { IfOk result (λ input. Consumes (S.left reader.old) (S.left reader.new) input.items) }
    ensures at_end { OnOk result (IsAtEnd (S.left reader.new)) }
    ensures taken { OnErr result (IsReadInPart (S.left reader.old) (S.left reader.new)) }
    ensures count { CountsRead (S.failures reader.old) (S.failures reader.new) result }
{
    let mut bytes = Vec::new(alloc);
    loop {
        match read_more(reader, &mut bytes) {
            Ok(0) => return Ok(bytes),
            Ok(_) => {}
            Err(fault) => return Err(fault),
        }
    }
}
