//! Reading a source to its end, and writing a whole text to a sink.
ghost use Rattle.std.specs.Prelude.{◌≡◌, IfOk, OnOk, OnErr, ◌⊎◌};
ghost use Rattle.std.specs.Io.KnownBytes.{Appends, Consumes, IsAtEnd};
ghost use Rattle.nquads_core.specs.Device.{Stays, Rises};
ghost use Rattle.nquads_core.specs.Transfer.{CountsRead, IsReadInPart, ReadsMore, TookNone, WroteBeginning};

use crate::device::{DeviceFailed, Sink, Source};
use std::alloc::Global;

/// Why a source was not read to its end.
#[derive(Clone, Copy, Debug, PartialEq, Eq)]
pub enum ReadFault {
    Read,
    Memory,
}

/// Reads all bytes that are left in the reader.
///
/// # Errors
/// - `Read` if the reader fails in this call. Bytes before that may have been taken from it.
/// - `Memory` if an allocation fails. Bytes may have been taken from the reader.
pub fn read_to_end<S: Source>(alloc: Global, reader: &mut S) -> Result<Vec<u8>, ReadFault>
    ensures bytes { IfOk result (λ bytes. Consumes (S.left reader.old) (S.left reader.new) bytes.items) }
    ensures at_end { OnOk result (IsAtEnd (S.left reader.new)) }
    ensures taken { OnErr result (IsReadInPart (S.left reader.old) (S.left reader.new)) }
    ensures count { CountsRead (S.failures reader.old) (S.failures reader.new) result }
{
    let mut bytes = Vec::new(alloc);
    loop {
        match read_more(reader, &mut bytes) {
            Ok(0) => return Ok(bytes),
            Ok(_) => {}
            Err(fault) => return Err(fault),
        }
    }
}

/// Appends the bytes of one read, and returns their number. It is 0 only at the end.
///
/// # Errors
/// - `Read` if the reader fails in this call. `bytes` is unchanged.
/// - `Memory` if an allocation fails. `bytes` is unchanged, and bytes may have been taken from the
///   reader.
pub fn read_more<S: Source>(reader: &mut S, bytes: &mut Vec<u8>) -> Result<usize, ReadFault>
    ensures more { IfOk result
        (ReadsMore (S.left reader.old) (S.left reader.new) bytes.old.items bytes.new.items) }
    ensures unchanged { OnErr result (bytes.new.items ≡ bytes.old.items) }
    ensures taken { OnErr result (IsReadInPart (S.left reader.old) (S.left reader.new)) }
    ensures count { CountsRead (S.failures reader.old) (S.failures reader.new) result }
{
    let mut chunk = [0u8; 8192];
    let Ok(n) = reader.read(&mut chunk) else {
        return Err(ReadFault::Read);
    };
    let Ok(()) = bytes.extend_from_slice(&chunk[..n]) else {
        return Err(ReadFault::Memory);
    };
    Ok(n)
}

/// Writes the whole text, with as many writes as the writer needs.
///
/// # Errors
/// `DeviceFailed`: the writer failed in this call, or took no byte of a text that was not empty. If it
/// failed, its count rose by one. If it took no byte, none of its calls failed, and it is as the last
/// call left it. Only a beginning of the text was written, and not all of it.
pub fn write_all<K: Sink>(writer: &mut K, text: &[u8]) -> Result<(), DeviceFailed>
    ensures ok { OnOk result (Appends (K.held writer.old) (K.held writer.new) text.now) }
    ensures ok_count { OnOk result (Stays (K.failures writer.old) (K.failures writer.new)) }
    ensures failed { OnErr result (WroteBeginning (K.held writer.old) (K.held writer.new) text.now) }
    ensures failed_count { OnErr result
        (Rises (K.failures writer.old) (K.failures writer.new)
        ⊎ (TookNone K.write_gives (K.held writer.old) (K.held writer.new) text.now writer.new
        × Stays (K.failures writer.old) (K.failures writer.new))) }
{
    let mut at = 0;
    while at < text.len() {
        let n = writer.write(&text[at..])?;
        if n == 0 {
            return Err(DeviceFailed);
        }
        at += n;
    }
    Ok(())
}
