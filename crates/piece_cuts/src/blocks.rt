//! A document that is read in blocks.
ghost use Rattle.std.specs.Prelude.{◌≡◌, ◌≢◌, ◌≤◌, ◌⊎◌, [], drop, length, take, IfOk, MatchOption, OnErr, OnOk};
ghost use Rattle.std.specs.Io.KnownBytes.{IsAtEnd};
ghost use Rattle.nquads_core.specs.Transfer.{CountsRead, IsReadInPart};
ghost use Rattle.piece_cuts.specs.Blocks.{Grows, HasNoCutUpTo};
ghost use Rattle.piece_cuts.specs.Cuts.{IsNextCut, HasNoNextCut};

use crate::places::next_cut;
use nquads_core::{ReadFault, Source, read_more};
use std::alloc::{AllocError, Global};
use std::marker::Model;
use std::mem;

/// What the next call of [`Blocks::next`] returns. No call returns this type; in contracts it is
/// the field `state` of [`Blocks`].
#[derive(Clone, Copy)]
pub enum BlockState {
    /// The next block.
    Reading,
    /// None: the document has ended.
    Ended,
    /// This fault.
    Failed(ReadFault),
}

/// A document that is read piece by piece. Each block is one piece; the pieces are those of
/// `Cuts::every` of the document, in order.
///
/// In contracts this type is the size, the bytes that were read and not yet returned, and what the
/// next call returns.
#[derive(Drop)]
pub struct Blocks {
    alloc: Global,
    size: usize,
    kept: Vec<u8>,
    spare: Vec<Vec<u8>>,
    state: BlockState,
}

impl Model for Blocks {
    ghost use Rattle.std.specs.Prelude.{◌≤◌};
    ghost use Rattle.piece_cuts.specs.Blocks.{BlocksView};

    ghost Value = { BlocksView };

    ghost view = { λ b. record { size = b.size; kept = b.kept.items; state = b.state } };

    ghost invariant = { λ b. 1 ≤ b.size };
}

impl Blocks {
    ghost use Rattle.piece_cuts.specs.Blocks.{GivesKnownBlock, IsWhole, state_after};

    /// Creates the blocks of a document, without reading anything. Each block has at least `size`
    /// bytes, except the last one.
    ///
    /// # Requires
    /// `size` is 1 or more.
    ///
    /// # Errors
    /// `AllocError` if an allocation fails.
    pub fn new(alloc: Global, size: usize) -> Result<Blocks, AllocError>
        requires some { 1 ≤ size }
        ensures fresh { IfOk result
            (λ b. b ≡ record { size = size; kept = []; state = BlockState.Reading }) }
    {
        Ok(Blocks {
            alloc,
            size,
            kept: Vec::new(alloc),
            spare: Vec::new(alloc),
            state: BlockState::Reading,
        })
    }

    /// Returns the next block of the document. It is the first piece of the bytes that are buffered
    /// and those that the reader still has. Returns None if no bytes are left; each later call then
    /// returns None. A block without a line feed at its end is returned only if the reader has
    /// ended, and so is None.
    ///
    /// # Errors
    /// - `Read` if the reader failed, in this call or in an earlier one.
    /// - `Memory` if an allocation fails, in this call or in an earlier one.
    ///
    /// Each later call returns the same fault and reads nothing. Bytes that were read and not
    /// returned are lost.
    pub fn next<S: Source>(&mut self, reader: &mut S) -> Result<Option<Vec<u8>>, ReadFault>
        ensures size { self.new.size ≡ self.old.size }
        ensures block { self.old.state ≡ BlockState.Reading → GivesKnownBlock self.old.size
            self.old.kept (S.left reader.old) self.new.kept (S.left reader.new) result }
        ensures last { self.old.state ≡ BlockState.Reading → IfOk result
            (λ block. IsWhole block ⊎ IsAtEnd (S.left reader.new)) }
        ensures state { self.old.state ≡ BlockState.Reading → self.new.state ≡ state_after result }
        ensures taken { self.old.state ≡ BlockState.Reading
            → OnErr result (IsReadInPart (S.left reader.old) (S.left reader.new)) }
        ensures count { self.old.state ≡ BlockState.Reading
            → CountsRead (S.failures reader.old) (S.failures reader.new) result }
        ensures unread { self.old.state ≢ BlockState.Reading → reader.new ≡ reader.old }
        ensures ended { self.old.state ≡ BlockState.Ended
            → (result ≡ Ok None) × (self.new ≡ self.old) }
        ensures failed { (fault : _) → self.old.state ≡ BlockState.Failed fault
            → (result ≡ Err fault) × (self.new ≡ self.old) }
    {
        match self.state {
            BlockState::Ended => return Ok(None),
            BlockState::Failed(fault) => return Err(fault),
            BlockState::Reading => {}
        }
        match first_cut(reader, &mut self.kept, self.size) {
            Ok(Some(place)) => {
                let buffer = self.spare.pop().unwrap_or(Vec::new(self.alloc));
                let Ok(block) = take_front(&mut self.kept, place, buffer) else {
                    self.state = BlockState::Failed(ReadFault::Memory);
                    return Err(ReadFault::Memory);
                };
                Ok(Some(block))
            }
            Ok(None) => {
                if self.kept.is_empty() {
                    self.state = BlockState::Ended;
                    return Ok(None);
                }
                let block = mem::replace(&mut self.kept, Vec::new(self.alloc));
                Ok(Some(block))
            }
            Err(fault) => {
                self.state = BlockState::Failed(fault);
                Err(fault)
            }
        }
    }

    /// Uses the memory of these blocks for blocks to come. Their bytes are lost.
    pub fn reuse(&mut self, blocks: Vec<Vec<u8>>)
        ensures same { self.new ≡ self.old }
    {
        self.spare = blocks;
    }
}

/// Takes the first bytes. The bytes after them are moved into the buffer, which is then the one that is kept.
///
/// # Errors
/// `AllocError` if an allocation fails.
fn take_front(kept: &mut Vec<u8>, place: usize, buffer: Vec<u8>) -> Result<Vec<u8>, AllocError>
    requires inside { place ≤ length kept.old.items }
    ensures front { IfOk result (λ block. block.items ≡ take place kept.old.items) }
    ensures rest { OnOk result (kept.new.items ≡ drop place kept.old.items) }
{
    let mut rest = buffer;
    rest.clear();
    rest.extend_from_slice(&kept[place..])?;
    let mut block = mem::replace(kept, rest);
    block.truncate(place);
    if block.len() < block.capacity() / 4 {
        block.shrink_to_fit();
    }
    Ok(block)
}

/// Reads until the buffer has a first cut, or to the end of the reader. Bytes are searched once,
/// except the last byte of each read. The time for a long line is thus proportional to its length.
fn first_cut<S: Source>(
    reader: &mut S,
    kept: &mut Vec<u8>,
    size: usize,
) -> Result<Option<usize>, ReadFault>
    requires some { 1 ≤ size }
    ensures grows { IfOk result
        (λ _. Grows (S.left reader.old) (S.left reader.new) kept.old.items kept.new.items) }
    ensures cut { IfOk result (λ r. MatchOption r
        (HasNoNextCut kept.new.items size 0 × IsAtEnd (S.left reader.new))
        (IsNextCut kept.new.items size 0)) }
    ensures taken { OnErr result (IsReadInPart (S.left reader.old) (S.left reader.new)) }
    ensures count { CountsRead (S.failures reader.old) (S.failures reader.new) result }
{
    let mut searched = size;
    loop {
        if let Some(place) = next_cut(kept, 0, searched) {
            return Ok(Some(place));
        }
        searched = searched.max(kept.len());
        match read_more(reader, kept) {
            Ok(0) => return Ok(None),
            Ok(_) => {}
            Err(fault) => return Err(fault),
        }
    }
}
