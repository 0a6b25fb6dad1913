//! The quads of a block that a filter keeps.
ghost use Rattle.std.specs.Prelude.{◌≡◌, ℕ, List, IfErr, IfOk};
ghost use Rattle.rdf_core.specs.QuadParts.{QuadParts};
ghost use Rattle.nquads_core.specs.Lines.{lines};
ghost use Rattle.nquads_core.specs.Pieces.{HaveStatements, IsFirstMalformed};
ghost use Rattle.nquads_core.specs.declared.fault.PieceFault.TheVariants.{BadLine};
ghost use Rattle.quad_filter.specs.Filter.{keeps};
ghost use Rattle.quad_filter.specs.Kept.{IsKept};
ghost use Rattle.cluster_parts.specs.Numbered.{AreQuadsOf};
ghost use Rattle.cluster_parts.specs.Parts.{quad_document};

use crate::keyed::push_quad;
use crate::numbering::{NumberedLines, number_kept};
use nquads_core::PieceFault;
use quad_filter::QuadFilter;
use std::alloc::{AllocError, Global};
use std::hash::RandomState;

/// Returns the quads of a block as a document, in order and with repeats.
fn document_of(alloc: Global, block: &NumberedLines) -> Result<Vec<u8>, AllocError>
    requires read { (quads : List QuadParts) × AreQuadsOf quads block.now }
    ensures document { IfOk result (λ text. (quads : List QuadParts) → AreQuadsOf quads block.now
        → text.items ≡ quad_document quads) }
{
    let mut text = Vec::new(alloc);
    for i in 0..block.quads.len() {
        push_quad(&mut text, &block.texts, &block.quads[i])?;
    }
    Ok(text)
}

/// Reads a block of whole lines, and returns the quads that a filter keeps, and perhaps others of the block (`IsKept`), as a
/// document of canonical N-Quads.
///
/// # Errors
/// - `BadLine(k)` if line k of the block, counted from 0, is the first that is malformed.
/// - `Memory` if an allocation fails.
pub fn kept_quads(
    alloc: Global,
    state: RandomState,
    filter: &QuadFilter,
    block: &[u8],
) -> Result<Vec<u8>, PieceFault>
    ensures kept { IfOk result (λ out. (quads kept : List QuadParts) × HaveStatements (lines block.now) quads
        × IsKept (keeps filter.now) quads kept × (out.items ≡ quad_document kept)) }
    ensures bad_line { IfErr result
        (λ fault. (k : ℕ) → fault ≡ BadLine k → IsFirstMalformed (lines block.now) k) }
{
    let numbered = number_kept(alloc, state, filter, block)?;
    match document_of(alloc, &numbered) {
        Ok(text) => Ok(text),
        Err(_) => Err(PieceFault::Memory),
    }
}
