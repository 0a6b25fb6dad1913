//! Reading a line.

ghost use Rattle.std.specs.Prelude.{◌≡◌, Err, IfOk, option_map};
ghost use Rattle.rdf_core.specs.QuadParts.{parts_of};
ghost use Rattle.nquads_core.specs.Grammar.{HasStatement, IsMalformed};
ghost use Rattle.nquads_core.specs.declared.fault.LineFault.TheVariants.{Bad};

use crate::fault::LineFault;
use crate::statement::read_text;
use memchr::memchr2;
use rdf_core::Quad;
use std::alloc::Global;

/// Reads one line of an N-Quads document, given without its line end (RDF 1.1 N-Quads, [2] `statement`).
///
/// Ok is the quad of the line's statement, or None for blanks and perhaps a comment.
///
/// # Errors
/// - `Bad` if the line is malformed. A line that is not UTF-8, or that contains LF or CR, is malformed.
/// - `Memory` if an allocation fails.
pub fn read_line(alloc: Global, line: &[u8]) -> Result<Option<Quad>, LineFault>
    ensures has_statement { IfOk result
        (λ quad. HasStatement line.now (option_map parts_of quad)) }
    ensures bad { (result ≡ Err Bad) → IsMalformed line.now }
{
    if let Some(_) = memchr2(b'\n', b'\r', line) {
        return Err(LineFault::Bad);
    }
    let Ok(text) = simdutf8::basic::from_utf8(line) else {
        return Err(LineFault::Bad);
    };
    read_text(alloc, text)
}
