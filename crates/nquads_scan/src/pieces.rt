//! The statements of a piece as slices of it.

ghost use Rattle.std.specs.Prelude.{◌≡◌, ◌++◌, length, IfOk, IfSome, OnOk, option_to_list};
ghost use Rattle.nquads_core.specs.Lines.{lines};
ghost use Rattle.nquads_core.specs.Splitting.{AreStatements};

use crate::statement::cut_line;
use nquads_core::RawStatement;
use std::alloc::{AllocError, Global};

/// The statements of a piece as slices of it, and the number of its lines.
#[derive(Drop)]
pub struct SplitPiece<'a> {
    /// The slices of its statements, in order, with repeats.
    pub statements: Vec<RawStatement<'a>>,
    /// The number of its lines, including those without a statement.
    pub lines: u64,
}

/// Appends a statement, if there is one.
#[inline(always)]
fn add_statement<'a>(
    statements: &mut Vec<RawStatement<'a>>,
    statement: Option<RawStatement<'a>>,
) -> Result<(), AllocError>
    ensures { OnOk result (statements.new.items ≡ statements.old.items ++ option_to_list statement.entry) }
{
    if let Some(statement) = statement {
        statements.push(statement)?;
    }
    Ok(())
}

/// Splits a piece of an N-Quads document into the slices of its statements, in order, with repeats, and counts its
/// lines (RDF 1.1 N-Quads, [1] `nquadsDoc`). A line without a statement has no slices.
///
/// It takes every layout of the grammar: any blanks or none between terms, comments, blank lines, and LF, CR LF or a
/// lone CR as a line end. Only a blank inside a literal, before or after `^^` or before `@`, is not taken.
///
/// The terms are not checked. If each slice denotes a term that is allowed at its place, the lines of the piece hold
/// the quads of these terms. `read_piece` of nquads_core would read the same quads.
///
/// Returns `None` if a line is not laid out as a statement, or the piece is not UTF-8. `read_piece` then decides.
///
/// # Errors
/// `AllocError` if an allocation fails.
pub fn split_piece(alloc: Global, bytes: &[u8]) -> Result<Option<SplitPiece<'_>>, AllocError>
    ensures statements { IfOk result (λ split. IfSome split
        (λ piece. AreStatements (lines bytes.now) piece.statements.items)) }
    ensures lines { IfOk result (λ split. IfSome split
        (λ piece. piece.lines ≡ length (lines bytes.now))) }
{
    let Ok(text) = simdutf8::basic::from_utf8(bytes) else {
        return Ok(None);
    };
    let mut statements = Vec::new(alloc);
    let mut count = 0u64;
    let mut rest = text;
    while !rest.is_empty() {
        let Some((statement, after)) = cut_line(rest) else {
            return Ok(None);
        };
        add_statement(&mut statements, statement)?;
        count += 1;
        rest = after;
    }
    Ok(Some(SplitPiece {
        statements,
        lines: count,
    }))
}
