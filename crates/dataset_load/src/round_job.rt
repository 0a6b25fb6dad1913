//! A piece of a document, read against the dictionary of the rounds before.
ghost use Rattle.std.specs.Prelude.{◌≡◌, IfOk, IfErr};
ghost use Rattle.nquads_core.specs.Lines.{lines};
ghost use Rattle.nquads_core.specs.Pieces.{IsFirstMalformed};
ghost use Rattle.piece_pool.specs.Job.{IfOwn};
ghost use Rattle.text_pieces.specs.Pieces.{IsRead};
ghost use Rattle.dataset_load.specs.Lines.{text_at};

use nquads_core::PieceFault;
use piece_pool::{Job, JobFault};
use quad_filter::QuadFilter;
use std::alloc::Global;
use std::hash::RandomState;
use text_dict::TextDict;
use text_pieces::{TextPiece, read_lines};

/// The pieces of a round, each to be read through the filter and looked up in the dictionary of the rounds before.
#[derive(Drop)]
pub(crate) struct RoundJob<'d> {
    pub(crate) pieces: &'d [&'d [u8]],
    pub(crate) dict: &'d TextDict,
    pub(crate) filter: &'d QuadFilter,
    pub(crate) state: RandomState,
}

impl<'d> Job for RoundJob<'d> {
    ghost use Rattle.nquads_core.specs.Lines.{lines};
    ghost use Rattle.nquads_core.specs.Pieces.{IsFirstMalformed};
    ghost use Rattle.dataset_load.specs.Lines.{text_at};
    ghost use Rattle.text_pieces.specs.Pieces.{IsRead};
    ghost use Rattle.dataset_load.specs.Rounds.{not_both};

    type Out = TextPiece;

    type Fault = u64;

    ghost answers = { λ job i out.
        IsRead job.filter.now job.dict.now.texts (text_at job.pieces.now i) out };

    ghost faults = { λ job i line. IsFirstMalformed (lines (text_at job.pieces.now i)) line };

    fn run(&self, alloc: Global, i: u64) -> Result<TextPiece, JobFault<u64>> {
        read_against(
            alloc,
            self.state,
            self.dict,
            self.filter,
            piece_at(self.pieces, i),
        )
    }

    ghost exclusive = { λ job i out line read bad. not_both _ _ _ read.statements bad };
}

/// Returns the piece with this number, or no bytes if there is none.
pub(crate) fn piece_at<'d>(pieces: &[&'d [u8]], i: u64) -> &'d [u8]
    ensures bytes { result.now ≡ text_at pieces.now i }
{
    if i < pieces.len() as u64 {
        pieces[i as usize]
    } else {
        &[]
    }
}

/// Reads a piece against the dictionary of the rounds before.
fn read_against(
    alloc: Global,
    state: RandomState,
    dict: &TextDict,
    filter: &QuadFilter,
    bytes: &[u8],
) -> Result<TextPiece, JobFault<u64>>
    ensures read { IfOk result (IsRead filter.now dict.now.texts bytes.now) }
    ensures bad { IfErr result (IfOwn (IsFirstMalformed (lines bytes.now))) }
{
    match read_lines(alloc, state, dict, filter, bytes) {
        Ok(piece) => Ok(piece),
        Err(PieceFault::BadLine(line)) => Err(JobFault::Own(line)),
        Err(PieceFault::Memory) => Err(JobFault::Memory),
    }
}
