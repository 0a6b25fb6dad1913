//! What `check` and `terms` print about a dataset.
ghost use Rattle.std.specs.Prelude.{◌≡◌, ◌++◌, IfOk, OnOk, decimal, length};
ghost use Rattle.spq_core.specs.Listing.{counts_line, text_lines};

use dataset_load::Counted;
use itoa::Buffer;
use std::alloc::{AllocError, Global};
use text_dict::TextDict;

fn push_number(text: &mut Vec<u8>, n: u64) -> Result<(), AllocError>
    ensures pushed { OnOk result (text.new.items ≡ text.old.items ++ decimal n) }
{
    let mut buffer = Buffer::new();
    text.extend_from_slice(buffer.format(n).as_bytes())
}

/// Returns the numbers of distinct quads, terms and graph names, as one line.
pub fn counts_text(alloc: Global, counted: &Counted) -> Result<Vec<u8>, AllocError>
    ensures text { IfOk result (λ text. text.items ≡ counts_line
        counted.now.quads (length counted.now.dict.texts) counted.now.graphs) }
{
    let mut text = Vec::new(alloc);
    text.extend_from_slice(b"ok ")?;
    push_number(&mut text, counted.quads)?;
    text.extend_from_slice(b" quads ")?;
    push_number(&mut text, counted.dict.len() as u64)?;
    text.extend_from_slice(b" terms ")?;
    push_number(&mut text, counted.graphs)?;
    text.extend_from_slice(b" graphs\n")?;
    Ok(text)
}

/// Returns the texts of a dictionary by number, each on its own line.
pub fn terms_text(alloc: Global, dict: &TextDict) -> Result<Vec<u8>, AllocError>
    ensures text { IfOk result (λ text. text.items ≡ text_lines dict.now.texts) }
{
    let mut text = Vec::new(alloc);
    for n in 0..dict.len() as u64 {
        text.extend_from_slice(dict.text(n))?;
        text.push(b'\n')?;
    }
    Ok(text)
}
