//! Texts, each on a line of its own, by partition.
ghost use Rattle.std.specs.Prelude.{◌≡◌, ◌<◌, ◌++◌, [], if◌then◌else◌, length, map, codes, IfOk, OnOk};
ghost use Rattle.cluster_parts.specs.Hash.{hash};
ghost use Rattle.cluster_parts.specs.Keys.{remainders};
ghost use Rattle.cluster_parts.specs.Parts.{is_in};
ghost use Rattle.cluster_parts.specs.Terms.{line_list, lines_in};
ghost use Rattle.cluster_parts.specs.Known.{lines_part};
ghost use Rattle.cluster_parts.specs.Numbered.{text_at};

use crate::numbering::text_of;
use crate::partitions::is_in;
use crate::sealing::push_sealed;
use std::alloc::{AllocError, Global};
use text_dict::TextDict;

/// Appends a text on a line of its own.
pub(crate) fn push_line(out: &mut Vec<u8>, text: &[u8]) -> Result<(), AllocError>
    ensures appended { OnOk result (out.new.items ≡ out.old.items ++ (text.now ++ codes "\n")) }
{
    out.extend_from_slice(text)?;
    out.extend_from_slice(b"\n")
}

/// Returns all texts, each on a line of its own.
pub(crate) fn all_lines(alloc: Global, texts: &TextDict) -> Result<Vec<u8>, AllocError>
    ensures list { IfOk result (λ list. list.items ≡ line_list texts.now.texts) }
{
    let mut list = Vec::new(alloc);
    for n in 0..texts.len() as u64 {
        push_line(&mut list, texts.text(n))?;
    }
    Ok(list)
}

/// Appends the text with this number on a line of its own, if the partition has its hash. Other texts are not looked up.
fn push_if_in(
    out: &mut Vec<u8>,
    texts: &TextDict,
    n: u64,
    hash: u64,
    partitions: u64,
    number: u64,
) -> Result<(), AllocError>
    requires known { n < length texts.now.texts }
    requires some { 0 < partitions }
    ensures appended { OnOk result (out.new.items ≡ out.old.items
        ++ (if is_in partitions number hash then text_at texts.now.texts n ++ codes "\n" else [])) }
{
    if is_in(partitions, number, hash) {
        push_line(out, text_of(texts, n))?;
    }
    Ok(())
}

/// Returns the texts of a partition, each on a line of its own. `parts` are the numbers of their partitions.
fn lines_of_part(
    alloc: Global,
    texts: &TextDict,
    parts: &[u64],
    partitions: u64,
    number: u64,
) -> Result<Vec<u8>, AllocError>
    requires hashed { parts.now ≡ remainders partitions (map hash texts.now.texts) }
    requires some { 0 < partitions }
    ensures list { IfOk result
        (λ list. list.items ≡ line_list (lines_in partitions number texts.now.texts)) }
{
    let mut list = Vec::new(alloc);
    for n in 0..texts.len() as u64 {
        let part = parts[n as usize];
        push_if_in(&mut list, texts, n, part, partitions, number)?;
    }
    Ok(list)
}

/// Appends the sealed texts of a partition. `parts` are the numbers of the partitions of all texts.
pub(crate) fn push_lines_part(
    alloc: Global,
    out: &mut Vec<u8>,
    texts: &TextDict,
    parts: &[u64],
    partitions: u64,
    number: u64,
) -> Result<(), AllocError>
    requires hashed { parts.now ≡ remainders partitions (map hash texts.now.texts) }
    requires some { 0 < partitions }
    ensures appended { OnOk result
        (out.new.items ≡ out.old.items ++ lines_part partitions texts.now.texts number) }
{
    let part = lines_of_part(alloc, texts, parts, partitions, number)?;
    push_sealed(out, part.as_slice())
}
