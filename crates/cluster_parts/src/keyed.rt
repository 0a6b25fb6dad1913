//! The quads of a block by partition, by a key of each quad.
ghost use Rattle.std.specs.Prelude.{◌≡◌, ◌<◌, ◌++◌, [], ℕ, List, Option, codes, filter, if◌then◌else◌, length, map, IfOk, OnOk};
ghost use Rattle.std.specs.Option.{ForSome};
ghost use Rattle.rdf_core.specs.QuadParts.{QuadParts};
ghost use Rattle.dict_core.specs.NumQuad.{IsBelow};
ghost use Rattle.cluster_parts.specs.Numbered.{AreQuadsOf, end_by_number, line_by_numbers, text_at};
ghost use Rattle.cluster_parts.specs.Keys.{is_chosen};
ghost use Rattle.cluster_parts.specs.Parts.{quad_document, texts_below};
ghost use Rattle.cluster_parts.specs.Output.{quads_part};

use crate::numbering::{NumberedLines, text_of};
use crate::partitions::is_in;
use crate::sealing::push_sealed;
use dict_core::NumQuad;
use std::alloc::{AllocError, Global};
use text_dict::TextDict;

/// Appends a text and a space.
fn push_spaced(out: &mut Vec<u8>, texts: &TextDict, number: u64) -> Result<(), AllocError>
    requires below { number < length texts.now.texts }
    ensures appended { OnOk result
        (out.new.items ≡ out.old.items ++ (text_at texts.now.texts number ++ codes " ")) }
{
    out.extend_from_slice(text_of(texts, number))?;
    out.push(b' ')?;
    Ok(())
}

/// Appends the graph name of a quad, if it has one, and the end of the line.
fn push_end(out: &mut Vec<u8>, texts: &TextDict, name: Option<u64>) -> Result<(), AllocError>
    requires below { ForSome name (λ n. n < length texts.now.texts) }
    ensures appended { OnOk result
        (out.new.items ≡ out.old.items ++ (end_by_number texts.now.texts name ++ codes "\n")) }
{
    if let Some(name) = name {
        push_spaced(out, texts, name)?;
    }
    out.extend_from_slice(b".\n")?;
    Ok(())
}

/// Appends a quad in canonical form.
pub(crate) fn push_quad(
    out: &mut Vec<u8>,
    texts: &TextDict,
    quad: &NumQuad,
) -> Result<(), AllocError>
    requires below { IsBelow (length texts.now.texts) quad.now }
    ensures appended { OnOk result
        (out.new.items ≡ out.old.items ++ line_by_numbers texts.now.texts quad.now) }
{
    push_spaced(out, texts, quad.s)?;
    push_spaced(out, texts, quad.p)?;
    push_spaced(out, texts, quad.o)?;
    push_end(out, texts, quad.g)?;
    Ok(())
}

/// Returns whether a part has the quads with this key. `number` is that of a partition, or None for the quads without a key.
fn is_chosen(partitions: u64, number: Option<u64>, key: Option<u64>) -> bool
    requires some { 0 < partitions }
    ensures value { result ≡ is_chosen partitions number key }
{
    match (number, key) {
        (Some(number), Some(key)) => is_in(partitions, number, key),
        (None, None) => true,
        _ => false,
    }
}

/// Appends a quad if the part has its key.
fn push_if_chosen(
    out: &mut Vec<u8>,
    texts: &TextDict,
    quad: &NumQuad,
    key: Option<u64>,
    partitions: u64,
    number: Option<u64>,
) -> Result<(), AllocError>
    requires below { IsBelow (length texts.now.texts) quad.now }
    requires some { 0 < partitions }
    ensures appended { OnOk result (out.new.items ≡ out.old.items
        ++ (if is_chosen partitions number key then line_by_numbers texts.now.texts quad.now else [])) }
{
    if is_chosen(partitions, number, key) {
        push_quad(out, texts, quad)?;
    }
    Ok(())
}

/// Returns the quads of a partition, or those without a key, as a document.
pub(crate) fn part_of(
    alloc: Global,
    block: &NumberedLines,
    keys: &[Option<u64>],
    partitions: u64,
    number: Option<u64>,
) -> Result<Vec<u8>, AllocError>
    requires read { (quads : List QuadParts) × AreQuadsOf quads block.now }
    requires all { length keys.now ≡ length block.now.quads.items }
    requires some { 0 < partitions }
    ensures part { IfOk result (λ text. (quads : List QuadParts) (key : QuadParts → Option ℕ)
        → AreQuadsOf quads block.now → keys.now ≡ map key quads
        → text.items ≡ quad_document (filter (λ q. is_chosen partitions number (key q)) quads)) }
{
    let mut text = Vec::new(alloc);
    for i in 0..block.quads.len() {
        push_if_chosen(
            &mut text,
            &block.texts,
            &block.quads[i],
            keys[i],
            partitions,
            number,
        )?;
    }
    Ok(text)
}

/// Appends the sealed parts of all partitions.
pub(crate) fn push_keyed_parts(
    alloc: Global,
    out: &mut Vec<u8>,
    block: &NumberedLines,
    keys: &[Option<u64>],
    partitions: u64,
) -> Result<(), AllocError>
    requires read { (quads : List QuadParts) × AreQuadsOf quads block.now }
    requires all { length keys.now ≡ length block.now.quads.items }
    requires some { 0 < partitions }
    ensures parts { OnOk result ((quads : List QuadParts) (key : QuadParts → Option ℕ)
        → AreQuadsOf quads block.now → keys.now ≡ map key quads
        → out.new.items ≡ out.old.items ++ texts_below (quads_part key partitions quads) partitions) }
{
    for number in 0..partitions {
        let part = part_of(alloc, block, keys, partitions, Some(number))?;
        push_sealed(out, part.as_slice())?;
    }
    Ok(())
}
