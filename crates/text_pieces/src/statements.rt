//! The statements of a piece as numbers.
ghost use Rattle.std.specs.Prelude.{◌≡◌, ◌≤◌, [], length, map, vec_capacity, IfOk, IfSome};
ghost use Rattle.text_pieces.specs.Hashes.{hashes_of};
ghost use Rattle.text_pieces.specs.Slices.{AreNumbersOfAll, AreNumbersOfQuad, IsKnownName, IsKnownNode};

use crate::hashes::SliceHashes;
use crate::naming::{NamingFault, number_again, number_iri, number_name, number_slice};
use dict_core::NumQuad;
use nquads_core::RawStatement;
use std::alloc::Global;
use text_dict::TextDict;

/// A statement, and the numbers of its subject and of its graph label, if they are known.
#[derive(Clone, Copy)]
struct Last<'d> {
    raw: RawStatement<'d>,
    subject: Option<u64>,
    graph: Option<u64>,
}

/// Returns the numbers of the statements of a piece. Texts that the dictionary lacks are appended to the new texts.
pub(crate) fn number_statements(
    alloc: Global,
    dict: &TextDict,
    new: &mut TextDict,
    raws: &[RawStatement<'_>],
    hashes: &[SliceHashes],
) -> Result<Vec<NumQuad>, NamingFault>
    requires state { new.old.state ≡ dict.now.state }
    requires no_texts { new.old.texts ≡ [] }
    requires hashed { hashes.now ≡ map (hashes_of dict.now.state) raws.now }
    ensures numbered { IfOk result
        (λ v. AreNumbersOfAll dict.now.texts new.new.texts raws.now v.items) }
{
    let mut quads = Vec::with_capacity(alloc, raws.len())?;
    let mut form = Vec::new(alloc);
    let mut last = Last {
        raw: RawStatement {
            subject: "",
            predicate: "",
            object: "",
            graph: None,
        },
        subject: None,
        graph: None,
    };
    for i in 0..raws.len() {
        let raw = &raws[i];
        let quad = number_statement(dict, new, &mut form, &last, raw, &hashes[i])?;
        quads.push_reserved(quad);
        last = Last {
            raw: *raw,
            subject: Some(quad.s),
            graph: quad.g,
        };
    }
    Ok(quads)
}

/// Returns the numbers of a statement's terms. `last` is the statement before.
fn number_statement(
    dict: &TextDict,
    new: &mut TextDict,
    form: &mut Vec<u8>,
    last: &Last<'_>,
    raw: &RawStatement<'_>,
    hashes: &SliceHashes,
) -> Result<NumQuad, NamingFault>
    requires state { new.old.state ≡ dict.now.state }
    requires subject { IfSome last.now.subject
        (IsKnownNode dict.now.texts new.old.texts last.now.raw.subject.now) }
    requires graph { IfSome last.now.graph
        (IsKnownName dict.now.texts new.old.texts last.now.raw.graph) }
    requires hashed { hashes.now ≡ hashes_of dict.now.state raw.now }
    ensures state { new.new.state ≡ dict.now.state }
    ensures number { IfOk result
        (AreNumbersOfQuad dict.now.texts new.old.texts new.new.texts raw.now) }
    ensures subject { IfOk result (λ quad.
        IsKnownNode dict.now.texts new.new.texts raw.now.subject.now quad.s) }
    ensures graph { IfOk result (λ quad.
        IfSome quad.g (IsKnownName dict.now.texts new.new.texts raw.now.graph)) }
{
    let s = number_again(
        dict,
        new,
        form,
        last.raw.subject,
        last.subject,
        hashes.subject,
        raw.subject,
    )?;
    let p = number_iri(dict, new, form, hashes.predicate, raw.predicate)?;
    let o = number_slice(dict, new, form, hashes.object, raw.object)?;
    let g = match raw.graph {
        Some(name) => {
            Some(number_name(dict, new, form, &last.raw, last.graph, hashes.graph, name)?)
        }
        None => None,
    };
    Ok(NumQuad { g, s, p, o })
}
