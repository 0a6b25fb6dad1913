//! Terms, as `spq select` prints them (SPARQL 1.1 Query Results JSON Format, section 3.2.2).
ghost use Rattle.std.specs.Prelude.{◌≡◌, ◌++◌, codes, Some, IfErr, IfOk};
ghost use Rattle.result_json.specs.Results.{string_text, term_text};
ghost use Rattle.result_merge.specs.Absent.{IsNoFramed, IsNoLiteral, IsNoTerm, IsNoText, IsNoTyped};
ghost use Rattle.result_merge.specs.Reading.{literal_start};
ghost use Rattle.result_merge.specs.Tags.{HasTagType};
ghost use Rattle.result_merge.specs.declared.fault.MergeFault.TheVariants.{Damaged, Memory};

use crate::fault::MergeFault;
use crate::strings::{after, begins_with, read_string, stripped};
use rdf_core::vocabulary::{RDF_LANG_STRING, XSD_STRING};
use rdf_core::{Term, Text};
use std::alloc::Global;

/// Reads a prefix, and the string after it.
fn read_text<'a>(
    alloc: Global,
    bytes: &'a [u8],
    before: &[u8],
) -> Result<(Text, &'a [u8]), MergeFault>
    ensures parts { IfOk result (λ r. bytes.now ≡ before.now ++ (string_text r.0 ++ r.1.now)) }
    ensures damaged { IfErr result (λ fault. fault ≡ Damaged → IsNoText before.now bytes.now) }
{
    let rest = after(bytes, before)?;
    let (text, end) = read_string(alloc, rest)?;
    Ok((text, end))
}

/// Reads a string between two texts.
fn read_framed<'a>(
    alloc: Global,
    bytes: &'a [u8],
    before: &[u8],
    end: &[u8],
) -> Result<(Text, &'a [u8]), MergeFault>
    ensures parts { IfOk result (λ r. bytes.now ≡ before.now ++ (string_text r.0 ++ (end.now ++ r.1.now))) }
    ensures damaged { IfErr result (λ fault. fault ≡ Damaged → IsNoFramed before.now end.now bytes.now) }
{
    let (text, closing) = read_text(alloc, bytes, before)?;
    let rest = after(closing, end)?;
    Ok((text, rest))
}

/// Reads a blank node.
fn read_blank<'a>(alloc: Global, bytes: &'a [u8]) -> Result<(Term, &'a [u8]), MergeFault>
    ensures parts { IfOk result (λ r. bytes.now ≡ term_text r.0 ++ r.1.now) }
    ensures tagged { IfOk result (λ r. HasTagType (Some r.0)) }
    ensures damaged { IfErr result (λ fault. fault ≡ Damaged
        → IsNoFramed (codes "{\"type\":\"bnode\",\"value\":") (codes "}") bytes.now) }
{
    let (label, end) = read_framed(alloc, bytes, b"{\"type\":\"bnode\",\"value\":", b"}")?;
    Ok((Term::Blank(label), end))
}

/// Reads an IRI.
fn read_iri<'a>(alloc: Global, bytes: &'a [u8]) -> Result<(Term, &'a [u8]), MergeFault>
    ensures parts { IfOk result (λ r. bytes.now ≡ term_text r.0 ++ r.1.now) }
    ensures tagged { IfOk result (λ r. HasTagType (Some r.0)) }
    ensures damaged { IfErr result (λ fault. fault ≡ Damaged
        → IsNoFramed (codes "{\"type\":\"uri\",\"value\":") (codes "}") bytes.now) }
{
    let (text, end) = read_framed(alloc, bytes, b"{\"type\":\"uri\",\"value\":", b"}")?;
    Ok((Term::Iri(text), end))
}

/// Reads the language tag after a lexical form.
fn read_tagged<'a>(
    alloc: Global,
    bytes: &'a [u8],
    lexical: Text,
    rest: &'a [u8],
) -> Result<(Term, &'a [u8]), MergeFault>
    requires read { bytes.now ≡ literal_start ++ (string_text lexical ++ rest.now) }
    ensures parts { IfOk result (λ r. bytes.now ≡ term_text r.0 ++ r.1.now) }
    ensures tagged { IfOk result (λ r. HasTagType (Some r.0)) }
    ensures damaged { IfErr result (λ fault. fault ≡ Damaged
        → IsNoFramed (codes ",\"xml:lang\":") (codes "}") rest.now) }
{
    let (tag, end) = read_framed(alloc, rest, b",\"xml:lang\":", b"}")?;
    let datatype = Text::from_string(String::from_str(alloc, RDF_LANG_STRING)?);
    Ok((
        Term::Literal {
            lexical,
            datatype,
            tag: Some(tag),
        },
        end,
    ))
}

/// Returns a literal of xsd:string.
fn plain_literal(alloc: Global, lexical: Text) -> Result<Term, MergeFault>
    ensures text { IfOk result (λ term. term_text term ≡ literal_start ++ (string_text lexical ++ codes "}")) }
    ensures tagged { IfOk result (λ term. HasTagType (Some term)) }
    ensures memory { IfErr result (λ fault. fault ≡ Memory) }
{
    let datatype = Text::from_string(String::from_str(alloc, XSD_STRING)?);
    Ok(Term::Literal {
        lexical,
        datatype,
        tag: None,
    })
}

/// Returns a literal of xsd:string, and the rest.
fn read_untagged<'a>(
    alloc: Global,
    bytes: &'a [u8],
    lexical: Text,
    rest: &'a [u8],
    end: &'a [u8],
) -> Result<(Term, &'a [u8]), MergeFault>
    requires read { bytes.now ≡ literal_start ++ (string_text lexical ++ rest.now) }
    requires closed { rest.now ≡ codes "}" ++ end.now }
    ensures parts { IfOk result (λ r. bytes.now ≡ term_text r.0 ++ r.1.now) }
    ensures tagged { IfOk result (λ r. HasTagType (Some r.0)) }
    ensures memory { IfErr result (λ fault. fault ≡ Memory) }
{
    let term = plain_literal(alloc, lexical)?;
    Ok((term, end))
}

/// Reads a literal of xsd:string, or one with a language tag.
fn read_literal<'a>(alloc: Global, bytes: &'a [u8]) -> Result<(Term, &'a [u8]), MergeFault>
    ensures parts { IfOk result (λ r. bytes.now ≡ term_text r.0 ++ r.1.now) }
    ensures tagged { IfOk result (λ r. HasTagType (Some r.0)) }
    ensures damaged { IfErr result (λ fault. fault ≡ Damaged → IsNoLiteral bytes.now) }
{
    let (lexical, rest) = read_text(alloc, bytes, b"{\"type\":\"literal\",\"value\":")?;
    match stripped(rest, b"}") {
        Some(end) => read_untagged(alloc, bytes, lexical, rest, end),
        None => read_tagged(alloc, bytes, lexical, rest),
    }
}

/// Reads a literal of another datatype.
fn read_typed<'a>(alloc: Global, bytes: &'a [u8]) -> Result<(Term, &'a [u8]), MergeFault>
    ensures parts { IfOk result (λ r. bytes.now ≡ term_text r.0 ++ r.1.now) }
    ensures tagged { IfOk result (λ r. HasTagType (Some r.0)) }
    ensures damaged { IfErr result (λ fault. fault ≡ Damaged → IsNoTyped bytes.now) }
{
    let (datatype, rest) = read_text(alloc, bytes, b"{\"datatype\":")?;
    let (lexical, end) = read_framed(alloc, rest, b",\"type\":\"literal\",\"value\":", b"}")?;
    if datatype.as_str() == XSD_STRING {
        return Err(MergeFault::Damaged);
    }
    Ok((
        Term::Literal {
            lexical,
            datatype,
            tag: None,
        },
        end,
    ))
}

/// Reads a term.
///
/// # Errors
/// - `Damaged` if the bytes do not begin with a term.
/// - `Memory` if an allocation fails.
pub(crate) fn read_term<'a>(alloc: Global, bytes: &'a [u8]) -> Result<(Term, &'a [u8]), MergeFault>
    ensures parts { IfOk result (λ r. bytes.now ≡ term_text r.0 ++ r.1.now) }
    ensures tagged { IfOk result (λ r. HasTagType (Some r.0)) }
    ensures damaged { IfErr result (λ fault. fault ≡ Damaged → IsNoTerm bytes.now) }
{
    if begins_with(bytes, b"{\"type\":\"literal\",\"value\":") {
        read_literal(alloc, bytes)
    } else if begins_with(bytes, b"{\"type\":\"uri\",\"value\":") {
        read_iri(alloc, bytes)
    } else if begins_with(bytes, b"{\"datatype\":") {
        read_typed(alloc, bytes)
    } else {
        read_blank(alloc, bytes)
    }
}
