//! The N-Quads form of a term (RDF 1.1 N-Quads, section 4).

ghost use Rattle.std.specs.Prelude.{◌≡◌, ◌++◌, List, ℕ, OnOk, OnErr, codes};
ghost use Rattle.std.specs.List.{flat_map};
ghost use Rattle.std.specs.Str.{bytes_eq};
ghost use Rattle.rdf_core.specs.Serialization.{escaped, suffix, serialization};
ghost use Rattle.rdf_core.specs.Vocabulary.{xsd_string};

use crate::term::Term;
use crate::text::Text;
use crate::vocabulary::XSD_STRING;
use std::alloc::AllocError;

/// Appends one byte of a literal, escaped if necessary.
fn put_escaped(out: &mut Vec<u8>, b: u8) -> Result<(), AllocError>
    ensures ok { OnOk result (out.new.items ≡ out.old.items ++ escaped b) }
    ensures err { OnErr result (out.new.items ≡ out.old.items) }
{
    match b {
        b'"' => out.extend_from_slice(b"\\\""),
        b'\\' => out.extend_from_slice(b"\\\\"),
        b'\n' => out.extend_from_slice(b"\\n"),
        b'\r' => out.extend_from_slice(b"\\r"),
        _ => {
            out.push(b)?;
            Ok(())
        }
    }
}

fn put_lexical(out: &mut Vec<u8>, lexical: &[u8]) -> Result<(), AllocError>
    ensures ok { OnOk result (out.new.items ≡ out.old.items ++ flat_map escaped lexical.now) }
    ensures err { OnErr result ((more : List ℕ) × (out.new.items ≡ out.old.items ++ more)) }
{
    for b in lexical {
        put_escaped(out, *b)?;
    }
    Ok(())
}

fn is_xsd_string(datatype: &[u8]) -> bool
    ensures { result ≡ bytes_eq datatype.now xsd_string }
{
    datatype == XSD_STRING.as_bytes()
}

/// Appends two texts.
fn put_both(out: &mut Vec<u8>, first: &[u8], second: &[u8]) -> Result<(), AllocError>
    ensures ok { OnOk result (out.new.items ≡ out.old.items ++ (first.now ++ second.now)) }
    ensures err { OnErr result ((more : List ℕ) × (out.new.items ≡ out.old.items ++ more)) }
{
    out.extend_from_slice(first)?;
    out.extend_from_slice(second)?;
    Ok(())
}

/// Appends an IRI and the closing bracket after a text that ends with the opening one.
fn put_iri(out: &mut Vec<u8>, opening: &[u8], iri: &[u8]) -> Result<(), AllocError>
    ensures ok { OnOk result (out.new.items ≡ out.old.items ++ (opening.now ++ (iri.now ++ codes ">"))) }
    ensures err { OnErr result ((more : List ℕ) × (out.new.items ≡ out.old.items ++ more)) }
{
    out.extend_from_slice(opening)?;
    out.extend_from_slice(iri)?;
    out.push(b'>')?;
    Ok(())
}

fn put_suffix(out: &mut Vec<u8>, datatype: &[u8], tag: &Option<Text>) -> Result<(), AllocError>
    ensures ok { OnOk result (out.new.items ≡ out.old.items ++ suffix datatype.now tag.now) }
    ensures err { OnErr result ((more : List ℕ) × (out.new.items ≡ out.old.items ++ more)) }
{
    match tag {
        Some(tag) => put_both(out, b"@", tag.as_str().as_bytes()),
        None => {
            if is_xsd_string(datatype) {
                Ok(())
            } else {
                put_iri(out, b"^^<", datatype)
            }
        }
    }
}

fn put_literal(
    out: &mut Vec<u8>,
    lexical: &[u8],
    datatype: &[u8],
    tag: &Option<Text>,
) -> Result<(), AllocError>
    ensures ok { OnOk result (out.new.items ≡ out.old.items
        ++ (codes "\"" ++ (flat_map escaped lexical.now ++ (codes "\"" ++ suffix datatype.now tag.now)))) }
    ensures err { OnErr result ((more : List ℕ) × (out.new.items ≡ out.old.items ++ more)) }
{
    out.push(b'"')?;
    put_lexical(out, lexical)?;
    out.push(b'"')?;
    put_suffix(out, datatype, tag)?;
    Ok(())
}

fn put_term(out: &mut Vec<u8>, term: &Term) -> Result<(), AllocError>
    ensures appended { OnOk result (out.new.items ≡ out.old.items ++ serialization term.now) }
    ensures err { OnErr result ((more : List ℕ) × (out.new.items ≡ out.old.items ++ more)) }
{
    match term {
        Term::Blank(label) => put_both(out, b"_:", label.as_str().as_bytes()),
        Term::Iri(text) => put_iri(out, b"<", text.as_str().as_bytes()),
        Term::Literal {
            lexical,
            datatype,
            tag,
        } => {
            let form = lexical.as_str().as_bytes();
            put_literal(out, form, datatype.as_str().as_bytes(), tag)
        }
    }
}

/// Appends the N-Quads form of a term (RDF 1.1 N-Quads, section 4):
///
/// - A blank node is `_:` and its label.
/// - An IRI is in angle brackets.
/// - A literal is in double quotes. Its tag follows, or its datatype if that is not xsd:string.
///
/// In a literal only the quote, the backslash, LF and CR are escaped.
///
/// # Errors
/// `AllocError` if an allocation fails. `out` is unchanged.
pub fn write_term(term: &Term, out: &mut Vec<u8>) -> Result<(), AllocError>
    ensures appended { OnOk result (out.new.items ≡ out.old.items ++ serialization term.now) }
    ensures err { OnErr result (out.new.items ≡ out.old.items) }
{
    let start = out.len();
    let written = put_term(out, term);
    if written.is_err() {
        out.truncate(start);
    }
    written
}
