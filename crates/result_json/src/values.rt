//! Terms and texts as JSON. A text that needs no escape is copied, and the JSON library prints the
//! others. The object of a term is made around its texts.
ghost use Rattle.std.specs.Prelude.{◌≡◌, ◌++◌, codes, false, IfOk, OnOk};
ghost use Rattle.std.specs.List.{list_all};
ghost use Rattle.serde_json.specs.View.{view};
ghost use Rattle.serde_json.specs.Written.{has_float, compact_text};
ghost use Rattle.result_json.specs.Results.{string_text, term_text};
ghost use Rattle.result_json.specs.Texts.{is_plain};

use rdf_core::vocabulary::XSD_STRING;
use rdf_core::{Term, Text};
use serde_json::Value;
use std::alloc::{AllocError, Global};

/// Returns what the library prints for a value without floats.
fn printed(alloc: Global, value: &Value) -> Result<Vec<u8>, AllocError>
    requires { has_float (view value.now) ≡ false }
    ensures { IfOk result (λ text. text.items ≡ compact_text (view value.now)) }
{
    value.to_vec(alloc)
}

/// Returns a text as the library prints it, as a JSON string.
fn printed_string(alloc: Global, text: &str) -> Result<Vec<u8>, AllocError>
    ensures { IfOk result (λ printed. printed.items ≡ string_text text.now) }
{
    printed(alloc, &Value::try_from_str(alloc, text)?)
}

/// Returns whether a byte needs no escape in a JSON string: it is not a control character,
/// quotation mark or backslash (RFC 8259, section 7).
fn is_plain(byte: u8) -> bool
    ensures value { result ≡ is_plain byte }
{
    byte >= 32 && byte != b'"' && byte != b'\\'
}

/// Returns whether no byte of a text needs an escape in a JSON string.
fn is_plain_text(text: &str) -> bool
    ensures value { result ≡ list_all is_plain text.now }
{
    text.as_bytes().iter().all(|byte| is_plain(*byte))
}

/// Appends a text as a JSON string. The library prints the texts that need an escape.
///
/// # Errors
/// `AllocError` if an allocation fails. A part of the string may have been appended then.
pub(crate) fn put_string(alloc: Global, out: &mut Vec<u8>, text: &str) -> Result<(), AllocError>
    ensures text { OnOk result (out.new.items ≡ out.old.items ++ string_text text.now) }
{
    if !is_plain_text(text) {
        return out.extend_from_slice(&printed_string(alloc, text)?);
    }
    out.push(b'"')?;
    out.extend_from_slice(text.as_bytes())?;
    out.push(b'"')?;
    Ok(())
}

/// Appends the bytes of `before`, and a text as a JSON string.
fn put_text(alloc: Global, out: &mut Vec<u8>, before: &[u8], text: &Text) -> Result<(), AllocError>
    ensures { OnOk result (out.new.items ≡ out.old.items ++ (before.now ++ string_text text.now)) }
{
    out.extend_from_slice(before)?;
    put_string(alloc, out, text.as_str())
}

/// Appends the object of a term without its closing bracket.
fn put_open_object(alloc: Global, out: &mut Vec<u8>, term: &Term) -> Result<(), AllocError>
    ensures { OnOk result (out.new.items ++ codes "}" ≡ out.old.items ++ term_text term.now) }
{
    match term {
        Term::Blank(label) => put_text(alloc, out, b"{\"type\":\"bnode\",\"value\":", label),
        Term::Iri(text) => put_text(alloc, out, b"{\"type\":\"uri\",\"value\":", text),
        Term::Literal {
            lexical,
            datatype,
            tag,
        } => match tag {
            Some(tag) => {
                put_text(alloc, out, b"{\"type\":\"literal\",\"value\":", lexical)?;
                put_text(alloc, out, b",\"xml:lang\":", tag)
            }
            None => {
                if datatype.as_str() == XSD_STRING {
                    put_text(alloc, out, b"{\"type\":\"literal\",\"value\":", lexical)
                } else {
                    put_text(alloc, out, b"{\"datatype\":", datatype)?;
                    put_text(alloc, out, b",\"type\":\"literal\",\"value\":", lexical)
                }
            }
        },
    }
}

/// Appends a term as JSON.
///
/// # Errors
/// `AllocError` if an allocation fails. A part of the text may have been appended then.
pub(crate) fn put_term(alloc: Global, out: &mut Vec<u8>, term: &Term) -> Result<(), AllocError>
    ensures text { OnOk result (out.new.items ≡ out.old.items ++ term_text term.now) }
{
    put_open_object(alloc, out, term)?;
    out.push(b'}')?;
    Ok(())
}
