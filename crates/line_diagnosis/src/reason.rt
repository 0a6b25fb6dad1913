//! The reasons why a line is malformed, and their text.

ghost use Rattle.std.specs.Prelude.{◌≡◌, ◌⊎◌, OnSome};
ghost use Rattle.line_diagnosis.specs.declared.reason.Next.TheVariants.{Dot, Graph};

use std::fmt;

/// The part of a statement that may come next (RDF 1.1 N-Quads, section 4, [2] statement).
#[derive(Clone, Copy, PartialEq, Eq)]
pub enum Next {
    Subject,
    Predicate,
    Object,
    /// The IRI after `^^`
    Datatype,
    /// A graph name, or the dot
    Graph,
    Dot,
    /// Blanks or a comment, after the dot
    End,
}

/// The text that was found instead.
#[derive(Clone, Copy, PartialEq, Eq)]
pub enum Found {
    /// `<`
    Iri,
    /// `_`
    BlankNode,
    /// `"`
    Literal,
    /// `#`
    Comment,
    /// Any other character
    Char(char),
    /// The end of the line
    LineEnd,
}

/// A format in which files are compressed.
#[derive(Clone, Copy, PartialEq, Eq)]
pub enum Packing {
    Gzip,
    Xz,
    Zstd,
    Bzip2,
}

/// The reason why no well-formed line has this character at this place.
#[derive(Clone, Copy, PartialEq, Eq)]
pub enum Reason {
    /// A byte that is not a part of a UTF-8 character
    InvalidUtf8(u8),
    /// The line ends inside a character
    CutCharacter,
    /// U+FEFF at the beginning of the line
    ByteOrderMark,
    /// The text is in UTF-16
    Utf16,
    /// The bytes are those of a compressed file
    Packed(Packing),
    /// LF or CR inside the line
    LineBreak,
    /// Something other than the part that may come next
    Unexpected(Next, Found),
    /// `<<`
    QuotedTriple,
    /// An IRI that does not begin with a scheme
    NoScheme(Found),
    /// A character that is not allowed in an IRI
    IriChar(char),
    /// An escape for a character that is not allowed at this place of an IRI
    IriEscape,
    /// The line ends inside an IRI
    OpenIri,
    /// The line ends inside a literal
    OpenLiteral,
    /// An escape that strings or IRIs do not have
    UnknownEscape(Found),
    /// A character in an escape that is not a hexadecimal digit
    NoDigit(Found),
    /// An escape for a code point from U+D800 to U+DFFF
    Surrogate,
    /// An escape for a number above U+10FFFF
    TooLarge,
    /// `_` without a colon
    NoColon(Found),
    /// A label whose first character is not allowed there
    LabelStart(Found),
    /// A label that ends with a dot
    LabelDot,
    /// `@` without a letter
    NoTag(Found),
    /// A hyphen of a language tag without a letter or digit
    NoSubtag(Found),
    /// A single `^`
    OneCaret(Found),
}

/// Writes a character, or its code point if it has no visible form.
pub(crate) fn write_char<W: fmt::Write>(f: &mut fmt::Formatter<W>, c: char) -> fmt::Result {
    if c == ' ' {
        f.write_str("a space")
    } else if c == '\t' {
        f.write_str("a tab")
    } else if excerpt::visible(c) == c && !c.is_whitespace() {
        write!(f, "'{c}'")
    } else {
        write!(f, "U+{:04X}", c as u32)
    }
}

impl fmt::Display for Found {
    fn fmt<W: fmt::Write>(&self, f: &mut fmt::Formatter<W>) -> fmt::Result {
        match self {
            Found::Iri => f.write_str("an IRI"),
            Found::BlankNode => f.write_str("a blank node"),
            Found::Literal => f.write_str("a literal"),
            Found::Comment => f.write_str("a comment"),
            Found::Char(c) => write_char(f, *c),
            Found::LineEnd => f.write_str("the end of the line"),
        }
    }
}

impl fmt::Display for Packing {
    fn fmt<W: fmt::Write>(&self, f: &mut fmt::Formatter<W>) -> fmt::Result {
        f.write_str(match self {
            Packing::Gzip => "gzip",
            Packing::Xz => "xz",
            Packing::Zstd => "zstd",
            Packing::Bzip2 => "bzip2",
        })
    }
}

fn is_end(found: Found) -> bool {
    matches!(found, Found::LineEnd | Found::Comment | Found::Char('.'))
}

fn is_term(found: Found) -> bool {
    matches!(found, Found::Iri | Found::BlankNode | Found::Literal)
}

/// Returns the text for a dot that is missing, or None if something else is.
pub(crate) fn missing_dot(next: Next, found: Found) -> Option<&'static str>
    ensures before { OnSome result ((next ≡ Graph) ⊎ (next ≡ Dot)) }
{
    match (next, found) {
        (Next::Graph | Next::Dot, Found::LineEnd) => Some(
            "missing '.' at the end of the statement",
        ),
        (Next::Graph | Next::Dot, Found::Comment) => Some("missing '.' before the comment"),
        _ => None,
    }
}

/// Returns the text for what was expected, up to what was found.
pub(crate) fn expected(next: Next, found: Found) -> &'static str {
    match next {
        Next::Subject if is_term(found) => "a subject must be an IRI or a blank node, found ",
        Next::Subject => "expected a subject (an IRI or a blank node), found ",
        Next::Predicate if is_term(found) => "a predicate must be an IRI, found ",
        Next::Predicate if is_end(found) => "missing predicate: expected an IRI, found ",
        Next::Predicate => "expected a predicate (an IRI), found ",
        Next::Object if is_end(found) => {
            "missing object: expected an IRI, a blank node or a literal, found "
        }
        Next::Object => "expected an object (an IRI, a blank node or a literal), found ",
        Next::Datatype => "expected a datatype (an IRI) after '^^', found ",
        Next::Graph if is_term(found) => "a graph name must be an IRI or a blank node, found ",
        Next::Graph => "expected '.' or a graph name (an IRI or a blank node), found ",
        Next::Dot => "expected '.' after the graph name, found ",
        Next::End => "text after the '.' that ends the statement: found ",
    }
}

/// Writes what was expected, and what was found instead.
fn write_unexpected<W: fmt::Write>(
    f: &mut fmt::Formatter<W>,
    next: Next,
    found: Found,
) -> fmt::Result {
    match missing_dot(next, found) {
        Some(words) => f.write_str(words),
        None => {
            f.write_str(expected(next, found))?;
            write!(f, "{found}")
        }
    }
}

impl Reason {
    /// Returns the text of the reason, up to what was found.
    pub(crate) fn words(self) -> &'static str {
        match self {
            Reason::InvalidUtf8(_) => "invalid UTF-8: byte 0x",
            Reason::CutCharacter => "invalid UTF-8: the line ends inside a character",
            Reason::ByteOrderMark => "a byte order mark (U+FEFF) at the beginning of a line",
            Reason::Utf16 => "the input looks like UTF-16; N-Quads is UTF-8",
            Reason::Packed(_) => "the input looks like ",
            Reason::LineBreak => "a line break inside a line",
            Reason::Unexpected(next, found) => expected(next, found),
            Reason::QuotedTriple => "'<<': quoted triples (RDF-star) are not supported",
            Reason::NoScheme(_) => "an IRI must begin with a scheme, such as 'http:', found ",
            Reason::IriChar(_) => " is not allowed in an IRI",
            Reason::IriEscape => {
                "this escape is for a character that is not allowed here in an IRI"
            }
            Reason::OpenIri => "the IRI is not closed: expected '>', found the end of the line",
            Reason::OpenLiteral => {
                "the literal is not closed: expected '\"', found the end of the line"
            }
            Reason::UnknownEscape(_) => "unknown escape: found ",
            Reason::NoDigit(_) => {
                "expected a hexadecimal digit (4 after '\\u', 8 after '\\U'), found "
            }
            Reason::Surrogate => {
                "this escape is for a surrogate (U+D800 to U+DFFF), which is no character"
            }
            Reason::TooLarge => {
                "this escape is for a number over U+10FFFF, which is no character"
            }
            Reason::NoColon(_) => "expected ':' after '_', found ",
            Reason::LabelStart(_) => {
                "a blank node label must begin with a letter, a digit, '_' or ':', found "
            }
            Reason::LabelDot => "a blank node label must not end with '.'",
            Reason::NoTag(_) => "a language tag must begin with a letter, found ",
            Reason::NoSubtag(_) => {
                "expected a letter or a digit after '-' in a language tag, found "
            }
            Reason::OneCaret(_) => "expected '^^' before a datatype, found ",
        }
    }
}

/// Writes words, what was found, and more words.
fn write_found<W: fmt::Write>(
    f: &mut fmt::Formatter<W>,
    words: &str,
    found: Found,
    after: &str,
) -> fmt::Result {
    write!(f, "{words}{found}{after}")
}

/// Writes a character and words.
fn write_char_before<W: fmt::Write>(
    f: &mut fmt::Formatter<W>,
    c: char,
    words: &str,
) -> fmt::Result {
    write_char(f, c)?;
    f.write_str(words)
}

impl fmt::Display for Reason {
    fn fmt<W: fmt::Write>(&self, f: &mut fmt::Formatter<W>) -> fmt::Result {
        let words = self.words();
        match *self {
            Reason::Unexpected(next, found) => write_unexpected(f, next, found),
            Reason::InvalidUtf8(byte) => write!(f, "{words}{byte:02X}"),
            Reason::Packed(packing) => write!(f, "{words}{packing}"),
            Reason::IriChar(c) => write_char_before(f, c, words),
            Reason::UnknownEscape(found) => write_found(f, words, found, " after '\\'"),
            Reason::NoScheme(found)
            | Reason::NoDigit(found)
            | Reason::NoColon(found)
            | Reason::LabelStart(found)
            | Reason::NoTag(found)
            | Reason::NoSubtag(found)
            | Reason::OneCaret(found) => write_found(f, words, found, ""),
            _ => f.write_str(words),
        }
    }
}
