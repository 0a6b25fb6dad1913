//! The first character of a text, and character classes.

ghost use Rattle.std.specs.Prelude.{◌≡◌, [], ◌∷◌, MatchOption};
ghost use Rattle.std.specs.Str.{IsUtf8, chars};
ghost use Rattle.rdf_core.specs.Characters.{is_iri_char, is_quoted_char, is_string_char, is_hex, in_ranges, is_joining, is_pn_chars_base, is_name_start, is_name_char, is_label_start, is_label_char};

/// [164] PN_CHARS_BASE of SPARQL and [157s] of N-Quads, as ranges of code points.
const PN_CHARS_BASE: [(u32, u32); 14] = [
    (65, 90),
    (97, 122),
    (0xC0, 0xD6),
    (0xD8, 0xF6),
    (0xF8, 0x2FF),
    (0x370, 0x37D),
    (0x37F, 0x1FFF),
    (0x200C, 0x200D),
    (0x2070, 0x218F),
    (0x2C00, 0x2FEF),
    (0x3001, 0xD7FF),
    (0xF900, 0xFDCF),
    (0xFDF0, 0xFFFD),
    (0x10000, 0xEFFFF),
];

/// The underscore and the digits. A name or a label may also begin with these.
const STARTS: [(u32, u32); 2] = [(95, 95), (48, 57)];

/// The characters that PN_CHARS adds, apart from the hyphen.
const JOINING: [(u32, u32); 3] = [(0xB7, 0xB7), (0x300, 0x36F), (0x203F, 0x2040)];

/// Returns the first character and the text after it, or None if the text is empty.
#[inline(always)]
pub fn first_char(text: &str) -> Option<(char, &str)>
    ensures { MatchOption result (chars text.now ≡ [])
        (λ p. (chars text.now ≡ p.0 ∷ chars p.1.now) × IsUtf8 p.1.now) }
{
    let mut rest = text.chars();
    match rest.next() {
        Some(c) => Some((c, rest.as_str())),
        None => None,
    }
}

/// Returns whether [139] IRIREF of SPARQL and [10] IRIREF of N-Quads allow this character
/// unescaped.
pub fn is_iri_char(c: char) -> bool
    ensures value { result ≡ is_iri_char c }
{
    c > ' ' && !matches!(c, '<' | '>' | '"' | '{' | '}' | '|' | '^' | '`' | '\\')
}

/// Returns whether a string on one line between two of these quotes allows this character unescaped
/// ([156] STRING_LITERAL1 and [157] STRING_LITERAL2 of SPARQL).
pub fn is_quoted_char(quote: char, c: char) -> bool
    ensures value { result ≡ is_quoted_char quote c }
{
    !(c == quote || c == '\\' || c == '\n' || c == '\r')
}

/// Returns whether a string in double quotes allows this character unescaped
/// ([11] STRING_LITERAL_QUOTE of N-Quads).
pub fn is_string_char(c: char) -> bool
    ensures value { result ≡ is_string_char c }
{
    is_quoted_char('"', c)
}

/// Returns whether a character is a hexadecimal digit, in upper or lower case ([172] HEX of SPARQL,
/// [162s] of N-Quads).
pub fn is_hex(c: char) -> bool
    ensures value { result ≡ is_hex c }
{
    c.is_digit(16)
}

fn in_ranges(ranges: &[(u32, u32)], c: u32) -> bool
    ensures { result ≡ in_ranges ranges.now c }
{
    for r in ranges {
        if r.0 <= c && c <= r.1 {
            return true;
        }
    }
    false
}

/// Returns whether a character is in [164] PN_CHARS_BASE of SPARQL, which is [157s] of N-Quads.
#[tactic(auto, unfolding(crate::specs::Characters::is_pn_chars_base))]
pub fn is_pn_chars_base(c: char) -> bool
    ensures value { result ≡ is_pn_chars_base c }
{
    in_ranges(&PN_CHARS_BASE, c as u32)
}

/// Returns whether a character is in [165] PN_CHARS_U of SPARQL, which has no colon, or is a digit.
#[tactic(auto, unfolding(crate::specs::Characters::is_pn_chars_base, crate::specs::Characters::is_name_start))]
pub fn is_name_start(c: char) -> bool
    ensures value { result ≡ is_name_start c }
{
    in_ranges(&STARTS, c as u32) || is_pn_chars_base(c)
}

/// Returns whether a character is U+00B7, in U+0300 to U+036F, U+203F or U+2040. [167] PN_CHARS of
/// SPARQL and [160s] of N-Quads have these besides the hyphen and the first characters of names.
pub fn is_joining(c: char) -> bool
    ensures value { result ≡ is_joining c }
{
    in_ranges(&JOINING, c as u32)
}

/// Returns whether a character is in [167] PN_CHARS of SPARQL, which has no colon.
#[tactic(auto, unfolding(crate::specs::Characters::is_name_start, crate::specs::Characters::is_name_char))]
pub fn is_name_char(c: char) -> bool
    ensures value { result ≡ is_name_char c }
{
    c == '-' || is_joining(c) || is_name_start(c)
}

/// Returns whether a blank node label may begin with this character: [158s] PN_CHARS_U of N-Quads,
/// which has the colon, or a digit.
#[tactic(auto, unfolding(crate::specs::Characters::is_name_start, crate::specs::Characters::is_label_start))]
pub fn is_label_start(c: char) -> bool
    ensures value { result ≡ is_label_start c }
{
    c == ':' || is_name_start(c)
}

/// Returns whether a character is in [160s] PN_CHARS of N-Quads, which has the colon.
#[tactic(auto, unfolding(crate::specs::Characters::is_label_start, crate::specs::Characters::is_label_char))]
pub fn is_label_char(c: char) -> bool
    ensures value { result ≡ is_label_char c }
{
    c == '-' || is_joining(c) || is_label_start(c)
}
