//! The scheme of an IRI.

ghost use Rattle.std.specs.Prelude.{◌≡◌, ◌==◌, ◌||◌};
ghost use Rattle.std.specs.Char.{is_ascii_alphanumeric};
ghost use Rattle.rdf_core.specs.Lexical.{has_scheme};

/// Returns whether a scheme may have this byte after its first letter.
#[inline(always)]
fn is_scheme_byte(b: u8) -> bool
    ensures { result ≡ (is_ascii_alphanumeric b || b == 43 || b == 45 || b == 46) }
{
    b.is_ascii_alphanumeric() || b == b'+' || b == b'-' || b == b'.'
}

/// Returns whether an IRI begins with a scheme and a colon, so that it is not relative. A scheme is
/// a letter, then letters, digits, `+`, `-` and `.` (RFC 3987, section 2.2).
pub fn has_scheme(text: &str) -> bool
    ensures value { result ≡ has_scheme text.now }
{
    let bytes = text.as_bytes();
    if bytes.is_empty() || !bytes[0].is_ascii_alphabetic() {
        return false;
    }
    for b in &bytes[1..] {
        if *b == b':' {
            return true;
        }
        if !is_scheme_byte(*b) {
            return false;
        }
    }
    false
}
