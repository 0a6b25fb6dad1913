//! What is between the terms of a line: blanks, comments and line ends.

ghost use Rattle.std.specs.Prelude.{◌≡◌, IfSome};
ghost use Rattle.nquads_core.specs.Terminal.{is_blank};
ghost use Rattle.nquads_scan.specs.Layout.{IsBlanksThen, IsCommentThen, IsLineEndThen, IsTail};

use memchr::memchr2;

/// Returns whether a byte is a space or a tab.
#[inline(always)]
fn is_blank(b: u8) -> bool
    ensures { result ≡ is_blank b }
{
    b == b' ' || b == b'\t'
}

/// Returns what follows the blanks at the front.
#[inline(always)]
pub fn after_blanks(text: &str) -> &str
    ensures { IsBlanksThen text.now result.now }
{
    let bytes = text.as_bytes();
    let mut at = 0;
    while at < bytes.len() && is_blank(bytes[at]) {
        at += 1;
    }
    &text[at..]
}

/// Returns what follows the comment at the front, if there is one. A comment goes up to the line end.
#[inline(always)]
fn after_comment(text: &str) -> &str
    ensures { IsCommentThen text.now result.now }
{
    let bytes = text.as_bytes();
    if bytes.is_empty() || bytes[0] != b'#' {
        return text;
    }
    match memchr2(b'\n', b'\r', bytes) {
        Some(end) => &text[end..],
        None => "",
    }
}

/// Returns what follows the line end at the front (RDF 1.1 N-Quads, [8] `EOL`), or None if there is no line end. The
/// end of the text is one.
#[inline(always)]
fn after_line_end(text: &str) -> Option<&str>
    ensures { IfSome result (λ rest. IsLineEndThen text.now rest.now) }
{
    let bytes = text.as_bytes();
    if bytes.is_empty() {
        return Some(text);
    }
    if bytes[0] == b'\n' {
        return Some(&text[1..]);
    }
    if bytes[0] != b'\r' {
        return None;
    }
    if 1 < bytes.len() && bytes[1] == b'\n' {
        return Some(&text[2..]);
    }
    Some(&text[1..])
}

/// Returns what follows the end of a line: blanks, a comment or none, and the line end. Returns None if something else
/// is there.
#[inline(always)]
pub fn after_line(text: &str) -> Option<&str>
    ensures { IfSome result (λ rest. IsTail text.now rest.now) }
{
    after_line_end(after_comment(after_blanks(text)))
}
