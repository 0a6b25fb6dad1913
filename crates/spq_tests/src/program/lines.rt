//! The message about a line that no document has.

use line_diagnosis::{LineContext, report};

/// A line break inside a line that a program passes to the library (docs/DIAGNOSTICS.md).
#[test]
fn a_line_break_is_explained(rt: HostRuntime) {
    let context = LineContext {
        number: 1,
        is_cut: false,
        is_after_utf8: false,
    };
    let message =
        "spq: line 1, column 15: a line break inside a line\n<a:s> <a:p> \"x␊y\" .\n              ^\n";
    let is_right = match report(rt.alloc(), b"<a:s> <a:p> \"x\ny\" .", &context) {
        Ok(Some(found)) => found.as_str() == message,
        _ => false,
    };
    assert!(rt; is_right);
}
