//! Which lines are read the fast way. No contract says that any is.

use nquads_scan::{skip_plain_lines, split_piece};

/// A document with lines of many layouts is split, and plain lines are skipped up to one with an escape.
#[test]
fn plain_lines_are_read_the_fast_way(rt: HostRuntime) {
    let doc = b"_:s<a:p>\"x y\"@EN.\r\n# c\n\t<a:s>\t<a:p> <a:o> _:g .\n_:s <a:p> \"\\u0078\" .";
    let found = split_piece(rt.alloc(), doc).expect(&rt, "a split");
    let split = found.expect(&rt, "a piece that is split");
    assert!(rt;
        split.statements.len() == 3 && split.lines == 4,
        "a piece that is split"
    );
    let (count, rest) = skip_plain_lines(b"_:s <a:p> _:o .\n\r\n# c\n_:s <a:p> \"\\n\" .\n");
    assert!(rt; count == 3 && rest.len() == 17, "plain lines");
}
