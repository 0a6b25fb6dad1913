//! Cuts and blocks of the document `a`, LF, `b`, LF, LF, `c`.

use nquads_core::{Device, read_to_end};
use piece_pool::{Blocks, Cuts};

const DOCUMENT: &[u8] = b"a\nb\n\nc";

/// A reader is read to its end, and a piece ends after a line feed.
#[test]
fn a_document_is_cut_after_a_line_feed(rt: HostRuntime) {
    let mut reader = Device { inner: DOCUMENT };
    let bytes = read_to_end(rt.alloc(), &mut reader).expect(&rt, "all bytes");
    let document = bytes.as_slice();
    let places = Vec::from_slice(rt.alloc(), &[4]).expect(&rt, "places");
    let cuts = Cuts::of(document, places).expect(&rt, "cuts");
    assert!(rt; cuts.fits(document) && cuts.pieces() == 2, "two pieces");
    assert!(rt;
        cuts.piece(document, 1) == b"\nc".as_slice(),
        "the last piece"
    );
}

/// The capacity of a block is at most four times its length, whatever was read together with it.
#[test]
fn a_block_has_little_spare_capacity(rt: HostRuntime) {
    let mut reader = Device { inner: DOCUMENT };
    let mut blocks = Blocks::new(rt.alloc(), 1).expect(&rt, "blocks");
    let found = blocks.next(&mut reader).expect(&rt, "a read");
    let block = found.expect(&rt, "a block");
    assert!(rt;
        block.len() == 2 && block.capacity() <= 8,
        "much spare capacity"
    );
}
