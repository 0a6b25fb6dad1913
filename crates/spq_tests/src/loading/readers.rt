//! The terms of a reader.

use crate::fixtures::Recorder;
use dataset_load::{LoadNotes, NoListener, load_terms};
use nquads_core::Device;

/// A repeated statement has no new terms.
#[test]
fn a_reader_has_terms(rt: HostRuntime) {
    let mut reader = Device {
        inner: b"<a:s> <a:p> \"x\" .\n<a:s> <a:p> \"x\" .\n".as_slice(),
    };
    let mut notes = LoadNotes::new();
    let found = load_terms(
        &rt,
        rt.alloc(),
        1,
        &mut reader,
        2,
        &Recorder::counting(),
        &mut notes,
        &NoListener,
    );
    let terms = found.expect(&rt, "terms");
    assert!(rt; terms.len() == 3, "three terms");
}
