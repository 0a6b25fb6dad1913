//! The end of the program with a fault. (tests/failures.py has the other causes, tests/examples.py and tests/messages.py the other faults.)

use nquads_core::Device;
use sparql_read::QueryFault;
use spq_core::{RunFault, finish, status, write_fault};

/// A fault has a line and a status.
#[test]
fn a_fault_is_written(rt: HostRuntime) {
    let fault = RunFault::Query(QueryFault::Memory);
    let mut writer = Device {
        inner: Vec::new(rt.alloc()),
    };
    let is_written = write_fault(&fault, &mut writer).is_ok();
    assert!(rt; is_written && writer.inner.as_slice() == b"error: memory\n".as_slice());
    assert!(rt; status(&fault) == 4 && finish(&Err(fault), &mut writer) == 4);
}
