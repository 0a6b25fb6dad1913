//! Failures of the calls that loading makes. The listener is told of them.
ghost use Rattle.std.specs.Prelude.{◌≡◌};
ghost use Rattle.dataset_load.specs.Fault.{load_fault_of};
ghost use Rattle.dataset_load.specs.FaultNames.{IsFailed, IsLoadFailed, IsReadFailed, fault_of_load};

use crate::fault::LoadFault;
use crate::load_notes::LoadListener;
use crate::reader_fault::ReaderFault;
use nquads_core::ReadFault;
use piece_pool::PoolFault;

/// Returns the fault of a pool under the same name. The listener is told of it.
pub(crate) fn pool_failed<L: LoadListener>(listener: &L, failed: PoolFault) -> LoadFault
    ensures same { result ≡ load_fault_of failed }
    ensures cause { IsLoadFailed L.fails result }
{
    listener.failed(failed);
    LoadFault::from(failed)
}

/// Tells the listener of the fault of a read, if an allocation failed.
pub(crate) fn tell_read<L: LoadListener>(listener: &L, failed: ReadFault)
    ensures cause { IsReadFailed L.fails failed }
{
    match failed {
        ReadFault::Read => {}
        ReadFault::Memory => listener.failed(PoolFault::Memory),
    }
}

/// Returns the fault of a load under the same name. The listener is told of it, except of a malformed line.
pub(crate) fn load_failed<L: LoadListener>(listener: &L, failed: LoadFault) -> ReaderFault
    ensures same { result ≡ fault_of_load failed }
    ensures cause { IsFailed L.fails result }
{
    match failed {
        LoadFault::BadLine(_) => {}
        LoadFault::WorkerRefused => listener.failed(PoolFault::WorkerRefused),
        LoadFault::Memory => listener.failed(PoolFault::Memory),
    }
    ReaderFault::from(failed)
}
