//! The counts of a device's faults.
ghost use Rattle.std.specs.Prelude.{◌≡◌, IsErrOf};
ghost use Rattle.host_devices.specs.Faults.{Counts};

use outside::{DepotFault, ShelfFault};

/// Counts a failed call that reads.
pub(crate) fn count_read<T>(
    faults: &mut u64,
    answer: Result<T, ShelfFault>,
) -> Result<T, ShelfFault>
    ensures answer { result ≡ answer }
    ensures counts { Counts (IsErrOf answer ShelfFault.Failed) faults.old faults.new }
{
    if let Err(ShelfFault::Failed) = answer {
        *faults = faults.saturating_add(1);
    }
    answer
}

/// Counts a failed call that writes.
pub(crate) fn count_write(
    faults: &mut u64,
    answer: Result<(), DepotFault>,
) -> Result<(), DepotFault>
    ensures answer { result ≡ answer }
    ensures counts { Counts (IsErrOf answer DepotFault.Failed) faults.old faults.new }
{
    if let Err(DepotFault::Failed) = answer {
        *faults = faults.saturating_add(1);
    }
    answer
}
