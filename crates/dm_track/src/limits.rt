//! How much all histories have together.

ghost use Rattle.std.specs.Prelude.{◌≡◌, ◌^◌, ◌-◌, min};
ghost use Rattle.dm_track.specs.Builds.{items_in, values_in, within_limits};

use crate::fault::BuildFault;
use crate::history::History;
use dm_list::Sequence;

/// The most items that all histories have together.
const MOST_ITEMS: u64 = 4_000_000;
/// The most values that the rows of all items have together.
const MOST_VALUES: u64 = 64_000_000;

fn items_in(histories: &[History]) -> u64
    ensures { result ≡ min (items_in histories.now) (2 ^ 64 - 1) }
{
    let mut count: u64 = 0;
    for history in histories {
        count = count.saturating_add(history.len());
    }
    count
}

fn values_in(histories: &[History]) -> u64
    ensures { result ≡ min (values_in histories.now) (2 ^ 64 - 1) }
{
    let mut count: u64 = 0;
    for history in histories {
        count = count.saturating_add(history.values());
    }
    count
}

/// The histories, unless they have too many items, or else too many values.
pub fn within_limits(histories: Sequence<History>) -> Result<Sequence<History>, BuildFault>
    ensures { result ≡ within_limits histories }
{
    if items_in(histories.as_slice()) > MOST_ITEMS {
        return Err(BuildFault::Items);
    }
    if values_in(histories.as_slice()) > MOST_VALUES {
        return Err(BuildFault::Values);
    }
    Ok(histories)
}
