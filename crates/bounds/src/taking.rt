// The taken regions, in one pass in file order: a region is inside a taken one exactly if it begins no later than the latest
// taken one ends, and the outermost full region around a region is taken.
ghost use Rattle.std.specs.Prelude.{◌++◌, ◌≡◌, ◌≤◌, length, drop};
ghost use Rattle.reader.specs.Calls.{held};
ghost use Rattle.reader.specs.Family.{family_of, region_count};
ghost use Rattle.bounds.specs.Selections.{bound_of, taken_of};
ghost use Rattle.bounds.specs.Private.Rows.{Ready};
ghost use Rattle.bounds.specs.Private.Takes.{takes_region, taken_along};

use crate::rows::line_value;
use reader::family::{Leaf, Region, region_count, region_of};

// Whether a region is taken: it begins after the latest taken one, and its inside total is over its z.
fn is_taken(region: Region, total: u16, until: Leaf) -> bool
    ensures { result ≡ takes_region (held region) total until.0 }
{
    until.0 < region.first.0 && region.z < total
}

// Writes the taken bytes from the inside totals.
pub(crate) fn write_taken(file: &[u8], totals: &[u16], taken: &mut [u8])
    requires totals_room { region_count (family_of file.now) ≤ length totals.now }
    requires taken_room { region_count (family_of file.now) ≤ length taken.old }
    ensures { taken.new ≡ taken_along (family_of file.now) totals.now ++ drop (region_count (family_of file.now)) taken.old }
{
    let mut until = Leaf(0);
    for k in 0..region_count(file) {
        let region = region_of(file, k);
        let is_new = is_taken(region, totals[k as usize], until);
        taken[k as usize] = is_new as u8;
        if is_new {
            until = region.last;
        }
    }
}

// The bound of a selection that no cause declines, with its taken bytes. The inside totals stand in a function of their own, so that
// the causes need no stack beside them.
#[inline(never)]
pub(crate) fn write_bound(file: &[u8], selection: &[u8], taken: &mut [u8]) -> u16
    requires ready { Ready (family_of file.now) selection.now }
    requires room { region_count (family_of file.now) ≤ length taken.old }
    ensures value { result ≡ bound_of (family_of file.now) selection.now }
    ensures taken_after { taken.new ≡ taken_of (family_of file.now) selection.now ++ drop (region_count (family_of file.now)) taken.old }
{
    let mut totals = [0u16; 8191];
    let value = line_value(file, selection, &mut totals);
    write_taken(file, &totals, taken);
    value
}
