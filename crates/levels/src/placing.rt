// The level counts held against the levels that the regions have: causes 26 and 27.
ghost use Rattle.std.specs.Prelude.{◌≡◌, ℕ, ◌+◌, ◌<◌, ◌≤◌, length, get_or, take};
ghost use Rattle.reader.specs.Lists.{In, sum, some_below};
ghost use Rattle.reader.specs.Family.{region_count, region};
ghost use Rattle.levels.specs.Levels.{counts_in};
ghost use Rattle.levels.specs.Causes.{cause26, misleveled};
ghost use Rattle.levels.specs.Private.Listed.{listed};
ghost use Rattle.levels.specs.Private.Leveling.{LevelsBelow};

use crate::listing::Listing;
use reader::bytes::number_at;

// The level counts do not add to K.
pub(crate) fn bad_counts(list: &Listing) -> bool
    ensures { result ≡ cause26 (counts_in list.now.file.now) (region_count (listed list.now)) }
{
    let mut sum: u32 = 0;
    for h in 0..64 {
        sum += number_at(list.file, 16 + 2 * h) as u32;
    }
    sum != list.region_count() as u32
}

// Writes each level at the place of its region: the first of them is that of the region that comes first in the order.
pub(crate) fn place_levels(order: &[u16], levels: &[u16], placed: &mut [u16])
    requires order_in_bounds { length order.now ≤ length levels.now }
    requires in_placed { (k : ℕ) → In k order.now → k < length placed.old }
    requires one_level { (i j : ℕ) → i < j → j < length order.now → get_or order.now i 0 ≡ get_or order.now j 0 → get_or levels.now i 0 ≡ get_or levels.now j 0 }
    ensures { (i : ℕ) → i < length order.now → get_or placed.new (get_or order.now i 0) 0 ≡ get_or levels.now i 0 }
{
    for (i, k) in order.iter().enumerate() {
        placed[*k as usize] = levels[i];
    }
}

// Some of the regions of a level, from the start-th one on and so many, has another level, or a first leaf that does not come after that
// of the one before it.
fn wrong_in_level(list: &Listing, levels: &[u16; 8191], before: u16, start: u16, count: u16) -> bool
    requires levels_below { LevelsBelow (listed list.now) levels.now (region_count (listed list.now)) }
    requires before_bound { (before < 64) × (count ≡ get_or (counts_in list.now.file.now) before 0) × (start ≡ sum (take before (counts_in list.now.file.now))) }
    requires count_bound { start + count ≤ region_count (listed list.now) }
    ensures { result ≡ some_below count (λ i. misleveled (counts_in list.now.file.now) (listed list.now) before i) }
{
    let mut leaf = 0;
    for i in 0..count {
        let k = start + i;
        if levels[k as usize] != before + 1 {
            return true;
        }
        let region = list.region(k);
        let first = region.first.0;
        if first <= leaf {
            return true;
        }
        leaf = first;
    }
    false
}

// Some region's level or place in the level is not so, where the level counts add to K.
pub(crate) fn wrong_levels(list: &Listing, levels: &[u16; 8191]) -> bool
    requires levels_below { LevelsBelow (listed list.now) levels.now (region_count (listed list.now)) }
    requires adds_up { sum (counts_in list.now.file.now) ≡ region_count (listed list.now) }
    ensures { result ≡ some_below 64 (λ h. some_below (get_or (counts_in list.now.file.now) h 0) (λ i. misleveled (counts_in list.now.file.now) (listed list.now) h i)) }
{
    let mut start = 0;
    for h in 0u16..64 {
        let count = number_at(list.file, 16 + 2 * (h as usize));
        if wrong_in_level(list, levels, h, start, count) {
            return true;
        }
        start += count;
    }
    false
}
