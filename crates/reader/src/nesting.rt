// How the regions nest: the parent of each region, and causes 9 and 10. In file order the innermost region around
// a region is found by climbing along the parents from the region before it, so all climbs together are linear.
// Regions are numbered from 1, with 0 for none, as in the parents that are handed out, whose form is fixed.
ghost use Rattle.std.specs.Prelude.{◌≡◌, ℕ, ◌<◌, ◌≤◌, length, get_or};
ghost use Rattle.reader.specs.Family.{family_of, region, region_count};
ghost use Rattle.reader.specs.Causes.{cause10};
ghost use Rattle.reader.specs.WellFormed.{Ordered, Nested};
ghost use Rattle.reader.specs.Private.Climb.{Climbing, Climbed, ends_before, Filled, one_deeper};

use crate::family::{Leaf, region_count};
use crate::whole::WholeFile;

// The most regions that are around a region.
const MOST_AROUND: u8 = 63;

// The number of the innermost region before the k-th one that ends at its first leaf or later; 0 if there is none.
fn climb(file: WholeFile, parents: &[u16; 8191], k: u16, first: Leaf) -> u16
    requires climbing { Climbing (family_of file.bytes.now) parents.now k }
    requires first_value { first.0 ≡ (region (family_of file.bytes.now) k).first }
    ensures { Climbed (family_of file.entry.bytes.now) k result }
{
    let mut number = k;
    while number != 0 {
        let candidate = file.region(number - 1);
        if first.0 <= candidate.last.0 {
            return number;
        }
        number = parents[(number - 1) as usize];
    }
    0
}

// Whether there is a region of that number and it ends before the leaf.
fn ends_before(file: WholeFile, number: u16, leaf: Leaf) -> bool
    requires number_bound { number ≤ region_count (family_of file.bytes.now) }
    ensures { result ≡ ends_before (family_of file.entry.bytes.now) number leaf.0 }
{
    number != 0 && file.region(number - 1).last.0 < leaf.0
}

// Writes the parents; whether two regions cross.
pub(crate) fn fill_parents(file: WholeFile, parents: &mut [u16; 8191]) -> bool
    requires ordered { Ordered (family_of file.bytes.now) }
    requires few { region_count (family_of file.bytes.now) ≤ 8191 }
    ensures { Filled (family_of file.entry.bytes.now) parents.new result }
{
    for k in 0..region_count(file.bytes) {
        let r = file.region(k);
        let number = climb(file, parents, k, r.first);
        if ends_before(file, number, r.last) {
            return true;
        }
        parents[k as usize] = number;
    }
    false
}

// One more than the depth of the region of that number; 0 for none. Its namesake in levels counts from 1, in numbers of two bytes: one
// function for both would be a public one, and none of these may ask for room in the list.
fn one_deeper(depths: &[u8], number: u16) -> u8
    requires number_in_bounds { number ≤ length depths.now }
    requires by_index { (i : ℕ) → i < number → get_or depths.now i 0 ≤ 63 }
    ensures { result ≡ one_deeper depths.now number }
{
    if number == 0 {
        0
    } else {
        depths[(number - 1) as usize] + 1
    }
}

// A region with more than 63 regions around it.
pub(crate) fn too_deep(file: WholeFile, parents: &[u16; 8191]) -> bool
    requires { Nested (family_of file.bytes.now) parents.now }
    ensures { result ≡ cause10 (family_of file.entry.bytes.now) }
{
    let regions = region_count(file.bytes) as usize;
    // a check of a file without regions would mostly be the setting of depths to 0
    if regions == 0 {
        return false;
    }
    let mut depths = [0u8; 8191];
    for k in 0..regions {
        let depth = one_deeper(&depths, parents[k]);
        if MOST_AROUND < depth {
            return true;
        }
        depths[k] = depth;
    }
    false
}
