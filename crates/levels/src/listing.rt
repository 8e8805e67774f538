// What a PHFL file lists.
ghost use Rattle.std.specs.Prelude.{◌≡◌, ◌-◌, ◌<◌, length};
ghost use Rattle.reader.specs.Bytes.{IsBytes};
ghost use Rattle.reader.specs.Family.{leaves, region_count, region};
ghost use Rattle.reader.specs.Calls.{held};
ghost use Rattle.levels.specs.Levels.{listed_family};
ghost use Rattle.levels.specs.Private.Listing.{Headed, Sound};

use reader::bytes::number_at;
use reader::family::{Leaf, Region, leaf_count, region_count};

// A PHFL file with none of the causes 1 to 7: it has what it lists, and the regions lie on the leaves.
#[derive(Clone, Copy)]
pub(crate) struct Listing<'a> {
    pub(crate) file: &'a [u8],
    ghost bytes: { IsBytes file.now },
    ghost headed: { Headed file.now },
    ghost sound: { Sound file.now },
}

impl Listing<'_> {
    // N, the number of leaves.
    pub(crate) fn leaf_count(&self) -> u16
        ensures { result ≡ leaves (listed_family self.now.file.now) }
    {
        leaf_count(self.file)
    }

    // K, the number of regions.
    pub(crate) fn region_count(&self) -> u16
        ensures { result ≡ region_count (listed_family self.now.file.now) }
    {
        region_count(self.file)
    }

    // The length of the family file of what it lists: it has no level counts.
    pub(crate) fn family_length(&self) -> usize
        ensures { result ≡ length self.now.file.now - 128 }
    {
        self.file.len() - 128
    }

    // The k-th region as the file lists it, counted from 0. Its record is read as in reader, which reads a family file: one function for
    // both would need as many lines of contract as it saves.
    pub(crate) fn region(&self, k: u16) -> Region
        requires { k < region_count (listed_family self.now.file.now) }
        ensures { held result ≡ region (listed_family self.now.file.now) k }
    {
        let at = 144 + 2 * (self.leaf_count() as usize) + 6 * (k as usize);
        Region {
            first: Leaf(number_at(self.file, at)),
            last: Leaf(number_at(self.file, at + 2)),
            z: number_at(self.file, at + 4),
        }
    }
}
