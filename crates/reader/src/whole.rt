// A family file that is read without asking whether it has what is read.
ghost use Rattle.std.specs.Prelude.{◌≡◌, ◌<◌};
ghost use Rattle.reader.specs.Private.InPlace.{Whole};

use crate::family::{Region, region_within};

// A file that has all the lengths and regions that its header counts.
#[derive(Clone, Copy)]
pub(crate) struct WholeFile<'a> {
    pub(crate) bytes: &'a [u8],
    ghost whole: { Whole bytes.now },
}

impl<'a> WholeFile<'a> {
    ghost use Rattle.reader.specs.Family.{family_of, region_count, region};
    ghost use Rattle.reader.specs.Calls.{held};

    // The k-th region, counted from 0.
    pub(crate) fn region(self, k: u16) -> Region
        requires { k < region_count (family_of self.bytes.now) }
        ensures { held result ≡ region (family_of self.entry.bytes.now) k }
    {
        region_within(self.bytes, k)
    }
}
