// The live peptides, and the first and last live peptide of each region: passes over the leaves, the regions and
// the peptides, each linear.
ghost use Rattle.std.specs.Prelude.{◌≡◌, ◌+◌, ◌≤◌};
ghost use Rattle.reader.specs.Family.{family_of, region_count};
ghost use Rattle.bounds.specs.Selections.{selected};
ghost use Rattle.reduction.specs.Private.Steps.{Parented, Stretched, firsts_of, lasts_of};
ghost use Rattle.reduction.specs.Private.Passes.{Beginning, Began, Open, Ending, WithParents, Ends, Ended, LiveUpTo, Nexts, Lasts, WithNearest, WithLives, if_within, FirstsUpTo, LastsUpTo};

use reader::family::{
    Leaf, Peptide, leaf_count, leaf_length, peptide_count, region_count, region_of,
};

// The low and high ends of the regions. Two arrays and not one of pairs: their places hold the weights and then the ranges
// afterwards (fixed memory), and an array of pairs for all three could not name them. That they are right is asked by the
// functions: as a ghost field it did not prove, since it has more proofs than one (that regions nest is an "or").
#[derive(Clone, Copy)]
struct RegionEnds<'a> {
    lows: &'a [u16; 8191],
    highs: &'a [u16; 8191],
}

// The first and the last live peptide of a region with z ≥ 1; both 0 if z is 0 or there is none. Numbers and not options, which
// would take twice the memory.
#[derive(Clone, Copy, PartialEq, Eq)]
pub(crate) struct Stretch {
    pub first: u16,
    pub last: u16,
}

// Writes the low ends of the regions that begin after the last leaf and the last peptide passed, 0 before the first.
// Returns the number of regions that have begun.
fn begin_regions(
    file: &[u8],
    leaf: Leaf,
    peptide: Peptide,
    begun: u16,
    lows: &mut [u16; 8191],
) -> u16
    requires { Beginning (family_of file.now) leaf.0 peptide.0 begun lows.old }
    ensures { Began (family_of file.now) (leaf.0 + 1) begun result lows.new }
{
    let regions = region_count(file);
    for k in begun..regions {
        let first = region_of(file, k).first;
        if first.0 != leaf.0 + 1 {
            return k;
        }
        lows[k as usize] = peptide.0;
    }
    regions
}

// Writes the high ends of the regions that end at the leaf, whose last peptide is known: the innermost open region,
// then its parents, since what is around an open region is open. Returns the number of the innermost one
// that stays open. Regions have numbers from 1, and 0 is none, as in the parents that are handed out.
fn end_regions(
    file: &[u8],
    parents: &[u16; 8191],
    leaf: Leaf,
    peptide: Peptide,
    inner: u16,
    highs: &mut [u16; 8191],
) -> u16
    requires { Ending (family_of file.now) parents.now leaf.0 peptide.0 inner highs.old }
    ensures { Open (family_of file.now) leaf.0 (leaf.0 + 1) highs.new result }
{
    let mut number = inner;
    while number != 0 {
        let k = (number - 1) as usize;
        let last = region_of(file, number - 1).last;
        if last.0 != leaf.0 {
            return number;
        }
        highs[k] = peptide.0;
        number = parents[k];
    }
    0
}

// The low and high ends of every region. Each begins and ends once, so the pass is linear in leaves and regions. The innermost
// open region is the last one that begins at the leaf; where none does, it is the one that was open.
fn find_ends(file: &[u8], parents: &[u16; 8191], lows: &mut [u16; 8191], highs: &mut [u16; 8191])
    requires { WithParents (family_of file.now) parents.now }
    ensures { Ends (family_of file.now) lows.new highs.new }
{
    let mut peptide = 0;
    let mut begun = 0;
    let mut inner = 0;
    for passed in 0..leaf_count(file) {
        let now_begun = begin_regions(file, Leaf(passed), Peptide(peptide), begun, lows);
        if begun < now_begun {
            inner = now_begun;
        }
        let leaf = Leaf(passed + 1);
        peptide += leaf_length(file, leaf);
        inner = end_regions(file, parents, leaf, Peptide(peptide), inner, highs);
        begun = now_begun;
    }
}

// The live peptides: all but those of the regions with z = 0. Regions begin in rising order, so from the low end of one on the
// peptides up to the farthest end so far are marked already; only those beyond it are marked.
fn find_live(file: &[u8], ends: RegionEnds, live: &mut [u8; 4096])
    requires { Ended (family_of file.now) ends.lows.now ends.highs.now }
    ensures { LiveUpTo (family_of file.now) (family_of file.now).peptides live.new }
{
    live[..peptide_count(file) as usize].fill(1);
    let mut until: usize = 0;
    for k in 0..region_count(file) {
        let low = ends.lows[k as usize] as usize;
        let high = ends.highs[k as usize] as usize;
        if region_of(file, k).z == 0 && until < high {
            live[low.max(until)..high].fill(0);
            until = high;
        }
    }
}

// For each peptide the last live one up to it; 0 if there is none.
fn fill_before(live: &[u8; 4096], m: u16, before: &mut [u16; 4098])
    requires { m ≤ 4096 }
    ensures { Lasts m (selected live.now) before.new }
{
    let mut last = 0;
    before[0] = 0;
    for p in 0..m {
        if live[p as usize] == 1 {
            last = p + 1;
        }
        before[p as usize + 1] = last;
    }
}

// For each peptide the first live one from it on; 0 if there is none.
fn fill_after(live: &[u8; 4096], m: u16, after: &mut [u16; 4098])
    requires { m ≤ 4096 }
    ensures { Nexts m (selected live.now) after.new }
{
    let mut next = 0;
    after[m as usize + 1] = 0;
    for p in (0..m).rev() {
        if live[p as usize] == 1 {
            next = p + 1;
        }
        after[p as usize + 1] = next;
    }
}

// The peptide if it is one of a region with z ≥ 1 and these ends, else 0.
fn if_within(z: u16, low: u16, high: u16, peptide: Peptide) -> u16
    ensures { result ≡ if_within z low high peptide.0 }
{
    if z != 0 && low < peptide.0 && peptide.0 <= high {
        peptide.0
    } else {
        0
    }
}

// The first and last live peptide of each region: the nearest ones from its low end on and from its high end back,
// if they are within it.
fn write_nearest(
    file: &[u8],
    ends: RegionEnds,
    after: &[u16; 4098],
    before: &[u16; 4098],
    stretches: &mut [Stretch; 8191],
)
    requires { WithNearest (family_of file.now) ends.lows.now ends.highs.now after.now before.now }
    ensures firsts_up_to { FirstsUpTo (family_of file.now) (region_count (family_of file.now)) (firsts_of stretches.new) }
    ensures lasts_up_to { LastsUpTo (family_of file.now) (region_count (family_of file.now)) (lasts_of stretches.new) }
{
    for k in 0..region_count(file) {
        let z = region_of(file, k).z;
        let low = ends.lows[k as usize];
        let high = ends.highs[k as usize];
        let next = Peptide(after[low as usize + 1]);
        let previous = Peptide(before[high as usize]);
        stretches[k as usize] = Stretch {
            first: if_within(z, low, high, next),
            last: if_within(z, low, high, previous),
        };
    }
}

// The first and last live peptide of each region, given the ends of the regions and the live peptides.
fn write_stretches(
    file: &[u8],
    ends: RegionEnds,
    live: &[u8; 4096],
    stretches: &mut [Stretch; 8191],
)
    requires { WithLives (family_of file.now) ends.lows.now ends.highs.now live.now }
    ensures firsts_up_to { FirstsUpTo (family_of file.now) (region_count (family_of file.now)) (firsts_of stretches.new) }
    ensures lasts_up_to { LastsUpTo (family_of file.now) (region_count (family_of file.now)) (lasts_of stretches.new) }
{
    let m = peptide_count(file);
    let mut after = [0u16; 4098];
    fill_after(live, m, &mut after);
    let mut before = [0u16; 4098];
    fill_before(live, m, &mut before);
    write_nearest(file, ends, &after, &before, stretches);
}

// The live peptides, and the first and last live peptide of each region with z ≥ 1. The low and high ends of the regions
// are found on the way; nobody needs them afterwards, so their places are lent and may hold anything before and after.
pub(crate) fn find_stretches(
    file: &[u8],
    parents: &[u16; 8191],
    lows: &mut [u16; 8191],
    highs: &mut [u16; 8191],
    live: &mut [u8; 4096],
    stretches: &mut [Stretch; 8191],
)
    requires { Parented file.now parents.now }
    ensures { Stretched file.now live.new (firsts_of stretches.new) (lasts_of stretches.new) }
{
    find_ends(file, parents, lows, highs);
    let ends = RegionEnds { lows, highs };
    find_live(file, ends, live);
    write_stretches(file, ends, live, stretches);
}
