// The kept stretches of a family and, with the longest runs of dead peptides, the list of the reduced ranges.
ghost use Rattle.std.specs.Prelude.{Bool, true, not, ◌&&◌, eqb, ◌≡◌, ◌+◌, ◌-◌, ◌<◌, ◌≤◌, length, get_or, set};
ghost use Rattle.reader.specs.Family.{family_of, region_count};
ghost use Rattle.reader.specs.WellFormed.{ParentsBelow};
ghost use Rattle.bounds.specs.Ranges.{Range};
ghost use Rattle.bounds.specs.Selections.{selected};
ghost use Rattle.reduction.specs.Private.Steps.{Parented, Stretched, firsts_of, lasts_of, Totalled, Listed};
ghost use Rattle.reduction.specs.Private.Keeping.{WithStretches, same_ends, first_at, Weighed, WeighedBelow, TotalsBelow, counted, kept_bound, KeptMarked, begins_run, RunTo, GatheredIn, RunsAhead, SomeGathered, Whole, SameArrays};

use crate::stretch::Stretch;
use reader::family::{Peptide, peptide_count, region_count, region_of};

// A well-formed family and the stretch of each of its regions.
#[derive(Clone, Copy)]
struct Family<'a> {
    file: &'a [u8],
    stretches: &'a [Stretch],
    ghost with_stretches: { ∥ WithStretches (family_of file.now) (firsts_of stretches.now) (lasts_of stretches.now) ∥₁ },
}

// Going outward from a region: the smallest z of its stretch, and the smallest z of the other stretches. Where there is
// no other, 65,535 stands for it: a kept z is less than its room, a 16-bit number, and so less than 65,535.
#[derive(Clone, Copy)]
struct Weights {
    least: u16,
    around: u16,
}

// The weights of each region. Two arrays and not one of pairs, as their places serve other numbers too.
#[derive(Clone, Copy)]
struct WeightsOf<'a> {
    least: &'a [u16],
    around: &'a [u16],
}

// The list of the reduced ranges, while it is written: the first peptide, the last one and the bound of each of the first
// `count`. Three arrays and not one of ranges, as their places serve other numbers too.
#[derive(Drop)]
struct Ranges<'a> {
    from: &'a mut [u16],
    to: &'a mut [u16],
    bounds: &'a mut [u16],
    count: u16,
}

// The number at a place; 0 past the end.
fn nth(numbers: &[u16], k: u16) -> u16
    ensures { result ≡ get_or numbers.now k 0 }
{
    numbers.get(k as usize).copied().unwrap_or(0)
}

// The stretch of a region; none past the end.
fn stretch_at(stretches: &[Stretch], k: u16) -> Stretch
    ensures first { result.first ≡ get_or (firsts_of stretches.now) k 0 }
    ensures last { result.last ≡ get_or (lasts_of stretches.now) k 0 }
{
    stretches
        .get(k as usize)
        .copied()
        .unwrap_or(Stretch { first: 0, last: 0 })
}

// Whether two regions have the same stretch.
#[tactic(auto, unfolding(crate::specs::Private::Keeping::same_ends))]
fn same_stretch(stretches: &[Stretch], i: u16, k: u16) -> bool
    ensures { result ≡ same_ends (firsts_of stretches.now) (lasts_of stretches.now) i k }
{
    stretch_at(stretches, i) == stretch_at(stretches, k)
}

// Whether there is a next region and it has the stretch of the k-th one.
fn repeated(stretches: &[Stretch], next: Option<u16>, k: u16) -> bool
    ensures { result ≡ not (eqb (counted next) 0) && same_ends (firsts_of stretches.now) (lasts_of stretches.now) (counted next - 1) k }
{
    match next {
        Some(i) => same_stretch(stretches, i, k),
        None => false,
    }
}

impl WeightsOf<'_> {
    // The weights of the k-th region.
    fn at(self, k: u16) -> Weights
        ensures least { result.least ≡ get_or self.entry.least.now k 0 }
        ensures around { result.around ≡ get_or self.entry.around.now k 0 }
    {
        Weights {
            least: nth(self.least, k),
            around: nth(self.around, k),
        }
    }
}

impl Ranges<'_> {
    // Writes one range more.
    fn push(&mut self, from: u16, to: u16, bound: u16)
        requires whole { Whole self.old }
        requires few { self.old.count < 8191 }
        ensures whole { Whole self.new }
        ensures same_arrays { SameArrays self.old self.new }
        ensures from { self.new.from.now ≡ set self.old.from.now self.old.count from }
        ensures to { self.new.to.now ≡ set self.old.to.now self.old.count to }
        ensures bounds { self.new.bounds.now ≡ set self.old.bounds.now self.old.count bound }
        ensures count { self.new.count ≡ self.old.count + 1 }
    {
        let n = self.count as usize;
        self.from[n] = from;
        self.to[n] = to;
        self.bounds[n] = bound;
        self.count += 1;
    }
}

// The z of the k-th region's stretch if it is kept and no later region has it, else 0, which an array of numbers has room for.
// `next` is the next region with a stretch. Of regions with the same stretch only the last, innermost one knows the room.
#[tactic(auto, unfolding(crate::specs::Private::Keeping::kept_bound))]
fn kept_bound(
    totals: &[u16],
    stretches: &[Stretch],
    weights: WeightsOf,
    next: Option<u16>,
    k: u16,
) -> u16
    ensures { result ≡ kept_bound (firsts_of stretches.now) (lasts_of stretches.now) totals.now weights.entry.least.now weights.entry.around.now (counted next) k }
{
    if stretch_at(stretches, k).first == 0 || repeated(stretches, next, k) {
        return 0;
    }
    let z = nth(weights.least, k);
    if z < nth(totals, k) && z < nth(weights.around, k) {
        z
    } else {
        0
    }
}

// Whether a peptide is live; none is at 0 or past the end.
#[tactic(auto, using(crate::proofs::Basics::Selected::selected_none, crate::proofs::Basics::Selected::selected_at, crate::proofs::Basics::Selected::selected_past))]
fn is_live(live: &[u8], peptide: Peptide) -> bool
    ensures { result ≡ selected live.now peptide.0 }
{
    let p = peptide.0 as usize;
    0 < p && p <= live.len() && live[p - 1] == 1
}

// Whether a longest run of dead peptides begins at the peptide.
#[tactic(auto, unfolding(crate::specs::Private::Keeping::begins_run))]
fn begins_run(live: &[u8], peptide: Peptide) -> bool
    ensures { result ≡ begins_run (selected live.now) peptide.0 }
{
    let p = peptide.0;
    !is_live(live, peptide) && (p == 1 || is_live(live, Peptide(p.saturating_sub(1))))
}

// The last peptide of the run that begins at the first.
fn run_end(live: &[u8], first: Peptide, peptides: u16) -> Peptide
    requires first_le_peptides { first.0 ≤ peptides }
    requires first_value { begins_run (selected live.now) first.0 ≡ true }
    ensures { RunTo peptides (selected live.now) first.0 result.0 }
{
    for last in first.0..peptides {
        if is_live(live, Peptide(last + 1)) {
            return Peptide(last);
        }
    }
    Peptide(peptides)
}

// Lists the runs that begin from one peptide on, before another. The promise holds for any choice of stretches listed so
// far, if these begin before the first peptide named.
fn append_runs(file: &[u8], live: &[u8], begin: u16, end: u16, ranges: &mut Ranges)
    requires whole { Whole ranges.old }
    requires runs_ahead { RunsAhead (family_of file.now) live.now begin end }
    requires some_gathered { SomeGathered (family_of file.now) begin ranges.old }
    ensures whole { Whole ranges.new }
    ensures same_arrays { SameArrays ranges.old ranges.new }
    ensures gathered { (t : Range → Bool) → GatheredIn (family_of file.now) t begin ranges.old → GatheredIn (family_of file.now) t end ranges.new }
{
    let peptides = peptide_count(file);
    for p in begin..end {
        if begins_run(live, Peptide(p)) {
            let last = run_end(live, Peptide(p), peptides);
            ranges.push(p, last.0, 0);
        }
    }
}

impl Family<'_> {
    // The weights of the k-th region, from those of its parent. What is around a region with a stretch has one too,
    // and regions with the same stretch follow each other outward.
    fn weigh_region(&self, parents: &[u16], weights: WeightsOf, k: u16) -> Weights
        requires parents_below { ParentsBelow (family_of self.now.file.now) parents.now (region_count (family_of self.now.file.now)) }
        requires weighed_below { WeighedBelow (family_of self.now.file.now) weights.least.now weights.around.now k }
        requires k_bound { k < region_count (family_of self.now.file.now) }
        ensures { 1 ≤ first_at (family_of self.now.file.now) k → Weighed (family_of self.now.file.now) k result.least result.around }
    {
        let z = region_of(self.file, k).z;
        let number = nth(parents, k);
        if number == 0 {
            return Weights {
                least: z,
                around: 65535,
            };
        }
        let parent = number - 1;
        let outer = weights.at(parent);
        if same_stretch(self.stretches, parent, k) {
            Weights {
                least: z.min(outer.least),
                around: outer.around,
            }
        } else {
            Weights {
                least: z,
                around: outer.least.min(outer.around),
            }
        }
    }

    // Writes the weights of every region.
    fn weigh(&self, parents: &[u16], least: &mut [u16; 8191], around: &mut [u16; 8191])
        requires parents_below { ParentsBelow (family_of self.now.file.now) parents.now (region_count (family_of self.now.file.now)) }
        ensures { WeighedBelow (family_of self.now.file.now) least.new around.new (region_count (family_of self.now.file.now)) }
    {
        let regions = region_count(self.file);
        for k in 0..regions {
            let weights = self.weigh_region(parents, WeightsOf { least, around }, k);
            least[k as usize] = weights.least;
            around[k as usize] = weights.around;
        }
    }

    // Writes the z of each kept stretch at its innermost region, and 0 at every other region. From the last region to the
    // first, so that the next region with a stretch is at hand.
    fn mark_kept(&self, totals: &[u16], weights: WeightsOf, kept: &mut [u16; 8191])
        requires totals_below { TotalsBelow (family_of self.now.file.now) totals.now }
        requires weighed_below { WeighedBelow (family_of self.now.file.now) weights.least.now weights.around.now (region_count (family_of self.now.file.now)) }
        ensures { KeptMarked (family_of self.now.file.now) kept.new 0 }
    {
        let mut next = None;
        let regions = region_count(self.file);
        for k in (0..regions).rev() {
            kept[k as usize] = kept_bound(totals, self.stretches, weights, next, k);
            if stretch_at(self.stretches, k).first != 0 {
                next = Some(k);
            }
        }
    }

    // Lists the kept stretches in file order, each after the runs that begin before it. A stretch begins live and a run dead,
    // so the runs up to the first peptide of a stretch all come before it.
    fn gather(&self, live: &[u8], kept: &[u16], ranges: &mut Ranges)
        requires kept_marked { KeptMarked (family_of self.now.file.now) kept.now 0 }
        requires runs_ahead { RunsAhead (family_of self.now.file.now) live.now 1 ((family_of self.now.file.now).peptides + 1) }
        requires whole { Whole ranges.old }
        requires none_yet { ranges.old.count ≡ 0 }
        ensures same_arrays { SameArrays ranges.old ranges.new }
        ensures listed { Listed self.now.file.now ranges.new.count ranges.new.from.now ranges.new.to.now ranges.new.bounds.now }
    {
        let mut begin = 1;
        for k in 0..region_count(self.file) {
            let z = nth(kept, k);
            if z != 0 {
                let stretch = stretch_at(self.stretches, k);
                let after = stretch.first + 1;
                append_runs(self.file, live, begin, after, ranges);
                ranges.push(stretch.first, stretch.last, z);
                begin = after;
            }
        }
        append_runs(self.file, live, begin, peptide_count(self.file) + 1, ranges);
    }
}

// The reduced ranges in file order: the first peptide, the last one and the bound of each; returns how many there are.
// The places of the ranges and of the parents serve the steps before: `bounds` comes with the totals in it, `from` and
// `to` hold the weights until the kept bounds are marked, and these are marked over the parents, which only the weights need.
pub(crate) fn list_reduced(
    file: &[u8],
    parents: &mut [u16; 8191],
    live: &[u8],
    stretches: &[Stretch],
    from: &mut [u16; 8191],
    to: &mut [u16; 8191],
    bounds: &mut [u16; 8191],
) -> u16
    requires parented { Parented file.now parents.old }
    requires totalled { Totalled file.now bounds.old }
    requires stretched { Stretched file.now live.now (firsts_of stretches.now) (lasts_of stretches.now) }
    ensures { Listed file.now result from.new to.new bounds.new }
{
    let family = Family { file, stretches };
    family.weigh(parents, from, to);
    let weights = WeightsOf {
        least: from,
        around: to,
    };
    family.mark_kept(bounds, weights, parents);
    let mut ranges = Ranges {
        from,
        to,
        bounds,
        count: 0,
    };
    family.gather(live, parents, &mut ranges);
    ranges.count
}
