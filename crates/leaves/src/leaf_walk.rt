// The walk along the leaf lengths to the leaf of a peptide. Whole blocks of leaves are passed while they end before the peptide:
// a walk spends most of its time there. What is passed is only counted, so nothing is kept of where leaves end.
ghost use Rattle.std.specs.Prelude.{◌≡◌, ◌+◌, ◌*◌, ◌≤◌, length, sum};
ghost use Rattle.reader.specs.Bytes.{number_at};
ghost use Rattle.reader.specs.Family.{family_of};
ghost use Rattle.reader.specs.Family as family;
ghost use Rattle.leaves.specs.Private.Walking.{added, Capped, Walked, FoundAfter, CountedTo};

use reader::bytes::number_at;
use reader::family::{Leaf, Peptide, leaf_count};

// A walk in a file that has all the lengths that its header counts: the number of leaves, the last leaf passed, 0 before the first,
// and the peptide's number less the peptides passed.
#[derive(Clone, Copy)]
pub(crate) struct Walk<'a> {
    pub file: &'a [u8],
    pub leaves: u16,
    pub passed: Leaf,
    pub left: u16,
    ghost counted: { leaves ≡ family.leaves (family_of file.now) },
    ghost lengths_within: { 16 + 2 * leaves ≤ length file.now },
    ghost among: { passed.0 ≤ leaves },
}

// The leaf length at a byte that lies in the file with the next one. The reader's `number_at` tests that, and no public function may
// ask it of its callers.
#[tactic(auto, unfolding(reader::specs::Bytes::number_at))]
fn length_at(file: &[u8], at: usize) -> u16
    requires { at + 2 ≤ length file.now }
    ensures { result ≡ number_at file.now at }
{
    u16::from_le_bytes([file[at], file[at + 1]])
}

// Adds the lengths of eight leaves, from the offset of the first one, one to each of eight sums side by side, which the compiler adds
// to at once. A sum stays at 65,535 where it would pass it: a peptide's number is not more, so that its leaf is not behind a block
// with such a sum.
fn add_row(file: &[u8], at: usize, lanes: &mut [u16; 8])
    requires { at + 16 ≤ length file.now }
    ensures { Capped (sum lanes.old + added file.now at 8) (sum lanes.new) }
{
    for (i, lane) in lanes.iter_mut().enumerate() {
        *lane = lane.saturating_add(length_at(file, at + 2 * i));
    }
}

// The eight sums added up.
fn lane_total(lanes: &[u16; 8]) -> u32
    ensures { result ≡ sum lanes.now }
{
    lanes.iter().map(|lane| u32::from(*lane)).sum()
}

// The lengths of a block of leaves added up, eight in each row, from the offset of the first one. The loop has no way out:
// each row is then added at once.
fn block_lengths(file: &[u8], at: usize, rows: u16) -> u32
    requires rows_bound { rows ≤ 8 }
    requires rows_in_bounds { at + 16 * rows ≤ length file.now }
    ensures { Capped (added file.now at (8 * rows)) result }
{
    let mut lanes = [0; 8];
    for row in 0..rows as usize {
        add_row(file, at + 16 * row, &mut lanes);
    }
    lane_total(&lanes)
}

impl<'a> Walk<'a> {
    // Passes blocks of so many rows, while these end before the peptide.
    pub(crate) fn pass_blocks(&self, rows: u16) -> Walk<'a>
        requires rows_bound { (1 ≤ rows) × (rows ≤ 8) }
        ensures same_file { result.file.now ≡ self.now.file.now }
        ensures walked { Walked self.now.file.now (8 * rows) self.now.passed.0 self.now.left result.passed.0 result.left }
    {
        let width = 8 * rows;
        let mut passed = self.passed.0;
        let mut left = self.left;
        for _block in 0..(self.leaves - passed) / width {
            let sum = block_lengths(self.file, 16 + 2 * (passed as usize), rows);
            if (left as u32) <= sum {
                break;
            }
            left -= sum as u16;
            passed += width;
        }
        Walk {
            file: self.file,
            leaves: self.leaves,
            passed: Leaf(passed),
            left,
        }
    }

    // How many of the next n leaves end before the peptide. All n are looked at: a way out of the loop that cannot be foreseen costs
    // more than these few.
    fn leaves_before(&self, n: u16) -> u16
        requires ahead { self.now.passed.0 + n ≤ self.now.leaves }
        ensures counted_to { CountedTo (family_of self.now.file.now) self.now.passed.0 self.now.left n (added self.now.file.now (16 + 2 * self.now.passed.0) n) result }
        ensures upper_bound { result ≤ n }
    {
        let at = 16 + 2 * (self.passed.0 as usize);
        let mut sum = 0;
        let mut count = 0;
        for i in 0..n {
            sum += length_at(self.file, at + 2 * (i as usize)) as u32;
            count += u16::from(sum < self.left as u32);
        }
        count
    }

    // The leaf of the peptide where it is one of the next sixteen.
    pub(crate) fn leaf_of_sixteen(&self) -> Leaf
        requires ahead { self.now.passed.0 + 16 ≤ self.now.leaves }
        requires among_them { self.now.left ≤ added self.now.file.now (16 + 2 * self.now.passed.0) 16 }
        ensures { FoundAfter (family_of self.now.file.now) self.now.passed.0 self.now.left result.0 }
    {
        Leaf(self.passed.0 + self.leaves_before(16) + 1)
    }

    // The leaf of the peptide where all the leaves that are left are looked at; leaf 0 where the lengths end before it.
    pub(crate) fn leaf_of_last(&self) -> Leaf
        ensures { FoundAfter (family_of self.now.file.now) self.now.passed.0 self.now.left result.0 }
    {
        let n = self.leaves - self.passed.0;
        let count = self.leaves_before(n);
        if count == n {
            return Leaf(0);
        }
        Leaf(self.passed.0 + count + 1)
    }
}

// The leaf of the peptide in a file that lacks some of the lengths, leaf by leaf: what lies past the end counts as 0.
pub(crate) fn leaf_by_leaf(file: &[u8], peptide: Peptide) -> Leaf
    ensures { FoundAfter (family_of file.now) 0 peptide.0 result.0 }
{
    let mut left = peptide.0;
    for j in 0..leaf_count(file) {
        let length = number_at(file, 16 + 2 * (j as usize));
        if left <= length {
            return Leaf(j + 1);
        }
        left -= length;
    }
    Leaf(0)
}
