// The inside totals of all regions, in one walk along the line. A region's value calls on the row of regions just inside it,
// and that row calls on each region's value; the cursor only moves forward, so every leaf length and every byte of the
// selection is read once in all.
ghost use Rattle.std.specs.Prelude.{◌≤◌, length, ◌≡◌};
ghost use Rattle.reader.specs.Family.{family_of, region_count, region};
ghost use Rattle.reader.specs.Calls.{held};
ghost use Rattle.bounds.specs.Private.Rows.{Ready, RegionReady, RowReady, RegionWalked, RowWalked, LineWalked};

use crate::cursor::{Counted, Cursor, Line};
use reader::family::{Leaf, Peptide, Region, leaf_count};

impl Line<'_> {
    // The value of the region at the cursor, whose record is given: the smaller of its z and its inside total, which is stored.
    #[cycle(region_value_row_value)]
    fn region_value(&self, totals: &mut [u16], from: Cursor, this: Region) -> Counted
        requires region_ready { RegionReady (family_of self.now.file.now) totals.old from }
        requires this_value { held this ≡ region (family_of self.now.file.now) from.region }
        ensures { RegionWalked (family_of self.now.file.now) self.now.selection.now totals.old totals.new from result }
    {
        let inside = Cursor {
            region: from.region + 1,
            ..from
        };
        let row = self.row_value(totals, this.last, inside);
        totals[from.region as usize] = row.count;
        Counted {
            count: this.z.min(row.count),
            ..row
        }
    }

    // The inside total of the row that begins at the cursor and ends with a leaf: the values of its regions, and the selected
    // peptides between them.
    #[cycle(region_value_row_value)]
    fn row_value(&self, totals: &mut [u16], last: Leaf, from: Cursor) -> Counted
        requires { RowReady (family_of self.now.file.now) totals.old from last.0 }
        ensures { RowWalked (family_of self.now.file.now) self.now.selection.now totals.old totals.new from result }
    {
        let mut total = 0;
        let mut at = from;
        while let Some(next) = self.region_by(at.region, last) {
            let before = self.pass_to_region(at, next);
            let inner = self.region_value(totals, before.at, next);
            total += before.count + inner.count;
            at = inner.at;
        }
        let rest = self.pass(at, last);
        Counted {
            count: total + rest.count,
            ..rest
        }
    }
}

// The bound of the selection: the inside total of the whole line. The inside totals of all regions are stored.
pub(crate) fn line_value(file: &[u8], selection: &[u8], totals: &mut [u16]) -> u16
    requires ready { Ready (family_of file.now) selection.now }
    requires file_in_bounds { region_count (family_of file.now) ≤ length totals.old }
    ensures { LineWalked (family_of file.now) selection.now totals.old totals.new result }
{
    let start = Cursor {
        region: 0,
        leaf: Leaf(0),
        peptide: Peptide(0),
    };
    let row = Line { file, selection }.row_value(totals, Leaf(leaf_count(file)), start);
    row.count
}
