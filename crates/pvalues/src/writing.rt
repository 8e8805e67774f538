// A family with new z, written at the start of an output: what comes before the regions is copied, and each region is written with
// its leaves and its new z.
ghost use Rattle.std.specs.Prelude.{◌≡◌, [], ◌∷◌, ◌+◌, ◌≤◌, length};
ghost use Rattle.reader.specs.Bytes.{with_numbers};
ghost use Rattle.reader.specs.Family.{family_of, region_count, file_of};
ghost use Rattle.reader.specs.Causes.{Accepted};
ghost use Rattle.reader.specs.Calls.{at_start};
ghost use Rattle.pvalues.specs.FromP.{family_from_p};
ghost use Rattle.pvalues.specs.Private.Ordering.{InOrder};
ghost use Rattle.pvalues.specs.Private.Lowering.{PValues};
ghost use Rattle.pvalues.specs.Private.Climbing.{Parented, z_of_each};
ghost use Rattle.pvalues.specs.Private.Writing.{with_bounds};

use crate::climbing::find_bounds;
use crate::lowering::Lowering;
use reader::bytes::{copy_bytes, put_numbers};
use reader::family::{Region, leaf_count, region_count, region_of};

fn put_region(out: &mut [u8], at: usize, region: Region)
    ensures { out.new ≡ with_numbers out.old at (region.first.0 ∷ region.last.0 ∷ region.z ∷ []) }
{
    put_numbers(out, at, &[region.first.0, region.last.0, region.z]);
}

// Writes the file of the family with these z.
fn write_family(file: &[u8], regions: &[Lowering; 8191], out: &mut [u8])
    requires accepted { Accepted file.now }
    requires few { region_count (family_of file.now) ≤ 8191 }
    requires file_fits { length file.now ≤ length out.old }
    ensures { out.new ≡ at_start (file_of (with_bounds (family_of file.now) (z_of_each regions.now))) out.old }
{
    let start = 16 + 2 * (leaf_count(file) as usize);
    copy_bytes(&file[..start], &mut out[..start]);
    for k in 0..region_count(file) {
        let given = region_of(file, k);
        let z = regions[k as usize].z;
        put_region(out, start + 6 * (k as usize), Region { z, ..given });
    }
}

// Finds the z of every region, and writes the family with them. The regions stand in a function of their own, so that the ordering
// needs no stack beside them.
#[inline(never)]
pub(crate) fn write_from_p(
    file: &[u8],
    parents: &[u16; 8191],
    p_values: &[u32],
    deviation_squared: u32,
    order: &[u16],
    out: &mut [u8],
)
    requires accepted { Accepted file.now }
    requires parented { Parented (family_of file.now) parents.now }
    requires pvalues { PValues (family_of file.now) p_values.now deviation_squared }
    requires in_order { InOrder p_values.now order.now }
    requires file_fits { length file.now ≤ length out.old }
    ensures { out.new ≡ at_start (file_of (family_from_p (family_of file.now) p_values.now deviation_squared)) out.old }
{
    let mut regions = [Lowering { left: 0, z: 0 }; 8191];
    find_bounds(
        file,
        parents,
        p_values,
        deviation_squared,
        order,
        &mut regions,
    );
    write_family(file, &regions, out);
}
