// The Simes bound along a path, without a pass over k for each prefix. A peptide is counted at the k from 1 up to a last one, and takes
// the last free slot up to that; the Simes bound of those passed is the number of slots taken.
ghost use Rattle.std.specs.Prelude.{◌≡◌, ◌++◌, ◌+◌, ◌<◌, ◌≤◌, length, drop};
ghost use Rattle.reader.specs.Lists.{tabulate};
ghost use Rattle.hybrid.specs.Private.Simes.{last_counted, SimesInputs, smaller_at};

use crate::slots::take_slot;
use sorting::list_numbers;

// The last k up to m at which a peptide with this p-value is counted. No product is over 4,096,000,000, so that 32 bits suffice.
fn last_counted(m: u16, level: u32, p: u32) -> u16
    requires m_bound { m ≤ 4096 }
    requires p_bound { p ≤ 1000000 }
    requires level_nonzero { 0 < level }
    ensures { result ≡ last_counted m level p }
{
    let product = p * (m as u32);
    let last = product.saturating_sub(1) / level;
    last.min(m as u32) as u16
}

// Writes at each entry the smaller of the curve's value and the Simes bound.
pub(crate) fn write_smaller(
    m: u16,
    path: &[u16],
    p_values: &[u32],
    level: u32,
    curve: &[u16; 4097],
    values: &mut [u16],
)
    requires simes_inputs { SimesInputs m path.now p_values.now level }
    requires room { length path.now < length values.old }
    ensures { values.new ≡ tabulate (length path.now + 1) (smaller_at m p_values.now level path.now curve.now) ++ drop (length path.now + 1) values.old }
{
    let mut slots = [0u16; 4097];
    list_numbers(4097, &mut slots);
    let mut bound = 0;
    values[0] = 0;
    for (t, peptide) in path.iter().enumerate() {
        let p = p_values[(*peptide - 1) as usize];
        if take_slot(&mut slots, last_counted(m, level, p)) {
            bound += 1;
        }
        values[t + 1] = curve[t + 1].min(bound);
    }
}
