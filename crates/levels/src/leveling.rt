// The level of each region of a family file. What is around a region comes before it in file order, so its level is one more than that of
// its parent.
ghost use Rattle.std.specs.Prelude.{◌≡◌, ℕ, ◌<◌, ◌≤◌, length, get_or};
ghost use Rattle.reader.specs.Family.{family_of, region_count};
ghost use Rattle.reader.specs.Refusals.{verdict};
ghost use Rattle.levels.specs.Private.Leveling.{one_deeper, LevelsBelow, Parented, Leveled};

use reader::family::region_count;
use reader::refusal::Refusal;

// One more than the level of the region of that number, from 1 as in the parents; 1 for none.
fn one_deeper(levels: &[u16], number: u16) -> u16
    requires number_in_bounds { number ≤ length levels.now }
    requires by_index { (i : ℕ) → i < number → get_or levels.now i 0 ≤ 64 }
    ensures { result ≡ one_deeper levels.now number }
{
    if number == 0 {
        1
    } else {
        levels[(number - 1) as usize] + 1
    }
}

// Writes the levels in the place of the parents, from which they come.
fn fill_levels(file: &[u8], levels: &mut [u16])
    requires { Parented (family_of file.now) levels.old }
    ensures { LevelsBelow (family_of file.now) levels.new (region_count (family_of file.now)) }
{
    for k in 0..region_count(file) as usize {
        levels[k] = one_deeper(levels, levels[k]);
    }
}

// Writes the levels of a family file's regions, or declines by the first of the causes 1 to 10 that holds.
pub(crate) fn find_levels(file: &[u8], levels: &mut [u16; 8191]) -> Result<(), Refusal>
    ensures { Leveled file.now levels.new (verdict result) }
{
    reader::parents(file, levels)?;
    fill_levels(file, levels);
    Ok(())
}
