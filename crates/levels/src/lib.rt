// Families by level: a family file converted to one that lists the regions outermost first, and back.
#![tactic(auto)]

mod judging;
mod leveling;
mod listing;
mod ordering;
mod placing;
mod writing;

ghost use Rattle.levels.specs.Calls.{ToLevelsAnswers, ToLevelsWrites, FromLevelsAnswers, FromLevelsWrites};

use judging::check_level_file;
use leveling::find_levels;
use reader::refusal::Refusal;
use writing::write_by_level;

// Writes the PHFL file of a family at the start of the output, the regions by level, and within a level by first leaf; the answer is its
// length. A call that declines leaves the output as it was.
pub fn to_levels(file: &[u8], out: &mut [u8]) -> Result<u16, Refusal>
    ensures to_levels_answers { ToLevelsAnswers file.now out.old result }
    ensures to_levels_writes { ToLevelsWrites file.now out.old out.new }
{
    let mut levels = [0u16; 8191];
    find_levels(file, &mut levels)?;
    let needed = file.len() + 128;
    if out.len() < needed {
        return Err(Refusal::Room);
    }
    write_by_level(file, &levels, out);
    Ok(needed as u16)
}

// Writes the family file of what a PHFL file lists at the start of the output; the answer is its length. A call that declines leaves the
// output as it was.
pub fn from_levels(file: &[u8], out: &mut [u8]) -> Result<u16, Refusal>
    ensures from_levels_answers { FromLevelsAnswers file.now out.old result }
    ensures from_levels_writes { FromLevelsWrites file.now out.old out.new }
{
    let mut plain = [0u8; 57354];
    check_level_file(file, out.len(), &mut plain)?;
    let needed = file.len() - 128;
    out[0..needed].copy_from_slice(&plain[0..needed]);
    Ok(needed as u16)
}
