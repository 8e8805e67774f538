// Cause 23, and the first cause after those of the file and the path.
ghost use Rattle.std.specs.Prelude.{◌≡◌};
ghost use Rattle.reader.specs.Causes.{first_cause};
ghost use Rattle.reader.specs.Refusals.{verdict};
ghost use Rattle.hybrid.specs.Hybrid.{cause23};
ghost use Rattle.hybrid.specs.Calls.{hybrid_inputs};

use pvalues::inputs::check_room_and_p_values;
use reader::refusal::Refusal;

// The level is 0 or over 1,000,000.
fn bad_level(level: u32) -> bool
    ensures { result ≡ cause23 level }
{
    level == 0 || 1000000 < level
}

// Declines by the first cause of `hybrid` after those of the file and the path, with so many places for values.
pub(crate) fn check_inputs(
    file: &[u8],
    path: &[u16],
    p_values: &[u32],
    level: u32,
    room: usize,
) -> Result<(), Refusal>
    ensures { verdict result ≡ first_cause (hybrid_inputs file.now path.now p_values.now level room) }
{
    check_room_and_p_values(file, p_values, path.len() + 1, room)?;
    if bad_level(level) {
        return Err(Refusal::Level);
    }
    Ok(())
}
