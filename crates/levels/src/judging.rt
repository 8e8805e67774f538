// The first cause of a PHFL file and an output. The family file of what it lists is written to a buffer, and the reader judges that: with
// the regions as they stand for 6 and 7, and in file order, without repeats, for 9 and 10.
ghost use Rattle.std.specs.Prelude.{◌≡◌, ◌≤◌, length};
ghost use Rattle.reader.specs.Causes.{first_cause, listing_causes};
ghost use Rattle.reader.specs.Refusals.{verdict};
ghost use Rattle.levels.specs.Levels.{listed_family};
ghost use Rattle.levels.specs.Private.Listing.{Headed};
ghost use Rattle.levels.specs.Private.Judging.{Distinct, Nested, Plain, room_and_places, FamilyJudged, ListedJudged};

use crate::leveling::find_levels;
use crate::listing::Listing;
use crate::ordering::order_distinct;
use crate::placing::{bad_counts, place_levels, wrong_levels};
use crate::writing::{write_as_listed, write_listed};
use reader::causes::check_header;
use reader::refusal::Refusal;

// Declines by the first of the causes 6 and 7 that holds of what the file lists.
fn check_listing(file: &[u8], plain: &mut [u8; 57354]) -> Result<(), Refusal>
    requires headed { Headed file.now }
    ensures { verdict result ≡ first_cause (listing_causes (listed_family file.now)) }
{
    write_as_listed(file, plain);
    reader::causes::check_listing(&plain[0..file.len() - 128])
}

// Writes the level of each region of the order, or declines by the first of the causes 9 and 10 that holds. The buffer has the family
// file of the regions in this order.
fn check_nesting(
    list: &Listing,
    order: &[u16],
    plain: &mut [u8; 57354],
    levels: &mut [u16; 8191],
) -> Result<(), Refusal>
    requires { Distinct list.now.file.now order.now }
    ensures nested { Nested list.now.file.now order.now levels.new (verdict result) }
    ensures plain { Plain list.now.file.now order.now plain.new }
{
    let left_out = list.region_count() as usize - order.len();
    write_listed(list, order, plain);
    find_levels(&plain[0..list.family_length() - 6 * left_out], levels)
}

// Declines by the first of the causes 16, 26 and 27 that holds, with an output of so many bytes.
fn check_places(
    list: &Listing,
    order: &[u16],
    levels: &[u16; 8191],
    room: usize,
) -> Result<(), Refusal>
    requires distinct { Distinct list.now.file.now order.now }
    requires nested { Nested list.now.file.now order.now levels.now 0 }
    ensures { verdict result ≡ first_cause (room_and_places list.now.file.now room) }
{
    if room < list.family_length() {
        return Err(Refusal::Room);
    }
    if bad_counts(list) {
        return Err(Refusal::LevelCounts);
    }
    if order.len() < list.region_count() as usize {
        return Err(Refusal::Levels);
    }
    let mut placed = [0u16; 8191];
    place_levels(order, levels, &mut placed);
    if wrong_levels(list, &placed) {
        return Err(Refusal::Levels);
    }
    Ok(())
}

// Declines by the first cause after the header and 6 and 7 that holds; else the family file stands at the start of the buffer.
fn check_family(list: &Listing, room: usize, plain: &mut [u8; 57354]) -> Result<(), Refusal>
    ensures { FamilyJudged list.now.file.now room plain.new (verdict result) }
{
    let mut order = [0u16; 8191];
    let distinct = order_distinct(list, &mut order);
    let mut levels = [0u16; 8191];
    check_nesting(list, &order[0..distinct], plain, &mut levels)?;
    check_places(list, &order[0..distinct], &levels, room)
}

// Declines by the first cause that holds, with an output of so many bytes; else the family file stands at the start of the buffer.
pub(crate) fn check_level_file(
    file: &[u8],
    room: usize,
    plain: &mut [u8; 57354],
) -> Result<(), Refusal>
    ensures { ListedJudged file.now room plain.new (verdict result) }
{
    check_header(file, b"PHFL", 144)?;
    check_listing(file, plain)?;
    check_family(&Listing { file }, room, plain)
}
