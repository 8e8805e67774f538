// From the bytes of the two files to the text that the program prints, and the printing of it.
ghost use Rattle.std.specs.Prelude.{[], ◌≡◌, ◌≤◌, length, MatchResult};
ghost use Rattle.reader.specs.Causes.{first_cause};
ghost use Rattle.reader.specs.Refusals.{number_of};
ghost use Rattle.curve.specs.Buffers.{path_room};
ghost use Rattle.curve.specs.Program.{program_causes, output};

use crate::buffer::Buffer;
use crate::input::{FAMILY_ROOM, PATH_ROOM, decode};
use crate::text::{Text, put_refusal, put_table};
use reader::check;
use reader::refusal::Refusal;

// Writes the table of the path's curve in a text that is empty, or declines by the first refusal. An odd byte count of the path is refused
// like a path that is too long, after what is wrong with the family.
fn put_curve_table(family: &[u8], path: &[u8], text: &mut Text) -> Result<(), Refusal>
    requires path_in_bounds { length path.now ≤ path_room }
    requires empty { text.old ≡ [] }
    ensures { MatchResult result (λ done. text.new ≡ output family.now path.now) (λ refusal. (number_of refusal ≡ first_cause (program_causes family.now path.now)) × (text.new ≡ [])) }
{
    if path.len() % 2 == 1 {
        check(family)?;
        return Err(Refusal::PathLength);
    }
    let mut numbers = [0u16; 4097];
    let n = decode(path, &mut numbers);
    let mut values = [0u16; 4097];
    let mut marks = [0u8; 4096];
    bounds::curve(family, &numbers[..n], &mut values, &mut marks)?;
    put_table(text, &numbers[..n], &values, &marks);
    Ok(())
}

// What the program prints, from the bytes of the two files.
pub(crate) fn render(family: &Buffer<FAMILY_ROOM>, path: &Buffer<PATH_ROOM>) -> Text
    ensures { result ≡ output family.now path.now }
{
    let mut text = Buffer::new();
    if let Err(refusal) = put_curve_table(family.as_slice(), path.as_slice(), &mut text) {
        put_refusal(&mut text, refusal);
    }
    text
}

// A line on standard error tells a cut table from a whole one.
pub(crate) fn print(rt: &(impl Print + Eprint), text: &Text) {
    if rt.write_all(text.as_slice()).is_err() {
        let _ = rt.eprintln("curve: the output could not be written whole");
    }
}
