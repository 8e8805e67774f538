// The program's text, written piece by piece. `write!` is not used: its promise speaks of what is written if it succeeds, and nothing
// says that it does.
ghost use Rattle.std.specs.Prelude.{[], ◌≡◌, ◌+◌, ◌++◌, ◌≤◌, length};
ghost use Rattle.reader.specs.Refusals.{number_of};
ghost use Rattle.curve.specs.Text.{field_of, line_of, table_of, refusal as refusal_line};
ghost use Rattle.curve.specs.Buffers.{text_room};

use crate::buffer::Buffer;
use reader::family::Peptide;
use reader::refusal::Refusal;

// The heading has 21 bytes, and each of at most 4,097 lines four numbers of at most 5 digits with a byte after each:
// 21 + 24 * 4,097.
pub(crate) const TEXT_ROOM: usize = 98349;

// What the program prints.
pub(crate) type Text = Buffer<TEXT_ROOM>;

// A number and the byte after it.
fn put_field(text: &mut Text, n: u16, after: u8)
    requires { length text.old + 6 ≤ text_room }
    ensures { text.new ≡ text.old ++ field_of n after }
{
    let mut digits = itoa::Buffer::new();
    text.extend(digits.format(n).as_bytes());
    text.extend(&[after]);
}

fn put_line(text: &mut Text, t: u16, peptide: Peptide, value: u16, mark: u8)
    requires { length text.old + 24 ≤ text_room }
    ensures { text.new ≡ text.old ++ line_of t peptide.0 value mark }
{
    put_field(text, t, b' ');
    put_field(text, peptide.0, b' ');
    put_field(text, value, b' ');
    put_field(text, u16::from(mark), b'\n');
}

// The heading, and a line for each t from 0 to the path's length, in a text that is empty. A text is long, so it is lent and not handed
// over: each answer that holds one would be a copy of it.
pub(crate) fn put_table(text: &mut Text, path: &[u16], values: &[u16; 4097], marks: &[u8; 4096])
    requires empty { text.old ≡ [] }
    requires short { length path.now ≤ 4096 }
    ensures { text.new ≡ table_of path.now values.now marks.now }
{
    text.extend(b"t peptide bound mark\n");
    put_line(text, 0, Peptide(0), values[0], 0);
    for (i, number) in path.iter().enumerate() {
        let t = i + 1;
        put_line(text, t as u16, Peptide(*number), values[t], marks[i]);
    }
}

// One line with the number of a refusal, in a text that is empty.
pub(crate) fn put_refusal(text: &mut Text, refusal: Refusal)
    requires { text.old ≡ [] }
    ensures { text.new ≡ refusal_line (number_of refusal) }
{
    text.extend(b"refused ");
    put_field(text, u16::from(refusal), b'\n');
}
