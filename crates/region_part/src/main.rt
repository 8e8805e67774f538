// Writes the bytes that `reader::regions` hands back of family.phf in the current folder. C cannot be handed a part of its
// own memory, so this is what a test of that call runs.
#![tactic(auto)]

ghost use Rattle.std.specs.Counts.{IsPrefixLen};

use std::fs::File;
use std::io::Read;

// Reads until the buffer is full, the file ends or a read fails; returns how many bytes were read. What came before a failure counts
// here, and does not in the curve program, so the two loops are two.
fn read_full(file: &mut impl Read, bytes: &mut [u8]) -> usize
    ensures { IsPrefixLen result bytes.new }
{
    let mut done = 0;
    while done < bytes.len() {
        match file.read(&mut bytes[done..]) {
            Ok(more) if more > 0 => done += more,
            _ => return done,
        }
    }
    done
}

fn main(rt: HostRuntime) {
    if let Ok(mut file) = File::open(&rt, "family.phf") {
        let mut family = [0u8; 57355];
        let n = read_full(&mut file, &mut family);
        let _ = rt.write_all(reader::regions(&family[..n]));
    }
}
