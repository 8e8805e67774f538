// Bytes at the start of an array of fixed length: what a file holds, or a text as far as it is written.
ghost use Rattle.std.specs.Prelude.{ℕ, List, [], ◌≡◌, ◌≤◌, ◌+◌, ◌++◌, length, take};
ghost use Rattle.curve.specs.Private.Reading.{counted};

use std::fs::File;
use std::io;
use std::io::Read;
use std::marker::Model;
use std::rt::Files;

#[derive(Drop)]
pub(crate) struct Buffer<const ROOM: usize> {
    bytes: [u8; ROOM],
    length: usize,
}

impl<const ROOM: usize> Model for Buffer<ROOM> {
    ghost Value = { List ℕ };

    ghost view = { λ b. take b.length b.bytes };

    ghost invariant = { λ b. b.length ≤ ROOM };
}

impl<const ROOM: usize> Buffer<ROOM> {
    pub(crate) fn new() -> Self
        ensures { result ≡ [] }
    {
        Buffer {
            bytes: [0; ROOM],
            length: 0,
        }
    }

    pub(crate) fn as_slice(&self) -> &[u8]
        ensures value { result.now ≡ self.now }
        ensures fits { length result.now ≤ ROOM }
    {
        &self.bytes[..self.length]
    }

    pub(crate) fn extend(&mut self, more: &[u8])
        requires { length self.old + length more.now ≤ ROOM }
        ensures { self.new ≡ self.old ++ more.now }
    {
        let end = self.length + more.len();
        let bytes = &mut self.bytes[..];
        bytes[self.length..end].copy_from_slice(more);
        self.length = end;
    }
}

// How many bytes count after a read that brought none: those before it at the end of the file, none if the read failed.
// What came before a failure would be taken for a shorter file, so a file that fails part way counts as one that cannot be
// opened; so does a folder, which can be opened and not read. A read that a signal interrupts counts as failed too: the
// program handles no signal, so none is, and trying again need not end.
fn ending(done: usize, got: io::Result<usize>) -> usize
    ensures { result ≡ counted done got }
{
    if got.is_err() { 0 } else { done }
}

// A read may bring fewer bytes than there is room for, so only one that brings none ends the file.
fn read_all(file: &mut impl Read, bytes: &mut [u8]) -> usize
    ensures { result ≤ length bytes.new }
{
    let mut done = 0;
    while done < bytes.len() {
        match file.read(&mut bytes[done..]) {
            Ok(more) if more > 0 => done += more,
            got => return ending(done, got),
        }
    }
    done
}

// The bytes of a file from its start, as many as have room; none if it cannot be opened.
pub(crate) fn read<const ROOM: usize>(rt: &impl Files, name: &str) -> Buffer<ROOM> {
    let mut bytes = [0; ROOM];
    let length = match File::open(rt, name) {
        Ok(mut file) => read_all(&mut file, &mut bytes),
        Err(_) => 0,
    };
    Buffer { bytes, length }
}
