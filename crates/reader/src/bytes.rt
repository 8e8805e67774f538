// Bytes, and numbers of 2 bytes, low byte first.
ghost use Rattle.std.specs.Prelude.{◌≡◌, [], ◌∷◌, ◌++◌, ◌+◌, ◌*◌, ◌≤◌, min, length, take, drop, get_or, set};
ghost use Rattle.reader.specs.Bytes.{number_at, with_numbers};
ghost use Rattle.reader.specs.Lists.{same_list};

// The byte at an offset; 0 past the end.
fn byte_at(s: &[u8], at: usize) -> u8
    ensures { result ≡ get_or s.now at 0 }
{
    if at < s.len() { s[at] } else { 0 }
}

// The number that two bytes make, the low one first.
pub fn number_of(low: u8, high: u8) -> u16
    ensures { result ≡ low + 256 * high }
{
    u16::from_le_bytes([low, high])
}

// The number whose two bytes both lie in the slice.
pub(crate) fn number_within(s: &[u8], at: usize) -> u16
    requires { at + 2 ≤ length s.now }
    ensures { result ≡ number_at s.now at }
{
    number_of(s[at], s[at + 1])
}

// The number at an offset; what lies past the end counts as 0. One comparison settles both bytes of any but the last.
pub fn number_at(s: &[u8], at: usize) -> u16
    ensures { result ≡ number_at s.now at }
{
    let n = s.len();
    if n == 0 {
        return 0;
    }
    if at < n - 1 {
        number_within(s, at)
    } else {
        byte_at(s, at) as u16
    }
}

// Writes a byte at an offset; past the end nothing.
fn put_byte(out: &mut [u8], at: usize, byte: u8)
    ensures { out.new ≡ set out.old at byte }
{
    if at < out.len() {
        out[at] = byte;
    }
}

// Writes a number whose two bytes both lie in the slice.
fn put_within(out: &mut [u8], at: usize, n: u16)
    requires { at + 2 ≤ length out.old }
    ensures { out.new ≡ with_numbers out.old at (n ∷ []) }
{
    out[at..at + 2].copy_from_slice(&n.to_le_bytes());
}

// Writes a number at an offset; what lies past the end is not written. One comparison settles both bytes of any but the last.
pub fn put_number(out: &mut [u8], at: usize, n: u16)
    ensures { out.new ≡ with_numbers out.old at (n ∷ []) }
{
    let end = out.len();
    if end == 0 {
        return;
    }
    if at < end - 1 {
        put_within(out, at, n);
    } else {
        put_byte(out, at, n.to_le_bytes()[0]);
    }
}

// Writes numbers in a row from an offset on; what lies past the end is not written.
pub fn put_numbers(out: &mut [u8], at: usize, numbers: &[u16])
    ensures { out.new ≡ with_numbers out.old at numbers.now }
{
    let end = out.len();
    let mut place = at;
    for n in numbers {
        if end <= place {
            return;
        }
        put_number(out, place, *n);
        place += 2;
    }
}

// Copies bytes to the start of the lent slice, as far as it has room. The library's `copy_from_slice` of one lent slice into another is
// compiled to a call of `memmove`, which the archive for C would then need from outside; this loop is not.
pub fn copy_bytes(from: &[u8], to: &mut [u8])
    ensures { to.new ≡ take (length to.old) from.now ++ drop (length from.now) to.old }
{
    let n = from.len().min(to.len());
    for i in 0..n {
        to[i] = from[i];
    }
}

// The smaller of two numbers: a call that README promises, so that it stays beside the library's method.
pub fn smaller(a: u16, b: u16) -> u16
    ensures { result ≡ min a b }
{
    a.min(b)
}

// Whether two slices hold the same bytes: a call that README promises, so that it stays beside the operator.
pub fn same_bytes(a: &[u8], b: &[u8]) -> bool
    ensures { result ≡ same_list a.now b.now }
{
    a == b
}
