// Writes text into lent bytes from an index on: bytes, decimal numbers, and lines of a word, at most three numbers and a line feed. Each
// function returns the index after what it wrote.
#![tactic(auto)]

ghost use Rattle.std.specs.Prelude.{[], ◌∷◌, ◌+◌, ◌≤◌, ◌<◌, length};
ghost use Rattle.text.specs.Decimal.{decimal};
ghost use Rattle.text.specs.Put.{Puts};
ghost use Rattle.text.specs.Line.{line};

pub fn put_bytes(out: &mut [u8], at: usize, bytes: &[u8]) -> usize
    requires { at + length bytes.now ≤ length out.old }
    ensures { Puts out.old at bytes.now out.new result }
{
    out[at..at + bytes.len()].copy_from_slice(bytes);
    at + bytes.len()
}

pub fn put_byte(out: &mut [u8], at: usize, byte: u8) -> usize
    requires { at < length out.old }
    ensures { Puts out.old at (byte ∷ []) out.new result }
{
    out[at] = byte;
    at + 1
}

// Writes a number in decimal: first the digits before the last one, then that.
#[tactic(auto, using(crate::proofs::Digits::few, crate::proofs::Digits::tenth_most))]
fn put_decimal(out: &mut [u8], at: usize, n: u64) -> usize
    requires { at + 20 ≤ length out.old }
    ensures { Puts out.old at (decimal n) out.new result }
{
    if n < 10 {
        return put_byte(out, at, b'0' + n as u8);
    }
    let last = put_decimal(out, at, n / 10);
    put_byte(out, last, b'0' + (n % 10) as u8)
}

// Writes a space and a number.
#[tactic(auto, using(crate::proofs::Digits::most, crate::proofs::Put::join))]
pub fn put_number(out: &mut [u8], at: usize, n: u64) -> usize
    requires { at + 21 ≤ length out.old }
    ensures written { Puts out.old at (32 ∷ decimal n) out.new result }
    ensures short { result ≤ at + 21 }
{
    let first = put_byte(out, at, b' ');
    put_decimal(out, first, n)
}

// ---- lines

// The room that each line gets: no line is longer.
pub const LINE: usize = 80;

// Writes a word, numbers after one space each, and a line feed.
pub fn put_line(out: &mut [u8], at: usize, word: &[u8], numbers: &[u64]) -> usize
    requires room { at + 80 ≤ length out.old }
    requires short_word { length word.now ≤ 8 }
    requires few_numbers { length numbers.now ≤ 3 }
    ensures { Puts out.old at (line word.now numbers.now) out.new result }
{
    let mut end = put_bytes(out, at, word);
    for n in numbers {
        end = put_number(out, end, *n);
    }
    put_byte(out, end, b'\n')
}
