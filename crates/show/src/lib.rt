// Writes a word and numbers as one line to standard output, and reads a slot's words. The programs that show a state share this.
#![tactic(auto)]

ghost use Rattle.std.specs.Prelude.{◌≡◌, ◌*◌, ◌≤◌, ◌<◌, get_or};

use std::io;

// ---- lines

// The room of a line: a short word and 14 numbers. What does not fit is left out.
const ROOM: usize = 320;

// Writes a word and numbers as a line, in one write.
pub fn line(rt: &impl Print, word: &[u8], numbers: &[u64]) -> io::Result<()> {
    let mut out = [0; ROOM];
    let mut end = 0;
    if word.len() <= ROOM {
        end = text::put_bytes(&mut out, 0, word);
    }
    for n in numbers {
        if end < ROOM - 21 {
            end = text::put_number(&mut out, end, *n);
        }
    }
    if end < ROOM {
        end = text::put_byte(&mut out, end, b'\n');
    }
    front(rt, &out, end)
}

// Writes the bytes up to `end`, in one write.
pub fn front(rt: &impl Print, out: &[u8], end: usize) -> io::Result<()> {
    if let Some(bytes) = out.get(..end) {
        rt.write_all(bytes)?;
    }
    Ok(())
}

// ---- words

// Returns the word at an index, or 0 after the last one.
pub fn word_at(words: &[u32], at: usize) -> u32
    ensures { result ≡ get_or words.now at 0 }
{
    words.get(at).copied().unwrap_or(0)
}

// Returns the index of a slot's first word; 0 for numbers that no state has.
pub fn slot_base(slot: usize, w: usize) -> usize
    ensures { slot < 64 → w ≤ 16384 → result ≡ slot * w }
{
    if slot < 64 && w <= 16384 { slot * w } else { 0 }
}
