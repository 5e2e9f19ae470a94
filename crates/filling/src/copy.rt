// The call copy_from_slice: writes into a span.
ghost use Rattle.std.specs.Prelude.{◌≡◌, length};
ghost use Rattle.state.specs.declared.Answer.TheVariants.{Shown};
ghost use Rattle.filling.specs.InArena.{InArena};
ghost use Rattle.filling.specs.Copying.{fits, written, looked_up, copy_answer, copy_image};

use state::{Answer, Refusal, Span, State};

// Queries the address; refuses if the image is not as long as the arena.
fn look_up(s: State, used: &[u32], stop: &[u32], room: usize, address: u64) -> Answer
    ensures { result ≡ looked_up s used.now stop.now room address }
{
    if room as u64 != s.length {
        return Answer::Refused(crate::wrong_image(s, used.len(), stop.len()));
    }
    query::query(s, used, stop, address)
}

// Writes the bytes into a span from an offset on; refuses if they pass the span's end.
fn write(image: &mut [u8], arena: u64, x: Span, offset: u64, bytes: &[u8]) -> Answer
    requires { InArena arena (length image.old) x }
    ensures value { result ≡ fits offset (length bytes.now) (Shown x) }
    ensures image_after { image.new ≡ written arena offset bytes.now image.old result }
{
    let n = bytes.len() as u64;
    if x.size < n || x.size - n < offset {
        return Answer::Refused(Refusal::InvalidArgument);
    }
    text::put_bytes(image, (x.address - arena + offset) as usize, bytes);
    Answer::Shown(x)
}

// Copies bytes into the span that starts at an address, from an offset on.
pub fn copy_from_slice(
    s: State,
    used: &[u32],
    stop: &[u32],
    image: &mut [u8],
    address: u64,
    offset: u64,
    bytes: &[u8],
) -> Answer
    ensures value { result ≡ copy_answer s used.now stop.now (length image.old) address offset (length bytes.now) }
    ensures image_after { image.new ≡ copy_image s used.now stop.now image.old address offset bytes.now }
{
    match look_up(s, used, stop, image.len(), address) {
        Answer::Shown(x) => write(image, s.arena, x, offset, bytes),
        refused => refused,
    }
}
