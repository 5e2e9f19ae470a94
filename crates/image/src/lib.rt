// Fills bytes of the arena's image with a pattern.
#![tactic(auto)]

ghost use Rattle.std.specs.Prelude.{◌≡◌, ◌+◌, ◌≤◌, length};
ghost use Rattle.image.specs.Image.{filled_at};

// Fills `n` bytes from index `at` on, and writes no other byte.
pub fn fill_pattern(image: &mut [u8], at: usize, n: usize, pattern: u32)
    requires { at + n ≤ length image.old }
    ensures { image.new ≡ filled_at image.old at n pattern }
{
    let bytes = pattern.to_le_bytes();
    for (i, byte) in image[at..at + n].iter_mut().enumerate() {
        *byte = bytes[i % 4];
    }
}
