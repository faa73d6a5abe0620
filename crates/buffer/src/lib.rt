// Words: bytes and words put into lent buffers, from a place on; all else in the buffer stays.
#![tactic(auto)]

ghost use Rattle.std.specs.Prelude.{◌≡◌, ◌+◌, ◌%◌, ◌≤◌, length};
ghost use Rattle.std.proofs.lemmas.List.Edits.{sets};
ghost use Rattle.bits.specs.Lists.{bytes_in};
ghost use Rattle.buffer.specs.Laid.{Room, Laid};

// A function that returns a place returns the one behind what it put.

pub fn copy(buf: &mut [u8], at: usize, bytes: &[u8]) -> usize
    requires { Room buf.old at bytes.now }
    ensures { Laid buf.old at bytes.now buf.new result }
{
    let end = at + bytes.len();
    buf[at..end].copy_from_slice(bytes);
    end
}

// The c lowest bytes of x, the lowest first.
pub fn put_bytes(buf: &mut [u8], at: usize, x: u64, c: usize) -> usize
    requires { at + c ≤ length buf.old }
    ensures { Laid buf.old at (bytes_in c x) buf.new result }
{
    let mut y = x;
    for i in 0..c {
        buf[at + i] = (y % 256) as u8;
        y /= 256;
    }
    at + c
}

// Bytes, one to a word.
pub fn lay_bytes(words: &mut [u64], at: usize, bytes: &[u8])
    requires { Room words.old at bytes.now }
    ensures { words.new ≡ sets words.old at bytes.now }
{
    for (i, b) in bytes.iter().enumerate() {
        words[at + i] = u64::from(*b);
    }
}

pub fn lay_words(words: &mut [u64], at: usize, new: &[u64])
    requires { Room words.old at new.now }
    ensures { words.new ≡ sets words.old at new.now }
{
    let end = at + new.len();
    words[at..end].copy_from_slice(new);
}
