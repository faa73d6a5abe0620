// Programs: what they share, a file read until it ends and text printed.
#![tactic(auto)]

ghost use Rattle.std.specs.Prelude.{◌≤◌, length, IfOk};

use std::io::{self, Print, Read};

// Reads until the file ends or the buffer is full: a pipe gives a file in pieces. Or else says why it cannot be read.
pub fn read_from<R: Read>(source: &mut R, file: &mut [u8]) -> io::Result<usize>
    ensures { IfOk result (λ n. n ≤ length file.new) }
{
    let mut n: usize = 0;
    while n < file.len() {
        let more = source.read(&mut file[n..])?;
        if more == 0 {
            return Ok(n);
        }
        n += more;
    }
    Ok(n)
}

// Whether the text could be printed; where not, this is told. No contract can say what was written.
pub fn print(rt: HostRuntime, text: &[u8]) -> bool {
    if rt.stdout().write_all(text).is_ok() {
        return true;
    }
    tell(rt, b"cannot write the output\n");
    false
}

// Tells it on standard error, where that can be written.
pub fn tell(rt: HostRuntime, text: &[u8]) {
    let _ = rt.stderr().write_all(text);
}
