// Words: numbers in decimal and hexadecimal, put into a lent buffer; a text parted into words, as definitions. Quoted text needs no function of its own: `buffer::copy` of `b".."` meets `ascii` of the same words.
#![tactic(auto)]

ghost use Rattle.std.specs.Prelude.{◌≡◌, ◌+◌, ◌<◌, ◌≤◌, length};
ghost use Rattle.buffer.specs.Laid.{Room, Laid};
ghost use Rattle.text.specs.Numbers.{digit, word_digits, hex, decimal};
ghost use Rattle.text.specs.Fields.{number, field};

// How many hexadecimal digits a word of 64 bits has.
pub const WORD_DIGITS: usize = 16;

fn digit(d: u64) -> u8
    requires { d < 16 }
    ensures { result ≡ digit d }
{
    let b = d as u8;
    if d < 10 {
        return 0x30 + b;
    }
    0x57 + b
}

// Each function below puts from place at on and returns the place behind what it put.

// A number in decimal.
pub fn put_decimal(buf: &mut [u8], at: usize, x: u64) -> usize
    requires { (x < 10000) × Room buf.old at (decimal x) }
    ensures { Laid buf.old at (decimal x) buf.new result }
{
    if x < 10 {
        let t = [digit(x)];
        return buffer::copy(buf, at, &t);
    }
    if x < 100 {
        let t = [digit(x / 10), digit(x % 10)];
        return buffer::copy(buf, at, &t);
    }
    if x < 1000 {
        let t = [digit(x / 100), digit(x / 10 % 10), digit(x % 10)];
        return buffer::copy(buf, at, &t);
    }
    let t = [
        digit(x / 1000),
        digit(x / 100 % 10),
        digit(x / 10 % 10),
        digit(x % 10),
    ];
    buffer::copy(buf, at, &t)
}

// The c lowest hexadecimal digits of x, the highest first.
pub fn put_hex(buf: &mut [u8], at: usize, x: u64, c: usize) -> usize
    requires { (c ≤ word_digits) × Room buf.old at (hex c x) }
    ensures { Laid buf.old at (hex c x) buf.new result }
{
    let mut a = at;
    for left in (0..c).rev() {
        buf[a] = digit((x >> (4 * left)) % 16);
        a += 1;
    }
    a
}

// A number in decimal, and the byte behind it.
pub fn put_number(buf: &mut [u8], at: usize, x: u64, after: u8) -> usize
    requires { (x < 10000) × (at + 5 ≤ length buf.old) }
    ensures { Laid buf.old at (number x after) buf.new result }
{
    let e = put_decimal(buf, at, x);
    buf[e] = after;
    e + 1
}

// The c lowest hexadecimal digits of x, and a space.
pub fn put_field(buf: &mut [u8], at: usize, x: u64, c: usize) -> usize
    requires { (c ≤ word_digits) × (at + (c + 1) ≤ length buf.old) }
    ensures { Laid buf.old at (field c x) buf.new result }
{
    let e = put_hex(buf, at, x, c);
    buf[e] = b' ';
    e + 1
}
