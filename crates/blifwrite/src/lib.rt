// BLIF: from a network to its text, line after line in a lent buffer.
#![tactic(auto)]

ghost use Rattle.std.specs.Prelude.{◌≡◌, ℕ, ◌+◌, ◌*◌, ◌^◌, ◌<◌, ◌≤◌, length, get_or};
ghost use Rattle.bits.specs.Bounds.{most_inputs};
ghost use Rattle.buffer.specs.Laid.{Laid};
ghost use Rattle.network.specs.Answer.{Done};
ghost use Rattle.network.specs.Bounds.{most_outputs, most_fanins, most_signals, most_entries};
ghost use Rattle.network.specs.State.{state_fault};
ghost use Rattle.blif.specs.Write.{marks, copies_test, blif_text, write_blif_of, most_block_bytes, most_blif_bytes};
ghost use Rattle.blifcopies.specs.Ready.{Ready};
ghost use Rattle.blifwrite.specs.Pieces.{name_bytes, names_bytes, row_bytes, entry_bytes, cover_bytes, opening_bytes, block_bytes, blocks_bytes, head_bytes, text_bytes, most_name_bytes, most_row_bytes, most_cover_bytes, most_head_bytes};

use bits::{GATE_PLACES, MOST_INPUTS};
use network::{MOST_ENTRIES, MOST_FANINS, MOST_GATES, MOST_OUTPUTS, Refusal, Session};

// The most bytes of a block, a row for each entry, and of a text: its first three lines, the blocks, the last line. A name has three
// bytes at the most, and a space before it.
const MOST_BLOCK_BYTES: usize = 7 + 4 * (MOST_FANINS + 1) + MOST_ENTRIES * (MOST_FANINS + 3);

pub const MOST_BLIF_BYTES: usize = 9
    + (8 + 4 * MOST_INPUTS)
    + (9 + 4 * MOST_OUTPUTS)
    + MOST_GATES * MOST_BLOCK_BYTES
    + 5;

// Each function that lays bytes does so from place at on, or from the start, and returns the place behind them.

// A space and the name of signal x.
fn put_name(buf: &mut [u8], at: usize, x: u8) -> usize
    requires { (x < most_signals) × (at + most_name_bytes ≤ length buf.old) }
    ensures { Laid buf.old at (name_bytes x) buf.new result }
{
    let a = buffer::copy(buf, at, b" s");
    text::put_decimal(buf, a, x as u64)
}

fn put_names(buf: &mut [u8], at: usize, xs: &[u8]) -> usize
    requires { ((i : ℕ) → i < length xs.now → get_or xs.now i 0 < most_signals) × (at + most_name_bytes * length xs.now ≤ length buf.old) }
    ensures { Laid buf.old at (names_bytes (length xs.now) (λ i. get_or xs.now i 0)) buf.new result }
{
    let mut a = at;
    for x in xs {
        a = put_name(buf, a, *x);
    }
    a
}

// What a row has for each fan-in of entry t.
fn put_marks(buf: &mut [u8], at: usize, k: u64, t: u64) -> usize
    requires { (k ≤ most_fanins) × (at + k ≤ length buf.old) }
    ensures { Laid buf.old at (marks k t) buf.new result }
{
    let mut a = at;
    for r in 0..k {
        buf[a] = b'0' + u8::from(bits::bit_of(t, r));
        a += 1;
    }
    a
}

fn put_row(buf: &mut [u8], at: usize, k: u64, t: u64) -> usize
    requires { (k ≤ most_fanins) × (at + most_row_bytes ≤ length buf.old) }
    ensures { Laid buf.old at (row_bytes k t) buf.new result }
{
    let a = put_marks(buf, at, k, t);
    buffer::copy(buf, a, b" 1\n")
}

// The row of entry t, where the table has a one there.
fn put_entry(buf: &mut [u8], at: usize, k: u64, table: u64, t: u64) -> usize
    requires { (k ≤ most_fanins) × (t < most_entries) × (at + most_row_bytes ≤ length buf.old) }
    ensures { Laid buf.old at (entry_bytes k table t) buf.new result }
{
    if bits::bit_of(table, t) {
        return put_row(buf, at, k, t);
    }
    at
}

fn put_cover(buf: &mut [u8], at: usize, k: u64, table: u64) -> usize
    requires { (k ≤ most_fanins) × (at + most_cover_bytes ≤ length buf.old) }
    ensures { Laid buf.old at (cover_bytes k table (2 ^ k)) buf.new result }
{
    let c = bits::power(k);
    let mut a = at;
    for t in 0..c {
        a = put_entry(buf, a, k, table, t);
    }
    a
}

// The line that opens the block of signal x.
fn put_opening(buf: &mut [u8], at: usize, fs: &[u8], x: u8) -> usize
    requires { ((i : ℕ) → i < length fs.now → get_or fs.now i 0 < most_signals) × (x < most_signals) × (at + (7 + most_name_bytes * (length fs.now + 1)) ≤ length buf.old) }
    ensures { Laid buf.old at (opening_bytes (length fs.now) (λ i. get_or fs.now i 0) x) buf.new result }
{
    let a = buffer::copy(buf, at, b".names");
    let b = put_names(buf, a, fs);
    let c = put_name(buf, b, x);
    buffer::copy(buf, c, b"\n")
}

// The block of signal x with these fan-ins.
fn put_block(buf: &mut [u8], at: usize, fs: &[u8], x: u8, table: u64) -> usize
    requires { ((i : ℕ) → i < length fs.now → get_or fs.now i 0 < most_signals) × (length fs.now ≤ most_fanins) × (x < most_signals) × (at + most_block_bytes ≤ length buf.old) }
    ensures { Laid buf.old at (block_bytes (length fs.now) (λ i. get_or fs.now i 0) x table) buf.new result }
{
    let a = put_opening(buf, at, fs, x);
    put_cover(buf, a, fs.len() as u64, table)
}

fn put_blocks(buf: &mut [u8], at: usize, s: Session) -> usize
    requires { Ready s × (at + most_block_bytes * s.m ≤ length buf.old) }
    ensures { Laid buf.old at (blocks_bytes s s.m) buf.new result }
{
    let m = usize::from(s.m);
    let arity = s.arity;
    let fanins = s.fanins;
    let current = s.current;
    let mut a = at;
    for g in 0..m {
        let b = GATE_PLACES * g;
        let e = b + usize::from(arity[g]);
        let x = s.n + (g as u8);
        a = put_block(buf, a, &fanins[b..e], x, current[g]);
    }
    a
}

// The names of n inputs.
fn put_inputs(buf: &mut [u8], at: usize, n: u8) -> usize
    requires { (n ≤ most_inputs) × (at + most_name_bytes * n ≤ length buf.old) }
    ensures { Laid buf.old at (names_bytes n (λ i. i)) buf.new result }
{
    let mut a = at;
    for i in 0..n {
        a = put_name(buf, a, i);
    }
    a
}

// The names of the first p outputs.
fn put_outputs(buf: &mut [u8], at: usize, outs: [u8; MOST_OUTPUTS], p: usize) -> usize
    requires { (p ≤ most_outputs) × ((i : ℕ) → i < p → get_or outs i 0 < most_signals) × (at + most_name_bytes * p ≤ length buf.old) }
    ensures { Laid buf.old at (names_bytes p (λ i. get_or outs i 0)) buf.new result }
{
    put_names(buf, at, &outs[0..p])
}

// The lines before the blocks.
fn put_head(buf: &mut [u8], s: Session) -> usize
    requires { Ready s × (most_head_bytes ≤ length buf.old) }
    ensures { Laid buf.old 0 (head_bytes s) buf.new result }
{
    let outs = s.outputs;
    let a = buffer::copy(buf, 0, b".model s\n.inputs");
    let b = put_inputs(buf, a, s.n);
    let c = buffer::copy(buf, b, b"\n.outputs");
    let d = put_outputs(buf, c, outs, s.p as usize);
    buffer::copy(buf, d, b"\n")
}

// The whole text.
fn put_text(buf: &mut [u8], s: Session) -> usize
    requires { Ready s × (most_blif_bytes ≤ length buf.old) }
    ensures { Laid buf.old 0 (text_bytes s) buf.new result }
{
    let a = put_head(buf, s);
    let b = put_blocks(buf, a, s);
    buffer::copy(buf, b, b".end\n")
}

// The text of a valid session whose copies fit, at the start of a buffer that is long enough for each.
fn put_blif(buf: &mut [u8], s: Session) -> usize
    requires { (state_fault s ≡ Done) × (copies_test s ≡ Done) × (most_blif_bytes ≤ length buf.old) }
    ensures { Laid buf.old 0 (blif_text s) buf.new result × (length (blif_text s) ≤ most_blif_bytes) }
{
    let t = blifcopies::outgoing(s);
    put_text(buf, t)
}

// The text of a valid session from the start of the buffer, with its length, or 3, or 9; the rest of the buffer stays. Callers test the session.
pub fn write(s: Session, buf: &mut [u8]) -> Result<usize, Refusal>
    requires { state_fault s ≡ Done }
    ensures { record { answer = result; buffer = buf.new } ≡ write_blif_of s buf.old }
{
    blifcopies::copies_test(s)?;
    if MOST_BLIF_BYTES <= buf.len() {
        let size = put_blif(buf, s);
        return Ok(size);
    }
    let mut text = [0u8; MOST_BLIF_BYTES];
    let n = put_blif(&mut text, s);
    if buf.len() < n {
        return Err(Refusal::BufferTooShort);
    }
    let k = buffer::copy(buf, 0, &text[0..n]);
    Ok(k)
}
