// Programs: the text of a listing, put into a lent buffer.
#![tactic(auto)]

ghost use Rattle.std.specs.Prelude.{◌≡◌, ◌+◌, ◌*◌, ◌<◌, ◌≤◌, length};
ghost use Rattle.buffer.specs.Laid.{Laid};
ghost use Rattle.network.specs.Answer.{Done};
ghost use Rattle.network.specs.Bounds.{most_gates, most_entries};
ghost use Rattle.network.specs.Compatible.{open_tables};
ghost use Rattle.network.specs.Flat.{loaded_net};
ghost use Rattle.network.specs.State.{state_fault};
ghost use Rattle.network.specs.Calls.{pattern_counts, with_length};
ghost use Rattle.render.specs.Listing.{header, totals, refused_line, listing_of_net, listing_of, listing_into, most_row_bytes, most_listing_bytes};
ghost use Rattle.render.specs.Text.{entries_in, row_at, rows_at, set_in, text_of, Ready};

use network::{MOST_GATES, Refusal, Session};
use text::WORD_DIGITS;

// The most bytes of a row, decimal numbers taken with four digits and tables with sixteen, and of a listing: of the header, of a row
// for each gate, and of the totals.
const MOST_ROW_BYTES: usize = 5 + 3 * (WORD_DIGITS + 1) + 5;

pub const MOST_LISTING_BYTES: usize = 26 + MOST_ROW_BYTES * MOST_GATES + 16;

// What the listing of a network shows: n inputs, m gates, and of each gate three tables of so many digits and the number of hidden
// patterns.
#[derive(Clone, Copy)]
pub struct Columns {
    pub n: u64,
    pub m: usize,
    pub digits: usize,
    pub cdc: [u64; MOST_GATES],
    pub full: [u64; MOST_GATES],
    pub opens: [u64; MOST_GATES],
    pub hidden: [u16; MOST_GATES],
}

// Each function that puts text does so from place at on, or from the start, and returns the place behind it.

fn put_row(buf: &mut [u8], at: usize, t: Columns, g: usize) -> usize
    requires { Ready t × (g < t.m) × (at + most_row_bytes ≤ length buf.old) }
    ensures { Laid buf.old at (row_at t g) buf.new result }
{
    let signal = t.n + (g as u64);
    let cdc = t.cdc[g];
    let full = t.full[g];
    let opens = t.opens[g];
    let hidden = u64::from(t.hidden[g]);
    let digits = t.digits;
    let a = text::put_number(buf, at, signal, b' ');
    let b = text::put_field(buf, a, cdc, digits);
    let c = text::put_field(buf, b, full, digits);
    let d = text::put_field(buf, c, opens, digits);
    text::put_number(buf, d, hidden, b'\n')
}

fn put_rows(buf: &mut [u8], at: usize, t: Columns) -> usize
    requires { Ready t × (at + most_row_bytes * t.m ≤ length buf.old) }
    ensures { Laid buf.old at (rows_at t t.m) buf.new result }
{
    let m = t.m;
    let mut a = at;
    for g in 0..m {
        a = put_row(buf, a, t, g);
    }
    a
}

// The set entries of a table.
fn entries_in(x: u64) -> u64
    ensures { (result ≡ entries_in x) × (result ≤ most_entries) }
{
    u64::from(bits::ones(x))
}

// The set entries of the first m tables.
fn set_in(tables: [u64; MOST_GATES], m: usize) -> u64
    requires { m ≤ most_gates }
    ensures { (result ≡ set_in tables m) × (result ≤ most_gates * most_entries) }
{
    let mut sum: u64 = 0;
    for g in 0..m {
        sum += entries_in(tables[g]);
    }
    sum
}

fn put_totals(buf: &mut [u8], at: usize, full: u64, opens: u64) -> usize
    requires { (full < 10000) × (opens < 10000) × (at + 16 ≤ length buf.old) }
    ensures { Laid buf.old at (totals full opens) buf.new result }
{
    let a = buffer::copy(buf, at, b"total ");
    let b = text::put_number(buf, a, full, b' ');
    text::put_number(buf, b, opens, b'\n')
}

fn put_header(buf: &mut [u8]) -> usize
    requires { 26 ≤ length buf.old }
    ensures { Laid buf.old 0 header buf.new result }
{
    buffer::copy(buf, 0, b"gate cdc full open hidden\n")
}

// The whole text.
fn put_text(buf: &mut [u8], t: Columns) -> usize
    requires { Ready t × (most_listing_bytes ≤ length buf.old) }
    ensures { Laid buf.old 0 (text_of t) buf.new result }
{
    let m = t.m;
    let full = t.full;
    let opens = t.opens;
    let a = put_header(buf);
    let b = put_rows(buf, a, t);
    let f = set_in(full, m);
    let o = set_in(opens, m);
    put_totals(buf, b, f, o)
}

// What a session shows once it is loaded, with the counts of its gates.
fn columns_of(s: Session, hidden: [u16; MOST_GATES]) -> Columns
    requires s_value { (state_fault s ≡ Done) × (s.current ≡ s.loaded) × (s.open_tables ≡ open_tables (loaded_net s)) }
    requires hidden_value { hidden ≡ pattern_counts s }
    ensures { Ready result × (text_of result ≡ listing_of_net (loaded_net s)) }
{
    let t = dontcares::all_tables(s);
    let cdc = t.cdc;
    let full = t.full;
    let opens = s.open_tables;
    let digits = tabletext::digits_of(s);
    Columns {
        n: u64::from(s.n),
        m: usize::from(s.m),
        digits: digits,
        cdc: cdc,
        full: full,
        opens: opens,
        hidden: hidden,
    }
}

fn put_refusal(buf: &mut [u8], k: u64) -> usize
    requires { (k < 10000) × (13 ≤ length buf.old) }
    ensures { Laid buf.old 0 (refused_line k) buf.new result }
{
    let a = buffer::copy(buf, 0, b"refused ");
    text::put_number(buf, a, k, b'\n')
}

// The listing of any bytes, in a buffer that is long enough for each.
pub fn put_listing(buf: &mut [u8], bytes: &[u8]) -> usize
    requires { most_listing_bytes ≤ length buf.old }
    ensures { Laid buf.old 0 (listing_of bytes.now) buf.new result }
{
    match loading::load_counted(bytes) {
        Ok(c) => {
            let t = columns_of(c.session, c.counts);
            put_text(buf, t)
        }
        Err(r) => put_refusal(buf, network::number_of(r)),
    }
}

// The listing from the start of the buffer, with its length; the rest of the buffer stays.
pub fn listing(bytes: &[u8], buf: &mut [u8]) -> Result<usize, Refusal>
    ensures { record { answer = result; buffer = buf.new } ≡ with_length (length (listing_of bytes.now)) (listing_into bytes.now buf.old) }
{
    let mut text = [0u8; MOST_LISTING_BYTES];
    let n = put_listing(&mut text, bytes);
    if buf.len() < n {
        return Err(Refusal::BufferTooShort);
    }
    let k = buffer::copy(buf, 0, &text[0..n]);
    Ok(k)
}
