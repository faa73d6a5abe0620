// Programs: the text of an order, parsed: GATE=TABLE words into signals, tables and the places of the gates' names.
#![tactic(auto)]

ghost use Rattle.std.specs.Prelude.{◌≡◌, true, ◌+◌, ◌^◌, ◌≤◌, ◌<◌, length, drop};
ghost use Rattle.text.specs.Words.{between, is_printing, before, all};
ghost use Rattle.ordertext.specs.Order.{most_order_bytes, is_gap, gap_is, digit_of, digits, is_numeral, numeral, name_length, is_pair, signal_named};
ghost use Rattle.ordertext.specs.Reads.{split_of, pair_in, count_in, Reads};

// The bytes of an order's text, and its pairs: each takes 4 bytes with the gap before it.
pub const MOST_ORDER_BYTES: usize = 1024;

pub const MOST_PAIRS: usize = MOST_ORDER_BYTES / 4;

// What the text has: so many pairs; else the first word that is none, from place `at` on and before `end`; or no word.
#[derive(Clone, Copy)]
pub enum Case {
    Pairs(usize),
    NoPair { at: usize, end: usize },
    Blank,
}

// Pair i names signal gates[i] and table tables[i]; the gate's name stands in the text from starts[i] on and before ends[i].
#[derive(Clone, Copy)]
pub struct Order {
    pub case: Case,
    pub gates: [u64; MOST_PAIRS],
    pub tables: [u64; MOST_PAIRS],
    pub starts: [usize; MOST_PAIRS],
    pub ends: [usize; MOST_PAIRS],
}

// A pair by its numbers: signal, table, and how long the gate's name is.
#[derive(Clone, Copy)]
pub struct Split {
    pub signal: u64,
    pub table: u64,
    pub size: usize,
}

fn gap(b: u8) -> bool
    ensures { result ≡ is_gap b }
{
    b == 0x20 || (b == 0x09 || (b == 0x0D || b == 0x0A))
}

fn between(least: u8, most: u8, b: u8) -> bool
    ensures { result ≡ between least most b }
{
    least <= b && b <= most
}

// The first place from `at` on whose byte is a gap, or is none, as asked; the end where there is no such place.
fn find(text: &[u8], at: usize, wanted: bool) -> usize
    requires { at ≤ length text.now }
    ensures { (result ≡ at + length (before (gap_is wanted) (drop at text.now))) × (result ≤ length text.now) }
{
    for i in at..text.len() {
        if gap(text[i]) == wanted {
            return i;
        }
    }
    text.len()
}

// The value of a hexadecimal digit in either case; 16 of any other byte.
fn digit(b: u8) -> u64
    ensures { (result ≡ digit_of b) × (result ≤ 16) }
{
    if between(0x30, 0x39, b) {
        return (b - 0x30) as u64;
    }
    if between(0x41, 0x46, b) {
        return (b - 0x37) as u64;
    }
    if between(0x61, 0x66, b) {
        return (b - 0x57) as u64;
    }
    16
}

// Whether all bytes are printing ones.
fn all_printing(w: &[u8]) -> bool
    ensures { result ≡ all is_printing w.now }
{
    for b in w {
        if !between(0x21, 0x7E, *b) {
            return false;
        }
    }
    true
}

// Whether all bytes are digits below the base.
fn all_digits(w: &[u8], base: u64) -> bool
    ensures { result ≡ digits base w.now }
{
    for b in w {
        if base <= digit(*b) {
            return false;
        }
    }
    true
}

// Whether the bytes are 1 to `most` digits.
fn is_numeral(w: &[u8], base: u64, most: usize) -> bool
    ensures { result ≡ is_numeral base most w.now }
{
    if w.len() < 1 {
        return false;
    }
    if most < w.len() {
        return false;
    }
    all_digits(w, base)
}

// The number that has these digits, which fits.
fn numeral(w: &[u8], base: u64) -> u64
    requires { (digits base w.now ≡ true) × (base ^ length w.now ≤ 2 ^ 64) }
    ensures { result ≡ numeral base w.now }
{
    let mut v: u64 = 0;
    for b in w {
        v = v * base + digit(*b);
    }
    v
}

// How many bytes stand before the last `=`.
fn name_length(w: &[u8]) -> usize
    ensures { result ≡ name_length w.now }
{
    for i in (0..w.len()).rev() {
        if w[i] == 0x3D {
            return i;
        }
    }
    0
}

// Whether a word is a pair.
fn is_pair(w: &[u8]) -> bool
    ensures { result ≡ is_pair w.now }
{
    if !all_printing(w) {
        return false;
    }
    let e = name_length(w);
    if e < 1 {
        return false;
    }
    let t = e + 1;
    is_numeral(&w[t..], 16, 16)
}

// The signal that a gate's name is the number of.
fn signal_named(name: &[u8]) -> u64
    ensures { result ≡ signal_named name.now }
{
    if is_numeral(name, 10, 4) {
        return numeral(name, 10);
    }
    10000
}

fn split_pair(w: &[u8]) -> Split
    requires { is_pair w.now ≡ true }
    ensures { result ≡ split_of w.now }
{
    let e = name_length(w);
    let t = e + 1;
    let signal = signal_named(&w[0..e]);
    let table = numeral(&w[t..], 16);
    Split {
        signal: signal,
        table: table,
        size: e,
    }
}

// The order of a text, word by word.
pub fn order_of(text: &[u8]) -> Order
    requires { length text.now ≤ most_order_bytes }
    ensures { Reads text.now result }
{
    let mut gates = [0u64; MOST_PAIRS];
    let mut tables = [0u64; MOST_PAIRS];
    let mut starts = [0usize; MOST_PAIRS];
    let mut ends = [0usize; MOST_PAIRS];
    let mut n: usize = 0;
    let mut at = find(text, 0, false);
    while at < text.len() {
        let end = find(text, at, true);
        if !is_pair(&text[at..end]) {
            return Order {
                case: Case::NoPair { at: at, end: end },
                gates: gates,
                tables: tables,
                starts: starts,
                ends: ends,
            };
        }
        let p = split_pair(&text[at..end]);
        gates[n] = p.signal;
        tables[n] = p.table;
        starts[n] = at;
        ends[n] = at + p.size;
        n += 1;
        at = find(text, end, false);
    }
    if n == 0 {
        return Order {
            case: Case::Blank,
            gates: gates,
            tables: tables,
            starts: starts,
            ends: ends,
        };
    }
    Order {
        case: Case::Pairs(n),
        gates: gates,
        tables: tables,
        starts: starts,
        ends: ends,
    }
}

// The gate's name of pair i, as it stands in the text.
pub fn name(text: &[u8], o: Order, i: usize) -> &[u8]
    requires { Reads text.now o × (i < count_in o.case) }
    ensures { result.now ≡ (pair_in text.now o i).gate }
{
    let a = o.starts[i];
    let e = o.ends[i];
    &text[a..e]
}

// How many pairs the order has.
pub fn count(case: Case) -> usize
    ensures { result ≡ count_in case }
{
    match case {
        Case::Pairs(n) => n,
        Case::NoPair { at: _, end: _ } => 0,
        Case::Blank => 0,
    }
}
