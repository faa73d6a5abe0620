// The file: from bytes to a network.
#![tactic(auto)]

ghost use Rattle.std.specs.Prelude.{◌≡◌, true, ◌+◌, ◌<◌, ◌≤◌, length, take, drop};
ghost use Rattle.std.proofs.lemmas.List.Edits.{sets};
ghost use Rattle.bits.specs.Bounds.{most_inputs};
ghost use Rattle.network.specs.Bounds.{most_gates, most_outputs, most_fanins, fanin_places, excluded_words};
ghost use Rattle.network.specs.Tests.{first};
ghost use Rattle.network.specs.Tests as tests;
ghost use Rattle.network.specs.Load.{little_endian, is_excluded, header_record, gate_record, output_record, words_from, read_outputs, read_gates, read_body, read_of};
ghost use Rattle.network.specs.Write.{form_for};
ghost use Rattle.netread.specs.Kind.{kind_at, field_tests};

use bits::GATE_PLACES;
use network::{
    EXCLUDED_WORDS, FANIN_PLACES, MOST_FANINS, NARROW_BYTES, NARROW_LEAST, NARROW_MOST, Refusal,
    Session, WIDE_BYTES, WIDE_LEAST,
};

// A kind of record, by the mark that opens it.
#[derive(Clone, Copy, PartialEq, Eq)]
pub enum Kind {
    Header,
    Excluded,
    Gate,
    WideGate,
    Output,
}

// A byte as a word.
fn wide(x: u8) -> u64
    ensures { (result ≡ x) × (result < 256) }
{
    x as u64
}

// The number of the two-byte mark.
fn mark(rest: &[u8]) -> u64
    requires { 2 ≤ length rest.now }
    ensures { result ≡ tests.mark rest.now }
{
    wide(rest[0]) * 256 + wide(rest[1])
}

// The kind of the record that opens what is left: refusal 1 where under two bytes are left, 2 for a mark that opens none.
fn kind_at(rest: &[u8]) -> Result<Kind, Refusal>
    ensures { result ≡ kind_at rest.now }
{
    if rest.len() < 2 {
        return Err(Refusal::Truncated);
    }
    match mark(rest) {
        0x4E49 => Ok(Kind::Header),
        0x4E58 => Ok(Kind::Excluded),
        0x4E47 => Ok(Kind::Gate),
        0x4E48 => Ok(Kind::WideGate),
        0x4E4F => Ok(Kind::Output),
        _ => Err(Refusal::UnexpectedMark),
    }
}

// Up to eight bytes, the lowest first, as a number.
fn word(bs: &[u8]) -> u64
    requires { length bs.now ≤ 8 }
    ensures { result ≡ little_endian bs.now }
{
    let mut w: u64 = 0;
    for j in (0..bs.len()).rev() {
        w = wide(bs[j]) + 256 * w;
    }
    w
}

// A table of so many bytes, from e on.
fn table(rest: &[u8], e: usize, bytes: usize) -> u64
    requires { (bytes ≤ 8) × (e + bytes ≤ length rest.now) }
    ensures { result ≡ little_endian (take bytes (drop e rest.now)) }
{
    let f = e + bytes;
    word(&rest[e..f])
}

// How many bytes the table of k fan-ins has.
fn table_bytes(k: u8) -> usize
    ensures { (result ≡ (form_for k).bytes) × (result ≤ 8) }
{
    if (k as usize) <= NARROW_MOST {
        return NARROW_BYTES;
    }
    WIDE_BYTES
}

// The eight bytes at `at` as a number; what is missing counts as 0.
fn word_at(bs: &[u8], at: usize) -> u64
    ensures { result ≡ little_endian (take 8 (drop at bs.now)) }
{
    if bs.len() <= at {
        return 0;
    }
    if bs.len() - at < 8 {
        return word(&bs[at..]);
    }
    let e = at + 8;
    word(&bs[at..e])
}

// Sixteen words of eight bytes.
fn words(bs: &[u8]) -> [u64; EXCLUDED_WORDS]
    ensures { result ≡ words_from excluded_words bs.now }
{
    let mut ws = [0u64; EXCLUDED_WORDS];
    for i in 0..EXCLUDED_WORDS {
        ws[i] = word_at(bs, 8 * i);
    }
    ws
}

// The tests of the first record: mark, length, counts.
fn header_record(rest: &[u8]) -> Result<(), Refusal>
    ensures { result ≡ header_record rest.now }
{
    let Kind::Header = kind_at(rest)? else {
        return Err(Refusal::UnexpectedMark);
    };
    if rest.len() < 5 {
        return Err(Refusal::Truncated);
    }
    state::counts_test(rest[2], rest[3], rest[4])
}

// The tests of a gate record behind its mark: length up to k, k, the rest of the length, fan-ins, table.
fn gate_fields(
    rest: &[u8],
    limit: u8,
    least: usize,
    most: usize,
    bytes: usize,
) -> Result<(), Refusal>
    requires { (most ≤ most_fanins) × (bytes ≤ 8) }
    ensures { result ≡ first (field_tests least most bytes limit rest.now) }
{
    if rest.len() < 3 {
        return Err(Refusal::Truncated);
    }
    let k = rest[2];
    state::range_test(least, most, k)?;
    let e = 3 + (k as usize);
    if rest.len() < e + bytes {
        return Err(Refusal::Truncated);
    }
    state::fanins_test(&rest[3..e], limit)?;
    state::table_test(k, table(rest, e, bytes))
}

// The tests of a gate record: the mark decides its form.
fn gate_record(rest: &[u8], limit: u8) -> Result<(), Refusal>
    ensures { result ≡ gate_record limit rest.now }
{
    match kind_at(rest)? {
        Kind::Gate => gate_fields(rest, limit, NARROW_LEAST, NARROW_MOST, NARROW_BYTES),
        Kind::WideGate => gate_fields(rest, limit, WIDE_LEAST, MOST_FANINS, WIDE_BYTES),
        Kind::Header | Kind::Excluded | Kind::Output => Err(Refusal::UnexpectedMark),
    }
}

// The tests of an output record: mark, length, signal.
fn output_record(rest: &[u8], signals: u8) -> Result<(), Refusal>
    ensures { result ≡ output_record signals rest.now }
{
    let Kind::Output = kind_at(rest)? else {
        return Err(Refusal::UnexpectedMark);
    };
    if rest.len() < 3 {
        return Err(Refusal::Truncated);
    }
    state::output_test(signals, rest[2])
}

// The bytes fs from place at on.
fn put_fanins(fanins: [u8; FANIN_PLACES], at: usize, fs: &[u8]) -> [u8; FANIN_PLACES]
    requires { at + length fs.now ≤ fanin_places }
    ensures { result ≡ sets fanins at fs.now }
{
    let mut a = fanins;
    a[at..at + fs.len()].copy_from_slice(fs);
    a
}

// The outputs, and nothing after them.
fn outputs(t: Session, rest: &[u8]) -> Result<Session, Refusal>
    requires { (t.n ≤ most_inputs) × (t.m ≤ most_gates) × (t.p ≤ most_outputs) }
    ensures { result ≡ read_outputs t.p 0 t rest.now }
{
    let signals = t.n + t.m;
    let p = t.p as usize;
    let mut u = t;
    let mut at: usize = 0;
    for i in 0..p {
        output_record(&rest[at..], signals)?;
        let x = at + 2;
        u.outputs[i] = rest[x];
        at += 3;
    }
    if at < rest.len() {
        return Err(Refusal::TrailingBytes);
    }
    Ok(u)
}

// The gates, then the outputs.
fn gates(t: Session, rest: &[u8]) -> Result<Session, Refusal>
    requires { (t.n ≤ most_inputs) × (t.m ≤ most_gates) × (t.p ≤ most_outputs) }
    ensures { result ≡ read_gates t.m 0 t rest.now }
{
    let n = t.n;
    let m = t.m;
    let mut u = t;
    let mut at: usize = 0;
    for g in 0..m {
        let part = &rest[at..];
        gate_record(part, n + g)?;
        let i = g as usize;
        let k = part[2];
        let e = 3 + (k as usize);
        let z = table_bytes(k);
        let w = table(part, e, z);
        let f = u.fanins;
        let b = put_fanins(f, GATE_PLACES * i, &part[3..e]);
        u.arity[i] = k;
        u.fanins = b;
        u.loaded[i] = w;
        u.current[i] = w;
        at += e + z;
    }
    outputs(u, &rest[at..])
}

// The excluded set, then the gates.
fn excluded(t: Session, rest: &[u8]) -> Result<Session, Refusal>
    requires { (t.n ≤ most_inputs) × (t.m ≤ most_gates) × (t.p ≤ most_outputs) × (is_excluded rest.now ≡ true) }
    ensures { result ≡ read_body t rest.now }
{
    let n = t.n;
    let e = 2 + network::set_bytes(n);
    if rest.len() < e {
        return Err(Refusal::Truncated);
    }
    let ws = words(&rest[2..e]);
    state::excluded_test(n, ws)?;
    let mut u = t;
    u.excluded = ws;
    gates(u, &rest[e..])
}

// What follows the first record.
fn body(t: Session, rest: &[u8]) -> Result<Session, Refusal>
    requires { (t.n ≤ most_inputs) × (t.m ≤ most_gates) × (t.p ≤ most_outputs) }
    ensures { result ≡ read_body t rest.now }
{
    match kind_at(rest) {
        Ok(Kind::Excluded) => excluded(t, rest),
        _ => gates(t, rest),
    }
}

// Any bytes: the network that they hold, with no open tables yet, or the refusal.
pub fn read(bytes: &[u8]) -> Result<Session, Refusal>
    ensures { result ≡ read_of bytes.now }
{
    header_record(bytes)?;
    let t = network::started(bytes[2], bytes[3], bytes[4]);
    body(t, &bytes[5..])
}
