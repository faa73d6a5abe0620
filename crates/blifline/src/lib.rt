// What one line of a BLIF text gives: the tests of each kind of line, rows and the cover's table, names as places.
#![tactic(auto)]

ghost use Rattle.std.specs.Prelude.{◌≡◌, true, not, map, ◌+◌, ◌-◌, ◌≤◌, ◌<◌, length, take, drop};
ghost use Rattle.std.proofs.lemmas.List.Edits.{sets};
ghost use Rattle.bits.specs.Bounds.{gate_places};
ghost use Rattle.network.specs.Bounds.{most_gates, most_outputs, most_signals, fanin_places};
ghost use Rattle.network.specs.Tests.{first, count_test};
ghost use Rattle.text.specs.Words.{all};
ghost use Rattle.blif.specs.Text.{fields};
ghost use Rattle.blif.specs.Read.{known, place_in, names, names_tests, model_test};
ghost use Rattle.bliftext.specs.Named.{names_at, Inside};
ghost use Rattle.blifline.specs.Rows.{RowRead};
ghost use Rattle.blifline.specs.Lines.{Held, OwnAt, block_tests_of, end_tests_of};

use bliftext::Span;
use network::{FANIN_PLACES, MOST_FANINS, MOST_GATES, MOST_OUTPUTS, MOST_SIGNALS, Refusal};

mod rows;

// A cover so far: the output digit of its rows, 0 where there is none, and its table.
#[derive(Drop)]
pub struct Cover {
    pub digit: u8,
    pub table: u64,
}

// The cover with the row of the line; digit 0 where the line is no row.
pub fn row(s: &[u8], at: usize, k: u8, digit: u8, old: u64) -> Cover
    requires { (at ≤ length s.now) × (k ≤ gate_places) }
    ensures { RowRead k digit old (fields (drop at s.now)) result }
{
    let d = rows::row_digit(s, at, k, digit);
    if d == 0 {
        return Cover { digit: 0, table: 0 };
    }
    let w = bliftext::word_from(s, at);
    let a = w.start;
    let e = w.end;
    let t = rows::row_table(k, old, digit, &s[a..e], d);
    Cover { digit: d, table: t }
}

// Refusal 3: a count outside 1 .. most. As state's, but a line may have more names than a byte counts.
fn count_test(most: usize, x: usize) -> Result<(), Refusal>
    ensures { result ≡ count_test most x }
{
    if x < 1 {
        return Err(Refusal::OutOfBounds);
    }
    if x > most {
        return Err(Refusal::OutOfBounds);
    }
    Ok(())
}

// The tests of the `.model` line.
pub fn model_test(s: &[u8], at: usize) -> Result<(), Refusal>
    requires { at ≤ length s.now }
    ensures { result ≡ model_test (fields (drop at s.now)) }
{
    if bliftext::foreign(s, at) {
        return Err(Refusal::OutsideSubset);
    }
    if !bliftext::opens(s, at, b".model") {
        return Err(Refusal::OutsideSubset);
    }
    if bliftext::count(s, at) != 2 {
        return Err(Refusal::OutsideSubset);
    }
    Ok(())
}

// The tests of a line that opens with the word and lists names.
pub fn names_test(s: &[u8], at: usize, word: &[u8], most: usize) -> Result<(), Refusal>
    requires { at ≤ length s.now }
    ensures { result ≡ first (names_tests word.now most (fields (drop at s.now))) }
{
    if bliftext::foreign(s, at) {
        return Err(Refusal::OutsideSubset);
    }
    if !bliftext::opens(s, at, word) {
        return Err(Refusal::OutsideSubset);
    }
    let w = bliftext::word_from(s, at);
    let e = w.end;
    if bliftext::repeated(s, e) {
        return Err(Refusal::BadName);
    }
    count_test(most, bliftext::count(s, e))
}

// The places of the n words from `at` on.
pub fn names_at(s: &[u8], at: usize, n: usize) -> [Span; MOST_SIGNALS]
    requires { (at ≤ length s.now) × (n ≤ most_signals) × (n ≡ length (fields (drop at s.now))) }
    ensures { Held s.now result n (fields (drop at s.now)) }
{
    let mut names = [Span { start: 0, end: 0 }; MOST_SIGNALS];
    let mut x = bliftext::word_from(s, at);
    for i in 0..n {
        names[i] = x;
        x = bliftext::word_from(s, x.end);
    }
    names
}

// All but one.
pub fn less_one(n: usize) -> usize
    ensures { result ≡ n - 1 }
{
    if n < 1 {
        return 0;
    }
    n - 1
}

// The last word of a `.names` line.
pub fn own(s: &[u8], at: usize) -> Span
    requires { (at ≤ length s.now) × (1 ≤ length (names (fields (drop at s.now)))) }
    ensures { OwnAt s.now (names (fields (drop at s.now))) result }
{
    let w = bliftext::word_from(s, at);
    let e = w.end;
    let k = less_one(bliftext::count(s, e));
    bliftext::word_at(s, e, k)
}

// Whether the first k words from `at` on are names at these places of the text.
fn all_known(text: &[u8], signals: &[Span], s: &[u8], at: usize, k: usize) -> bool
    requires { Inside text.now signals.now × (at ≤ length s.now) × (k ≤ length (fields (drop at s.now))) }
    ensures { result ≡ all (known (names_at text.now signals.now)) (take k (fields (drop at s.now))) }
{
    let mut x = bliftext::word_from(s, at);
    for _i in 0..k {
        if bliftext::place_of(text, signals, &s[x.start..x.end]).is_none() {
            return false;
        }
        x = bliftext::word_from(s, x.end);
    }
    true
}

// Whether the last word from `at` on, behind k others, is a name at these places.
fn own_known(text: &[u8], signals: &[Span], s: &[u8], at: usize, k: usize) -> bool
    requires { Inside text.now signals.now × (at ≤ length s.now) × (k ≡ length (fields (drop at s.now)) - 1) }
    ensures { result ≡ not (all (λ w. not (known (names_at text.now signals.now) w)) (drop k (fields (drop at s.now)))) }
{
    let x = bliftext::word_at(s, at, k);
    let a = x.start;
    let e = x.end;
    if a == e {
        return false;
    }
    bliftext::place_of(text, signals, &s[a..e]).is_some()
}

// The tests of a `.names` line behind m blocks.
pub fn block_test(
    text: &[u8],
    signals: &[Span],
    s: &[u8],
    at: usize,
    m: usize,
) -> Result<(), Refusal>
    requires { Inside text.now signals.now × (at ≤ length s.now) × (m ≤ most_gates) }
    ensures { result ≡ first (block_tests_of (names_at text.now signals.now) m (fields (drop at s.now))) }
{
    if bliftext::foreign(s, at) {
        return Err(Refusal::OutsideSubset);
    }
    let w = bliftext::word_from(s, at);
    let e = w.end;
    let k = less_one(bliftext::count(s, e));
    if !all_known(text, signals, s, e, k) {
        return Err(Refusal::BadName);
    }
    if own_known(text, signals, s, e, k) {
        return Err(Refusal::BadName);
    }
    if bliftext::repeated(s, e) {
        return Err(Refusal::BadName);
    }
    count_test(MOST_FANINS, k)?;
    count_test(MOST_GATES, m + 1)
}

// The number of the signal that has the name; the number of all signals where none has it.
fn signal_of(text: &[u8], signals: &[Span], w: &[u8]) -> u8
    requires { Inside text.now signals.now × (length signals.now ≤ most_signals) }
    ensures { result ≡ place_in (names_at text.now signals.now) w.now }
{
    bliftext::place_of(text, signals, w).unwrap_or(signals.len()) as u8
}

// The places of the first k words among the names, in the bytes from b on.
pub fn fanins(
    text: &[u8],
    signals: &[Span],
    s: &[u8],
    at: usize,
    k: usize,
    f: [u8; FANIN_PLACES],
    b: usize,
) -> [u8; FANIN_PLACES]
    requires { Inside text.now signals.now × (at ≤ length s.now) × (k ≤ length (fields (drop at s.now))) × (b + k ≤ fanin_places) × (length signals.now ≤ most_signals) }
    ensures { result ≡ sets f b (map (place_in (names_at text.now signals.now)) (take k (fields (drop at s.now)))) }
{
    let mut u = f;
    let mut x = bliftext::word_from(s, at);
    for i in 0..k {
        u[b + i] = signal_of(text, signals, &s[x.start..x.end]);
        x = bliftext::word_from(s, x.end);
    }
    u
}

// Whether the names of the outputs are names of signals.
fn outputs_known(text: &[u8], signals: &[Span], outputs: &[Span]) -> bool
    requires { Inside text.now signals.now × Inside text.now outputs.now }
    ensures { result ≡ all (known (names_at text.now signals.now)) (names_at text.now outputs.now) }
{
    outputs.iter().all(|o| bliftext::place_of(text, signals, &text[o.start..o.end]).is_some())
}

// The tests of the `.end` line behind m blocks.
pub fn end_test(
    text: &[u8],
    signals: &[Span],
    outputs: &[Span],
    s: &[u8],
    at: usize,
    m: usize,
) -> Result<(), Refusal>
    requires { Inside text.now signals.now × Inside text.now outputs.now × (at ≤ length s.now) }
    ensures { result ≡ first (end_tests_of (names_at text.now signals.now) (names_at text.now outputs.now) m (fields (drop at s.now))) }
{
    if bliftext::count(s, at) != 1 {
        return Err(Refusal::OutsideSubset);
    }
    if !outputs_known(text, signals, outputs) {
        return Err(Refusal::BadName);
    }
    count_test(MOST_GATES, m)
}

// The signals of the outputs, put in place.
pub fn put_outputs(
    text: &[u8],
    signals: &[Span],
    outputs: &[Span],
    f: [u8; MOST_OUTPUTS],
) -> [u8; MOST_OUTPUTS]
    requires { Inside text.now signals.now × Inside text.now outputs.now × (length outputs.now ≤ most_outputs) × (length signals.now ≤ most_signals) }
    ensures { result ≡ sets f 0 (map (place_in (names_at text.now signals.now)) (names_at text.now outputs.now)) }
{
    let mut u = f;
    for (i, o) in outputs.iter().enumerate() {
        u[i] = signal_of(text, signals, &text[o.start..o.end]);
    }
    u
}
