// The file: the tests of counts, fan-ins, tables and outputs, refusals 3 to 7, and of a session made by hand, refusal 10.
#![tactic(auto)]

ghost use Rattle.std.specs.Prelude.{◌≡◌, [], ◌∷◌, map, ◌-◌, ◌*◌, ◌^◌, ◌<◌, ◌≤◌, length, get_or};
ghost use Rattle.bits.specs.Bounds.{most_inputs};
ghost use Rattle.bits.specs.Range.{places, up_from};
ghost use Rattle.network.specs.Bounds.{most_gates, most_outputs, most_fanins, excluded_words};
ghost use Rattle.network.specs.Tests.{first, count_test, range_test, fanin_test, fanins_test, width_test, excluded_test, output_test};
ghost use Rattle.network.specs.Tests as tests;
ghost use Rattle.network.specs.State.{gate_fault, state_fault, state_test};

use bits::{GATE_PLACES, MOST_INPUTS};
use network::{EXCLUDED_WORDS, MOST_FANINS, MOST_GATES, MOST_OUTPUTS, Refusal, Session};

// Refusal 3: a number outside least .. most.
pub fn range_test(least: usize, most: usize, x: u8) -> Result<(), Refusal>
    ensures { result ≡ range_test least most x }
{
    if (x as usize) < least {
        return Err(Refusal::OutOfBounds);
    }
    if (x as usize) > most {
        return Err(Refusal::OutOfBounds);
    }
    Ok(())
}

// Refusal 3: a count outside 1 .. most.
pub fn count_test(most: usize, x: u8) -> Result<(), Refusal>
    ensures { result ≡ count_test most x }
{
    range_test(1, most, x)
}

// Refusal 3, of the three counts in turn.
pub fn counts_test(n: u8, m: u8, p: u8) -> Result<(), Refusal>
    ensures { result ≡ first (count_test most_inputs n ∷ count_test most_gates m ∷ count_test most_outputs p ∷ []) }
{
    count_test(MOST_INPUTS, n)?;
    count_test(MOST_GATES, m)?;
    count_test(MOST_OUTPUTS, p)
}

// Whether x is one of the bytes.
pub fn member(fs: &[u8], x: u8) -> bool
    ensures { result ≡ tests.member x fs.now }
{
    fs.contains(&x)
}

// Refusal 4, then 5, of fan-in j: no signal below limit, or listed before.
fn fanin_test(fs: &[u8], limit: u8, j: usize) -> Result<(), Refusal>
    requires { j < length fs.now }
    ensures { result ≡ fanin_test limit fs.now j }
{
    let f = fs[j];
    if f >= limit {
        return Err(Refusal::FaninNotEarlier);
    }
    if member(&fs[0..j], f) {
        return Err(Refusal::FaninRepeated);
    }
    Ok(())
}

// Refusal 4 or 5, of the first fan-in that is refused.
pub fn fanins_test(fs: &[u8], limit: u8) -> Result<(), Refusal>
    ensures { result ≡ fanins_test limit fs.now }
{
    for j in 0..fs.len() {
        fanin_test(fs, limit, j)?;
    }
    Ok(())
}

// Refusal 6: a bit set at or past `bits`.
fn width_test(bits: u64, x: u64) -> Result<(), Refusal>
    ensures { result ≡ width_test bits x }
{
    if 64 <= bits {
        return Ok(());
    }
    if x < bits::power(bits) {
        return Ok(());
    }
    Err(Refusal::BitPastEnd)
}

// Refusal 6, of the table of a gate with k fan-ins.
pub fn table_test(k: u8, x: u64) -> Result<(), Refusal>
    requires { k < 64 }
    ensures { result ≡ width_test (2 ^ k) x }
{
    width_test(bits::power(k as u64), x)
}

// Refusal 6, of word w of the excluded set.
fn word_test(n: u8, x: u64, w: u64) -> Result<(), Refusal>
    requires { (n ≤ most_inputs) × (w < excluded_words) }
    ensures { result ≡ width_test (2 ^ n - 64 * w) x }
{
    let total = bits::power(n as u64);
    let from = 64 * w;
    if total < from {
        return width_test(0, x);
    }
    width_test(total - from, x)
}

// Refusal 6, of the excluded set: a bit set at or past 2^n.
pub fn excluded_test(n: u8, ws: [u64; EXCLUDED_WORDS]) -> Result<(), Refusal>
    requires { n ≤ most_inputs }
    ensures { result ≡ excluded_test n ws }
{
    for w in 0..EXCLUDED_WORDS {
        word_test(n, ws[w], w as u64)?;
    }
    Ok(())
}

// Refusal 7: an output that is no signal.
pub fn output_test(signals: u8, x: u8) -> Result<(), Refusal>
    ensures { result ≡ output_test signals x }
{
    if x < signals {
        return Ok(());
    }
    Err(Refusal::NotASignal)
}

// Refusal 7, of the first p outputs in turn.
fn outputs_test(p: u8, signals: u8, outputs: [u8; MOST_OUTPUTS]) -> Result<(), Refusal>
    requires { p ≤ most_outputs }
    ensures { result ≡ first (map (λ i. output_test signals (get_or outputs i 0)) (up_from 0 p)) }
{
    for i in 0..p {
        output_test(signals, outputs[i as usize])?;
    }
    Ok(())
}

// Refusals 3 to 6, of a gate whose k fan-ins open fs.
fn gate_test(limit: u8, k: u8, fs: &[u8], loaded: u64, current: u64) -> Result<(), Refusal>
    requires { most_fanins ≤ length fs.now }
    ensures { result ≡ first (count_test most_fanins k ∷ fanins_test limit (places k (λ i. get_or fs.now i 0)) ∷ width_test (2 ^ k) loaded ∷ width_test (2 ^ k) current ∷ []) }
{
    count_test(MOST_FANINS, k)?;
    let e = k as usize;
    fanins_test(&fs[0..e], limit)?;
    table_test(k, loaded)?;
    table_test(k, current)
}

// Refusals 3 to 6, of the gates in turn.
fn gates_test(s: Session) -> Result<(), Refusal>
    requires { (s.n ≤ most_inputs) × (s.m ≤ most_gates) }
    ensures { result ≡ first (map (gate_fault s) (up_from 0 s.m)) }
{
    let n = s.n;
    let m = s.m;
    let fanins = s.fanins;
    for g in 0..m {
        let i = g as usize;
        let b = GATE_PLACES * i;
        gate_test(n + g, s.arity[i], &fanins[b..], s.loaded[i], s.current[i])?;
    }
    Ok(())
}

// The first of 3 to 7 that the session fails.
fn state_fault(s: Session) -> Result<(), Refusal>
    ensures { result ≡ state_fault s }
{
    let n = s.n;
    let m = s.m;
    let p = s.p;
    counts_test(n, m, p)?;
    let excluded = s.excluded;
    excluded_test(n, excluded)?;
    gates_test(s)?;
    let outputs = s.outputs;
    outputs_test(p, n + m, outputs)
}

// Refusal 10: any of 3 to 7.
pub fn state_test(s: Session) -> Result<(), Refusal>
    ensures { result ≡ state_test s }
{
    match state_fault(s) {
        Ok(()) => Ok(()),
        Err(_) => Err(Refusal::InvalidState),
    }
}
