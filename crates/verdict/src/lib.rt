// The calls: the search for harm. What other tables do: of the patterns that are not excluded and change a loaded output the one with the
// fewest lines on, the smaller number among equals, and there the lowest output. How many lines are on is the pattern's weight.
#![tactic(auto)]

ghost use Rattle.std.specs.Prelude.{◌≡◌, ◌↔◌, IsTrue, All, ℕ, suc, ◌+◌, ◌*◌, ◌<◌, ◌≤◌, get_or};
ghost use Rattle.bits.specs.Bounds.{most_inputs, row_words};
ghost use Rattle.bits.specs.Range.{any};
ghost use Rattle.bits.specs.Bit.{bit};
ghost use Rattle.bits.specs.Cut.{Framed};
ghost use Rattle.network.specs.Answer.{Done};
ghost use Rattle.network.specs.Bounds.{most_outputs, most_signals};
ghost use Rattle.network.specs.Flat.{net_with, loaded_net};
ghost use Rattle.network.specs.Valid.{OutputsOk};
ghost use Rattle.network.specs.State.{state_fault};
ghost use Rattle.network.specs.Calls.{harm_test};
ghost use Rattle.simulate.specs.Simulated.{words_at};
ghost use Rattle.verdict.specs.Changed.{changed_word, changed_at, word_harm, at_weight, Harmed, harmed_at, weight_harm, lightest_harm, rows_harm};

use bits::{Frame, ROW_WORDS};
use network::{EXCLUDED_WORDS, MOST_GATES, MOST_OUTPUTS, Refusal, SIGNAL_WORDS, Session};

// Where output i has another value in word w of the rows xs than in ys.
fn changed(
    outs: &[u8; MOST_OUTPUTS],
    xs: &[u64; SIGNAL_WORDS],
    ys: &[u64; SIGNAL_WORDS],
    w: usize,
    i: usize,
) -> u64
    requires { (w < row_words) × (i < most_outputs) × (get_or outs.now i 0 < most_signals) }
    ensures { result ≡ changed_word outs.now (words_at xs.now w) (words_at ys.now w) i }
{
    let s = usize::from(outs[i]);
    let at = ROW_WORDS * s + w;
    xs[at] ^ ys[at]
}

// The places of word w at which some output changes.
fn changes(
    p: usize,
    outs: &[u8; MOST_OUTPUTS],
    xs: &[u64; SIGNAL_WORDS],
    ys: &[u64; SIGNAL_WORDS],
    w: usize,
) -> u64
    requires outputs_ok { OutputsOk outs.now p most_signals }
    requires w_lt_row_words { w < row_words }
    ensures { (b : ℕ) → bit result b ≡ any p (λ i. bit (changed_word outs.now (words_at xs.now w) (words_at ys.now w) i) b) }
{
    let mut acc: u64 = 0;
    for i in 0..p {
        acc |= changed(outs, xs, ys, w, i);
    }
    acc
}

// Output i changes at the pattern x of word w, which `keep` holds.
fn changed_at(
    outs: &[u8; MOST_OUTPUTS],
    xs: &[u64; SIGNAL_WORDS],
    ys: &[u64; SIGNAL_WORDS],
    keep: u64,
    w: usize,
    x: usize,
    i: usize,
) -> bool
    requires { (w < row_words) × (i < most_outputs) × (get_or outs.now i 0 < most_signals) × (w * 64 ≤ x) × (x < w * 64 + 64) }
    ensures { result ≡ changed_at outs.now (words_at xs.now w) (words_at ys.now w) keep w x i }
{
    let d = changed(outs, xs, ys, w, i);
    bits::bit_of(keep & d, (x - w * 64) as u64)
}

// The first pattern of the word, and there the lowest output, at which an output changes: the search stops there.
fn search(
    p: usize,
    outs: &[u8; MOST_OUTPUTS],
    xs: &[u64; SIGNAL_WORDS],
    ys: &[u64; SIGNAL_WORDS],
    keep: u64,
    w: usize,
) -> Result<(), Refusal>
    requires outputs_ok { OutputsOk outs.now p most_signals }
    requires w_lt_row_words { w < row_words }
    ensures { result ≡ word_harm (changed_at outs.now (words_at xs.now w) (words_at ys.now w) keep w) p w }
{
    let base = w * 64;
    let end = base + 64;
    let mut found = Ok(());
    'search: for x in base..end {
        for i in 0..p {
            if changed_at(outs, xs, ys, keep, w, x, i) {
                found = Err(Refusal::Harm {
                    pattern: x,
                    output: i,
                });
                break 'search;
            }
        }
    }
    found
}

// The first harm in word w at the patterns of weight c, of which `held` has those to look at. A word without one is not searched.
fn word_harm(
    p: usize,
    outs: &[u8; MOST_OUTPUTS],
    xs: &[u64; SIGNAL_WORDS],
    ys: &[u64; SIGNAL_WORDS],
    held: u64,
    c: usize,
    w: usize,
) -> Result<(), Refusal>
    requires outputs_ok { OutputsOk outs.now p most_signals }
    requires w_lt_row_words { w < row_words }
    ensures { result ≡ word_harm (at_weight c (changed_at outs.now (words_at xs.now w) (words_at ys.now w) held w)) p w }
{
    if held == 0 {
        return Ok(());
    }
    let keep = held & bits::weight_word(c, w as u64);
    if keep == 0 {
        return Ok(());
    }
    search(p, outs, xs, ys, keep, w)
}

// Of each word the harmed patterns: those at which some output changes. Places past the last pattern and excluded patterns are not judged.
fn harm_words(
    p: usize,
    excluded: &[u64; EXCLUDED_WORDS],
    outs: &[u8; MOST_OUTPUTS],
    xs: &[u64; SIGNAL_WORDS],
    ys: &[u64; SIGNAL_WORDS],
    live: u64,
    count: usize,
) -> [u64; ROW_WORDS]
    requires outputs_ok { OutputsOk outs.now p most_signals }
    requires few { count ≤ row_words }
    ensures { Harmed p excluded.now outs.now xs.now ys.now live count result }
{
    let mut harmed = [0u64; ROW_WORDS];
    for w in 0..count {
        let keep = live & bits::complement(excluded[w]);
        harmed[w] = keep & changes(p, outs, xs, ys, w);
    }
    harmed
}

// Whether no word has a harmed pattern.
fn none(harmed: &[u64; ROW_WORDS]) -> bool
    ensures { IsTrue result ↔ All (λ w. w ≡ 0) harmed.now }
{
    harmed.iter().all(|w| *w == 0)
}

// The first harm at the harmed patterns of weight c, word after word.
fn weight_harm(
    p: usize,
    outs: &[u8; MOST_OUTPUTS],
    xs: &[u64; SIGNAL_WORDS],
    ys: &[u64; SIGNAL_WORDS],
    harmed: &[u64; ROW_WORDS],
    count: usize,
    c: usize,
) -> Result<(), Refusal>
    requires outputs_ok { OutputsOk outs.now p most_signals }
    requires few { count ≤ row_words }
    ensures { result ≡ weight_harm (harmed_at harmed.now outs.now xs.now ys.now) p count c }
{
    for w in 0..count {
        word_harm(p, outs, xs, ys, harmed[w], c, w)?;
    }
    Ok(())
}

// The first harm by weight, from no line on up to all n.
fn lightest_harm(
    n: usize,
    p: usize,
    outs: &[u8; MOST_OUTPUTS],
    xs: &[u64; SIGNAL_WORDS],
    ys: &[u64; SIGNAL_WORDS],
    harmed: &[u64; ROW_WORDS],
    count: usize,
) -> Result<(), Refusal>
    requires outputs_ok { OutputsOk outs.now p most_signals }
    requires few { (n ≤ most_inputs) × (count ≤ row_words) }
    ensures { result ≡ lightest_harm (harmed_at harmed.now outs.now xs.now ys.now) p count (suc n) }
{
    for c in 0..=n {
        weight_harm(p, outs, xs, ys, harmed, count, c)?;
    }
    Ok(())
}

// The first harm that the rows tell. Where no pattern is harmed, no weight is tried.
fn rows_harm(
    n: usize,
    p: usize,
    excluded: &[u64; EXCLUDED_WORDS],
    outs: &[u8; MOST_OUTPUTS],
    xs: &[u64; SIGNAL_WORDS],
    ys: &[u64; SIGNAL_WORDS],
    f: Frame,
) -> Result<(), Refusal>
    requires outputs_ok { OutputsOk outs.now p most_signals }
    requires framed { (n ≤ most_inputs) × Framed n f.count f.live }
    ensures { result ≡ rows_harm n p excluded.now outs.now xs.now ys.now }
{
    let count = f.count;
    let harmed = harm_words(p, excluded, outs, xs, ys, f.live, count);
    if none(&harmed) {
        return Ok(());
    }
    lightest_harm(n, p, outs, xs, ys, &harmed, count)
}

// The harm that the session's network does with these tables. It is simulated only where it differs from the loaded one.
pub fn harm(s: Session, tables: [u64; MOST_GATES]) -> Result<(), Refusal>
    requires { state_fault s ≡ Done }
    ensures { result ≡ harm_test (loaded_net s) (net_with s tables) }
{
    let n = usize::from(s.n);
    let m = usize::from(s.m);
    let p = usize::from(s.p);
    let excluded = s.excluded;
    let arity = s.arity;
    let fanins = s.fanins;
    let loaded = s.loaded;
    let outs = s.outputs;
    let f = bits::frame_of(n);
    let count = f.count;
    let mut xs = [0u64; SIGNAL_WORDS];
    simulate::rows(n, m, &arity, &fanins, &loaded, count, &mut xs);
    let mut ys = xs;
    incremental::update(n, m, &arity, &fanins, &loaded, &tables, count, &mut ys);
    rows_harm(n, p, &excluded, &outs, &xs, &ys, f)
}
