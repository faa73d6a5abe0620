// Of the loaded network: compatible sets and their counts, rules 5 and 6.
#![tactic(auto)]

ghost use Rattle.std.specs.Prelude.{◌≡◌, ℕ, ◌+◌, ◌*◌, ◌<◌, ◌≤◌, length, get_or};
ghost use Rattle.std.specs.Int.Bits.{bit_and};
ghost use Rattle.bits.specs.Bounds.{most_inputs, row_words};
ghost use Rattle.network.specs.Answer.{Done};
ghost use Rattle.network.specs.Bounds.{most_gates, signal_words, gate_words};
ghost use Rattle.network.specs.Compatible.{compatible_count, per_gate};
ghost use Rattle.network.specs.Flat.{loaded_net};
ghost use Rattle.network.specs.State.{state_fault};
ghost use Rattle.simulate.specs.Simulated.{words_at};
ghost use Rattle.compatible.specs.Words.{LoadedSets, LoadedRows, SetWords, ones_in};

use bits::{Frame, ROW_WORDS};
use network::{GATE_WORDS, MOST_GATES, SIGNAL_WORDS, Session};

mod sets;

// The rows of the values and of H of all signals of the loaded network, and their frame.
pub fn loaded_rows(
    s: Session,
    rows: &mut [u64; SIGNAL_WORDS],
    hs: &mut [u64; SIGNAL_WORDS],
) -> Frame
    requires { (state_fault s ≡ Done) × (length rows.old ≡ signal_words) }
    ensures { LoadedRows s rows.new hs.new result.count result.live }
{
    let n = usize::from(s.n);
    let m = usize::from(s.m);
    let p = usize::from(s.p);
    let arity = s.arity;
    let fanins = s.fanins;
    let loaded = s.loaded;
    let excluded = s.excluded;
    let outs = s.outputs;
    let f = bits::frame_of(n);
    let count = f.count;
    sets::compatible_rows(
        n, m, &arity, &fanins, &loaded, &excluded, p, &outs, count, rows, hs,
    );
    f
}

// H of each gate in word w, put in its place, spare bits zero.
fn store_word(
    n: usize,
    m: usize,
    hs: &[u64; SIGNAL_WORDS],
    live: u64,
    w: usize,
    sets: &mut [u64; GATE_WORDS],
)
    requires n_le_most_inputs { (n ≤ most_inputs) × (m ≤ most_gates) × (w < row_words) }
    requires sets_len { length sets.old ≡ gate_words }
    ensures { (length sets.new ≡ gate_words) × ((g : ℕ) → g < m → get_or sets.new (row_words * g + w) 0 ≡ bit_and live (get_or (words_at hs.now w) (n + g) 0)) × ((g v : ℕ) → v < w → get_or sets.new (row_words * g + v) 0 ≡ get_or sets.old (row_words * g + v) 0) }
{
    for g in 0..m {
        let v = live & hs[ROW_WORDS * (n + g) + w];
        sets[ROW_WORDS * g + w] = v;
    }
}

// H of each gate, a row for each, by the rows of H.
pub fn sets_from(s: Session, hs: &[u64; SIGNAL_WORDS], live: u64, count: usize) -> [u64; GATE_WORDS]
    requires s_value { state_fault s ≡ Done }
    requires loaded_sets { LoadedSets s hs.now count live }
    ensures { SetWords s result }
{
    let n = usize::from(s.n);
    let m = usize::from(s.m);
    let mut sets = [0u64; GATE_WORDS];
    for w in 0..count {
        store_word(n, m, hs, live, w, &mut sets);
    }
    sets
}

// The ones of as many words as most says, from place at on.
fn ones_in(sets: &[u64; GATE_WORDS], at: usize, most: usize) -> u16
    requires { (at + row_words ≤ gate_words) × (most ≤ row_words) }
    ensures { result ≡ ones_in sets.now at most }
{
    let mut sum: u16 = 0;
    for w in 0..most {
        let c = bits::ones(sets[at + w]);
        sum += c as u16;
    }
    sum
}

// How many patterns the compatible set of each gate has: the ones of each of its words, added.
pub fn counts_of(s: Session, sets: &[u64; GATE_WORDS]) -> [u16; MOST_GATES]
    requires s_value { state_fault s ≡ Done }
    requires set_words { SetWords s sets.now }
    ensures { result ≡ per_gate s.m (λ g. compatible_count (loaded_net s) (s.n + g)) }
{
    let m = usize::from(s.m);
    let f = bits::frame_of(usize::from(s.n));
    let most = f.count;
    let mut counts = [0u16; MOST_GATES];
    for g in 0..m {
        let c = ones_in(sets, ROW_WORDS * g, most);
        counts[g] = c;
    }
    counts
}

// The compatible sets of the loaded network.
pub fn compatible_sets(s: Session) -> [u64; GATE_WORDS]
    requires { state_fault s ≡ Done }
    ensures { SetWords s result }
{
    let mut rows = [0u64; SIGNAL_WORDS];
    let mut hs = [0u64; SIGNAL_WORDS];
    let f = loaded_rows(s, &mut rows, &mut hs);
    sets_from(s, &hs, f.live, f.count)
}

// How many patterns each of them has.
pub fn counts(s: Session) -> [u16; MOST_GATES]
    requires { state_fault s ≡ Done }
    ensures { result ≡ per_gate s.m (λ g. compatible_count (loaded_net s) (s.n + g)) }
{
    let sets = compatible_sets(s);
    counts_of(s, &sets)
}
