// Of the loaded network: open tables, rule 7, from the rows of the values and of H.
#![tactic(auto)]

ghost use Rattle.std.specs.Prelude.{◌≡◌, ◌+◌, ◌*◌, ◌^◌, ◌<◌, ◌≤◌, get_or};
ghost use Rattle.std.specs.Int.Bits.{bit_or};
ghost use Rattle.bits.specs.Bounds.{most_inputs, row_words};
ghost use Rattle.network.specs.Answer.{Done};
ghost use Rattle.network.specs.Bounds.{most_gates, most_signals};
ghost use Rattle.network.specs.Compatible.{compatible_count, open_tables, per_gate};
ghost use Rattle.network.specs.Flat.{loaded_net};
ghost use Rattle.network.specs.State.{state_fault};
ghost use Rattle.network.specs.Valid.{GateOk};
ghost use Rattle.simulate.specs.Simulated.{words_at};
ghost use Rattle.compatible.specs.Words.{LoadedRows};
ghost use Rattle.opentables.specs.Closed.{closed_in, closed_by};

use bits::ROW_WORDS;
use network::{FANIN_PLACES, MOST_GATES, SIGNAL_WORDS, Session};

// Rule 7 in word w: the entries found, and those of gate g that a place of live, outside the gate's own set, delivers.
fn closed_in(
    n: usize,
    arity: &[u8; MOST_GATES],
    fanins: &[u8; FANIN_PLACES],
    rows: &[u64; SIGNAL_WORDS],
    hs: &[u64; SIGNAL_WORDS],
    live: u64,
    g: usize,
    w: usize,
    found: u64,
) -> u64
    requires n_le_most_inputs { (n ≤ most_inputs) × (g < most_gates) × (w < row_words) × (found < 2 ^ 2 ^ get_or arity.now g 0) }
    requires gate_ok { GateOk arity.now fanins.now g most_signals }
    ensures { result ≡ bit_or found (closed_in arity.now fanins.now (words_at rows.now w) (words_at hs.now w) n live g) }
{
    let ins = simulate::gather_at(arity, fanins, rows, g, w);
    let moved = simulate::gather_at(arity, fanins, hs, g, w);
    let keep = live & bits::complement(hs[ROW_WORDS * (n + g) + w]);
    entries::reach(usize::from(arity[g]), &ins, &moved, keep, found)
}

// Rule 7 in the first count words. Once all entries are delivered, the words left add none.
fn closed_by(
    n: usize,
    arity: &[u8; MOST_GATES],
    fanins: &[u8; FANIN_PLACES],
    rows: &[u64; SIGNAL_WORDS],
    hs: &[u64; SIGNAL_WORDS],
    live: u64,
    count: usize,
    g: usize,
) -> u64
    requires n_le_most_inputs { (n ≤ most_inputs) × (g < most_gates) × (count ≤ row_words) }
    requires gate_ok { GateOk arity.now fanins.now g most_signals }
    ensures { result ≡ closed_by arity.now fanins.now rows.now hs.now n live count g }
{
    let all = bits::mask(entries::entry_count(usize::from(arity[g])));
    let mut acc: u64 = 0;
    for w in 0..count {
        if acc == all {
            return acc;
        }
        acc = closed_in(n, arity, fanins, rows, hs, live, g, w, acc);
    }
    acc
}

// The open tables, by the rows of the values and of H.
fn open_from(
    s: Session,
    rows: &[u64; SIGNAL_WORDS],
    hs: &[u64; SIGNAL_WORDS],
    live: u64,
    count: usize,
) -> [u64; MOST_GATES]
    requires s_value { state_fault s ≡ Done }
    requires loaded_rows { LoadedRows s rows.now hs.now count live }
    ensures { result ≡ open_tables (loaded_net s) }
{
    let n = usize::from(s.n);
    let m = usize::from(s.m);
    let arity = s.arity;
    let fanins = s.fanins;
    let mut opens = [0u64; MOST_GATES];
    for g in 0..m {
        let c = entries::entry_count(usize::from(arity[g]));
        let v = bits::complement_within(c, closed_by(n, &arity, &fanins, rows, hs, live, count, g));
        opens[g] = v;
    }
    opens
}

// The open tables of the loaded network.
pub fn open_tables(s: Session) -> [u64; MOST_GATES]
    requires { state_fault s ≡ Done }
    ensures { result ≡ open_tables (loaded_net s) }
{
    let mut rows = [0u64; SIGNAL_WORDS];
    let mut hs = [0u64; SIGNAL_WORDS];
    let f = compatible::loaded_rows(s, &mut rows, &mut hs);
    open_from(s, &rows, &hs, f.live, f.count)
}

// The open table of each gate, and how many patterns its compatible set has.
#[derive(Drop)]
pub struct OpenCounts {
    pub opens: [u64; MOST_GATES],
    pub counts: [u16; MOST_GATES],
}

// Both from one computation of the compatible sets.
pub fn open_and_counts(s: Session) -> OpenCounts
    requires { state_fault s ≡ Done }
    ensures { result ≡ record { opens = open_tables (loaded_net s); counts = per_gate s.m (λ g. compatible_count (loaded_net s) (s.n + g)) } }
{
    let mut rows = [0u64; SIGNAL_WORDS];
    let mut hs = [0u64; SIGNAL_WORDS];
    let f = compatible::loaded_rows(s, &mut rows, &mut hs);
    let opens = open_from(s, &rows, &hs, f.live, f.count);
    let sets = compatible::sets_from(s, &hs, f.live, f.count);
    let counts = compatible::counts_of(s, &sets);
    OpenCounts { opens, counts }
}
