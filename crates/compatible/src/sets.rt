// Rules 5 and 6: the compatible sets of all signals, 64 patterns a word. Rows as in `simulate`: word w of signal s at place ROW_WORDS * s + w.
ghost use Rattle.std.specs.Prelude.{◌≡◌, ℕ, ◌+◌, ◌*◌, ◌<◌, ◌≤◌, length, get_or, set};
ghost use Rattle.std.specs.Int.Bits.{bit_and, bit_or};
ghost use Rattle.bits.specs.Bounds.{row_words};
ghost use Rattle.bits.specs.Bit.{bit};
ghost use Rattle.network.specs.Bounds.{most_gates, most_signals, signal_words};
ghost use Rattle.network.specs.Flat.{net_of};
ghost use Rattle.network.specs.Valid.{GateOk, NetOk, OutputsOk};
ghost use Rattle.simulate.specs.Simulated.{words_at, Rows};
ghost use Rattle.compatible.specs.Words.{outputs_leave, SetRows, Passed, Intersected};

use bits::{GATE_PLACES, ROW_WORDS};
use network::{EXCLUDED_WORDS, FANIN_PLACES, MOST_GATES, MOST_OUTPUTS, SIGNAL_WORDS};

// The words of signal s.
fn row_of(rows: &[u64; SIGNAL_WORDS], s: usize) -> [u64; ROW_WORDS]
    requires { s < most_signals }
    ensures { (w : ℕ) → w < row_words → get_or result w 0 ≡ get_or (words_at rows.now w) s 0 }
{
    let mut l = [0u64; ROW_WORDS];
    let at = ROW_WORDS * s;
    l.copy_from_slice(&rows[at..at + ROW_WORDS]);
    l
}

// The set of signal s, intersected with the union of two rows.
fn intersect(
    hs: &mut [u64; SIGNAL_WORDS],
    s: usize,
    x: &[u64; ROW_WORDS],
    y: &[u64; ROW_WORDS],
    count: usize,
)
    requires s_lt_most_signals { (s < most_signals) × (count ≤ row_words) }
    requires hs_len { length hs.old ≡ signal_words }
    ensures { (length hs.new ≡ signal_words) × ((w : ℕ) → w < count → words_at hs.new w ≡ set (words_at hs.old w) s (bit_and (get_or (words_at hs.old w) s 0) (bit_or (get_or x.now w 0) (get_or y.now w 0)))) }
{
    for w in 0..count {
        let v = hs[ROW_WORDS * s + w] & (x[w] | y[w]);
        hs[ROW_WORDS * s + w] = v;
    }
}

// What the outputs leave: all ones, and only the excluded patterns where an output names the signal.
fn at_outputs(
    p: usize,
    outs: &[u8; MOST_OUTPUTS],
    excluded: &[u64; EXCLUDED_WORDS],
    count: usize,
    hs: &mut [u64; SIGNAL_WORDS],
)
    requires outputs_ok { OutputsOk outs.now p most_signals }
    requires count_le_row_words { count ≤ row_words }
    ensures { (length hs.new ≡ signal_words) × ((w b s : ℕ) → w < count → b < 64 → s < most_signals → bit (get_or (words_at hs.new w) s 0) b ≡ outputs_leave outs.now p (bit (get_or excluded.now w 0) b) s) }
{
    let none = [0u64; ROW_WORDS];
    *hs = [0xffff_ffff_ffff_ffffu64; SIGNAL_WORDS];
    for i in 0..p {
        let s = usize::from(outs[i]);
        intersect(hs, s, excluded, &none, count);
    }
}

// The edge sets of gate g, taken into the sets of its fan-ins: rows has the values, own the gate's own set.
fn through_gate(
    arity: &[u8; MOST_GATES],
    fanins: &[u8; FANIN_PLACES],
    edges: &[u64; FANIN_PLACES],
    rows: &[u64; SIGNAL_WORDS],
    count: usize,
    own: &[u64; ROW_WORDS],
    g: usize,
    hs: &mut [u64; SIGNAL_WORDS],
)
    requires g_lt_most_gates { (g < most_gates) × (count ≤ row_words) }
    requires gate_ok { GateOk arity.now fanins.now g most_signals }
    requires hs_len { length hs.old ≡ signal_words }
    ensures { (length hs.new ≡ signal_words) × Passed arity.now fanins.now edges.now rows.now own.now hs.old hs.new count g }
{
    let k = usize::from(arity[g]);
    let mut free = [0u64; ROW_WORDS];
    for r in 0..k {
        simulate::lut_row(
            edges[GATE_PLACES * g + r],
            arity,
            fanins,
            rows,
            count,
            g,
            &mut free,
        );
        let f = simulate::fanin(fanins, g, r);
        intersect(hs, f, own, &free, count);
    }
}

// Rule 5 of all signals, from the last gate to the first: rows has their values.
fn intersected(
    n: usize,
    m: usize,
    arity: &[u8; MOST_GATES],
    fanins: &[u8; FANIN_PLACES],
    tables: &[u64; MOST_GATES],
    excluded: &[u64; EXCLUDED_WORDS],
    p: usize,
    outs: &[u8; MOST_OUTPUTS],
    rows: &[u64; SIGNAL_WORDS],
    count: usize,
    hs: &mut [u64; SIGNAL_WORDS],
)
    requires net_ok { NetOk arity.now fanins.now n m }
    requires outputs_ok { OutputsOk outs.now p most_signals }
    requires count_le_row_words { count ≤ row_words }
    ensures { (length hs.new ≡ signal_words) × Intersected arity.now fanins.now tables.now excluded.now outs.now rows.now hs.new n m p count }
{
    let edges = edges::edge_tables(m, arity, tables);
    at_outputs(p, outs, excluded, count, hs);
    for g in (0..m).rev() {
        let own = row_of(hs, n + g);
        through_gate(arity, fanins, &edges, rows, count, &own, g, hs);
    }
}

// The values and H of all signals, an input's empty.
pub fn compatible_rows(
    n: usize,
    m: usize,
    arity: &[u8; MOST_GATES],
    fanins: &[u8; FANIN_PLACES],
    tables: &[u64; MOST_GATES],
    excluded: &[u64; EXCLUDED_WORDS],
    p: usize,
    outs: &[u8; MOST_OUTPUTS],
    count: usize,
    rows: &mut [u64; SIGNAL_WORDS],
    hs: &mut [u64; SIGNAL_WORDS],
)
    requires net_ok { NetOk arity.now fanins.now n m }
    requires outputs_ok { OutputsOk outs.now p most_signals }
    requires count_le_row_words { (count ≤ row_words) × (length rows.old ≡ signal_words) }
    ensures { Rows arity.now fanins.now tables.now rows.new n m count × SetRows (net_of arity.now fanins.now tables.now n m excluded.now outs.now p) hs.new (n + m) count }
{
    simulate::rows(n, m, arity, fanins, tables, count, rows);
    intersected(
        n, m, arity, fanins, tables, excluded, p, outs, rows, count, hs,
    );
    let empty = [0u64; ROW_WORDS];
    for i in 0..n {
        simulate::store_row(hs, i, &empty);
    }
}
