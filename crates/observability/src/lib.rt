// Of the current network: the ODC, rule 3. Where an output shows that a gate is inverted, 64 patterns a word. Word w of gate g stands at place ROW_WORDS * g + w.
#![tactic(auto)]

ghost use Rattle.std.specs.Prelude.{◌≡◌, ◌&&◌, not, List, ℕ, ◌+◌, ◌*◌, ◌^◌, ◌<◌, ◌≤◌, length, get_or};
ghost use Rattle.std.specs.Int.Bits.{bit_or, bit_xor};
ghost use Rattle.bits.specs.Bounds.{row_words};
ghost use Rattle.bits.specs.Range.{any};
ghost use Rattle.bits.specs.Bit.{bit, differs, table_of};
ghost use Rattle.bits.specs.Cut.{Framed};
ghost use Rattle.network.specs.Bounds.{most_gates, most_signals, signal_words, gate_words};
ghost use Rattle.network.specs.Flat.{net_of};
ghost use Rattle.network.specs.Valid.{NetOk, OutputsOk};
ghost use Rattle.simulate.specs.Simulated.{value_at, Rows};
ghost use Rattle.observability.specs.Odc.{OdcAt, Taken};

use bits::ROW_WORDS;
use network::{FANIN_PLACES, GATE_WORDS, MOST_GATES, MOST_OUTPUTS, SIGNAL_WORDS};

// Adds the places where the words of signal s differ.
fn differing(
    seen: &mut [u64; ROW_WORDS],
    rows: &[u64; SIGNAL_WORDS],
    other: &[u64; SIGNAL_WORDS],
    s: usize,
    count: usize,
)
    requires s_lt_most_signals { (s < most_signals) × (count ≤ row_words) }
    requires seen_len { length seen.old ≡ row_words }
    ensures { (length seen.new ≡ row_words) × ((w : ℕ) → w < count → get_or seen.new w 0 ≡ bit_or (get_or seen.old w 0) (bit_xor (get_or rows.now (row_words * s + w) 0) (get_or other.now (row_words * s + w) 0))) }
{
    for w in 0..count {
        let v = seen[w] | (rows[ROW_WORDS * s + w] ^ other[ROW_WORDS * s + w]);
        seen[w] = v;
    }
}

// The places where some output differs.
fn observed(
    p: usize,
    outputs: &[u8; MOST_OUTPUTS],
    rows: &[u64; SIGNAL_WORDS],
    other: &[u64; SIGNAL_WORDS],
    count: usize,
) -> [u64; ROW_WORDS]
    requires outputs_ok { OutputsOk outputs.now p most_signals }
    requires count_le_row_words { count ≤ row_words }
    ensures { (w b : ℕ) → w < count → b < 64 → bit (get_or result w 0) b ≡ any p (λ i. differs (value_at rows.now (get_or outputs.now i 0) w b) (value_at other.now (get_or outputs.now i 0) w b)) }
{
    let mut l = [0u64; ROW_WORDS];
    for i in 0..p {
        let s = usize::from(outputs[i]);
        differing(&mut l, rows, other, s, count);
    }
    l
}

// The words of the signals from s to e, taken back from rows.
fn restore(other: &mut [u64; SIGNAL_WORDS], rows: &[u64; SIGNAL_WORDS], s: usize, e: usize)
    requires { (s ≤ e) × (e ≤ most_signals) × (length other.old ≡ signal_words) }
    ensures { Taken rows.now other.old other.new (row_words * s) (row_words * e) }
{
    let from = ROW_WORDS * s;
    let end = ROW_WORDS * e;
    other[from..end].copy_from_slice(&rows[from..end]);
}

// The live places that are not seen.
fn odc_word(live: u64, seen: u64) -> u64
    ensures { result ≡ table_of 64 (λ b. bit live b && not (bit seen b)) }
{
    live & bits::complement(seen)
}

// The words of gate g's ODC, from the row of places that are seen.
fn store_odc(
    odc: &mut [u64; GATE_WORDS],
    seen: &[u64; ROW_WORDS],
    live: u64,
    count: usize,
    g: usize,
)
    requires g_lt_most_gates { (g < most_gates) × (count ≤ row_words) }
    requires odc_len { length odc.old ≡ gate_words }
    ensures { (length odc.new ≡ gate_words) × ((w : ℕ) → w < count → get_or odc.new (row_words * g + w) 0 ≡ table_of 64 (λ b. bit live b && not (bit (get_or seen.now w 0) b))) × ((q : ℕ) → q < row_words * g → get_or odc.new q 0 ≡ get_or odc.old q 0) }
{
    for w in 0..count {
        let v = odc_word(live, seen[w]);
        odc[ROW_WORDS * g + w] = v;
    }
}

// The words of the ODC of each gate from a to e, laid into odc. Each gate is inverted in a copy of the rows, where only the rows from the
// gate's on can change, so that only these are copied again.
pub fn odc_words(
    n: usize,
    m: usize,
    arity: &[u8; MOST_GATES],
    fanins: &[u8; FANIN_PLACES],
    tables: &[u64; MOST_GATES],
    p: usize,
    outs: &[u8; MOST_OUTPUTS],
    rows: &[u64; SIGNAL_WORDS],
    count: usize,
    live: u64,
    a: usize,
    e: usize,
    odc: &mut [u64; GATE_WORDS],
)
    requires net_ok { NetOk arity.now fanins.now n m }
    requires outputs_ok { OutputsOk outs.now p (n + m) }
    requires rows_len { (length rows.now ≡ signal_words) × Rows arity.now fanins.now tables.now rows.now n m count }
    requires framed { Framed n count live × (e ≤ m) × (length odc.old ≡ gate_words) }
    ensures { (ex : List ℕ) (g : ℕ) → a ≤ g → g < e → OdcAt (net_of arity.now fanins.now tables.now n m ex outs.now p) odc.new n g count }
{
    let masks = incremental::fanin_masks(n, m, arity, fanins);
    let mut other = *rows;
    for g in a..e {
        incremental::invert(n, m, arity, fanins, *tables, &masks, count, g, &mut other);
        let seen = observed(p, outs, rows, &other, count);
        store_odc(odc, &seen, live, count, g);
        restore(&mut other, rows, n + g, n + m);
    }
}
