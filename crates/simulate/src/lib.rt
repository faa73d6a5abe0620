// Simulation: the words of all signals, 64 patterns at a time. Row s holds the words of signal s: word w stands at place ROW_WORDS * s + w.
#![tactic(auto)]

ghost use Rattle.std.specs.Prelude.{◌≡◌, List, [], ◌∷◌, ℕ, ◌+◌, ◌*◌, ◌<◌, ◌≤◌, length, get_or, set};
ghost use Rattle.bits.specs.Bounds.{most_inputs, row_words, gate_places};
ghost use Rattle.bits.specs.Bit.{bit, column};
ghost use Rattle.network.specs.Bounds.{most_gates, most_signals, signal_words};
ghost use Rattle.network.specs.Net.{entry};
ghost use Rattle.network.specs.Flat.{gate_at};
ghost use Rattle.network.specs.Valid.{GateOk, NetOk};
ghost use Rattle.widelut.specs.Functions.{function_words};
ghost use Rattle.simulate.specs.Simulated.{Inputs, words_at, Rows, first_fanins, Signals, LutRow, FunctionRows};

use bits::{GATE_PLACES, ROW_WORDS};
use network::{FANIN_PLACES, MOST_GATES, SIGNAL_WORDS};
use widelut::FUNCTION_WORDS;

// Word w of signal s.
fn word_of(rows: &[u64; SIGNAL_WORDS], s: usize, w: usize) -> u64
    requires { (s < most_signals) × (w < row_words) }
    ensures { result ≡ get_or rows.now (row_words * s + w) 0 }
{
    rows[ROW_WORDS * s + w]
}

// The first `count` words of a lent row, each from its number.
fn fill_row<F: Fn(usize) -> u64>(count: usize, out: &mut [u64; ROW_WORDS], word: F)
    requires count_le_row_words { (count ≤ row_words) × (length out.old ≡ row_words) }
    requires word_pre { (w : ℕ) → w < count → F.pre word w }
    ensures { (length out.new ≡ row_words) × ((w : ℕ) → w < count → F.post word w (get_or out.new w 0)) }
{
    for w in 0..count {
        out[w] = word(w);
    }
}

// Fan-in r of gate g.
pub fn fanin(fanins: &[u8; FANIN_PLACES], g: usize, r: usize) -> usize
    requires { (g < most_gates) × (r < gate_places) }
    ensures { result ≡ get_or fanins.now (gate_places * g + r) 0 }
{
    usize::from(fanins[GATE_PLACES * g + r])
}

// The rows of all functions of the signals a and b, into lent rows.
fn function_rows(
    rows: &[u64; SIGNAL_WORDS],
    count: usize,
    a: usize,
    b: usize,
    functions: &mut [u64; FUNCTION_WORDS],
)
    requires { (count ≤ row_words) × (a < most_signals) × (b < most_signals) × (length functions.old ≡ function_words) }
    ensures { FunctionRows rows.now functions.new a b count }
{
    for w in 0..count {
        widelut::put_functions(functions, w, word_of(rows, a, w), word_of(rows, b, w));
    }
}

// The table t at the rows of the first five fan-ins of gate g, or six, into a lent row: by the functions of the first two.
fn wide_row(
    k: usize,
    t: u64,
    fanins: &[u8; FANIN_PLACES],
    rows: &[u64; SIGNAL_WORDS],
    count: usize,
    g: usize,
    out: &mut [u64; ROW_WORDS],
)
    requires five_or_six { (5 ≤ k) × (k ≤ 6) }
    requires g_lt_most_gates { (g < most_gates) × (count ≤ row_words) × (length out.old ≡ row_words) }
    requires signals { Signals fanins.now k g }
    ensures { LutRow t rows.now (first_fanins fanins.now k g) count out.new }
{
    let a = fanin(fanins, g, 0);
    let b = fanin(fanins, g, 1);
    let c = fanin(fanins, g, 2);
    let d = fanin(fanins, g, 3);
    let e = fanin(fanins, g, 4);
    let mut functions = [0u64; FUNCTION_WORDS];
    function_rows(rows, count, a, b, &mut functions);
    if k == 5 {
        return fill_row(count, out, |w| {
            widelut::lut5(
                &functions,
                t,
                w,
                word_of(rows, c, w),
                word_of(rows, d, w),
                word_of(rows, e, w),
            )
        });
    }
    let f = fanin(fanins, g, 5);
    fill_row(count, out, |w| {
        widelut::lut6(
            &functions,
            t,
            w,
            word_of(rows, c, w),
            word_of(rows, d, w),
            word_of(rows, e, w),
            word_of(rows, f, w),
        )
    });
}

// The table t at the rows of the fan-ins of gate g, into a lent row. The closures own what they capture: through references to it, the loop
// over the words would not be vectorized.
pub fn lut_row(
    t: u64,
    arity: &[u8; MOST_GATES],
    fanins: &[u8; FANIN_PLACES],
    rows: &[u64; SIGNAL_WORDS],
    count: usize,
    g: usize,
    out: &mut [u64; ROW_WORDS],
)
    requires g_lt_most_gates { (g < most_gates) × (count ≤ row_words) × (length out.old ≡ row_words) }
    requires gate_ok { GateOk arity.now fanins.now g most_signals }
    ensures { (length out.new ≡ row_words) × ((ts : List ℕ) (w b : ℕ) → w < count → b < 64 → bit (get_or out.new w 0) b ≡ bit t (entry (column (words_at rows.now w) b) (gate_at arity.now fanins.now ts g))) }
{
    let k = usize::from(arity[g]);
    let a = fanin(fanins, g, 0);
    if k == 1 {
        return fill_row(count, out, move |w| bits::lut1(t, word_of(rows, a, w)));
    }
    let b = fanin(fanins, g, 1);
    if k == 2 {
        return fill_row(
            count,
            out,
            move |w| bits::lut2(t, word_of(rows, a, w), word_of(rows, b, w)),
        );
    }
    let c = fanin(fanins, g, 2);
    if k == 3 {
        return fill_row(count, out, move |w| {
            bits::lut3(
                t,
                word_of(rows, a, w),
                word_of(rows, b, w),
                word_of(rows, c, w),
            )
        });
    }
    let d = fanin(fanins, g, 3);
    if k == 4 {
        return fill_row(count, out, move |w| {
            bits::lut4(
                t,
                word_of(rows, a, w),
                word_of(rows, b, w),
                word_of(rows, c, w),
                word_of(rows, d, w),
            )
        });
    }
    wide_row(k, t, fanins, rows, count, g, out);
}

// Word w of each fan-in of gate g.
pub fn gather_at(
    arity: &[u8; MOST_GATES],
    fanins: &[u8; FANIN_PLACES],
    rows: &[u64; SIGNAL_WORDS],
    g: usize,
    w: usize,
) -> [u64; GATE_PLACES]
    requires g_lt_most_gates { (g < most_gates) × (w < row_words) }
    requires gate_ok { GateOk arity.now fanins.now g most_signals }
    ensures { (r : ℕ) → r < get_or arity.now g 0 → get_or result r 0 ≡ get_or (words_at rows.now w) (get_or fanins.now (gate_places * g + r) 0) 0 }
{
    let k = usize::from(arity[g]);
    let mut ins = [0u64; GATE_PLACES];
    for r in 0..k {
        let f = fanin(fanins, g, r);
        ins[r] = word_of(rows, f, w);
    }
    ins
}

// Signal s gets all words of a row.
pub fn store_row(rows: &mut [u64; SIGNAL_WORDS], s: usize, row: &[u64; ROW_WORDS])
    requires s_lt_most_signals { s < most_signals }
    requires rows_len { length rows.old ≡ signal_words }
    ensures { (length rows.new ≡ signal_words) × ((w : ℕ) → w < row_words → words_at rows.new w ≡ set (words_at rows.old w) s (get_or row.now w 0)) }
{
    for (w, word) in row.iter().enumerate() {
        rows[ROW_WORDS * s + w] = *word;
    }
}

// The rows of the n inputs.
fn input_rows(n: usize, count: usize, rows: &mut [u64; SIGNAL_WORDS])
    requires { (n ≤ most_inputs) × (count ≤ row_words) × (length rows.old ≡ signal_words) }
    ensures { (length rows.new ≡ signal_words) × ((w : ℕ) → w < count → Inputs (words_at rows.new w) n w) }
{
    let mut row = [0u64; ROW_WORDS];
    for i in 0..n {
        fill_row(count, &mut row, move |w| bits::input_word(i, w as u64));
        store_row(rows, i, &row);
    }
}

// The row of gate g, from those of the signals before it.
fn gate_row(
    n: usize,
    arity: &[u8; MOST_GATES],
    fanins: &[u8; FANIN_PLACES],
    tables: &[u64; MOST_GATES],
    count: usize,
    rows: &mut [u64; SIGNAL_WORDS],
    g: usize,
)
    requires n_le_most_inputs { (n ≤ most_inputs) × (g < most_gates) × (count ≤ row_words) × (length rows.old ≡ signal_words) }
    requires gate_ok { GateOk arity.now fanins.now g (n + g) }
    ensures { (length rows.new ≡ signal_words) × (Rows arity.now fanins.now tables.now rows.old n g count → Rows arity.now fanins.now tables.now rows.new n (g + 1) count) }
{
    let mut row = [0u64; ROW_WORDS];
    lut_row(tables[g], arity, fanins, rows, count, g, &mut row);
    store_row(rows, n + g, &row);
}

// The rows of all signals: the inputs', then the gates'.
pub fn rows(
    n: usize,
    m: usize,
    arity: &[u8; MOST_GATES],
    fanins: &[u8; FANIN_PLACES],
    tables: &[u64; MOST_GATES],
    count: usize,
    rows: &mut [u64; SIGNAL_WORDS],
)
    requires net_ok { NetOk arity.now fanins.now n m }
    requires count_le_row_words { (count ≤ row_words) × (length rows.old ≡ signal_words) }
    ensures { (length rows.new ≡ signal_words) × Rows arity.now fanins.now tables.now rows.new n m count }
{
    input_rows(n, count, rows);
    for g in 0..m {
        gate_row(n, arity, fanins, tables, count, rows, g);
    }
}
