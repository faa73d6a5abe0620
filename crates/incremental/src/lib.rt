// Simulation: the words of all signals under other tables, from words that are there. Rows as in `simulate`.
#![tactic(auto)]

ghost use Rattle.std.specs.Prelude.{◌≡◌, true, not, ℕ, ◌+◌, ◌*◌, ◌<◌, ◌≤◌, length, get_or, take};
ghost use Rattle.bits.specs.Bounds.{most_inputs, row_words, gate_places};
ghost use Rattle.bits.specs.Range.{places};
ghost use Rattle.bits.specs.Bit.{bit, column};
ghost use Rattle.network.specs.Bounds.{most_gates, most_signals, signal_words};
ghost use Rattle.network.specs.DontCares.{run_inverted};
ghost use Rattle.network.specs.Flat.{gates_of};
ghost use Rattle.network.specs.Valid.{GateOk, NetOk};
ghost use Rattle.simulate.specs.Simulated.{words_at, Rows};
ghost use Rattle.incremental.specs.Updated.{Masked, Stepped, Begun};

use bits::ROW_WORDS;
use network::{FANIN_PLACES, MOST_GATES, SIGNAL_WORDS};

// The fan-ins of gate g as a set of signals.
fn fanin_mask(arity: &[u8; MOST_GATES], fanins: &[u8; FANIN_PLACES], g: usize) -> u64
    requires g_lt_most_gates { g < most_gates }
    requires gate_ok { GateOk arity.now fanins.now g most_signals }
    ensures { (r : ℕ) → r < get_or arity.now g 0 → bit result (get_or fanins.now (gate_places * g + r) 0) ≡ true }
{
    let k = usize::from(arity[g]);
    let mut mask: u64 = 0;
    for r in 0..k {
        let f = simulate::fanin(fanins, g, r);
        mask = mask | bits::power(f as u64);
    }
    mask
}

// The fan-ins of each gate as a set of signals.
pub fn fanin_masks(
    n: usize,
    m: usize,
    arity: &[u8; MOST_GATES],
    fanins: &[u8; FANIN_PLACES],
) -> [u64; MOST_GATES]
    requires { NetOk arity.now fanins.now n m }
    ensures { Masked arity.now fanins.now result m }
{
    let mut l = [0u64; MOST_GATES];
    for g in 0..m {
        l[g] = fanin_mask(arity, fanins, g);
    }
    l
}

// Signal s has the words of a row already.
fn same_row(rows: &[u64; SIGNAL_WORDS], s: usize, row: &[u64; ROW_WORDS], count: usize) -> bool
    requires { (s < most_signals) × (count ≤ row_words) }
    ensures { result ≡ true → (w : ℕ) → w < count → get_or row.now w 0 ≡ get_or (words_at rows.now w) s 0 }
{
    for w in 0..count {
        if row[w] != rows[ROW_WORDS * s + w] {
            return false;
        }
    }
    true
}

// Gate h where the tables before it have changed: simulated again if its table is another one or a fan-in changed. The changed signals
// are given back.
fn step(
    n: usize,
    arity: &[u8; MOST_GATES],
    fanins: &[u8; FANIN_PLACES],
    before: &[u64; MOST_GATES],
    tables: &[u64; MOST_GATES],
    masks: &[u64; MOST_GATES],
    count: usize,
    rows: &mut [u64; SIGNAL_WORDS],
    changed: u64,
    h: usize,
) -> u64
    requires n_le_most_inputs { (n ≤ most_inputs) × (h < most_gates) × (count ≤ row_words) }
    requires gate_ok { GateOk arity.now fanins.now h (n + h) }
    requires rows_len { length rows.old ≡ signal_words }
    ensures { Stepped arity.now fanins.now before.now tables.now masks.now rows.old rows.new n count h changed result }
{
    let t = tables[h];
    if t == before[h] {
        if masks[h] & changed == 0 {
            return changed;
        }
    }
    let mut row = [0u64; ROW_WORDS];
    simulate::lut_row(t, arity, fanins, rows, count, h, &mut row);
    if same_row(rows, n + h, &row, count) {
        return changed;
    }
    simulate::store_row(rows, n + h, &row);
    changed | bits::power((n + h) as u64)
}

// Rows that are those under `tables` up to gate `from`, and from there on those under the tables `before`, become those under `tables`.
// The signals that have changed so far are given.
fn update_from(
    n: usize,
    m: usize,
    arity: &[u8; MOST_GATES],
    fanins: &[u8; FANIN_PLACES],
    before: &[u64; MOST_GATES],
    tables: &[u64; MOST_GATES],
    masks: &[u64; MOST_GATES],
    count: usize,
    from: usize,
    given: u64,
    rows: &mut [u64; SIGNAL_WORDS],
)
    requires net_ok { NetOk arity.now fanins.now n m }
    requires count_le_row_words { (count ≤ row_words) × (from ≤ m) }
    requires begun { Begun arity.now fanins.now before.now tables.now rows.old n m count from given }
    requires masked { Masked arity.now fanins.now masks.now m }
    ensures { (length rows.new ≡ signal_words) × Rows arity.now fanins.now tables.now rows.new n m count }
{
    let mut changed = given;
    for h in from..m {
        changed = step(
            n, arity, fanins, before, tables, masks, count, rows, changed, h,
        );
    }
}

// The rows under the tables `before` become those under `tables`.
pub fn update(
    n: usize,
    m: usize,
    arity: &[u8; MOST_GATES],
    fanins: &[u8; FANIN_PLACES],
    before: &[u64; MOST_GATES],
    tables: &[u64; MOST_GATES],
    count: usize,
    rows: &mut [u64; SIGNAL_WORDS],
)
    requires net_ok { NetOk arity.now fanins.now n m }
    requires count_le_row_words { (count ≤ row_words) × (length rows.old ≡ signal_words) }
    requires rows { Rows arity.now fanins.now before.now rows.old n m count }
    ensures { (length rows.new ≡ signal_words) × Rows arity.now fanins.now tables.now rows.new n m count }
{
    let masks = fanin_masks(n, m, arity, fanins);
    update_from(
        n, m, arity, fanins, before, tables, &masks, count, 0, 0, rows,
    );
}

// The words of signal s the other way round.
fn complement_row(rows: &[u64; SIGNAL_WORDS], s: usize) -> [u64; ROW_WORDS]
    requires { s < most_signals }
    ensures { (w b : ℕ) → w < row_words → b < 64 → bit (get_or result w 0) b ≡ not (bit (get_or rows.now (row_words * s + w) 0) b) }
{
    let mut l = [0u64; ROW_WORDS];
    for (w, word) in l.iter_mut().enumerate() {
        *word = bits::complement(rows[ROW_WORDS * s + w]);
    }
    l
}

// The rows become those where gate g's value is inverted: its table is complemented, and so is its row.
pub fn invert(
    n: usize,
    m: usize,
    arity: &[u8; MOST_GATES],
    fanins: &[u8; FANIN_PLACES],
    tables: [u64; MOST_GATES],
    masks: &[u64; MOST_GATES],
    count: usize,
    g: usize,
    rows: &mut [u64; SIGNAL_WORDS],
)
    requires net_ok { NetOk arity.now fanins.now n m }
    requires g_lt_m { (g < m) × (count ≤ row_words) × (length rows.old ≡ signal_words) }
    requires rows { Rows arity.now fanins.now tables rows.old n m count }
    requires masked { Masked arity.now fanins.now masks.now m }
    ensures { (length rows.new ≡ signal_words) × ((w b : ℕ) → w < count → b < 64 → take (n + m) (column (words_at rows.new w) b) ≡ run_inverted (n + g) (places n (bit (w * 64 + b))) (gates_of arity.now fanins.now tables m)) }
{
    let mut others = tables;
    others[g] = bits::complement(tables[g]);
    let row = complement_row(rows, n + g);
    simulate::store_row(rows, n + g, &row);
    update_from(
        n,
        m,
        arity,
        fanins,
        &tables,
        &others,
        masks,
        count,
        g + 1,
        bits::power((n + g) as u64),
        rows,
    );
}
