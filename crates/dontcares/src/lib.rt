// Of the current network: SDC, CDC and full tables, rules 1, 2 and 4, from rows of words. The CDC is request Two's.
#![tactic(auto)]

ghost use Rattle.std.specs.Prelude.{◌≡◌, ◌&&◌, not, List, ℕ, ◌+◌, ◌*◌, ◌^◌, ◌<◌, ◌≤◌, eqb, length, get_or};
ghost use Rattle.bits.specs.Bounds.{row_words};
ghost use Rattle.bits.specs.Range.{any};
ghost use Rattle.bits.specs.Bit.{bit, table_of, column};
ghost use Rattle.bits.specs.Cut.{word_count};
ghost use Rattle.network.specs.Answer.{Done};
ghost use Rattle.network.specs.Bounds.{most_gates, most_fanins, most_signals, gate_words};
ghost use Rattle.network.specs.Net.{entry};
ghost use Rattle.network.specs.DontCares.{sdc, cdc, odc, full};
ghost use Rattle.network.specs.Flat.{gate_at, current_net, word_of};
ghost use Rattle.network.specs.State.{state_fault};
ghost use Rattle.network.specs.Calls.{sdc_words};
ghost use Rattle.network.specs.Valid.{GateOk};
ghost use Rattle.simulate.specs.Simulated.{words_at};
ghost use Rattle.observability.specs.Odc.{OdcAt};
ghost use Rattle.dontcares.specs.Tabled.{Comes, Tabled, GateTabled, GatesTabled, sdc_table};

use bits::ROW_WORDS;
use network::{EXCLUDED_WORDS, FANIN_PLACES, GATE_WORDS, MOST_GATES, SIGNAL_WORDS, Sdc, Session};

// The places of one word that another does not have.
fn without(word: u64, other: u64) -> u64
    ensures { (b : ℕ) → b < 64 → bit result b ≡ (bit word b && not (bit other b)) }
{
    word & bits::complement(other)
}

// A row of so many words, each by its place.
fn row_by<F: Fn(usize) -> u64>(count: usize, word: F) -> [u64; ROW_WORDS]
    requires few { count ≤ row_words }
    requires callable { (w : ℕ) → w < count → F.pre word w }
    ensures { (w : ℕ) → w < count → F.post word w (get_or result w 0) }
{
    let mut l = [0u64; ROW_WORDS];
    for w in 0..count {
        l[w] = word(w);
    }
    l
}

// The patterns that come: the live places of each word that do not lie in E.
fn come_row(excluded: &[u64; EXCLUDED_WORDS], live: u64, count: usize) -> [u64; ROW_WORDS]
    requires { count ≤ row_words }
    ensures { Comes excluded.now result count live }
{
    row_by(count, |w| without(live, excluded[w]))
}

// Those of them that do not lie in gate g's ODC.
fn keep_row(
    come: &[u64; ROW_WORDS],
    odc: &[u64; GATE_WORDS],
    count: usize,
    g: usize,
) -> [u64; ROW_WORDS]
    requires { (g < most_gates) × (count ≤ row_words) }
    ensures { (w b : ℕ) → w < count → b < 64 → bit (get_or result w 0) b ≡ (bit (get_or come.now w 0) b && not (bit (get_or odc.now (row_words * g + w) 0) b)) }
{
    row_by(count, |w| without(come[w], odc[ROW_WORDS * g + w]))
}

// The entries of gate g that the places of keep deliver. Once all are, the words left add none.
fn delivered(
    arity: &[u8; MOST_GATES],
    fanins: &[u8; FANIN_PLACES],
    rows: &[u64; SIGNAL_WORDS],
    keep: &[u64; ROW_WORDS],
    count: usize,
    g: usize,
) -> u64
    requires g_lt_most_gates { (g < most_gates) × (count ≤ row_words) }
    requires gate_ok { GateOk arity.now fanins.now g most_signals }
    ensures { (ts : List ℕ) → result ≡ table_of (2 ^ get_or arity.now g 0) (λ t. any count (λ w. any 64 (λ b. bit (get_or keep.now w 0) b && eqb (entry (column (words_at rows.now w) b) (gate_at arity.now fanins.now ts g)) t))) }
{
    let k = usize::from(arity[g]);
    let all = bits::mask(entries::entry_count(k));
    let mut acc: u64 = 0;
    for w in 0..count {
        if acc == all {
            return acc;
        }
        let ins = simulate::gather_at(arity, fanins, rows, g, w);
        acc = entries::meets(k, &ins, keep[w], acc);
    }
    acc
}

// The CDC and the full table of one gate.
#[derive(Drop)]
pub struct GateTables {
    pub cdc: u64,
    pub full: u64,
}

// The tables of gate g, from the rows of all signals, the patterns that come and the words of its ODC.
fn tables_at(
    arity: &[u8; MOST_GATES],
    fanins: &[u8; FANIN_PLACES],
    rows: &[u64; SIGNAL_WORDS],
    come: &[u64; ROW_WORDS],
    odc: &[u64; GATE_WORDS],
    count: usize,
    g: usize,
) -> GateTables
    requires g_lt_most_gates { (g < most_gates) × (count ≤ row_words) }
    requires gate_ok { GateOk arity.now fanins.now g most_signals }
    ensures { GateTabled arity.now fanins.now rows.now come.now odc.now count g result.cdc result.full }
{
    let came = delivered(arity, fanins, rows, come, count, g);
    let keep = keep_row(come, odc, count, g);
    let seen = delivered(arity, fanins, rows, &keep, count, g);
    let c = entries::entry_count(usize::from(arity[g]));
    let cdc = bits::complement_within(c, came);
    let full = bits::complement_within(c, seen);
    GateTables {
        cdc: cdc,
        full: full,
    }
}

// The CDC and the full table of each gate, zero past the last.
#[derive(Drop)]
pub struct AllTables {
    pub cdc: [u64; MOST_GATES],
    pub full: [u64; MOST_GATES],
}

// The tables of each gate from a to e, and zero elsewhere.
fn tables_of(
    a: usize,
    e: usize,
    arity: &[u8; MOST_GATES],
    fanins: &[u8; FANIN_PLACES],
    excluded: &[u64; EXCLUDED_WORDS],
    rows: &[u64; SIGNAL_WORDS],
    odc: &[u64; GATE_WORDS],
    count: usize,
    live: u64,
) -> AllTables
    requires a_le_e { (a ≤ e) × (e ≤ most_gates) × (count ≤ row_words) }
    requires by_index { (g : ℕ) → g < e → GateOk arity.now fanins.now g most_signals }
    ensures { GatesTabled arity.now fanins.now excluded.now rows.now odc.now count live a e result.cdc result.full e }
{
    let come = come_row(excluded, live, count);
    let mut cdc = [0u64; MOST_GATES];
    let mut full = [0u64; MOST_GATES];
    for g in a..e {
        let t = tables_at(arity, fanins, rows, &come, odc, count, g);
        cdc[g] = t.cdc;
        full[g] = t.full;
    }
    AllTables {
        cdc: cdc,
        full: full,
    }
}

// The words of the ODC of each gate from a to e, laid into odc, and the tables of each from a to t.
fn sets_between(s: Session, a: usize, t: usize, e: usize, odc: &mut [u64; GATE_WORDS]) -> AllTables
    requires s_value { state_fault s ≡ Done }
    requires a_le_t { (a ≤ t) × (t ≤ e) × (e ≤ s.m) × (length odc.old ≡ gate_words) }
    ensures { ((g : ℕ) → a ≤ g → g < e → OdcAt (current_net s) odc.new s.n g (word_count s.n)) × Tabled (current_net s) result.cdc result.full s.n a t }
{
    let n = usize::from(s.n);
    let m = usize::from(s.m);
    let p = usize::from(s.p);
    let arity = s.arity;
    let fanins = s.fanins;
    let tables = s.current;
    let outputs = s.outputs;
    let excluded = s.excluded;
    let f = bits::frame_of(n);
    let count = f.count;
    let live = f.live;
    let mut values = [0u64; SIGNAL_WORDS];
    simulate::rows(n, m, &arity, &fanins, &tables, count, &mut values);
    observability::odc_words(
        n, m, &arity, &fanins, &tables, p, &outputs, &values, count, live, a, e, odc,
    );
    tables_of(a, t, &arity, &fanins, &excluded, &values, odc, count, live)
}

// Rule 3 for all gates: the words of gate g's ODC stand at place ROW_WORDS * g and on; spare bits are zero.
pub fn odc_sets(s: Session) -> [u64; GATE_WORDS]
    requires { state_fault s ≡ Done }
    ensures { (g w : ℕ) → g < s.m → w < word_count s.n → get_or result (row_words * g + w) 0 ≡ word_of s.n (odc (current_net s) (s.n + g)) w }
{
    let m = usize::from(s.m);
    let mut l = [0u64; GATE_WORDS];
    sets_between(s, 0, 0, m, &mut l);
    l
}

// Rules 2 and 4 for all gates.
pub fn all_tables(s: Session) -> AllTables
    requires { state_fault s ≡ Done }
    ensures { Tabled (current_net s) result.cdc result.full s.n 0 s.m }
{
    let m = usize::from(s.m);
    let mut l = [0u64; GATE_WORDS];
    sets_between(s, 0, m, m, &mut l)
}

// Rules 2 and 4 for gate g.
pub fn gate_tables(s: Session, g: usize) -> GateTables
    requires s_value { state_fault s ≡ Done }
    requires g_lt_m { g < s.m }
    ensures { (result.cdc ≡ cdc (current_net s) (s.n + g)) × (result.full ≡ full (current_net s) (s.n + g)) }
{
    let e = g + 1;
    let mut l = [0u64; GATE_WORDS];
    let r = sets_between(s, g, e, e, &mut l);
    let cdc = r.cdc;
    let full = r.full;
    GateTables {
        cdc: cdc[g],
        full: full[g],
    }
}

// Rule 1 for a table of k fan-ins: its entries, then their complement; with six fan-ins either fills a word.
fn sdc_of(k: usize, table: u64) -> Sdc
    requires { (k ≤ most_fanins) × (table < 2 ^ 2 ^ k) }
    ensures { result ≡ sdc_words (sdc_table k table) }
{
    let c = entries::entry_count(k);
    let other = bits::complement_within(c, table);
    if c == 64 {
        return Sdc {
            low: table,
            high: other,
        };
    }
    Sdc {
        low: table + (other << c),
        high: 0,
    }
}

// Rule 1 for gate g.
pub fn sdc(s: Session, g: usize) -> Sdc
    requires s_value { state_fault s ≡ Done }
    requires g_lt_m { g < s.m }
    ensures { result ≡ sdc_words (sdc (current_net s) (s.n + g)) }
{
    let arity = s.arity;
    let tables = s.current;
    let k = usize::from(arity[g]);
    sdc_of(k, tables[g])
}
