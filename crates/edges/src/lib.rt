// Of the loaded network: edge tables, rule 6. Entry t of the edge table of fan-in r is set where the gate frees fan-in r at entry t.
// All entries of a gate at once: a word has a bit for each, and word f is of the set f of fan-ins.
#![tactic(auto)]

ghost use Rattle.std.specs.Prelude.{◌≡◌, ℕ, ◌+◌, ◌/◌, ◌^◌, ◌<◌, ◌≤◌, length, get_or};
ghost use Rattle.std.specs.Int.Bits.{bit_xor};
ghost use Rattle.bits.specs.Bounds.{gate_places};
ghost use Rattle.bits.specs.Bit.{bit};
ghost use Rattle.network.specs.Bounds.{most_gates, most_fanins, most_entries, fanin_places};
ghost use Rattle.edges.specs.Edges.{Edged, SmallEdged, EdgesPut, Constants, Doubled, Halved};

use bits::{GATE_PLACES, SMALL_FANINS};
use network::{FANIN_PLACES, MOST_ENTRIES, MOST_FANINS, MOST_GATES};

// At each entry: the bit of x at the entry with fan-in r turned.
fn turned(x: u64, r: usize) -> u64
    requires { r < 6 }
    ensures { (t : ℕ) → t < 64 → bit result t ≡ bit x (bit_xor t (2 ^ r)) }
{
    let step: usize = 1 << r;
    bits::mux(bits::input_word(r, 0), x << step, x >> step)
}

// From the words of the sets of fan-ins below r, those of the same sets with r.
fn double(words: &mut [u64; MOST_ENTRIES], r: usize, like: u64)
    requires r_lt_most_fanins { r < most_fanins }
    requires words_len { length words.old ≡ most_entries }
    ensures { (length words.new ≡ most_entries) × Doubled words.old words.new r like (2 ^ r) }
{
    let size: usize = 1 << r;
    for f in 0..size {
        let w = words[f];
        words[size + f] = w & turned(w, r) & like;
    }
}

// For each set of the fan-ins that get a turn, the entries at which the table is constant over all their values, the rest held.
// A gate that has fewer fan-ins finds its sets first.
fn constants(turns: usize, table: u64) -> [u64; MOST_ENTRIES]
    requires { turns ≤ most_fanins }
    ensures { Constants table result (2 ^ turns) }
{
    let mut words = [0u64; MOST_ENTRIES];
    words[0] = 0xffff_ffff_ffff_ffff;
    for r in 0..turns {
        let like = bits::complement(table ^ turned(table, r));
        double(&mut words, r, like);
    }
    words
}

// Of each two words, at each entry: the second where free has a 1, the first where it has a 0.
fn halve(words: &mut [u64; MOST_ENTRIES], size: usize, free: u64)
    requires size_bound { size ≤ most_entries / 2 }
    requires words_len { length words.old ≡ most_entries }
    ensures { (length words.new ≡ most_entries) × Halved words.old words.new free size }
{
    for h in 0..size {
        let first = words[2 * h];
        let second = words[2 * h + 1];
        words[h] = bits::mux(free, second, first);
    }
}

// By so many turns, the edge tables of a gate that has no more fan-ins, at place at and on.
// At the turn of fan-in r, word h is of the fan-ins already free and of those of h, counted from r.
// All turns are always taken, which is quicker than to stop after k: the compiler makes straight code of each number of turns.
fn gate_edges<const TURNS: usize>(k: usize, table: u64, at: usize, edges: &mut [u64; FANIN_PLACES])
    requires turns_le_most_fanins { TURNS ≤ most_fanins }
    requires k_le_most_fanins { (k ≤ most_fanins) × (at + gate_places ≤ fanin_places) }
    requires edges_len { length edges.old ≡ fanin_places }
    ensures { EdgesPut TURNS k table at edges.old edges.new }
{
    let entries = bits::mask(1 << k);
    let mut words = constants(TURNS, table);
    for r in 0..TURNS {
        let free = words[1];
        edges[at + r] = free & entries;
        halve(&mut words, 1 << (TURNS - 1 - r), free);
    }
}

// The edge tables of the small ones among the first m gates, GATE_PLACES places a gate.
// The others take as many turns: with no branch for them the compiler takes two gates at a time.
fn small_edges(
    m: usize,
    arity: &[u8; MOST_GATES],
    tables: &[u64; MOST_GATES],
) -> [u64; FANIN_PLACES]
    requires m_le_most_gates { m ≤ most_gates }
    requires by_index { (g : ℕ) → g < m → get_or arity.now g 0 ≤ most_fanins }
    ensures { SmallEdged arity.now tables.now result m }
{
    let mut edges = [0u64; FANIN_PLACES];
    for g in 0..m {
        let k = usize::from(arity[g]);
        gate_edges::<SMALL_FANINS>(k, tables[g], GATE_PLACES * g, &mut edges);
    }
    edges
}

// The edge tables of the first m gates, GATE_PLACES places a gate. Gates with more fan-ins than a small one get theirs in a second pass.
pub fn edge_tables(
    m: usize,
    arity: &[u8; MOST_GATES],
    tables: &[u64; MOST_GATES],
) -> [u64; FANIN_PLACES]
    requires m_le_most_gates { m ≤ most_gates }
    requires by_index { (g : ℕ) → g < m → get_or arity.now g 0 ≤ most_fanins }
    ensures { Edged arity.now tables.now result m }
{
    let mut edges = small_edges(m, arity, tables);
    for g in 0..m {
        let k = usize::from(arity[g]);
        if SMALL_FANINS < k {
            gate_edges::<MOST_FANINS>(k, tables[g], GATE_PLACES * g, &mut edges);
        }
    }
    edges
}
