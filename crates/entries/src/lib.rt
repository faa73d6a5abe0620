// Simulation: the entries of a gate that the patterns of a word give or deliver.
#![tactic(auto)]

ghost use Rattle.std.specs.Prelude.{◌≡◌, ◌&&◌, ℕ, ◌^◌, ◌<◌, ◌≤◌, eqb, get_or};
ghost use Rattle.std.specs.Int.Bits.{bit_or};
ghost use Rattle.bits.specs.Bounds.{small_fanins};
ghost use Rattle.bits.specs.Range.{any};
ghost use Rattle.bits.specs.Bit.{bit, table_of, entry_at, gives};
ghost use Rattle.network.specs.Bounds.{most_fanins, most_entries};
ghost use Rattle.network.specs.Compatible.{agree};
ghost use Rattle.entries.specs.By.{delivered_by, shares};

use bits::{GATE_PLACES, SMALL_WORDS};

// The entries whose minterm word has a place of keep.
fn delivered(k: usize, ins: &[u64; GATE_PLACES], frees: &[u64; GATE_PLACES], keep: u64) -> u64
    requires { k ≤ small_fanins }
    ensures { result ≡ delivered_by k ins.now frees.now keep }
{
    let n = entry_count(k) as usize;
    let words = bits::minterms(k, ins, frees, keep);
    let mut acc: u64 = 0;
    for t in 0..n {
        let b = bits::any_bit(words[t]);
        acc = bits::with_entry(acc, t as u64, b);
    }
    acc
}

// The same of five fan-ins, and of six, by halves: the entries with the last one 0, then those with it 1, each from the places of keep that
// have it so.
fn delivered5(ins: [u64; GATE_PLACES], frees: [u64; GATE_PLACES], keep: u64) -> u64
    ensures { result ≡ delivered_by 5 ins frees keep }
{
    let value = ins[4];
    let free = frees[4];
    let low = delivered(4, &ins, &frees, keep & (free | bits::complement(value)));
    let high = delivered(4, &ins, &frees, keep & (free | value));
    low + (high << 16)
}

fn delivered6(ins: [u64; GATE_PLACES], frees: [u64; GATE_PLACES], keep: u64) -> u64
    ensures { result ≡ delivered_by 6 ins frees keep }
{
    let value = ins[5];
    let free = frees[5];
    let low = delivered5(ins, frees, keep & (free | bits::complement(value)));
    let high = delivered5(ins, frees, keep & (free | value));
    low + (high << 32)
}

// Of the entries given, those whose two words share a place: entry t's words are low[t % 8] and high[t / 8].
fn tested(low: &[u64; SMALL_WORDS], high: &[u64; SMALL_WORDS], given: u64) -> u64
    ensures { (t : ℕ) → bit result t ≡ (bit given t && shares low.now high.now t) }
{
    let mut found: u64 = 0;
    let mut left = given;
    while left != 0 {
        let t = bits::lowest_bit(left) as usize;
        if bits::any_bit(low[t % 8] & high[t / 8]) {
            found = found | bits::power(t as u64);
        }
        left = left & (left - 1);
    }
    found
}

// The minterm words of two or three fan-ins, all places kept. A call for each arity, since the loops of a known arity compile to straight code.
fn high_words(j: usize, ins: &[u64; GATE_PLACES], frees: &[u64; GATE_PLACES]) -> [u64; SMALL_WORDS]
    requires { (2 ≤ j) × (j ≤ 3) }
    ensures { (t : ℕ) → t < 2 ^ j → (b : ℕ) → b < 64 → bit (get_or result t 0) b ≡ gives j ins.now frees.now t b }
{
    if j == 2 {
        return bits::minterms(2, ins, frees, 0xffff_ffff_ffff_ffff);
    }
    bits::minterms(3, ins, frees, 0xffff_ffff_ffff_ffff)
}

// The entries found and those that some place of keep delivers, of five or six fan-ins. Only the entries still missing are tested, each
// by its minterm word of the first three fan-ins and its word of the others.
fn missing(
    k: usize,
    ins: [u64; GATE_PLACES],
    frees: [u64; GATE_PLACES],
    keep: u64,
    found: u64,
) -> u64
    requires { (small_fanins < k) × (k ≤ most_fanins) × (found < 2 ^ 2 ^ k) }
    ensures { result ≡ bit_or found (delivered_by k ins frees keep) }
{
    let low = bits::minterms(3, &ins, &frees, keep);
    let others = [ins[3], ins[4], ins[5], 0, 0, 0];
    let free = [frees[3], frees[4], frees[5], 0, 0, 0];
    let high = high_words(k - 3, &others, &free);
    found | tested(&low, &high, bits::complement_within(entry_count(k), found))
}

// The entries found and those that some place of keep delivers. A call for each arity, as above; inlined, so that the words of free fan-ins
// cost nothing where they are known to be 0.
#[inline(always)]
fn with_delivered(
    k: usize,
    ins: &[u64; GATE_PLACES],
    frees: &[u64; GATE_PLACES],
    keep: u64,
    found: u64,
) -> u64
    requires { (1 ≤ k) × (k ≤ most_fanins) × (found < 2 ^ 2 ^ k) }
    ensures { result ≡ bit_or found (delivered_by k ins.now frees.now keep) }
{
    if k == 1 {
        return found | delivered(1, ins, frees, keep);
    }
    if k == 2 {
        return found | delivered(2, ins, frees, keep);
    }
    if k == 3 {
        return found | delivered(3, ins, frees, keep);
    }
    if k == 4 {
        return found | delivered(4, ins, frees, keep);
    }
    if found != 0 {
        return missing(k, *ins, *frees, keep, found);
    }
    if k == 5 {
        return delivered5(*ins, *frees, keep);
    }
    delivered6(*ins, *frees, keep)
}

// The entries found and those that some place of keep delivers.
pub fn reach(
    k: usize,
    ins: &[u64; GATE_PLACES],
    frees: &[u64; GATE_PLACES],
    keep: u64,
    found: u64,
) -> u64
    requires { (1 ≤ k) × (k ≤ most_fanins) × (found < 2 ^ 2 ^ k) }
    ensures { result ≡ bit_or found (table_of (2 ^ k) (λ t. any 64 (λ b. bit keep b && agree k (entry_at k frees.now b) (entry_at k ins.now b) t))) }
{
    with_delivered(k, ins, frees, keep, found)
}

// The entries found and those that the values of some place of keep are: no fan-in is free.
pub fn meets(k: usize, ins: &[u64; GATE_PLACES], keep: u64, found: u64) -> u64
    requires { (1 ≤ k) × (k ≤ most_fanins) × (found < 2 ^ 2 ^ k) }
    ensures { result ≡ bit_or found (table_of (2 ^ k) (λ t. any 64 (λ b. bit keep b && eqb (entry_at k ins.now b) t))) }
{
    let held = [0u64; GATE_PLACES];
    with_delivered(k, ins, &held, keep, found)
}

// How many entries a gate of k fan-ins has.
pub fn entry_count(k: usize) -> u32
    requires { k ≤ most_fanins }
    ensures { (result ≡ 2 ^ k) × (result ≤ most_entries) }
{
    1 << k
}
