// Words: one machine word. Bits, tables as numbers, lookup by arity, minterm words, the six fixed input words, the seven fixed words of weights.
#![tactic(auto)]

ghost use Rattle.std.specs.Prelude.{◌≡◌, [], ◌∷◌, ℕ, ◌+◌, ◌-◌, ◌*◌, ◌/◌, ◌^◌, ◌<◌, ◌≤◌, eqb, ltb, get_or, true, false, not, ◌&&◌};
ghost use Rattle.bits.specs.Bounds.{most_inputs, row_words, small_fanins, small_words};
ghost use Rattle.bits.specs.Cut.{Cut, Framed};
ghost use Rattle.bits.specs.Range.{num, any, count};
ghost use Rattle.bits.specs.Bit.{bit, choose, number, gives, Split};

// The most inputs, and the words of a row: a set of patterns, 64 in a word.
pub const MOST_INPUTS: usize = 10;

pub const ROW_WORDS: usize = 1 << (MOST_INPUTS - 6);

// The places for a gate's fan-ins.
pub const GATE_PLACES: usize = 6;

// The fan-ins of a small gate, one whose entries, or sets of fan-ins, are taken all at once, and the words for these, one each.
pub const SMALL_FANINS: usize = 4;

pub const SMALL_WORDS: usize = 1 << SMALL_FANINS;

// Bit b of INPUT[i] is bit i of b.
const INPUT: [u64; 6] = [
    0xaaaa_aaaa_aaaa_aaaa,
    0xcccc_cccc_cccc_cccc,
    0xf0f0_f0f0_f0f0_f0f0,
    0xff00_ff00_ff00_ff00,
    0xffff_0000_ffff_0000,
    0xffff_ffff_0000_0000,
];

// Bit b of WEIGHT[j] is set where j of the six bits of b are.
const WEIGHT: [u64; 7] = [
    0x0000_0000_0000_0001,
    0x0000_0001_0001_0116,
    0x0001_0116_0116_1668,
    0x0116_1668_1668_6880,
    0x1668_6880_6880_8000,
    0x6880_8000_8000_0000,
    0x8000_0000_0000_0000,
];

// At each place: hi's bit where s has a 1, lo's where it has a 0.
pub fn mux(s: u64, hi: u64, lo: u64) -> u64
    ensures { (i : ℕ) → bit result i ≡ choose (bit s i) (bit hi i) (bit lo i) }
{
    lo ^ (s & (lo ^ hi))
}

// The lowest bit of t, 64 times.
pub fn broadcast(t: u64) -> u64
    ensures { (i : ℕ) → i < 64 → bit result i ≡ bit t 0 }
{
    if t & 1 == 1 { 0xffff_ffff_ffff_ffff } else { 0 }
}

// The values of input i at the patterns 64 * w + b, for each b below 64.
pub fn input_word(i: usize, w: u64) -> u64
    requires { i < 64 }
    ensures { (b : ℕ) → b < 64 → bit result b ≡ bit (w * 64 + b) i }
{
    if i < 6 {
        INPUT[i]
    } else {
        broadcast(w >> (i - 6))
    }
}

// The table t at the words of one to four inputs. By Davio's expansion: the lower half, and where the last input is 1 its difference
// from the upper half on top.
pub fn lut1(t: u64, a: u64) -> u64
    ensures { (i : ℕ) → i < 64 → bit result i ≡ bit t (number (bit a i ∷ [])) }
{
    broadcast(t) ^ (a & broadcast(t ^ (t >> 1)))
}

pub fn lut2(t: u64, a: u64, b: u64) -> u64
    ensures { (i : ℕ) → i < 64 → bit result i ≡ bit t (number (bit a i ∷ bit b i ∷ [])) }
{
    lut1(t, a) ^ (b & lut1(t ^ (t >> 2), a))
}

pub fn lut3(t: u64, a: u64, b: u64, c: u64) -> u64
    ensures { (i : ℕ) → i < 64 → bit result i ≡ bit t (number (bit a i ∷ bit b i ∷ bit c i ∷ [])) }
{
    lut2(t, a, b) ^ (c & lut2(t ^ (t >> 4), a, b))
}

pub fn lut4(t: u64, a: u64, b: u64, c: u64, d: u64) -> u64
    ensures { (i : ℕ) → i < 64 → bit result i ≡ bit t (number (bit a i ∷ bit b i ∷ bit c i ∷ bit d i ∷ [])) }
{
    lut3(t, a, b, c) ^ (d & lut3(t ^ (t >> 8), a, b, c))
}

// Bit i of a number.
pub fn bit_of(x: u64, i: u64) -> bool
    requires { i < 64 }
    ensures { result ≡ bit x i }
{
    (x >> i) % 2 == 1
}

pub fn power(e: u64) -> u64
    requires { e < 64 }
    ensures { result ≡ 2 ^ e }
{
    1 << e
}

// One entry more of a table that has e of them.
pub fn with_entry(acc: u64, e: u64, b: bool) -> u64
    requires { (e < 64) × (acc < 2 ^ e) }
    ensures { result ≡ num b * 2 ^ e + acc }
{
    if b {
        return power(e) + acc;
    }
    acc
}

// Whether a bit is set.
pub fn any_bit(x: u64) -> bool
    ensures { result ≡ any 64 (bit x) }
{
    x != 0
}

// Each bit the other way round.
pub fn complement(x: u64) -> u64
    ensures { (i : ℕ) → i < 64 → bit result i ≡ not (bit x i) }
{
    !x
}

// How many bits are set.
pub fn ones(x: u64) -> u32
    ensures { result ≡ count 64 (bit x) }
{
    u64::count_ones(x)
}

// The places b of word w at which the pattern 64 * w + b has c bits set, of which ones(w) stand above the place.
pub fn weight_word(c: usize, w: u64) -> u64
    requires { w < row_words }
    ensures { (n b : ℕ) → b < 64 → w * 64 + b < 2 ^ n → bit result b ≡ eqb (count n (bit (w * 64 + b))) c }
{
    let above = ones(w) as usize;
    if c < above {
        return 0;
    }
    let j = c - above;
    if 6 < j {
        return 0;
    }
    WEIGHT[j]
}

// Where the lowest set bit stands, of a word that has one.
pub fn lowest_bit(x: u64) -> u32
    requires { x ≡ 0 → ⊥ }
    ensures { (result < 64) × (bit x result ≡ true) × ((i : ℕ) → i < result → bit x i ≡ false) }
{
    u64::trailing_zeros(x)
}

// The first n bits set, and no other.
pub fn mask(n: u32) -> u64
    requires { n ≤ 64 }
    ensures { (result ≡ 2 ^ n - 1) × ((i : ℕ) → bit result i ≡ ltb i n) }
{
    if n == 64 {
        0xffff_ffff_ffff_ffff
    } else {
        (1 << n) - 1
    }
}

// How many words the patterns of n inputs take, and how many places of each.
#[derive(Drop)]
struct Extent {
    words: usize,
    places: u32,
}

fn size(n: usize) -> Extent
    requires { n ≤ most_inputs }
    ensures { Cut n result.words result.places }
{
    if n < 6 {
        Extent {
            words: 1,
            places: 1 << n,
        }
    } else {
        Extent {
            words: 1 << (n - 6),
            places: 64,
        }
    }
}

// How many words the patterns of n inputs take, and the places of each that are patterns.
#[derive(Drop)]
pub struct Frame {
    pub count: usize,
    pub live: u64,
}

pub fn frame_of(n: usize) -> Frame
    requires { n ≤ most_inputs }
    ensures { Framed n result.count result.live }
{
    let z = size(n);
    let live = mask(z.places);
    Frame {
        count: z.words,
        live: live,
    }
}

// The entries below n that a table leaves out.
pub fn complement_within(n: u32, x: u64) -> u64
    requires { (n ≤ 64) × (x < 2 ^ n) }
    ensures { result ≡ 2 ^ n - 1 - x }
{
    mask(n) - x
}

// Each of the first size words in two: its part in lo at its place, its part in hi size places on.
fn split(given: [u64; SMALL_WORDS], size: usize, lo: u64, hi: u64) -> [u64; SMALL_WORDS]
    requires { size ≤ small_words / 2 }
    ensures { Split given result size lo hi size }
{
    let mut words = given;
    for t in 0..size {
        words[size + t] = given[t] & hi;
        words[t] = given[t] & lo;
    }
    words
}

// The minterm words of k fan-ins: word t has the places of keep at which the first k words' bits give entry t, words that are free there aside.
pub fn minterms(
    k: usize,
    ins: &[u64; GATE_PLACES],
    frees: &[u64; GATE_PLACES],
    keep: u64,
) -> [u64; SMALL_WORDS]
    requires { k ≤ small_fanins }
    ensures { (t : ℕ) → t < 2 ^ k → (b : ℕ) → b < 64 → bit (get_or result t 0) b ≡ (bit keep b && gives k ins.now frees.now t b) }
{
    let mut words = [0u64; SMALL_WORDS];
    words[0] = keep;
    for r in 0..k {
        let value = ins[r];
        let free = frees[r];
        words = split(words, 1 << r, free | complement(value), free | value);
    }
    words
}
