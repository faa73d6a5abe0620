// Simulation: lookup in tables of five and six inputs, by the words of all sixteen functions of the first two inputs, which stand in rows.
// Row t is the function whose table is t; its word w stands at place ROW_WORDS * t + w.
#![tactic(auto)]

ghost use Rattle.std.specs.Prelude.{◌≡◌, [], ◌∷◌, ℕ, ◌+◌, ◌*◌, ◌<◌, length, get_or};
ghost use Rattle.bits.specs.Bounds.{row_words};
ghost use Rattle.bits.specs.Bit.{bit, number};
ghost use Rattle.widelut.specs.Functions.{function_count, function_words, FunctionsAt};

use bits::ROW_WORDS;

// The functions of two inputs.
const FUNCTIONS: usize = 16;

// The words of their rows, and one more: with an odd number of words the compiler lays the rows at an even word of a frame, where no two
// words that it takes at once lie in two cache lines.
pub const FUNCTION_WORDS: usize = FUNCTIONS * ROW_WORDS + 1;

// Each function at the words a and b. A call for each table, since the lookup of a known table compiles to one or two operations.
fn functions(a: u64, b: u64) -> [u64; FUNCTIONS]
    ensures { (t : ℕ) → t < function_count → (i : ℕ) → i < 64 → bit (get_or result t 0) i ≡ bit t (number (bit a i ∷ bit b i ∷ [])) }
{
    [
        bits::lut2(0, a, b),
        bits::lut2(1, a, b),
        bits::lut2(2, a, b),
        bits::lut2(3, a, b),
        bits::lut2(4, a, b),
        bits::lut2(5, a, b),
        bits::lut2(6, a, b),
        bits::lut2(7, a, b),
        bits::lut2(8, a, b),
        bits::lut2(9, a, b),
        bits::lut2(10, a, b),
        bits::lut2(11, a, b),
        bits::lut2(12, a, b),
        bits::lut2(13, a, b),
        bits::lut2(14, a, b),
        bits::lut2(15, a, b),
    ]
}

// Word w of each row, from the words a and b.
pub fn put_functions(rows: &mut [u64; FUNCTION_WORDS], w: usize, a: u64, b: u64)
    requires { (w < row_words) × (length rows.old ≡ function_words) }
    ensures { (length rows.new ≡ function_words) × FunctionsAt rows.new w a b × ((t v : ℕ) → v < w → get_or rows.new (row_words * t + v) 0 ≡ get_or rows.old (row_words * t + v) 0) }
{
    let words = functions(a, b);
    for (t, word) in words.iter().enumerate() {
        rows[ROW_WORDS * t + w] = *word;
    }
}

// The table t at word w of the two inputs whose functions stand in rows, and at the words of the other inputs. By Davio's expansion, as in
// `bits`.
fn lut2(rows: &[u64; FUNCTION_WORDS], t: u64, w: usize) -> u64
    requires { w < row_words }
    ensures { (a b : ℕ) → FunctionsAt rows.now w a b → (i : ℕ) → i < 64 → bit result i ≡ bit t (number (bit a i ∷ bit b i ∷ [])) }
{
    let f = (t % 16) as usize;
    rows[ROW_WORDS * f + w]
}

fn lut3(rows: &[u64; FUNCTION_WORDS], t: u64, w: usize, c: u64) -> u64
    requires { w < row_words }
    ensures { (a b : ℕ) → FunctionsAt rows.now w a b → (i : ℕ) → i < 64 → bit result i ≡ bit t (number (bit a i ∷ bit b i ∷ bit c i ∷ [])) }
{
    lut2(rows, t, w) ^ (c & lut2(rows, t ^ (t >> 4), w))
}

fn lut4(rows: &[u64; FUNCTION_WORDS], t: u64, w: usize, c: u64, d: u64) -> u64
    requires { w < row_words }
    ensures { (a b : ℕ) → FunctionsAt rows.now w a b → (i : ℕ) → i < 64 → bit result i ≡ bit t (number (bit a i ∷ bit b i ∷ bit c i ∷ bit d i ∷ [])) }
{
    lut3(rows, t, w, c) ^ (d & lut3(rows, t ^ (t >> 8), w, c))
}

pub fn lut5(rows: &[u64; FUNCTION_WORDS], t: u64, w: usize, c: u64, d: u64, e: u64) -> u64
    requires { w < row_words }
    ensures { (a b : ℕ) → FunctionsAt rows.now w a b → (i : ℕ) → i < 64 → bit result i ≡ bit t (number (bit a i ∷ bit b i ∷ bit c i ∷ bit d i ∷ bit e i ∷ [])) }
{
    lut4(rows, t, w, c, d) ^ (e & lut4(rows, t ^ (t >> 16), w, c, d))
}

pub fn lut6(rows: &[u64; FUNCTION_WORDS], t: u64, w: usize, c: u64, d: u64, e: u64, f: u64) -> u64
    requires { w < row_words }
    ensures { (a b : ℕ) → FunctionsAt rows.now w a b → (i : ℕ) → i < 64 → bit result i ≡ bit t (number (bit a i ∷ bit b i ∷ bit c i ∷ bit d i ∷ bit e i ∷ bit f i ∷ [])) }
{
    lut5(rows, t, w, c, d, e) ^ (f & lut5(rows, t ^ (t >> 32), w, c, d, e))
}
