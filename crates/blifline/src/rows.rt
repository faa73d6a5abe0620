// A row of a cover: which entries it covers, whether a line is one, and the table of the cover with it.
ghost use Rattle.std.specs.Prelude.{◌≡◌, true, cond, ◌||◌, List, [], ◌∷◌, ◌++◌, ℕ, ◌≤◌, ◌<◌, eqb, length, get_or, drop};
ghost use Rattle.bits.specs.Bounds.{gate_places};
ghost use Rattle.bits.specs.Bit.{bit};
ghost use Rattle.text.specs.Words.{Text};
ghost use Rattle.blif.specs.Text.{fields};
ghost use Rattle.blif.specs.Cover.{is_mark, is_digit, covers};
ghost use Rattle.blifline.specs.Rows.{marked, is_marks, is_out, digit_of, Running};

// The entries that byte b of fan-in r covers.
fn mark_word(b: u8, r: usize) -> u64
    requires { r < gate_places }
    ensures { (t : ℕ) → t < 64 → bit result t ≡ marked b r t }
{
    if b == 0x2D {
        return 0xffff_ffff_ffff_ffff;
    }
    if b == 0x31 {
        return bits::input_word(r, 0);
    }
    if b == 0x30 {
        return bits::complement(bits::input_word(r, 0));
    }
    0
}

// The entries that a row covers.
fn row_word(row: &[u8]) -> u64
    requires { length row.now ≤ gate_places }
    ensures { (t : ℕ) → t < 64 → bit result t ≡ covers row.now t }
{
    let mut w: u64 = 0xffff_ffff_ffff_ffff;
    for (r, b) in row.iter().enumerate() {
        w &= mark_word(*b, r);
    }
    w
}

// The table of a cover that has one row more, with output digit d.
pub fn row_table(k: u8, old: u64, digit: u8, row: &[u8], d: u8) -> u64
    requires { (k ≤ gate_places) × (length row.now ≤ gate_places) }
    ensures { (rows : List Text) → Running k rows digit old → (eqb digit 0 || eqb digit d) ≡ true → (d ≡ 0 → ⊥) → Running k (rows ++ row.now ∷ []) d result }
{
    let w = row_word(row);
    let live = bits::mask(bits::power(k as u64) as u32);
    if d == 0x30 {
        if digit == 0 {
            return live & bits::complement(w);
        }
        return old & bits::complement(w);
    }
    old | (live & w)
}

// Whether a byte may stand in the input part of a row.
fn mark(b: u8) -> bool
    ensures { result ≡ is_mark b }
{
    b == 0x30 || (b == 0x31 || b == 0x2D)
}

// Whether the bytes are k of 0, 1 and -.
fn marks(row: &[u8], k: u8) -> bool
    ensures { result ≡ is_marks k row.now }
{
    if row.len() != k as usize {
        return false;
    }
    for b in row {
        if !mark(*b) {
            return false;
        }
    }
    true
}

// Whether a byte is an output part.
fn digit(b: u8) -> bool
    ensures { result ≡ is_digit b }
{
    b == 0x30 || b == 0x31
}

// Whether a row with digit d may follow rows with this digit, 0 for none.
fn goes(digit: u8, d: u8) -> bool
    ensures { result ≡ (eqb digit 0 || eqb digit d) }
{
    digit == 0 || digit == d
}

// The digit of an output part that goes with the rows before; 0 where it is none.
fn out_digit(out: &[u8], before: u8) -> u8
    ensures { result ≡ cond (is_out before out.now) (get_or out.now 0 0) 0 }
{
    if out.len() != 1 {
        return 0;
    }
    let d = out[0];
    if !digit(d) {
        return 0;
    }
    if !goes(before, d) {
        return 0;
    }
    d
}

// The digit of a row of a block of k fan-ins; 0 where the line is none.
pub fn row_digit(s: &[u8], at: usize, k: u8, digit: u8) -> u8
    requires { at ≤ length s.now }
    ensures { result ≡ digit_of k digit (fields (drop at s.now)) }
{
    let w = bliftext::word_from(s, at);
    let a = w.start;
    let b = w.end;
    let v = bliftext::word_from(s, b);
    let e = v.start;
    let f = v.end;
    if e == f {
        return 0;
    }
    let x = bliftext::word_from(s, f);
    if x.start < x.end {
        return 0;
    }
    if !marks(&s[a..b], k) {
        return 0;
    }
    out_digit(&s[e..f], digit)
}
