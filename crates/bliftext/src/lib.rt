// BLIF: lines, words and names of a lent text, by their places in it.
#![tactic(auto)]

ghost use Rattle.std.specs.Prelude.{◌≡◌, Bool, true, not, ◌||◌, ℕ, ◌+◌, ◌≤◌, ◌<◌, length, drop};
ghost use Rattle.text.specs.Words.{is_printing, before};
ghost use Rattle.blif.specs.Text.{is_blank, fields};
ghost use Rattle.blif.specs.Read.{known, repeats};
ghost use Rattle.blif.specs.Read as read;
ghost use Rattle.bliftext.specs.Named.{names_at, Inside, place_among};
ghost use Rattle.bliftext.specs.Lines.{Computes, LineAt, NextOf};
ghost use Rattle.bliftext.specs.Spans.{WordAt};

fn blank(b: u8) -> bool
    ensures { result ≡ is_blank b }
{
    b == 0x20 || (b == 0x09 || b == 0x0D)
}

fn printing(b: u8) -> bool
    ensures { result ≡ is_printing b }
{
    0x21 <= b && b <= 0x7E
}

// What stands in no line of the subset.
fn outside(b: u8) -> bool
    ensures { result ≡ not (is_printing b || is_blank b) }
{
    if printing(b) {
        return false;
    }
    !blank(b)
}

// The first place from `at` on whose byte passes the test; the end where there is none.
fn find<F: Fn(u8) -> bool>(s: &[u8], at: usize, is: F) -> usize
    requires callable { F.IsAlwaysCallable is }
    requires start { at ≤ length s.now }
    ensures first { (cut : ℕ → Bool) → Computes (F.post is) cut → result ≡ at + length (before cut (drop at s.now)) }
    ensures within { (at ≤ result) × (result ≤ length s.now) }
{
    for p in at..s.len() {
        if is(s[p]) {
            return p;
        }
    }
    s.len()
}

// A line that has words: its first word starts at `at`, its last word ends before `end`, the next line starts at `next`.
#[derive(Clone, Copy)]
pub struct Line {
    pub at: usize,
    pub end: usize,
    pub next: usize,
}

// The line that starts at `i`; it has words where `at` is below `end`.
pub fn line_at(text: &[u8], i: usize) -> Line
    requires { i < length text.now }
    ensures { LineAt text.now i result }
{
    let e = find(text, i, |b| b == b'\n');
    let h = find(&text[0..e], i, |b| b == b'#');
    let w = find(&text[0..h], i, |b| !blank(b));
    if e < text.len() {
        return Line {
            at: w,
            end: h,
            next: e + 1,
        };
    }
    Line {
        at: w,
        end: h,
        next: e,
    }
}

// The first line from `at` on that has words; none where no such line is left.
pub fn line_from(text: &[u8], at: usize) -> Option<Line>
    requires { at ≤ length text.now }
    ensures { NextOf text.now at result }
{
    let mut i = at;
    while i < text.len() {
        let l = line_at(text, i);
        if l.at < l.end {
            return Some(l);
        }
        i = l.next;
    }
    None
}

// A word of a text by its places, or no word where `start` is `end`.
#[derive(Clone, Copy)]
pub struct Span {
    pub start: usize,
    pub end: usize,
}

// The place of a name among the names that stand at these places of the text; none where it is none of them.
pub fn place_of(text: &[u8], names: &[Span], w: &[u8]) -> Option<usize>
    requires { Inside text.now names.now }
    ensures { result ≡ place_among (names_at text.now names.now) w.now }
{
    names
        .iter()
        .position(|name| &text[name.start..name.end] == w)
}

// The first word from `at` on; none where no word is left.
pub fn word_from(s: &[u8], at: usize) -> Span
    requires { at ≤ length s.now }
    ensures { WordAt s.now at (fields (drop at s.now)) result }
{
    let w = find(s, at, |b| !blank(b));
    let e = find(s, w, blank);
    Span { start: w, end: e }
}

// How many words stand from place `at` on.
pub fn count(s: &[u8], at: usize) -> usize
    requires { at ≤ length s.now }
    ensures { result ≡ length (fields (drop at s.now)) }
{
    let mut x = word_from(s, at);
    let mut n: usize = 0;
    while x.start < x.end {
        n += 1;
        x = word_from(s, x.end);
    }
    n
}

// Whether the line's first word is w.
pub fn opens(s: &[u8], at: usize, w: &[u8]) -> bool
    requires { at ≤ length s.now }
    ensures { result ≡ read.opens w.now (fields (drop at s.now)) }
{
    let x = word_from(s, at);
    &s[x.start..x.end] == w
}

// Whether w is one of the words from `at` on.
pub fn stands(s: &[u8], at: usize, w: &[u8]) -> bool
    requires { at ≤ length s.now }
    ensures { result ≡ known (fields (drop at s.now)) w.now }
{
    let mut x = word_from(s, at);
    while x.start < x.end {
        if &s[x.start..x.end] == w {
            return true;
        }
        x = word_from(s, x.end);
    }
    false
}

// Whether one of the words from `at` on stands there twice.
pub fn repeated(s: &[u8], at: usize) -> bool
    requires { at ≤ length s.now }
    ensures { result ≡ repeats (fields (drop at s.now)) }
{
    let mut x = word_from(s, at);
    while x.start < x.end {
        if stands(s, x.end, &s[x.start..x.end]) {
            return true;
        }
        x = word_from(s, x.end);
    }
    false
}

// Whether a byte from `at` on is neither blank nor one of those that words are made of.
pub fn foreign(s: &[u8], at: usize) -> bool
    requires { at ≤ length s.now }
    ensures { result ≡ read.foreign (fields (drop at s.now)) }
{
    find(s, at, outside) < s.len()
}

// The word behind the first k words from `at` on; none where there are no more.
pub fn word_at(s: &[u8], at: usize, k: usize) -> Span
    requires { at ≤ length s.now }
    ensures { WordAt s.now at (drop k (fields (drop at s.now))) result }
{
    let mut x = word_from(s, at);
    for _i in 0..k {
        x = word_from(s, x.end);
    }
    x
}
