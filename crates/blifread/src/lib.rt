// A BLIF text: from bytes to a network.
#![tactic(auto)]

ghost use Rattle.std.specs.Prelude.{◌≡◌, List, [], map, ◌+◌, ◌≤◌, ◌<◌, length, take, drop, set};
ghost use Rattle.bits.specs.Bounds.{most_inputs, gate_places};
ghost use Rattle.network.specs.Bounds.{most_gates, most_outputs, most_fanins, most_signals};
ghost use Rattle.text.specs.Words.{Text};
ghost use Rattle.blif.specs.Text.{fields, statements};
ghost use Rattle.blif.specs.Read.{place_in, names, fanin_names, read_rest, read_blocks, read_outputs, read_inputs, read_blif};
ghost use Rattle.blif.specs.Read as meaning;
ghost use Rattle.bliftext.specs.Lines.{words_at};
ghost use Rattle.bliftext.specs.Named.{names_at, Inside};
ghost use Rattle.blifline.specs.Lines.{Held};
ghost use Rattle.blifread.specs.Drafts.{LineIn, draft_of, RowsRead, with_fanins, gate_of, signals_at, Fits, BlockRead, end_of, ListedAt};

use bits::{GATE_PLACES, MOST_INPUTS};
use bliftext::{Line, Span};
use network::{MOST_OUTPUTS, MOST_SIGNALS, Refusal, Session};

// Whether the line's first word is w.
fn opens(text: &[u8], l: Line, w: &[u8]) -> bool
    requires { LineIn text.now l }
    ensures { result ≡ meaning.opens w.now (words_at text.now l) }
{
    let h = l.end;
    bliftext::opens(&text[0..h], l.at, w)
}

// Rows that have been read: their table, and the place of the line behind them.
#[derive(Drop)]
struct Scanned {
    table: u64,
    next: usize,
}

// The rows from `at` on of a block of k fan-ins, as many as there are.
fn rows(text: &[u8], at: usize, k: u8) -> Scanned
    requires { (at ≤ length text.now) × (k ≤ gate_places) }
    ensures { RowsRead text.now at k result }
{
    let mut digit: u8 = 0;
    let mut table: u64 = 0;
    let mut i = at;
    while let Some(l) = bliftext::line_from(text, i) {
        let x = blifline::row(&text[0..l.end], l.at, k, digit, table);
        if x.digit == 0 {
            return Scanned {
                table: table,
                next: i,
            };
        }
        digit = x.digit;
        table = x.table;
        i = l.next;
    }
    Scanned {
        table: table,
        next: i,
    }
}

// One gate more: the one of a `.names` line, the constant 0 until rows come.
fn with_block(t: Session, text: &[u8], signals: &[Span], s: &[u8], at: usize) -> Session
    requires { Inside text.now signals.now × (at ≤ length s.now) × (length signals.now ≤ most_signals) × (t.m < most_gates) × (length (names (fields (drop at s.now))) ≤ most_fanins + 1) }
    ensures { result ≡ with_fanins t (map (place_in (names_at text.now signals.now)) (fanin_names (names (fields (drop at s.now))))) }
{
    let w = bliftext::word_from(s, at);
    let e = w.end;
    let k = blifline::less_one(bliftext::count(s, e));
    let m = t.m as usize;
    let f = t.fanins;
    let g = blifline::fanins(text, signals, s, e, k, f, GATE_PLACES * m);
    let mut u = t;
    u.m = t.m + 1;
    u.arity[m] = k as u8;
    u.fanins = g;
    u.loaded[m] = 0;
    u.current[m] = 0;
    u
}

// The same where the line passes its tests.
fn gate(t: Session, text: &[u8], signals: &[Span], s: &[u8], at: usize) -> Result<Session, Refusal>
    requires { Inside text.now signals.now × (at ≤ length s.now) × (length signals.now ≤ most_signals) × (t.m ≤ most_gates) }
    ensures { result ≡ gate_of (names_at text.now signals.now) t (fields (drop at s.now)) }
{
    blifline::block_test(text, signals, s, at, t.m as usize)?;
    let u = with_block(t, text, signals, s, at);
    Ok(u)
}

// What has been read behind a block: the network and the names of its signals, and the place of the next line.
#[derive(Drop)]
struct Drafted {
    session: Session,
    signals: [Span; MOST_SIGNALS],
    next: usize,
}

// One block: its `.names` line, then its rows.
fn block(text: &[u8], l: Line, t: Session, ns: [Span; MOST_SIGNALS]) -> Result<Drafted, Refusal>
    requires { LineIn text.now l × Fits text.now t ns }
    ensures { BlockRead text.now l t ns result }
{
    let h = l.end;
    let s = &text[0..h];
    let c = (t.n + t.m) as usize;
    let x = gate(t, text, &ns[0..c], s, l.at)?;
    let mut more = ns;
    more[c] = blifline::own(s, l.at);
    let g = t.m as usize;
    let y = rows(text, l.next, x.arity[g]);
    let mut u = x;
    u.loaded[g] = y.table;
    u.current[g] = y.table;
    Ok(Drafted {
        session: u,
        signals: more,
        next: y.next,
    })
}

// What follows the `.end` line: nothing.
fn rest(text: &[u8], at: usize, t: Session) -> Result<Session, Refusal>
    requires { at ≤ length text.now }
    ensures { result ≡ read_rest t (statements (drop at text.now)) }
{
    match bliftext::line_from(text, at) {
        Some(_) => Err(Refusal::OutsideSubset),
        None => Ok(t),
    }
}

// The `.end` line, whose words stand in s, and what follows it.
fn finish(
    text: &[u8],
    signals: &[Span],
    outputs: &[Span],
    s: &[u8],
    l: Line,
    t: Session,
) -> Result<Session, Refusal>
    requires { Inside text.now signals.now × Inside text.now outputs.now × (l.at ≤ length s.now) × (length outputs.now ≤ most_outputs) × (length signals.now ≤ most_signals) × (l.next ≤ length text.now) }
    ensures { result ≡ end_of (names_at text.now signals.now) (names_at text.now outputs.now) t (fields (drop l.at s.now)) (statements (drop l.next text.now)) }
{
    blifline::end_test(text, signals, outputs, s, l.at, t.m as usize)?;
    let o = t.outputs;
    let f = blifline::put_outputs(text, signals, outputs, o);
    let mut u = t;
    u.outputs = f;
    rest(text, l.next, u)
}

// The same by the line's place and those of the signals' names.
fn end(
    text: &[u8],
    l: Line,
    t: Session,
    ns: [Span; MOST_SIGNALS],
    outputs: &[Span],
) -> Result<Session, Refusal>
    requires { LineIn text.now l × Fits text.now t ns × Inside text.now outputs.now × (length outputs.now ≤ most_outputs) }
    ensures { result ≡ end_of (signals_at text.now t ns) (names_at text.now outputs.now) t (words_at text.now l) (statements (drop l.next text.now)) }
{
    let h = l.end;
    let c = (t.n + t.m) as usize;
    finish(text, &ns[0..c], outputs, &text[0..h], l, t)
}

// Blocks, then `.end`.
fn blocks(
    text: &[u8],
    at: usize,
    t: Session,
    ins: [Span; MOST_SIGNALS],
    outputs: &[Span],
) -> Result<Session, Refusal>
    requires { (at ≤ length text.now) × (t.m ≡ 0) × Fits text.now t ins × Inside text.now outputs.now × (length outputs.now ≤ most_outputs) }
    ensures { result ≡ read_blocks (draft_of (signals_at text.now t ins) (names_at text.now outputs.now) t [] 0) (statements (drop at text.now)) }
{
    let mut u = t;
    let mut ns = ins;
    let mut i = at;
    while let Some(l) = bliftext::line_from(text, i) {
        if opens(text, l, b".end") {
            return end(text, l, u, ns, outputs);
        }
        if !opens(text, l, b".names") {
            return Err(Refusal::OutsideSubset);
        }
        let b = block(text, l, u, ns)?;
        u = b.session;
        ns = b.signals;
        i = b.next;
    }
    Err(Refusal::OutsideSubset)
}

// A line of names: these by their places, their number, and the place of the next line.
#[derive(Drop)]
struct Listed {
    names: [Span; MOST_SIGNALS],
    count: usize,
    next: usize,
}

// The names of the line at `at`, which opens with the word and has at most so many.
fn names_line(text: &[u8], at: usize, word: &[u8], most: usize) -> Result<Listed, Refusal>
    requires { (at ≤ length text.now) × (most ≤ most_signals) }
    ensures { ListedAt text.now at word.now most result }
{
    let Some(l) = bliftext::line_from(text, at) else {
        return Err(Refusal::OutsideSubset);
    };
    let h = l.end;
    let s = &text[0..h];
    blifline::names_test(s, l.at, word, most)?;
    let x = bliftext::word_from(s, l.at);
    let e = x.end;
    let n = bliftext::count(s, e);
    let ns = blifline::names_at(s, e, n);
    Ok(Listed {
        names: ns,
        count: n,
        next: l.next,
    })
}

// The `.outputs` line, then the blocks; the first n names are those of the inputs.
fn outputs(text: &[u8], at: usize, ins: [Span; MOST_SIGNALS], n: usize) -> Result<Session, Refusal>
    requires { (at ≤ length text.now) × (n ≤ most_inputs) × Inside text.now (take n ins) }
    ensures { (ws : List Text) → Held text.now ins n ws → result ≡ read_outputs ws (statements (drop at text.now)) }
{
    let x = names_line(text, at, b".outputs", MOST_OUTPUTS)?;
    let p = x.count;
    let t = network::started(n as u8, 0, p as u8);
    blocks(text, x.next, t, ins, &x.names[0..p])
}

// The `.inputs` line, then the others.
fn inputs(text: &[u8], at: usize) -> Result<Session, Refusal>
    requires { at ≤ length text.now }
    ensures { result ≡ read_inputs (statements (drop at text.now)) }
{
    let x = names_line(text, at, b".inputs", MOST_INPUTS)?;
    outputs(text, x.next, x.names, x.count)
}

// Any bytes: the network of the text, with no open tables yet, or the refusal.
pub fn read(text: &[u8]) -> Result<Session, Refusal>
    ensures { result ≡ read_blif text.now }
{
    let Some(l) = bliftext::line_from(text, 0) else {
        return Err(Refusal::OutsideSubset);
    };
    let w = l.at;
    let h = l.end;
    let s = &text[0..h];
    blifline::model_test(s, w)?;
    inputs(text, l.next)
}
