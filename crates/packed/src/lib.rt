// Other languages: a session in lent words, one number to a word.
#![tactic(auto)]

ghost use Rattle.std.specs.Prelude.{◌≡◌, ℕ, ◌+◌, ◌<◌, ◌≤◌, ltb, length, get_or, set};
ghost use Rattle.std.proofs.lemmas.List.Edits.{sets};
ghost use Rattle.bits.specs.Range.{every};
ghost use Rattle.bits.specs.Lists.{overwritten};
ghost use Rattle.network.specs.Bounds.{most_gates};
ghost use Rattle.network.specs.Calls.{with_current};
ghost use Rattle.packed.specs.Packed.{bytes_held, words_held, packed_of, session_words, part, session_in, unpack_of, excluded_start, byte_words};

use network::{EXCLUDED_WORDS, FANIN_PLACES, MOST_GATES, MOST_OUTPUTS, Refusal, Session};

// Where each part of a session starts behind the three counts.
const ARITY_START: usize = 3;

const FANINS_START: usize = ARITY_START + MOST_GATES;

const OUTPUTS_START: usize = FANINS_START + FANIN_PLACES;

const EXCLUDED_START: usize = OUTPUTS_START + MOST_OUTPUTS;

const LOADED_START: usize = EXCLUDED_START + EXCLUDED_WORDS;

const CURRENT_START: usize = LOADED_START + MOST_GATES;

const OPEN_START: usize = CURRENT_START + MOST_GATES;

// How many words a session takes, and how many of them hold bytes.
pub const SESSION_WORDS: usize = OPEN_START + MOST_GATES;

const BYTE_WORDS: usize = EXCLUDED_START;

pub fn session_words() -> usize
    ensures { result ≡ session_words }
{
    SESSION_WORDS
}

// What a session holds in bytes.
fn pack_bytes(s: Session, words: &mut [u64])
    requires { session_words ≤ length words.old }
    ensures { words.new ≡ sets words.old 0 (bytes_held s) }
{
    let counts = [s.n, s.m, s.p];
    let arity = s.arity;
    let fanins = s.fanins;
    let outputs = s.outputs;
    buffer::lay_bytes(words, 0, &counts);
    buffer::lay_bytes(words, ARITY_START, &arity);
    buffer::lay_bytes(words, FANINS_START, &fanins);
    buffer::lay_bytes(words, OUTPUTS_START, &outputs);
}

// What it holds in words.
fn pack_words(s: Session, words: &mut [u64])
    requires { session_words ≤ length words.old }
    ensures { words.new ≡ sets words.old excluded_start (words_held s) }
{
    let excluded = s.excluded;
    let loaded = s.loaded;
    let current = s.current;
    let opens = s.open_tables;
    buffer::lay_words(words, EXCLUDED_START, &excluded);
    buffer::lay_words(words, LOADED_START, &loaded);
    buffer::lay_words(words, CURRENT_START, &current);
    buffer::lay_words(words, OPEN_START, &opens);
}

// The session from the start of the words; the words behind it stay.
pub fn pack(s: Session, words: &mut [u64])
    requires { session_words ≤ length words.old }
    ensures { words.new ≡ overwritten (packed_of s) words.old }
{
    pack_bytes(s, words);
    pack_words(s, words);
}

// In words that hold a session, gate g's current table is set: as if the session were packed with it, but one word is written.
pub fn set_current(words: &mut [u64], g: usize, table: u64)
    requires { (session_words ≤ length words.old) × (g < most_gates) }
    ensures { words.new ≡ overwritten (packed_of (with_current (session_in words.old) (set (session_in words.old).current g table))) words.old }
{
    words[CURRENT_START + g] = table;
}

// Whether each of the first c words fits in a byte.
fn fit(words: &[u64], c: usize) -> bool
    requires { c ≤ length words.now }
    ensures { result ≡ every c (λ i. ltb (get_or words.now i 0) 256) }
{
    let mut acc: u64 = 0;
    for i in 0..c {
        acc |= words[i];
    }
    acc < 256
}

// The words from place at on, as many as there is room for: numbers below 256 as bytes, or as they are.
fn read_bytes(words: &[u64], at: usize, bytes: &mut [u8])
    requires bytes_in_bounds { at + length bytes.old ≤ length words.now }
    requires by_index { (i : ℕ) → i < length bytes.old → get_or words.now (at + i) 0 < 256 }
    ensures { bytes.new ≡ part words.now at (length bytes.old) }
{
    for (i, b) in bytes.iter_mut().enumerate() {
        *b = words[at + i] as u8;
    }
}

fn read_words(words: &[u64], at: usize, new: &mut [u64])
    requires { at + length new.old ≤ length words.now }
    ensures { new.new ≡ part words.now at (length new.old) }
{
    let end = at + new.len();
    new.copy_from_slice(&words[at..end]);
}

// The session that words hold, where each of those that hold bytes fits in one.
fn session_in(words: &[u64]) -> Session
    requires session_words_in_bounds { session_words ≤ length words.now }
    requires by_index { (i : ℕ) → i < byte_words → get_or words.now i 0 < 256 }
    ensures { result ≡ session_in words.now }
{
    let mut arity = [0u8; MOST_GATES];
    let mut fanins = [0u8; FANIN_PLACES];
    let mut outputs = [0u8; MOST_OUTPUTS];
    let mut excluded = [0u64; EXCLUDED_WORDS];
    let mut loaded = [0u64; MOST_GATES];
    let mut current = [0u64; MOST_GATES];
    let mut opens = [0u64; MOST_GATES];
    read_bytes(words, ARITY_START, &mut arity);
    read_bytes(words, FANINS_START, &mut fanins);
    read_bytes(words, OUTPUTS_START, &mut outputs);
    read_words(words, EXCLUDED_START, &mut excluded);
    read_words(words, LOADED_START, &mut loaded);
    read_words(words, CURRENT_START, &mut current);
    read_words(words, OPEN_START, &mut opens);
    Session {
        n: words[0] as u8,
        m: words[1] as u8,
        p: words[2] as u8,
        excluded: excluded,
        arity: arity,
        fanins: fanins,
        loaded: loaded,
        current: current,
        open_tables: opens,
        outputs: outputs,
    }
}

// The session that any words hold, or 9 or 10.
pub fn unpack(words: &[u64]) -> Result<Session, Refusal>
    ensures { result ≡ unpack_of words.now }
{
    if words.len() < SESSION_WORDS {
        return Err(Refusal::BufferTooShort);
    }
    if !fit(words, BYTE_WORDS) {
        return Err(Refusal::InvalidState);
    }
    let s = session_in(words);
    state::state_test(s)?;
    Ok(s)
}
