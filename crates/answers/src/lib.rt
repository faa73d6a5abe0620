// The calls, in a session that is valid: what `engine` does after refusal 10, and a call for other languages after unpacking.
// Callers test the session.
#![tactic(auto)]

ghost use Rattle.std.specs.Prelude.{◌≡◌, Ok, not, ◌&&◌, [], ◌∷◌, ◌^◌, ◌≤◌, length};
ghost use Rattle.bits.specs.Range.{smallest};
ghost use Rattle.bits.specs.Bit.{bit, differs};
ghost use Rattle.network.specs.Answer.{Done};
ghost use Rattle.network.specs.Bounds.{most_fanins};
ghost use Rattle.network.specs.Flat.{loaded_net};
ghost use Rattle.network.specs.Tests.{first};
ghost use Rattle.network.specs.State.{state_fault, state_test};
ghost use Rattle.network.specs.Calls.{gate_test, table_test, entry_found, exchange_answer, pairs, refused_at, verdict_of, tables_of, pattern_sets_of, counts_of, written_of};

use network::{MOST_GATES, Refusal, Session, Tables};

// The lowest entry of k fan-ins' tables that differs and is not open.
fn first_closed(k: u8, loaded: u64, table: u64, opens: u64) -> Result<(), Refusal>
    requires { k ≤ most_fanins }
    ensures { result ≡ entry_found (smallest (2 ^ k) (λ t. not (bit opens t) && differs (bit loaded t) (bit table t))) }
{
    let entries = entries::entry_count(usize::from(k));
    let altered = (loaded ^ table) & (bits::complement(opens) & bits::mask(entries));
    if altered == 0 {
        return Ok(());
    }
    let t = bits::lowest_bit(altered);
    Err(Refusal::ClosedEntry(t as usize))
}

// Refusal 11: no gate has that signal number.
fn gate_test(s: Session, gate: usize) -> Result<(), Refusal>
    requires { state_fault s ≡ Done }
    ensures { result ≡ first (state_test s ∷ gate_test (loaded_net s) gate ∷ []) }
{
    let n = usize::from(s.n);
    let m = usize::from(s.m);
    if replacements::is_gate(n, m, gate) {
        return Ok(());
    }
    Err(Refusal::NotAGate)
}

// Refusal 11, then 12: a pair with none before it.
fn replacement_test(s: Session, gate: usize, table: u64) -> Result<(), Refusal>
    requires { state_fault s ≡ Done }
    ensures { result ≡ first (state_test s ∷ gate_test (loaded_net s) gate ∷ table_test (loaded_net s) (record { signal = gate; table = table }) ∷ []) }
{
    let n = usize::from(s.n);
    let m = usize::from(s.m);
    let arity = s.arity;
    replacements::pair_test(n, m, &arity, 0, gate, table)
}

// What an exchange is answered: the first of 11 to 13 that applies.
pub fn exchange(s: Session, gate: usize, table: u64) -> Result<(), Refusal>
    requires { state_fault s ≡ Done }
    ensures { result ≡ exchange_answer s (record { signal = gate; table = table }) }
{
    replacement_test(s, gate, table)?;
    let n = usize::from(s.n);
    let g = gate - n;
    let k = s.arity[g];
    let loaded = s.loaded[g];
    let opens = s.open_tables[g];
    first_closed(k, loaded, table, opens)
}

// The verdict on a list of gates with a list of tables, as one replacement: 15, the pairs in order, then 14.
pub fn verdict(s: Session, gates: &[u64], tables: &[u64]) -> Result<(), Refusal>
    requires { state_fault s ≡ Done }
    ensures { result ≡ verdict_of s gates.now tables.now }
{
    if gates.len() != tables.len() {
        return Err(Refusal::ListsUnequal);
    }
    let n = usize::from(s.n);
    let m = usize::from(s.m);
    let arity = s.arity;
    replacements::pairs_test(n, m, &arity, gates, tables).map_err(|e| e.refusal)?;
    let current = s.current;
    let all = replacements::replace_tables(n, current, gates, tables);
    verdict::harm(s, all)
}

// How many pairs stand before the first that a verdict refuses.
pub fn refused_at(s: Session, gates: &[u64], tables: &[u64]) -> usize
    requires s_value { state_fault s ≡ Done }
    requires gates_len { length gates.now ≡ length tables.now }
    ensures { result ≡ refused_at (loaded_net s) [] (pairs gates.now tables.now) }
{
    let n = usize::from(s.n);
    let m = usize::from(s.m);
    let arity = s.arity;
    match replacements::pairs_test(n, m, &arity, gates, tables) {
        Ok(()) => gates.len(),
        Err(e) => e.pair,
    }
}

// The SDC, CDC, full and open table of a gate, or 11.
pub fn tables(s: Session, gate: usize) -> Result<Tables, Refusal>
    requires { state_fault s ≡ Done }
    ensures { result ≡ tables_of s gate }
{
    gate_test(s, gate)?;
    let n = usize::from(s.n);
    let g = gate - n;
    let t = dontcares::gate_tables(s, g);
    let d = dontcares::sdc(s, g);
    Ok(Tables {
        sdc: d,
        cdc: t.cdc,
        full: t.full,
        open_table: s.open_tables[g],
    })
}

// The ODC and the compatible set of each gate, gate after gate from the start of the buffer, or 9; the words after the last stay.
pub fn pattern_sets(s: Session, buf: &mut [u64]) -> Result<(), Refusal>
    requires { state_fault s ≡ Done }
    ensures { record { answer = result; buffer = buf.new } ≡ pattern_sets_of s buf.old }
{
    if buf.len() < patternsets::words_needed(s) {
        return Err(Refusal::BufferTooShort);
    }
    patternsets::fill(s, buf);
    Ok(())
}

// The number of patterns in the compatible set of each gate.
pub fn counts(s: Session) -> [u16; MOST_GATES]
    requires { state_fault s ≡ Done }
    ensures { Ok result ≡ counts_of s }
{
    compatible::counts(s)
}

// The file's bytes from the start of the buffer, with the length, or 9; the rest of the buffer stays.
pub fn write(s: Session, buf: &mut [u8]) -> Result<usize, Refusal>
    requires { state_fault s ≡ Done }
    ensures { record { answer = result; buffer = buf.new } ≡ written_of s buf.old }
{
    if buf.len() < netwrite::bytes_needed(s) {
        return Err(Refusal::BufferTooShort);
    }
    Ok(netwrite::write_bytes(s, buf))
}
