// The calls on a session: refusal 10 and then the call in a valid session. None has a `requires`: whatever is passed, a call gives what its
// definition says, refusals included.
#![tactic(auto)]

ghost use Rattle.std.specs.Prelude.{◌≡◌};
ghost use Rattle.network.specs.Calls.{exchange_answer, exchange_of, verdict_of, tables_of, pattern_sets_of, counts_of, written_of};
ghost use Rattle.blif.specs.Write.{write_blif_of};

use network::{MOST_GATES, Refusal, Session, Tables};

// What an exchange is answered: 10, then as in a valid session.
fn exchange_answer(s: Session, gate: usize, table: u64) -> Result<(), Refusal>
    ensures { result ≡ exchange_answer s (record { signal = gate; table = table }) }
{
    state::state_test(s)?;
    answers::exchange(s, gate, table)
}

// Sets a gate's current table, where the session's compatible sets leave it free.
pub fn exchange(s: Session, gate: usize, table: u64) -> Result<Session, Refusal>
    ensures { result ≡ exchange_of s (record { signal = gate; table = table }) }
{
    exchange_answer(s, gate, table)?;
    let n = s.n as usize;
    let g = gate - n;
    let mut t = s;
    t.current[g] = table;
    Ok(t)
}

// Of the current network with all of the gates replaced, each by its table, against the loaded outputs.
pub fn verdict(s: Session, gates: &[u64], tables: &[u64]) -> Result<(), Refusal>
    ensures { result ≡ verdict_of s gates.now tables.now }
{
    state::state_test(s)?;
    answers::verdict(s, gates, tables)
}

// The SDC, CDC, full and open table of a gate.
pub fn tables(s: Session, gate: usize) -> Result<Tables, Refusal>
    ensures { result ≡ tables_of s gate }
{
    state::state_test(s)?;
    answers::tables(s, gate)
}

// The ODC and the compatible set of each gate, gate after gate from the start of the buffer; the words after the last stay.
pub fn pattern_sets(s: Session, buf: &mut [u64]) -> Result<(), Refusal>
    ensures { record { answer = result; buffer = buf.new } ≡ pattern_sets_of s buf.old }
{
    state::state_test(s)?;
    answers::pattern_sets(s, buf)
}

// The number of patterns in the compatible set of each gate.
pub fn counts(s: Session) -> Result<[u16; MOST_GATES], Refusal>
    ensures { result ≡ counts_of s }
{
    state::state_test(s)?;
    Ok(answers::counts(s))
}

// The file's bytes from the start of the buffer, with the length; the rest of the buffer stays.
pub fn write(s: Session, buf: &mut [u8]) -> Result<usize, Refusal>
    ensures { record { answer = result; buffer = buf.new } ≡ written_of s buf.old }
{
    state::state_test(s)?;
    answers::write(s, buf)
}

// The network with its current tables as BLIF text from the start of the buffer, with the length; the rest of the buffer stays.
pub fn write_blif(s: Session, buf: &mut [u8]) -> Result<usize, Refusal>
    ensures { record { answer = result; buffer = buf.new } ≡ write_blif_of s buf.old }
{
    state::state_test(s)?;
    blifwrite::write(s, buf)
}
