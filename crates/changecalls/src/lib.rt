// Other languages: the calls on replacements: the verdict on a list of them, and the exchange of one.
#![tactic(auto)]

ghost use Rattle.std.specs.Prelude.{◌≡◌, [], ◌∷◌, ◌-◌};
ghost use Rattle.network.specs.Answer.{giving};
ghost use Rattle.network.specs.Tests.{first};
ghost use Rattle.network.specs.Calls.{room_test, exchange_answer, verdict_of};
ghost use Rattle.packed.specs.Packed.{session_in, words_test};
ghost use Rattle.promises.specs.Boundary.{verdict_call, exchange_call};

use network::Refusal;

// The verdict, where the words hold a session and `out` has room for what harm names.
fn try_verdict(session: &[u64], gates: &[u64], tables: &[u64], out: &[u64]) -> Result<(), Refusal>
    ensures { result ≡ first (words_test session.now ∷ room_test 2 out.now ∷ verdict_of (session_in session.now) gates.now tables.now ∷ []) }
{
    let s = packed::unpack(session)?;
    boundary::room(out.len(), 2)?;
    answers::verdict(s, gates, tables)
}

// Harm that the gates do with these tables, all of them in place.
pub fn verdict(session: &[u64], gates: &[u64], tables: &[u64], out: &mut [u64]) -> u64
    ensures { record { number = result; buffer = []; out = out.new } ≡ verdict_call session.now gates.now tables.now out.old }
{
    match try_verdict(session, gates, tables, out) {
        Ok(()) => 0,
        Err(r) => boundary::tell_refusal(r, out),
    }
}

// Which gate gets the table, by its place among the gates, where the words hold a session and `out` has room for the entry that is named.
fn try_exchange(session: &[u64], gate: usize, table: u64, out: &[u64]) -> Result<usize, Refusal>
    ensures { result ≡ giving (first (words_test session.now ∷ room_test 1 out.now ∷ exchange_answer (session_in session.now) (record { signal = gate; table = table }) ∷ [])) (gate - (session_in session.now).n) }
{
    let s = packed::unpack(session)?;
    boundary::room(out.len(), 1)?;
    answers::exchange(s, gate, table)?;
    let n = s.n as usize;
    Ok(gate - n)
}

// Sets a gate's current table.
pub fn exchange(session: &mut [u64], gate: usize, table: u64, out: &mut [u64]) -> u64
    ensures { record { number = result; buffer = session.new; out = out.new } ≡ exchange_call session.old (record { signal = gate; table = table }) out.old }
{
    match try_exchange(session, gate, table, out) {
        Ok(g) => {
            packed::set_current(session, g, table);
            0
        }
        Err(r) => boundary::tell_refusal(r, out),
    }
}
