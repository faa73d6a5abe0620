// Other languages: what the calls share.
#![tactic(auto)]

ghost use Rattle.std.specs.Prelude.{◌≡◌, [], ◌∷◌, ◌*◌, ◌≤◌, ltb, length};
ghost use Rattle.bits.specs.Lists.{overwritten};
ghost use Rattle.network.specs.Answer.{Done, answer_of};
ghost use Rattle.network.specs.declared.Refusal.TheVariants.{BufferTooShort};
ghost use Rattle.network.specs.Refusals.{number_of, values_of};
ghost use Rattle.network.specs.Tests.{refuse_if};
ghost use Rattle.network.specs.State.{state_fault};
ghost use Rattle.promises.specs.Boundary.{values_for, number_for, read_call, all_table_words, tables_room};

use network::{Refusal, Session};

// Values at the start of `out`; the words behind them stay.
pub fn give(values: &[u64], out: &mut [u64])
    requires { length values.now ≤ length out.old }
    ensures { out.new ≡ overwritten values.now out.old }
{
    buffer::lay_words(out, 0, values);
}

// Counts at the start of `out`, one to a word; the words behind them stay.
pub fn put_counts(counts: &[u16], out: &mut [u64])
    requires { length counts.now ≤ length out.old }
    ensures { out.new ≡ overwritten counts.now out.old }
{
    for (i, c) in counts.iter().enumerate() {
        out[i] = u64::from(*c);
    }
}

// What a refusal names goes to the start of `out`; its number is given back.
pub fn tell_refusal(r: Refusal, out: &mut [u64]) -> u64
    requires { length (values_of r) ≤ length out.old }
    ensures { (result ≡ number_of r) × (out.new ≡ overwritten (values_of r) out.old) }
{
    let t = network::told(r);
    let count = t.1;
    let values = t.2;
    give(&values[0..count], out);
    t.0
}

// The number that a call returns: 0, or its refusal's.
pub fn number(a: Result<(), Refusal>) -> u64
    ensures { result ≡ number_for a }
{
    match a {
        Ok(()) => 0,
        Err(r) => network::number_of(r),
    }
}

// 9 where fewer places are lent than needed.
pub fn room(lent: usize, needed: usize) -> Result<(), Refusal>
    ensures { result ≡ refuse_if (ltb lent needed) BufferTooShort }
{
    if lent < needed {
        return Err(Refusal::BufferTooShort);
    }
    Ok(())
}

fn try_put_read(l: Result<Session, Refusal>, session: &mut [u64]) -> Result<(), Refusal>
    requires { values_for (answer_of l) [] ≡ [] }
    ensures { record { number = number_for result; buffer = session.new; out = [] } ≡ read_call l session.old }
{
    let s = l?;
    room(session.len(), packed::SESSION_WORDS)?;
    packed::pack(s, session);
    Ok(())
}

// What was read into the words of a session, where no refusal of it names a value.
pub fn put_read(l: Result<Session, Refusal>, session: &mut [u64]) -> u64
    requires { values_for (answer_of l) [] ≡ [] }
    ensures { record { number = result; buffer = session.new; out = [] } ≡ read_call l session.old }
{
    number(try_put_read(l, session))
}

// The words of a gate's tables: SDC, which takes two, CDC, full and open.
pub const TABLES_ROOM: usize = 5;

// The tables of each gate of a session, gate after gate.
pub fn put_tables(s: Session, out: &mut [u64])
    requires { (state_fault s ≡ Done) × (tables_room * s.m ≤ length out.old) }
    ensures { out.new ≡ overwritten (all_table_words s s.m) out.old }
{
    let m = usize::from(s.m);
    let t = dontcares::all_tables(s);
    let opens = s.open_tables;
    let cdc = t.cdc;
    let full = t.full;
    for g in 0..m {
        let d = dontcares::sdc(s, g);
        let row = [d.low, d.high, cdc[g], full[g], opens[g]];
        buffer::lay_words(out, TABLES_ROOM * g, &row);
    }
}
