// Other languages: the calls that tell what the gates of a session have: tables, pattern sets, counts.
#![tactic(auto)]

ghost use Rattle.std.specs.Prelude.{◌≡◌, []};
ghost use Rattle.promises.specs.Boundary.{number_for, tables_call, all_tables_call, pattern_sets_call, hidden_call};

use boundary::TABLES_ROOM;
use network::Refusal;

fn try_tables(session: &[u64], gate: usize, out: &mut [u64]) -> Result<(), Refusal>
    ensures { record { number = number_for result; buffer = []; out = out.new } ≡ tables_call session.now gate out.old }
{
    let s = packed::unpack(session)?;
    boundary::room(out.len(), TABLES_ROOM)?;
    let t = answers::tables(s, gate)?;
    let d = t.sdc;
    let row = [d.low, d.high, t.cdc, t.full, t.open_table];
    boundary::give(&row, out);
    Ok(())
}

// The SDC, CDC, full and open table of a gate.
pub fn tables(session: &[u64], gate: usize, out: &mut [u64]) -> u64
    ensures { record { number = result; buffer = []; out = out.new } ≡ tables_call session.now gate out.old }
{
    boundary::number(try_tables(session, gate, out))
}

fn try_all_tables(session: &[u64], out: &mut [u64]) -> Result<(), Refusal>
    ensures { record { number = number_for result; buffer = []; out = out.new } ≡ all_tables_call session.now out.old }
{
    let s = packed::unpack(session)?;
    boundary::room(out.len(), TABLES_ROOM * (s.m as usize))?;
    boundary::put_tables(s, out);
    Ok(())
}

// The SDC, CDC, full and open table of every gate.
pub fn all_tables(session: &[u64], out: &mut [u64]) -> u64
    ensures { record { number = result; buffer = []; out = out.new } ≡ all_tables_call session.now out.old }
{
    boundary::number(try_all_tables(session, out))
}

fn try_pattern_sets(session: &[u64], words: &mut [u64]) -> Result<(), Refusal>
    ensures { record { number = number_for result; buffer = words.new; out = [] } ≡ pattern_sets_call session.now words.old }
{
    answers::pattern_sets(packed::unpack(session)?, words)
}

// The ODC and the compatible set of each gate.
pub fn pattern_sets(session: &[u64], words: &mut [u64]) -> u64
    ensures { record { number = result; buffer = words.new; out = [] } ≡ pattern_sets_call session.now words.old }
{
    boundary::number(try_pattern_sets(session, words))
}

fn try_hidden(session: &[u64], out: &mut [u64]) -> Result<(), Refusal>
    ensures { record { number = number_for result; buffer = []; out = out.new } ≡ hidden_call session.now out.old }
{
    let s = packed::unpack(session)?;
    let m = s.m as usize;
    boundary::room(out.len(), m)?;
    let counts = answers::counts(s);
    boundary::put_counts(&counts[0..m], out);
    Ok(())
}

// The number of patterns in the compatible set of each gate.
pub fn hidden(session: &[u64], out: &mut [u64]) -> u64
    ensures { record { number = result; buffer = []; out = out.new } ≡ hidden_call session.now out.old }
{
    boundary::number(try_hidden(session, out))
}
