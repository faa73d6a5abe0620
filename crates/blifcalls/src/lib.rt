// Other languages: the calls on a BLIF text. A session from a text, and the text of a session.
#![tactic(auto)]

ghost use Rattle.std.specs.Prelude.{◌≡◌, []};
ghost use Rattle.promises.specs.Boundary.{number_for, read_blif_call, write_blif_call};

use network::Refusal;

// A session from a text.
pub fn read_blif(text: &[u8], session: &mut [u64]) -> u64
    ensures { record { number = result; buffer = session.new; out = [] } ≡ read_blif_call text.now session.old }
{
    boundary::put_read(loading::read_blif(text), session)
}

// The copies are counted before `out` is asked for.
fn try_write_blif(session: &[u64], text: &mut [u8], out: &mut [u64]) -> Result<(), Refusal>
    ensures { record { number = number_for result; buffer = text.new; out = out.new } ≡ write_blif_call session.now text.old out.old }
{
    let s = packed::unpack(session)?;
    blifcopies::copies_test(s)?;
    boundary::room(out.len(), 1)?;
    let n = blifwrite::write(s, text)?;
    let size = [n as u64];
    boundary::give(&size, out);
    Ok(())
}

// The text, and its length.
pub fn write_blif(session: &[u64], text: &mut [u8], out: &mut [u64]) -> u64
    ensures { record { number = result; buffer = text.new; out = out.new } ≡ write_blif_call session.now text.old out.old }
{
    boundary::number(try_write_blif(session, text, out))
}
