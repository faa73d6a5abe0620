// Other languages: the calls on a file. A session from its bytes, its bytes from a session, its listing.
#![tactic(auto)]

ghost use Rattle.std.specs.Prelude.{◌≡◌, []};
ghost use Rattle.promises.specs.Boundary.{number_for, load_call, write_call, listing_call};

use network::Refusal;

// A session from a file.
pub fn load(file: &[u8], session: &mut [u64]) -> u64
    ensures { record { number = result; buffer = session.new; out = [] } ≡ load_call file.now session.old }
{
    boundary::put_read(loading::load(file), session)
}

fn try_write(session: &[u64], file: &mut [u8], out: &mut [u64]) -> Result<(), Refusal>
    ensures { record { number = number_for result; buffer = file.new; out = out.new } ≡ write_call session.now file.old out.old }
{
    let s = packed::unpack(session)?;
    boundary::room(out.len(), 1)?;
    let n = answers::write(s, file)?;
    let size = [n as u64];
    boundary::give(&size, out);
    Ok(())
}

// The file's bytes, and its length.
pub fn write(session: &[u64], file: &mut [u8], out: &mut [u64]) -> u64
    ensures { record { number = result; buffer = file.new; out = out.new } ≡ write_call session.now file.old out.old }
{
    boundary::number(try_write(session, file, out))
}

fn try_listing(file: &[u8], text: &mut [u8], out: &mut [u64]) -> Result<(), Refusal>
    ensures { record { number = number_for result; buffer = text.new; out = out.new } ≡ listing_call file.now text.old out.old }
{
    let lent = out.len();
    boundary::room(lent, 1)?;
    let n = render::listing(file, text)?;
    let length = [n as u64];
    boundary::give(&length, out);
    Ok(())
}

// The listing's text, and its length.
pub fn listing(file: &[u8], text: &mut [u8], out: &mut [u64]) -> u64
    ensures { record { number = result; buffer = text.new; out = out.new } ≡ listing_call file.now text.old out.old }
{
    boundary::number(try_listing(file, text, out))
}
