// Other languages: the names that the library exports, each one call of a crate above with the same contract.
// A slice is passed as a pointer and a length. None has a `requires`.
// Each returns the number of its refusal, or 0; a refusal changes nothing but the values that it names in `out`.
#![tactic(auto)]

ghost use Rattle.std.specs.Prelude.{◌≡◌, []};
ghost use Rattle.packed.specs.Packed.{session_words};
ghost use Rattle.promises.specs.Boundary.{load_call, read_blif_call, listing_call, tables_call, all_tables_call, pattern_sets_call, hidden_call, verdict_call, exchange_call, write_call, write_blif_call};

// The words that a session takes.
#[unsafe(no_mangle)]
pub extern "C" fn tusqirma_session_words() -> usize
    ensures { result ≡ session_words }
{
    packed::session_words()
}

// A session from a file.
#[unsafe(no_mangle)]
pub extern "C" fn tusqirma_load(file: &[u8], session: &mut [u64]) -> u64
    ensures { record { number = result; buffer = session.new; out = [] } ≡ load_call file.now session.old }
{
    filecalls::load(file, session)
}

// The SDC, CDC, full and open table of a gate.
#[unsafe(no_mangle)]
pub extern "C" fn tusqirma_tables(session: &[u64], gate: usize, out: &mut [u64]) -> u64
    ensures { record { number = result; buffer = []; out = out.new } ≡ tables_call session.now gate out.old }
{
    gatecalls::tables(session, gate, out)
}

// The ODC and the compatible set of each gate.
#[unsafe(no_mangle)]
pub extern "C" fn tusqirma_pattern_sets(session: &[u64], words: &mut [u64]) -> u64
    ensures { record { number = result; buffer = words.new; out = [] } ≡ pattern_sets_call session.now words.old }
{
    gatecalls::pattern_sets(session, words)
}

// Harm that the gates do with these tables, all of them in place.
#[unsafe(no_mangle)]
pub extern "C" fn tusqirma_verdict(
    session: &[u64],
    gates: &[u64],
    tables: &[u64],
    out: &mut [u64],
) -> u64
    ensures { record { number = result; buffer = []; out = out.new } ≡ verdict_call session.now gates.now tables.now out.old }
{
    changecalls::verdict(session, gates, tables, out)
}

// Sets a gate's current table.
#[unsafe(no_mangle)]
pub extern "C" fn tusqirma_exchange(
    session: &mut [u64],
    gate: usize,
    table: u64,
    out: &mut [u64],
) -> u64
    ensures { record { number = result; buffer = session.new; out = out.new } ≡ exchange_call session.old (record { signal = gate; table = table }) out.old }
{
    changecalls::exchange(session, gate, table, out)
}

// The file's bytes, and its length.
#[unsafe(no_mangle)]
pub extern "C" fn tusqirma_write(session: &[u64], file: &mut [u8], out: &mut [u64]) -> u64
    ensures { record { number = result; buffer = file.new; out = out.new } ≡ write_call session.now file.old out.old }
{
    filecalls::write(session, file, out)
}

// The listing's text, and its length.
#[unsafe(no_mangle)]
pub extern "C" fn tusqirma_listing(file: &[u8], text: &mut [u8], out: &mut [u64]) -> u64
    ensures { record { number = result; buffer = text.new; out = out.new } ≡ listing_call file.now text.old out.old }
{
    filecalls::listing(file, text, out)
}

// The number of patterns in the compatible set of each gate.
#[unsafe(no_mangle)]
pub extern "C" fn tusqirma_hidden(session: &[u64], out: &mut [u64]) -> u64
    ensures { record { number = result; buffer = []; out = out.new } ≡ hidden_call session.now out.old }
{
    gatecalls::hidden(session, out)
}

// The SDC, CDC, full and open table of every gate.
#[unsafe(no_mangle)]
pub extern "C" fn tusqirma_all_tables(session: &[u64], out: &mut [u64]) -> u64
    ensures { record { number = result; buffer = []; out = out.new } ≡ all_tables_call session.now out.old }
{
    gatecalls::all_tables(session, out)
}

// A session from a BLIF text.
#[unsafe(no_mangle)]
pub extern "C" fn tusqirma_read_blif(text: &[u8], session: &mut [u64]) -> u64
    ensures { record { number = result; buffer = session.new; out = [] } ≡ read_blif_call text.now session.old }
{
    blifcalls::read_blif(text, session)
}

// The BLIF text, and its length.
#[unsafe(no_mangle)]
pub extern "C" fn tusqirma_write_blif(session: &[u64], text: &mut [u8], out: &mut [u64]) -> u64
    ensures { record { number = result; buffer = text.new; out = out.new } ≡ write_blif_call session.now text.old out.old }
{
    blifcalls::write_blif(session, text, out)
}
