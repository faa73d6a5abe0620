// Load, and a BLIF text read: a session with its open tables, or no state. Neither has a `requires`: whatever is passed, a call gives what its
// definition says, refusals included.
#![tactic(auto)]

ghost use Rattle.std.specs.Prelude.{◌≡◌};
ghost use Rattle.network.specs.Answer.{Done};
ghost use Rattle.network.specs.State.{state_fault};
ghost use Rattle.network.specs.Load.{load_of, with_open_tables, opened};
ghost use Rattle.network.specs.Calls.{pattern_counts};
ghost use Rattle.blif.specs.Read.{read_blif_of};
ghost use Rattle.loading.specs.Counted.{counted_of};

use network::{MOST_GATES, Refusal, Session};

// A session with these open tables.
fn with_open_tables(s: Session, opens: [u64; MOST_GATES]) -> Session
    ensures { result ≡ with_open_tables s opens }
{
    let mut u = s;
    u.open_tables = opens;
    u
}

// The session of a network that was read, with the open tables of its gates.
fn opened(s: Session) -> Session
    requires { state_fault s ≡ Done }
    ensures { result ≡ opened s }
{
    let opens = opentables::open_tables(s);
    with_open_tables(s, opens)
}

// Any bytes: a session with the network of the file, or no state.
pub fn load(bytes: &[u8]) -> Result<Session, Refusal>
    ensures { result ≡ load_of bytes.now }
{
    let s = netread::read(bytes)?;
    Ok(opened(s))
}

// Any bytes: a session with the network of the BLIF text and nothing excluded, or no state.
pub fn read_blif(text: &[u8]) -> Result<Session, Refusal>
    ensures { result ≡ read_blif_of text.now }
{
    let s = blifread::read(text)?;
    Ok(opened(s))
}

// A session that was loaded, and the number of patterns in the compatible set of each gate.
#[derive(Clone, Copy)]
pub struct Counted {
    pub session: Session,
    pub counts: [u16; MOST_GATES],
}

// As `opened`, with the counts: both from one computation of the compatible sets.
fn with_counts(s: Session) -> Counted
    requires { state_fault s ≡ Done }
    ensures { result ≡ record { session = opened s; counts = pattern_counts s } }
{
    let b = opentables::open_and_counts(s);
    let opens = b.opens;
    let counts = b.counts;
    let session = with_open_tables(s, opens);
    Counted { session, counts }
}

// As `load`, with what `counts` gives of the session.
pub fn load_counted(bytes: &[u8]) -> Result<Counted, Refusal>
    ensures { result ≡ counted_of bytes.now }
{
    let s = netread::read(bytes)?;
    Ok(with_counts(s))
}
