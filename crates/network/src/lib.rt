// The specification: the session type, and in specs/ the definitions of 01: values, rules 1 to 7, file, calls, lists of exchanges.
#![tactic(auto)]

ghost use Rattle.std.specs.Prelude.{◌≡◌, ◌≤◌};
ghost use Rattle.bits.specs.Bounds.{most_inputs};
ghost use Rattle.network.specs.Bounds.{most_set_bytes};
ghost use Rattle.network.specs.Load.{set_bytes};
ghost use Rattle.network.specs.Load as file;
ghost use Rattle.network.specs.Refusals.{number_of, Tells};

use bits::{GATE_PLACES, MOST_INPUTS, ROW_WORDS};

// The bounds of m, p and k, and the most signals and, in one table, entries.
pub const MOST_GATES: usize = 40;

pub const MOST_OUTPUTS: usize = 8;

pub const MOST_FANINS: usize = 6;

pub const MOST_SIGNALS: usize = MOST_INPUTS + MOST_GATES;

pub const MOST_ENTRIES: usize = 1 << MOST_FANINS;

// The places for the fan-ins of all gates; the excluded words of a session; the words of a row for each signal, and for each gate.
pub const FANIN_PLACES: usize = MOST_GATES * GATE_PLACES;

pub const EXCLUDED_WORDS: usize = ROW_WORDS;

pub const SIGNAL_WORDS: usize = MOST_SIGNALS * ROW_WORDS;

pub const GATE_WORDS: usize = MOST_GATES * ROW_WORDS;

// The two forms of a gate's record: the bounds of k, and how many bytes the table has; MOST_FANINS ends the wide one.
pub const NARROW_LEAST: usize = 1;

pub const NARROW_MOST: usize = 4;

pub const NARROW_BYTES: usize = 2;

pub const WIDE_LEAST: usize = 5;

pub const WIDE_BYTES: usize = 8;

// The most bytes of a set of patterns, of a gate's record, and of a file.
pub const MOST_SET_BYTES: usize = (1 << MOST_INPUTS) / 8;

pub const MOST_GATE_BYTES: usize = 3 + MOST_FANINS + WIDE_BYTES;

pub const MOST_FILE_BYTES: usize = 5
    + (2 + MOST_SET_BYTES)
    + MOST_GATES * MOST_GATE_BYTES
    + 3 * MOST_OUTPUTS;

// The first bytes of a file that decide what it loads to: one more than any file has that loads.
pub const DECIDING_BYTES: usize = MOST_FILE_BYTES + 1;

// A session: the loaded and the current network in flat arrays, and the open tables that the load gave.
// Gate g has its fan-ins at places GATE_PLACES * g and on; a table has entry t at bit t.
// A one in the excluded set means that the pattern never comes.
#[derive(Clone, Copy)]
pub struct Session {
    pub n: u8,
    pub m: u8,
    pub p: u8,
    pub excluded: [u64; EXCLUDED_WORDS],
    pub arity: [u8; MOST_GATES],
    pub fanins: [u8; FANIN_PLACES],
    pub loaded: [u64; MOST_GATES],
    pub current: [u64; MOST_GATES],
    pub open_tables: [u64; MOST_GATES],
    pub outputs: [u8; MOST_OUTPUTS],
}

// Why a call is refused, in the order of the numbers 1 to 18.
#[derive(Clone, Copy)]
pub enum Refusal {
    Truncated,
    UnexpectedMark,
    OutOfBounds,
    FaninNotEarlier,
    FaninRepeated,
    BitPastEnd,
    NotASignal,
    TrailingBytes,
    BufferTooShort,
    InvalidState,
    NotAGate,
    TableTooWide,
    ClosedEntry(usize),
    Harm { pattern: usize, output: usize },
    ListsUnequal,
    GateRepeated,
    OutsideSubset,
    BadName,
}

// A refusal in numbers: its number, how many values it names, and these from the start.
#[derive(Clone, Copy)]
pub struct Named(pub u64, pub usize, pub [u64; 2]);

// The SDC of one gate: its first 64 entries, and the others.
#[derive(Clone, Copy)]
pub struct Sdc {
    pub low: u64,
    pub high: u64,
}

// The tables of one gate.
#[derive(Clone, Copy)]
pub struct Tables {
    pub sdc: Sdc,
    pub cdc: u64,
    pub full: u64,
    pub open_table: u64,
}

// The session that holds nothing but the counts.
pub fn started(n: u8, m: u8, p: u8) -> Session
    ensures { result ≡ file.started n m p }
{
    Session {
        n: n,
        m: m,
        p: p,
        excluded: [0u64; EXCLUDED_WORDS],
        arity: [0u8; MOST_GATES],
        fanins: [0u8; FANIN_PLACES],
        loaded: [0u64; MOST_GATES],
        current: [0u64; MOST_GATES],
        open_tables: [0u64; MOST_GATES],
        outputs: [0u8; MOST_OUTPUTS],
    }
}

// How many bytes hold 2^n bits.
pub fn set_bytes(n: u8) -> usize
    requires { n ≤ most_inputs }
    ensures { (result ≡ set_bytes n) × (result ≤ most_set_bytes) }
{
    if n < 3 {
        return 1;
    }
    (bits::power(u64::from(n)) / 8) as usize
}

// A refusal's number, and the values that it names.
pub fn told(r: Refusal) -> Named
    ensures { Tells r result }
{
    match r {
        Refusal::Truncated => Named(1, 0, [0; 2]),
        Refusal::UnexpectedMark => Named(2, 0, [0; 2]),
        Refusal::OutOfBounds => Named(3, 0, [0; 2]),
        Refusal::FaninNotEarlier => Named(4, 0, [0; 2]),
        Refusal::FaninRepeated => Named(5, 0, [0; 2]),
        Refusal::BitPastEnd => Named(6, 0, [0; 2]),
        Refusal::NotASignal => Named(7, 0, [0; 2]),
        Refusal::TrailingBytes => Named(8, 0, [0; 2]),
        Refusal::BufferTooShort => Named(9, 0, [0; 2]),
        Refusal::InvalidState => Named(10, 0, [0; 2]),
        Refusal::NotAGate => Named(11, 0, [0; 2]),
        Refusal::TableTooWide => Named(12, 0, [0; 2]),
        Refusal::ClosedEntry(t) => Named(13, 1, [t as u64, 0]),
        Refusal::Harm { pattern, output } => Named(14, 2, [pattern as u64, output as u64]),
        Refusal::ListsUnequal => Named(15, 0, [0; 2]),
        Refusal::GateRepeated => Named(16, 0, [0; 2]),
        Refusal::OutsideSubset => Named(17, 0, [0; 2]),
        Refusal::BadName => Named(18, 0, [0; 2]),
    }
}

// The refusal's number.
pub fn number_of(r: Refusal) -> u64
    ensures { (result ≡ number_of r) × (result ≤ 18) }
{
    let t = told(r);
    t.0
}
