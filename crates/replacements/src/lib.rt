// The calls: a list of replacements. The tests of each gate with its table, and all of the tables put in place.
// The loops take counts and arrays: a session handed on for each pair would be 1.4 kB copied each time.
#![tactic(auto)]

ghost use Rattle.std.specs.Prelude.{◌≡◌, ◌&&◌, [], ◌+◌, ◌≤◌, leb, ltb, length, MatchResult, Err};
ghost use Rattle.bits.specs.Bounds.{most_inputs};
ghost use Rattle.bits.specs.Bit.{bit};
ghost use Rattle.network.specs.Answer.{Done};
ghost use Rattle.network.specs.Bounds.{most_gates};
ghost use Rattle.network.specs.Flat.{stored_all};
ghost use Rattle.network.specs.Calls.{pairs};
ghost use Rattle.replacements.specs.Pair.{Bounded, GatesIn, pair_by, pairs_by, refused_by};

use network::{MOST_GATES, Refusal};

// The signal is one of the m gates that stand behind n inputs.
pub fn is_gate(n: usize, m: usize, gate: usize) -> bool
    requires { (n ≤ most_inputs) × (m ≤ most_gates) }
    ensures { result ≡ (leb n gate && ltb gate (n + m)) }
{
    if gate < n {
        return false;
    }
    gate < n + m
}

// Of one pair, where the signals of seen are named before it: 11, then 16, then 12.
pub fn pair_test(
    n: usize,
    m: usize,
    arity: &[u8; MOST_GATES],
    seen: u64,
    gate: usize,
    table: u64,
) -> Result<(), Refusal>
    requires { Bounded n m arity.now }
    ensures { result ≡ pair_by n m arity.now (bit seen gate) gate table }
{
    if !is_gate(n, m, gate) {
        return Err(Refusal::NotAGate);
    }
    if bits::bit_of(seen, gate as u64) {
        return Err(Refusal::GateRepeated);
    }
    let k = arity[gate - n];
    state::table_test(k, table).map_err(|_| Refusal::TableTooWide)
}

// Why a pair is refused, and how many pairs stand before it.
#[derive(Clone, Copy)]
pub struct PairRefused {
    pub refusal: Refusal,
    pub pair: usize,
}

// The pairs of two lists of one length, in order: the first that is refused.
pub fn pairs_test(
    n: usize,
    m: usize,
    arity: &[u8; MOST_GATES],
    gates: &[u64],
    tables: &[u64],
) -> Result<(), PairRefused>
    requires bounded { Bounded n m arity.now }
    requires gates_len { length gates.now ≡ length tables.now }
    ensures { let rs = pairs gates.now tables.now in
        MatchResult result
        (λ _. (Done ≡ pairs_by n m arity.now [] rs) × (length gates.now ≡ refused_by n m arity.now [] rs))
        (λ e. (Err e.refusal ≡ pairs_by n m arity.now [] rs) × (e.pair ≡ refused_by n m arity.now [] rs)) }
{
    let mut seen: u64 = 0;
    for (i, g) in gates.iter().enumerate() {
        let gate = *g as usize;
        if let Err(refusal) = pair_test(n, m, arity, seen, gate, tables[i]) {
            return Err(PairRefused { refusal, pair: i });
        }
        seen |= bits::power(gate as u64);
    }
    Ok(())
}

// The tables of the gates behind n inputs, with those of the pairs stored.
pub fn replace_tables(
    n: usize,
    current: [u64; MOST_GATES],
    gates: &[u64],
    tables: &[u64],
) -> [u64; MOST_GATES]
    requires gates_len { length gates.now ≡ length tables.now }
    requires gates_in { GatesIn n most_gates gates.now }
    ensures { (result ≡ stored_all n (pairs gates.now tables.now) current) × (length result ≡ most_gates) }
{
    let mut all = current;
    for (i, g) in gates.iter().enumerate() {
        let gate = *g as usize;
        all[gate - n] = tables[i];
    }
    all
}
