// BLIF: the network that goes out, with a copying gate for each output that needs one.
#![tactic(auto)]

ghost use Rattle.std.specs.Prelude.{◌≡◌, ◌+◌, ◌*◌, ◌<◌, ◌≤◌, length};
ghost use Rattle.bits.specs.Bounds.{most_inputs};
ghost use Rattle.bits.specs.Range.{count};
ghost use Rattle.network.specs.Answer.{Done};
ghost use Rattle.network.specs.Bounds.{most_gates, most_outputs};
ghost use Rattle.network.specs.Flat.{current_net};
ghost use Rattle.network.specs.State.{state_fault};
ghost use Rattle.network.specs.Valid.{Sized};
ghost use Rattle.blif.specs.Write.{outgoing, copies_test};
ghost use Rattle.blifcopies.specs.Copies.{copy_due, freed, with_copy};
ghost use Rattle.blifcopies.specs.Ready.{Ready};

use bits::GATE_PLACES;
use network::{EXCLUDED_WORDS, MOST_GATES, MOST_OUTPUTS, Refusal, Session};

// Whether output i is driven by an input or repeats an earlier one.
fn copy_due(n: u8, outs: [u8; MOST_OUTPUTS], i: usize) -> bool
    requires { i < most_outputs }
    ensures { result ≡ copy_due n outs i }
{
    let x = outs[i];
    if x < n {
        return true;
    }
    state::member(&outs[0..i], x)
}

// How many gates the first p outputs add.
fn copies(n: u8, outs: [u8; MOST_OUTPUTS], p: usize) -> u8
    requires { p ≤ most_outputs }
    ensures { (result ≡ count p (copy_due n outs)) × (result ≤ most_outputs) × (length outs ≡ most_outputs) }
{
    let mut c: u8 = 0;
    for i in 0..p {
        c += u8::from(copy_due(n, outs, i));
    }
    c
}

// Refusal 3, of the gates with the copies.
pub fn copies_test(s: Session) -> Result<(), Refusal>
    requires { state_fault s ≡ Done }
    ensures { result ≡ copies_test s }
{
    let outs = s.outputs;
    let c = copies(s.n, outs, s.p as usize);
    state::count_test(MOST_GATES, s.m + c)
}

// One gate more: it copies signal x and drives output i.
fn with_copy(t: Session, i: usize, x: u8) -> Session
    requires { (t.m < most_gates) × (t.n ≤ most_inputs) × (i < most_outputs) }
    ensures { result ≡ with_copy t i x }
{
    let g = t.m as usize;
    let own = t.n + t.m;
    let mut r = t;
    r.arity[g] = 1;
    r.fanins[GATE_PLACES * g] = x;
    r.loaded[g] = 2;
    r.current[g] = 2;
    r.outputs[i] = own;
    r.m = t.m + 1;
    r
}

// With nothing excluded; its arrays have their lengths.
fn freed(s: Session) -> Session
    ensures { (result ≡ freed s) × Sized result }
{
    let none = [0u64; EXCLUDED_WORDS];
    let mut t = s;
    t.excluded = none;
    t
}

// The network that goes out, as a session: with the copies, and nothing excluded.
pub fn outgoing(s: Session) -> Session
    requires { (state_fault s ≡ Done) × (copies_test s ≡ Done) }
    ensures { Ready result × (current_net result ≡ outgoing (current_net s)) }
{
    let p = usize::from(s.p);
    let outs = s.outputs;
    let mut t = freed(s);
    for i in 0..p {
        if copy_due(t.n, outs, i) {
            t = with_copy(t, i, outs[i]);
        }
    }
    t
}
