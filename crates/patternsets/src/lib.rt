// The calls: the stretches of a lent buffer of words. Each gate's words fill their own, ODC first, then H.
#![tactic(auto)]

ghost use Rattle.std.specs.Prelude.{◌≡◌, ◌++◌, ◌+◌, ◌*◌, ◌<◌, ◌≤◌, length, drop};
ghost use Rattle.bits.specs.Bounds.{row_words};
ghost use Rattle.bits.specs.Cut.{word_count};
ghost use Rattle.bits.specs.Lists.{overwritten};
ghost use Rattle.network.specs.Answer.{Done};
ghost use Rattle.network.specs.Bounds.{most_gates};
ghost use Rattle.network.specs.State.{state_fault};
ghost use Rattle.network.specs.Calls.{set_words};
ghost use Rattle.patternsets.specs.Stretches.{row, stretches};

use bits::ROW_WORDS;
use network::{GATE_WORDS, Session};

// The stretch of gate g: its words of the one set, then of the other.
fn fill_gate(
    out: &mut [u64],
    odcs: &[u64; GATE_WORDS],
    sets: &[u64; GATE_WORDS],
    g: usize,
    w: usize,
)
    requires { (g < most_gates) × (w ≤ row_words) × (length out.old ≡ w + w) }
    ensures { out.new ≡ row odcs.now w g ++ row sets.now w g }
{
    let at = ROW_WORDS * g;
    let end = at + w;
    let (first, second) = out.split_at_mut(w);
    first.copy_from_slice(&odcs[at..end]);
    second.copy_from_slice(&sets[at..end]);
}

// The stretches of m gates, from the start of the buffer; the words after the last stay.
fn fill_gates(
    buf: &mut [u64],
    odcs: &[u64; GATE_WORDS],
    sets: &[u64; GATE_WORDS],
    m: usize,
    w: usize,
)
    requires { (m ≤ most_gates) × (w ≤ row_words) × (m * (w + w) ≤ length buf.old) }
    ensures { buf.new ≡ stretches odcs.now sets.now w m ++ drop (m * (w + w)) buf.old }
{
    for g in 0..m {
        let a = g * (w + w);
        let e = a + (w + w);
        fill_gate(&mut buf[a..e], odcs, sets, g, w);
    }
}

// How many words a set takes.
fn words_per_set(s: Session) -> usize
    requires { state_fault s ≡ Done }
    ensures { (result ≡ word_count s.n) × (result ≤ row_words) }
{
    let f = bits::frame_of(usize::from(s.n));
    f.count
}

// How many words the sets of all gates take.
pub fn words_needed(s: Session) -> usize
    requires { state_fault s ≡ Done }
    ensures { result ≡ length (set_words s s.m) }
{
    let w = words_per_set(s);
    usize::from(s.m) * (w + w)
}

// The ODC and H of all gates, gate after gate, from the start of the buffer; the words after the last stay.
pub fn fill(s: Session, buf: &mut [u64])
    requires s_value { state_fault s ≡ Done }
    requires m_in_bounds { length (set_words s s.m) ≤ length buf.old }
    ensures { buf.new ≡ overwritten (set_words s s.m) buf.old }
{
    let odcs = dontcares::odc_sets(s);
    let sets = compatible::compatible_sets(s);
    fill_gates(buf, &odcs, &sets, usize::from(s.m), words_per_set(s));
}
