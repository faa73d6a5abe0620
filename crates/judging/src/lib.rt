// Programs: the reply to an order, and the board on which it is done.
#![tactic(auto)]

ghost use Rattle.std.specs.Prelude.{◌≡◌, ◌≤◌, length};
ghost use Rattle.network.specs.Answer.{Done};
ghost use Rattle.network.specs.Bounds.{most_file_bytes};
ghost use Rattle.network.specs.State.{state_fault};
ghost use Rattle.network.specs.Calls.{pairs};
ghost use Rattle.ordertext.specs.Order.{most_pairs};
ghost use Rattle.ordertext.specs.Reads.{count_in};
ghost use Rattle.desk.specs.Reply.{all_open, refused_reply, reply_with, reply_on, grants};
ghost use Rattle.judging.specs.Judged.{replacements_in, judged_of, Placeable, Put};

use desk::Reply;
use network::{Refusal, Session};
use ordertext::Order;

// A verdict's refusal, where k pairs stand before the first that is refused.
fn refused_reply(r: Refusal, k: usize) -> Reply
    ensures { result ≡ refused_reply r k }
{
    match r {
        Refusal::Harm { pattern, output } => Reply::Harmful { pattern, output },
        Refusal::NotAGate | Refusal::GateRepeated | Refusal::TableTooWide => Reply::PairRefused {
            refusal: r,
            pair: k,
        },
        _ => Reply::FileRefused(r),
    }
}

// The reply by a verdict on all pairs.
fn reply_with(v: Result<(), Refusal>, k: usize, opens: bool) -> Reply
    ensures { result ≡ reply_with v k opens }
{
    match v {
        Ok(()) if opens => Reply::Open,
        Ok(()) => Reply::Alone,
        Err(r) => refused_reply(r, k),
    }
}

// Whether each pair would be accepted as an exchange.
fn all_open(s: Session, gates: &[u64], tables: &[u64]) -> bool
    requires s_value { state_fault s ≡ Done }
    requires gates_len { length gates.now ≡ length tables.now }
    ensures { result ≡ all_open s (pairs gates.now tables.now) }
{
    for i in 0..gates.len() {
        if answers::exchange(s, gates[i] as usize, tables[i]).is_err() {
            return false;
        }
    }
    true
}

// The reply to a list of gates with a list of tables, on a board that is loaded.
fn reply_on(s: Session, gates: &[u64], tables: &[u64]) -> Reply
    requires s_value { state_fault s ≡ Done }
    requires gates_len { length gates.now ≡ length tables.now }
    ensures { result ≡ reply_on s (pairs gates.now tables.now) }
{
    let v = answers::verdict(s, gates, tables);
    let k = answers::refused_at(s, gates, tables);
    let opens = all_open(s, gates, tables);
    reply_with(v, k, opens)
}

// The reply to an order, and the session as loaded; all zeros where the file is refused.
#[derive(Clone, Copy)]
pub struct Judged {
    pub reply: Reply,
    pub session: Session,
}

// The order on the board of the file.
pub fn judge(file: &[u8], o: Order) -> Judged
    requires { count_in o.case ≤ most_pairs }
    ensures { result ≡ judged_of file.now (replacements_in o) }
{
    match loading::load(file) {
        Ok(s) => {
            let gates = o.gates;
            let tables = o.tables;
            let n = ordertext::count(o.case);
            let reply = reply_on(s, &gates[0..n], &tables[0..n]);
            Judged { reply, session: s }
        }
        Err(r) => Judged {
            reply: Reply::FileRefused(r),
            session: network::started(0, 0, 0),
        },
    }
}

// The file of the session with all ordered tables current, at the start of a buffer that has room for any; its length.
pub fn put_board(buf: &mut [u8], s: Session, o: Order) -> usize
    requires { (count_in o.case ≤ most_pairs) × Placeable s (replacements_in o) × (most_file_bytes ≤ length buf.old) }
    ensures { Put s (replacements_in o) buf.old buf.new result }
{
    let case = o.case;
    let gates = o.gates;
    let tables = o.tables;
    let current = s.current;
    let n = ordertext::count(case);
    let all = replacements::replace_tables(s.n as usize, current, &gates[0..n], &tables[0..n]);
    let mut t = s;
    t.current = all;
    netwrite::write_bytes(t, buf)
}

// Whether the order may be done.
pub fn granted(r: Reply) -> bool
    ensures { result ≡ grants r }
{
    matches!(r, Reply::Open | Reply::Alone)
}
