// Programs: the text of the answer to an order.
#![tactic(auto)]

ghost use Rattle.std.specs.Prelude.{◌≡◌, [], ◌++◌, ◌-◌, ◌<◌, ◌≤◌, length, get_or};
ghost use Rattle.bits.specs.Bounds.{most_inputs};
ghost use Rattle.network.specs.Flat.{loaded_net};
ghost use Rattle.network.specs.Refusals.{number_of, values_of};
ghost use Rattle.buffer.specs.Laid.{Room, Laid};
ghost use Rattle.text.specs.Numbers.{decimal};
ghost use Rattle.tabletext.specs.Digits as tables;
ghost use Rattle.ordertext.specs.Order.{signal_named, order_of, pairs_of};
ghost use Rattle.ordertext.specs.Reads.{pairs_given, Reads};
ghost use Rattle.desk.specs.Promises.{most_answer_bytes};
ghost use Rattle.desk.specs.Answer.{line_on, lines_on, harm_line, reasons, file_line, pair_refused_line, open_text, pair_line, pair_lines, answer_for};
ghost use Rattle.answertext.specs.Prints.{entry_of, Shown, AllShown, Prints};
ghost use Rattle.answertext.specs.Answers.{Asks, Answers};

use desk::Reply;
use network::{Refusal, Session};
use ordertext::Order;

// Each function that puts bytes does so from place at on, or from the start, and returns the place behind them.

// ## Pieces

// A text, and a number in decimal.
fn put_numbered(buf: &mut [u8], at: usize, front: &[u8], x: u64) -> usize
    requires { (x < 10000) × Room buf.old at (front.now ++ decimal x) }
    ensures { Laid buf.old at (front.now ++ decimal x) buf.new result }
{
    let a = buffer::copy(buf, at, front);
    text::put_decimal(buf, a, x)
}

// A name between two texts.
fn put_around(buf: &mut [u8], at: usize, front: &[u8], name: &[u8], back: &[u8]) -> usize
    requires { Room buf.old at (front.now ++ name.now ++ back.now) }
    ensures { Laid buf.old at (front.now ++ name.now ++ back.now) buf.new result }
{
    let a = buffer::copy(buf, at, front);
    let b = buffer::copy(buf, a, name);
    buffer::copy(buf, b, back)
}

// ## First lines

// Input i, where its bit is one.
fn put_line_on(buf: &mut [u8], at: usize, x: usize, i: usize) -> usize
    requires { (i < most_inputs) × Room buf.old at (line_on x i) }
    ensures { Laid buf.old at (line_on x i) buf.new result }
{
    if (x >> i) % 2 == 1 {
        return put_numbered(buf, at, b" ", i as u64);
    }
    at
}

// The inputs whose bit is one, or none.
fn put_lines_on(buf: &mut [u8], at: usize, x: usize, n: usize) -> usize
    requires { (n ≤ most_inputs) × Room buf.old at (lines_on x n) }
    ensures { Laid buf.old at (lines_on x n) buf.new result }
{
    if x == 0 {
        return buffer::copy(buf, at, b" none");
    }
    let mut a = at;
    for i in 0..n {
        a = put_line_on(buf, a, x, i);
    }
    a
}

fn put_harm(buf: &mut [u8], n: usize, x: usize, i: usize) -> usize
    requires { (n ≤ most_inputs) × (x < 10000) × (i < 10000) × Room buf.old 0 (harm_line n x i) }
    ensures { Laid buf.old 0 (harm_line n x i) buf.new result }
{
    let a = put_numbered(buf, 0, b"no: output ", i as u64);
    let b = put_numbered(buf, a, b" changes at pattern ", x as u64);
    let c = buffer::copy(buf, b, b", lines on:");
    let d = put_lines_on(buf, c, x, n);
    buffer::copy(buf, d, b"\n")
}

// Why a file is refused.
fn reason(r: Refusal) -> &'static [u8]
    ensures { result.now ≡ get_or reasons (number_of r - 1) [] }
{
    match r {
        Refusal::Truncated => b"the file ends too soon",
        Refusal::UnexpectedMark => b"no network file, or a record out of place",
        Refusal::OutOfBounds => b"a count is out of bounds",
        Refusal::FaninNotEarlier => b"a fan-in is no earlier signal",
        Refusal::FaninRepeated => b"a gate lists a fan-in twice",
        Refusal::BitPastEnd => b"a bit is set past the end of a table or set",
        Refusal::NotASignal => b"an output is no signal",
        Refusal::TrailingBytes => b"bytes follow the last record",
        _ => b"",
    }
}

fn put_file_refused(buf: &mut [u8], r: Refusal) -> usize
    requires { Room buf.old 0 (file_line r) }
    ensures { Laid buf.old 0 (file_line r) buf.new result }
{
    let k = network::number_of(r);
    let a = put_numbered(buf, 0, b"refused ", k);
    let b = buffer::copy(buf, a, b": ");
    let c = buffer::copy(buf, b, reason(r));
    buffer::copy(buf, c, b"\n")
}

fn put_pair_refused(buf: &mut [u8], r: Refusal, name: &[u8]) -> usize
    requires { Room buf.old 0 (pair_refused_line r name.now) }
    ensures { Laid buf.old 0 (pair_refused_line r name.now) buf.new result }
{
    match r {
        Refusal::NotAGate => put_around(buf, 0, b"refused 11: ", name, b" is no gate\n"),
        Refusal::TableTooWide => put_around(
            buf,
            0,
            b"refused 12: the table of gate ",
            name,
            b" is too wide\n",
        ),
        _ => put_around(buf, 0, b"refused 16: gate ", name, b" is named twice\n"),
    }
}

// ## A line for each pair

// The value that a refusal names first, or 0.
fn first_value(r: Refusal) -> u64
    ensures { result ≡ get_or (values_of r) 0 0 }
{
    match r {
        Refusal::ClosedEntry(t) => t as u64,
        Refusal::Harm { pattern, .. } => pattern as u64,
        _ => 0,
    }
}

// What would be answered to an exchange, at the end of a pair's line.
fn put_open(buf: &mut [u8], at: usize, a: Result<(), Refusal>) -> usize
    requires { (entry_of a < 10000) × Room buf.old at (open_text a) }
    ensures { Laid buf.old at (open_text a) buf.new result }
{
    match a {
        Ok(()) => buffer::copy(buf, at, b": open\n"),
        Err(r) => {
            let t = first_value(r);
            let b = put_numbered(buf, at, b": entry ", t);
            buffer::copy(buf, b, b" is closed\n")
        }
    }
}

// The line of one pair, its tables with so many digits.
fn put_pair(
    buf: &mut [u8],
    at: usize,
    s: Session,
    name: &[u8],
    gate: u64,
    table: u64,
    digits: usize,
) -> usize
    requires gate_value { (gate ≡ signal_named name.now) × (digits ≡ tables.digits (loaded_net s)) }
    requires shown { Shown s (record { signal = gate; table = table }) × Room buf.old at (pair_line s (record { gate = name.now; table = table })) }
    ensures { Laid buf.old at (pair_line s (record { gate = name.now; table = table })) buf.new result }
{
    let signal = gate as usize;
    let n = s.n as usize;
    let g = signal - n;
    let old = s.loaded[g];
    let y = engine::exchange(s, signal, table).map(|_| ());
    let a = put_around(buf, at, b"gate ", name, b" from ");
    let b = text::put_hex(buf, a, old, digits);
    let c = buffer::copy(buf, b, b" to ");
    let d = text::put_hex(buf, c, table, digits);
    put_open(buf, d, y)
}

fn put_pairs(buf: &mut [u8], at: usize, s: Session, text: &[u8], o: Order) -> usize
    requires { Reads text.now o × AllShown s (pairs_given text.now o) × Room buf.old at (pair_lines s (pairs_given text.now o)) }
    ensures { Laid buf.old at (pair_lines s (pairs_given text.now o)) buf.new result }
{
    let case = o.case;
    let n = ordertext::count(case);
    let digits = tabletext::digits_of(s);
    let mut a = at;
    for i in 0..n {
        let gate = o.gates[i];
        let table = o.tables[i];
        let name = ordertext::name(text, o, i);
        a = put_pair(buf, a, s, name, gate, table, digits);
    }
    a
}

// ## The answer

// By the reply.
fn put_answer(buf: &mut [u8], reply: Reply, s: Session, text: &[u8], o: Order) -> usize
    requires { Reads text.now o × Prints s (pairs_given text.now o) reply × Room buf.old 0 (answer_for reply s (pairs_given text.now o)) }
    ensures { Laid buf.old 0 (answer_for reply s (pairs_given text.now o)) buf.new result }
{
    match reply {
        Reply::Open => {
            let a = buffer::copy(
                buf,
                0,
                b"yes: open, also together with any other order open on this board\n",
            );
            put_pairs(buf, a, s, text, o)
        }
        Reply::Alone => {
            let a = buffer::copy(
                buf,
                0,
                b"yes: alone, with no other order; ask the next on the changed board\n",
            );
            put_pairs(buf, a, s, text, o)
        }
        Reply::Harmful { pattern, output } => {
            let a = put_harm(buf, s.n as usize, pattern, output);
            put_pairs(buf, a, s, text, o)
        }
        Reply::PairRefused { refusal, pair } => {
            let name = ordertext::name(text, o, pair);
            put_pair_refused(buf, refusal, name)
        }
        Reply::FileRefused(r) => put_file_refused(buf, r),
    }
}

// An answer: its length, the reply, and the session as loaded.
#[derive(Drop)]
pub struct Answered {
    pub size: usize,
    pub reply: Reply,
    pub session: Session,
}

// The answer to the order of a text on the board of a file, at the start of a buffer that has room for any.
pub fn answer(buf: &mut [u8], file: &[u8], text: &[u8], o: Order) -> Answered
    requires { Asks text.now o × (most_answer_bytes ≤ length buf.old) }
    ensures { Answers file.now (pairs_of (order_of text.now)) buf.old buf.new result }
{
    let j = judging::judge(file, o);
    let reply = j.reply;
    let s = j.session;
    let n = put_answer(buf, reply, s, text, o);
    Answered {
        size: n,
        reply,
        session: s,
    }
}
