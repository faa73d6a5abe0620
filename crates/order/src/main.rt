// Programs: answers an order on a board: order BOARD GATE=TABLE... [-o NEW].
// Here are arguments, files and printing alone. Standard output has answers only; all else goes to standard error.
// One file is open at a time, and no answer is printed while it is: where standard output is closed, the file that is
// opened gets its number, and the answer would be written into it.
#![tactic(auto)]

ghost use Rattle.std.specs.Prelude.{◌≤◌, length, IfSome, IfOk};
ghost use Rattle.ordertext.specs.Order.{most_order_bytes};
ghost use Rattle.answertext.specs.Answers.{Asks};

use network::{DECIDING_BYTES, MOST_FILE_BYTES};
use ordertext::{Case, MOST_ORDER_BYTES, Order};
use std::env::{Env, FillError};
use std::fs::{self, File, OpenOptions};
use std::io::{self, Write};

// Room for every answer to such an order.
const ANSWER_BYTES: usize = 4096;

// Room for an argument that names a file.
const NAME_BYTES: usize = 4096;

fn usage(rt: HostRuntime) {
    streams::tell(rt, b"usage: order BOARD GATE=TABLE... [-o NEW]\n");
}

fn help(rt: HostRuntime) {
    usage(rt);
    streams::tell(
        rt,
        b"May these gates of BOARD get these tables, all on one order?
Sensor lines are numbered from 0, gates on from there, outputs from 0. TABLE
is the gate's new table in hexadecimal. After a yes, -o writes the changed
board to NEW, a new file: ask the next order on that one.
  yes: open   harmless, and so together with all orders open on BOARD
  yes: alone  harmless if no other order is done on BOARD
  no          with these sensor lines on, all others off, that output changes
  refused     a fault in the file or in the order
The gates marked open may get their tables even after a no, all of them.
",
    );
}

// An error's text without the number that the system has for it.
fn reason(text: &str) -> &str {
    match text.split_once(" (os error ") {
        Some((reason, _)) => reason,
        None => text,
    }
}

// Tells what failed, as the caller names it, and why.
fn fail(rt: HostRuntime, what: &[u8], error: io::Error) {
    streams::tell(rt, what);
    streams::tell(rt, b": ");
    match format!(in rt.alloc(); "{error}") {
        Ok(text) => streams::tell(rt, reason(text.as_str()).as_bytes()),
        Err(_) => streams::tell(rt, b"out of memory"),
    }
    streams::tell(rt, b"\n");
}

// A space and argument i, from place at on.
fn put_word(rt: HostRuntime, text: &mut [u8], at: usize, i: usize) -> Option<usize>
    ensures { IfSome result (λ n. n ≤ length text.new) }
{
    if text.len() <= at {
        return None;
    }
    let a = at + 1;
    let n = rt.arg(i, &mut text[a..]).ok()?;
    text[at] = b' ';
    Some(a + n)
}

// The order's text: each argument behind BOARD and before argument end, behind a space.
fn collect(rt: HostRuntime, text: &mut [u8], end: usize) -> Option<usize>
    ensures { IfSome result (λ n. n ≤ length text.new) }
{
    let mut at: usize = 0;
    for i in 2..end {
        at = put_word(rt, text, at, i)?;
    }
    Some(at)
}

// The name of a file: the system's files have names in UTF-8 here.
fn file_name(path: &[u8]) -> io::Result<&str> {
    match str::from_utf8(path) {
        Ok(name) => Ok(name),
        Err(_) => Err(io::Error::from(io::ErrorKind::InvalidFilename)),
    }
}

// The first bytes of a file.
fn read_file(rt: HostRuntime, path: &[u8], file: &mut [u8]) -> io::Result<usize>
    ensures { IfOk result (λ n. n ≤ length file.new) }
{
    let mut source = File::open(&rt, file_name(path)?)?;
    streams::read_from(&mut source, file)
}

// The board's first bytes. Where it cannot be opened or read, why is told.
fn read_board(rt: HostRuntime, board: &[u8], file: &mut [u8]) -> Option<usize>
    ensures { IfSome result (λ n. n ≤ length file.new) }
{
    match read_file(rt, board, file) {
        Ok(n) => Some(n),
        Err(error) => {
            fail(rt, board, error);
            None
        }
    }
}

// Writes the bytes through to a new file.
fn fill(rt: HostRuntime, name: &str, bytes: &[u8]) -> io::Result<()> {
    let mut new = OpenOptions::new()
        .write(true)
        .create_new(true)
        .open(&rt, name)?;
    let mut written = new.write_all(bytes);
    if written.is_ok() {
        written = new.sync_all();
    }
    if written.is_err() {
        let _ = fs::remove_file(&rt, name);
    }
    written
}

// Whether a new file with these bytes could be made. Where not, why is told, and a file written in part is removed again.
fn save(rt: HostRuntime, path: &[u8], bytes: &[u8]) -> bool {
    let made = match file_name(path) {
        Ok(name) => fill(rt, name, bytes),
        Err(error) => Err(error),
    };
    match made {
        Ok(()) => true,
        Err(error) => {
            fail(rt, path, error);
            false
        }
    }
}

// Makes the new board; once it is written, its name is printed.
fn make_board(rt: HostRuntime, target: &[u8], bytes: &[u8]) {
    if !save(rt, target, bytes) {
        return;
    }
    if streams::print(rt, b"new board: ") {
        if streams::print(rt, target) {
            streams::print(rt, b"\n");
        }
    }
}

// Prints the answer. Only behind a yes that was printed is a board made, where a target names one.
fn respond(rt: HostRuntime, file: &[u8], text: &[u8], o: Order, target: &[u8])
    requires { Asks text.now o }
{
    let mut lines = [0u8; ANSWER_BYTES];
    let a = answertext::answer(&mut lines, file, text, o);
    let n = a.size;
    if !streams::print(rt, &lines[..n]) {
        return;
    }
    if target.len() == 0 {
        return;
    }
    let reply = a.reply;
    if !judging::granted(reply) {
        return;
    }
    let s = a.session;
    let mut bytes = [0u8; MOST_FILE_BYTES];
    let k = judging::put_board(&mut bytes, s, o);
    make_board(rt, target, &bytes[..k]);
}

// Reads the board that the order is asked on.
fn ask(rt: HostRuntime, board: &[u8], text: &[u8], o: Order, target: &[u8])
    requires { Asks text.now o }
{
    let mut file = [0u8; DECIDING_BYTES];
    if let Some(n) = read_board(rt, board, &mut file) {
        respond(rt, &file[..n], text, o, target);
    }
}

// Tells of a word that is no pair.
fn refuse(rt: HostRuntime, word: &[u8]) {
    streams::tell(rt, word);
    streams::tell(rt, b" is not GATE=TABLE\n");
    usage(rt);
}

// Parses the order's text: only one or more pairs, and nothing else, are asked about.
fn parse(rt: HostRuntime, board: &[u8], text: &[u8], target: &[u8])
    requires { length text.now ≤ most_order_bytes }
{
    let o = ordertext::order_of(text);
    let case = o.case;
    match case {
        Case::Pairs(_) => ask(rt, board, text, o, target),
        Case::NoPair { at, end } => refuse(rt, &text[at..end]),
        Case::Blank => usage(rt),
    }
}

// The order stands behind BOARD and before argument end. An empty target stands for none.
fn take_order(rt: HostRuntime, board: &[u8], end: usize, target: &[u8]) {
    let mut text = [0u8; MOST_ORDER_BYTES];
    match collect(rt, &mut text, end) {
        Some(n) => parse(rt, board, &text[..n], target),
        None => streams::tell(rt, b"the order is too long\n"),
    }
}

// Whether argument i is -o.
fn is_dash_o(rt: HostRuntime, i: usize) -> bool {
    let mut word = [0u8; NAME_BYTES];
    match rt.arg(i, &mut word) {
        Ok(n) => n == 2 && (word[0] == b'-' && word[1] == b'o'),
        Err(_) => false,
    }
}

// With -o, NEW is the last of so many arguments.
fn with_target(rt: HostRuntime, board: &[u8], count: usize)
    requires { 2 ≤ count }
{
    let mut target = [0u8; NAME_BYTES];
    let Ok(n) = rt.arg(count - 1, &mut target) else {
        streams::tell(rt, b"NEW: File name too long\n");
        return;
    };
    if n == 0 {
        usage(rt);
        return;
    }
    take_order(rt, board, count - 2, &target[..n]);
}

// How many arguments there are, the program's name with them.
fn arg_count(rt: HostRuntime) -> usize {
    let mut word = [0u8; 1];
    for i in 0..usize::MAX {
        if let Err(FillError::NotPresent) = rt.arg(i, &mut word) {
            return i;
        }
    }
    usize::MAX
}

fn main(rt: HostRuntime) {
    let count = arg_count(rt);
    if count < 3 {
        help(rt);
        return;
    }
    let mut board = [0u8; NAME_BYTES];
    let Ok(n) = rt.arg(1, &mut board) else {
        streams::tell(rt, b"BOARD: File name too long\n");
        return;
    };
    // -o is the last word but one, behind at least one word of the order.
    if 5 <= count && is_dash_o(rt, count - 2) {
        with_target(rt, &board[..n], count);
        return;
    }
    take_order(rt, &board[..n], count, b"");
}
