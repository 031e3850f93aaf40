// Answers the calls that give views, one a line on standard input, with a line 'bytes HEX' for each; '-' is no bytes:
//   view_in_packet FAMILY HEX RECORD ELEMENT     view_in_datagram FAMILY HEX RECORD ELEMENT
//   id_view_in_packet FAMILY HEX RECORD ID       id_view_in_datagram FAMILY HEX RECORD ID
//   last_known_view FAMILY NEWER OLDER ID        command_text FAMILY HEX
// A line that cannot be read is answered with 'error', and standard error says why.
#![tactic(auto)]

mod words;

ghost use Rattle.std.specs.Prelude.{◌≡◌, ◌≤◌, length};
ghost use Rattle.views.specs.Asked.{view_asked};

use lookup::{TcpPacket, UdpDatagram};
use std::io;

#[derive(Clone, Copy)]
pub enum Call {
    PacketView,
    DatagramView,
    PacketIdView,
    DatagramIdView,
    LastKnownView,
    CommandText,
}

fn call_of(w: &[u8]) -> Option<Call> {
    match w {
        b"view_in_packet" => Some(Call::PacketView),
        b"view_in_datagram" => Some(Call::DatagramView),
        b"id_view_in_packet" => Some(Call::PacketIdView),
        b"id_view_in_datagram" => Some(Call::DatagramIdView),
        b"last_known_view" => Some(Call::LastKnownView),
        b"command_text" => Some(Call::CommandText),
        _ => None,
    }
}

// ---- one call

// The view of the call; `older` is the last-known look-up's second packet.
fn view<'a>(
    call: Call,
    family: usize,
    p: &'a [u8],
    older: &'a [u8],
    n: usize,
    k: usize,
    id: u16,
) -> &'a [u8]
    ensures { result.now ≡ view_asked call family p.now older.now n k id }
{
    match call {
        Call::PacketView => lookup::view_in::<TcpPacket>(family, p, n, k),
        Call::DatagramView => lookup::view_in::<UdpDatagram>(family, p, n, k),
        Call::PacketIdView => lookup::id_view_in::<TcpPacket>(family, p, n, id),
        Call::DatagramIdView => lookup::id_view_in::<UdpDatagram>(family, p, n, id),
        Call::LastKnownView => lookup::last_known_view(family, p, older, id),
        Call::CommandText => command::command_text(family, p),
    }
}

fn write(rt: &(impl Print + Eprint), s: &[u8]) {
    if let Err(e) = rt.write_all(s) {
        say::fail(rt, "standard output", &e);
    }
}

fn wrong(rt: &(impl Print + Eprint), place: u64, why: &str) {
    write(rt, b"error\n");
    let _ = eprint!(rt; "views: line {place}{why}");
}

fn say_digits(rt: &(impl Print + Eprint), page: &mut [u8], n: usize, place: u64) {
    if page.len() < n {
        return wrong(rt, place, ": the view is longer than 2048 bytes\n");
    }
    let digits = &mut page[..n];
    digits.make_ascii_lowercase();
    write(rt, b"bytes ");
    write(rt, digits);
    write(rt, b"\n")
}

fn say_view(rt: &(impl Print + Eprint), v: &[u8], place: u64) {
    if v.is_empty() {
        return write(rt, b"bytes -\n");
    }
    let mut page = [0u8; 4096];
    let n = text::encode(v, &mut page);
    say_digits(rt, &mut page, n, place)
}

// How many words a line of the call has.
fn words_of(call: Call) -> usize {
    match call {
        Call::CommandText => 3,
        _ => 5,
    }
}

// The second word that is bytes: the older packet; none for every other call.
fn older_bytes(call: Call, line: &[u8], buf: &mut [u8]) -> Option<usize> {
    match call {
        Call::LastKnownView => words::bytes_of(words::word(line, 3), buf),
        _ => Some(0),
    }
}

// The record's number; 0 for a call that has none.
fn record_number(call: Call, line: &[u8]) -> Option<usize> {
    match call {
        Call::LastKnownView | Call::CommandText => Some(0),
        _ => text::number_of(words::word(line, 3), usize::MAX),
    }
}

// The last number: the element's or the ID; 0 for a call that has none.
fn last_number(call: Call, line: &[u8]) -> Option<usize> {
    match call {
        Call::CommandText => Some(0),
        Call::PacketView | Call::DatagramView => {
            text::number_of(words::word(line, 4), usize::MAX)
        }
        _ => text::number_of(words::word(line, 4), 65535),
    }
}

fn no_bytes(rt: &(impl Print + Eprint), place: u64) {
    wrong(
        rt,
        place,
        ": neither '-' nor hex digits of at most 69632 bytes\n",
    );
}

fn answer_with(
    rt: &(impl Print + Eprint),
    call: Call,
    family: usize,
    line: &[u8],
    n: usize,
    k: usize,
    place: u64,
) {
    let mut first = [0u8; 69632];
    let mut second = [0u8; 69632];
    let a = words::bytes_of(words::word(line, 2), &mut first);
    let b = older_bytes(call, line, &mut second);
    let (Some(i), Some(j)) = (a, b) else {
        return no_bytes(rt, place);
    };
    let (Some(p), Some(older)) = (first.get(..i), second.get(..j)) else {
        return no_bytes(rt, place);
    };
    let id = u16::try_from(k).unwrap_or(0);
    say_view(rt, view(call, family, p, older, n, k, id), place)
}

fn answer_line(rt: &(impl Print + Eprint), line: &[u8], place: u64) {
    let Some(call) = call_of(words::word(line, 0)) else {
        return wrong(rt, place, ": no such call\n");
    };
    if words::count(line) != words_of(call) {
        return wrong(rt, place, ": not the words of this call\n");
    }
    let Some(family) = text::number_of(words::word(line, 1), usize::MAX) else {
        return wrong(rt, place, ": not the number of a family\n");
    };
    let Some(n) = record_number(call, line) else {
        return wrong(rt, place, ": not the number of a record\n");
    };
    let Some(k) = last_number(call, line) else {
        return wrong(rt, place, ": not the number of an element, or no ID\n");
    };
    answer_with(rt, call, family, line, n, k, place)
}

// ---- the input, line by line

// A line, or the last piece of one whose first pieces did not fit.
fn answer(rt: &(impl Print + Eprint), line: &[u8], place: u64, cut: bool) {
    if cut {
        return wrong(rt, place, ": longer than 280575 bytes\n");
    }
    answer_line(rt, line, place)
}

// How far the input is answered: bytes held of the line that `place` counts, and whether its first pieces did not fit.
#[derive(Clone, Copy)]
struct Progress {
    held: usize,
    place: u64,
    cut: bool,
}

// Answers each line that is whole; what is held then starts at `held`.
fn answer_lines(rt: &(impl Print + Eprint), s: &[u8], place: u64, cut: bool) -> Progress
    ensures { result.held ≤ length s.now }
{
    let mut done = Progress {
        held: 0,
        place,
        cut,
    };
    for (i, c) in s.iter().enumerate() {
        if *c == b'\n' {
            answer(rt, &s[done.held..i], done.place, done.cut);
            done = Progress {
                held: i + 1,
                place: done.place.wrapping_add(1),
                cut: false,
            };
        }
    }
    done
}

// One read; none is left where the input ends or fails. A line without its end is answered at the end of the input.
fn turn(
    rt: &(impl Print + Eprint),
    from: &mut impl io::Read,
    buf: &mut [u8],
    at: Progress,
) -> Option<Progress> {
    if buf.len() <= at.held {
        return Some(Progress {
            held: 0,
            place: at.place,
            cut: true,
        });
    }
    let more = match from.read(&mut buf[at.held..]) {
        Ok(more) => more,
        Err(e) => {
            say::fail(rt, "standard input", &e);
            return None;
        }
    };
    if more == 0 {
        if 0 < at.held || at.cut {
            answer(rt, &buf[..at.held], at.place, at.cut);
        }
        return None;
    }
    let end = at.held + more;
    let done = answer_lines(rt, &buf[..end], at.place, at.cut);
    // what is in front already stays: `copy_within` would go over it byte by byte
    if 0 < done.held {
        buf.copy_within(done.held..end, 0);
    }
    Some(Progress {
        held: end - done.held,
        place: done.place,
        cut: done.cut,
    })
}

fn run(rt: &(impl Print + Eprint), from: &mut impl io::Read, buf: &mut [u8]) {
    let mut at = Progress {
        held: 0,
        place: 1,
        cut: false,
    };
    for _ in 0..u64::MAX {
        let Some(next) = turn(rt, from, buf, at) else {
            return;
        };
        at = next;
    }
}

fn main(rt: HostRuntime) {
    let mut buf = [0u8; 280576];
    run(&rt, &mut rt.reader(), &mut buf)
}
