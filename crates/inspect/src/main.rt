// Says what is in a packet, datagram, login, command or TLV form, or why it is refused; shows a captured
// connection item by item; turns packets into TLV forms and back, and into billing lines, which it also reads;
// writes commands. `usage` says with which words.
#![tactic(auto)]

mod input;

ghost use Rattle.std.specs.Prelude.{◌≡◌, ◌≤◌};
ghost use Rattle.inspect.specs.declared.Task.{Task};
ghost use Rattle.inspect.specs.Runs.{refusal_by};

use input::ReadError;
use std::env::{Env, FillError};
use std::io::Input as StandardInput;
use std::rt::Files;

// What the first word asks for, behind those that name a family.
#[derive(Clone, Copy)]
pub enum Task {
    Auto,
    Packet,
    Datagram,
    Login,
    Command,
    Form,
    Connection,
    Line,
    FormOf,
    PacketOf,
    Lines,
    Write,
    Help,
}

// Tables, and no `match` on the words: with a clause that leaves a goal for each byte of each word.
const TASKS: [(&str, Task); 13] = [
    ("auto", Task::Auto),
    ("packet", Task::Packet),
    ("datagram", Task::Datagram),
    ("login", Task::Login),
    ("command", Task::Command),
    ("form", Task::Form),
    ("connection", Task::Connection),
    ("line", Task::Line),
    ("form-of", Task::FormOf),
    ("packet-of", Task::PacketOf),
    ("lines", Task::Lines),
    ("write", Task::Write),
    ("help", Task::Help),
];

// The codec and the type of a command packet to be written.
#[derive(Clone, Copy)]
struct Message {
    codec: u8,
    kind: u8,
}

const MESSAGES: [(&str, Message); 7] = [
    (
        "12",
        Message {
            codec: 0x0C,
            kind: 0x05,
        },
    ),
    (
        "12-response",
        Message {
            codec: 0x0C,
            kind: 0x06,
        },
    ),
    (
        "13",
        Message {
            codec: 0x0D,
            kind: 0x05,
        },
    ),
    (
        "13-response",
        Message {
            codec: 0x0D,
            kind: 0x06,
        },
    ),
    (
        "14",
        Message {
            codec: 0x0E,
            kind: 0x05,
        },
    ),
    (
        "14-response",
        Message {
            codec: 0x0E,
            kind: 0x06,
        },
    ),
    (
        "14-mismatch",
        Message {
            codec: 0x0E,
            kind: 0x11,
        },
    ),
];

const FAMILIES: [(&str, usize); 2] = [("1", 1), ("2", 2)];

const USAGE: &str = "inspect [KIND] [FILE]            what is in the input, or its refusal\n\
inspect form-of [FILE]           the TLV form of a TCP data packet or a datagram, as hex text\n\
inspect packet-of [FILE]         the TCP data packet of a TLV form, as hex text\n\
inspect lines [FILE]             the billing lines of a TCP data packet or a datagram, one for each record\n\
inspect write MESSAGE TEXT       a command packet of codec 12, as hex text\n\
inspect write MESSAGE TIME TEXT  the same of codec 13; TIME is a whole number below 4294967296\n\
inspect write MESSAGE IMEI TEXT  the same of codec 14\n\
inspect help                     this text\n\
inspect family N ..              any of these by the limits of family N, 1 or 2; of family 2 if left out\n\
KIND: packet, datagram, login, command, form, connection, line, or auto (found out, also if left out)\n\
connection: a login and packets one behind another, item by item; bytes count from 0, a refusal's from its item's start\n\
line: billing lines, shown one by one; taken as they are, never as hex text; lines and bytes count from 0\n\
family 1: units of the 640 family, at most 512 bytes a packet and 255 a record; 2: all others, 1,280 bytes\n\
FILE: at most 65536 bytes, hex text or as they are; standard input if left out or -\n\
MESSAGE: 12, 13 or 14 (a command), 12-response, 13-response, 14-response, 14-mismatch (IMEI doesn't match)\n\
A refusal is a line 'refused: NUMBER ..' on standard output. At 'byte N' the offending field starts; the next line shows\n\
this byte in brackets, among those around it. The exit status says nothing.\n";

fn usage(rt: &impl Print) {
    let _ = rt.write_all(USAGE.as_bytes());
}

fn fail(rt: &impl Eprint, line: &str) {
    let _ = rt.eprint(line);
}

fn empty(rt: &impl Eprint) {
    fail(rt, "inspect: the input is empty\n");
}

fn wrong(rt: &impl Eprint) {
    fail(rt, "inspect: wrong words\n");
    fail(rt, USAGE);
}

// Does a task on an input; the number of the refusal that it says, 0 if none.
fn run(rt: &(impl Print + Eprint), family: usize, task: Task, p: &[u8]) -> usize
    ensures { result ≡ refusal_by family task p.now }
{
    match task {
        Task::Packet => report::show_packet(rt, family, p),
        Task::Datagram => report::show_datagram(rt, family, p),
        Task::Login => report::show_login(rt, p),
        Task::Command => report::show_command(rt, family, p),
        Task::Form => report::show_form(rt, family, p),
        Task::Connection => report::show_connection(rt, family, p),
        Task::Line => report::show_lines(rt, p),
        Task::FormOf => run_form_of(rt, family, p),
        Task::PacketOf => report::say_packet_of(rt, family, p),
        Task::Lines => run_lines(rt, family, p),
        Task::Auto => 0,
        Task::Write => 0,
        Task::Help => 0,
    }
}

fn run_form_of(rt: &(impl Print + Eprint), family: usize, p: &[u8]) -> usize
    ensures { result ≡ refusal_by family Task.FormOf p.now }
{
    if input::is_tcp(p) {
        return report::say_form_of_packet(rt, family, p);
    }
    report::say_form_of_datagram(rt, family, p)
}

fn run_lines(rt: &(impl Print + Eprint), family: usize, p: &[u8]) -> usize
    ensures { result ≡ refusal_by family Task.Lines p.now }
{
    if input::is_tcp(p) {
        return report::say_lines_of_packet(rt, family, p);
    }
    report::say_lines_of_datagram(rt, family, p)
}

fn run_on(rt: &(impl Print + Eprint), family: usize, task: Task, p: &[u8]) {
    match task {
        Task::Auto | Task::Line if p.is_empty() => empty(rt),
        Task::Auto => {
            run(rt, family, input::found(p), p);
        }
        _ => {
            run(rt, family, task, p);
        }
    }
}

// Hex text with an odd number of digits.
fn odd(rt: &impl Eprint, digits: usize) {
    let _ = eprintln!(rt; "inspect: hex text has an odd number of digits: {digits}");
}

// Hex text is what has hex digits and white space alone, so nothing that is accepted is taken for it:
// a TCP packet, a login and a connection start with 00, a TLV form with 01, a datagram with 00 to 04.
fn run_on_text(rt: &(impl Print + Eprint), family: usize, task: Task, s: &[u8]) {
    match text::kind_of(s) {
        None => run_on(rt, family, task, s),
        Some(digits) => {
            if digits % 2 == 1 {
                return odd(rt, digits);
            }
            let mut bytes = [0u8; 32768];
            let n = text::decode(s, &mut bytes);
            if let Some(bytes) = bytes.get(..n) {
                run_on(rt, family, task, bytes);
            }
        }
    }
}

// Billing lines are taken as they are: one that is cut short may look like hex text.
fn run_on_input(rt: &(impl Print + Eprint), family: usize, task: Task, s: &[u8]) {
    match task {
        Task::Line => run_on(rt, family, task, s),
        _ => run_on_text(rt, family, task, s),
    }
}

// Reads the file that word `i` names, and does the task on it.
fn inspect<R: Print + Eprint + StandardInput + Env + Files>(
    rt: &R,
    family: usize,
    task: Task,
    i: usize,
) {
    let mut buf = [0u8; 65537];
    match input::read_word(rt, i, &mut buf) {
        Ok(n) => run_on_input(rt, family, task, &buf[..n]),
        Err(ReadError::Long) => fail(rt, "inspect: the input is longer than 65536 bytes\n"),
        Err(ReadError::Failed) => {}
    }
}

fn wrong_time(rt: &impl Eprint) {
    fail(rt, "inspect: TIME is not a whole number below 4294967296\n");
}

// The number of word `i`, none for one that is missing or has over 20 digits.
fn number_of_word(rt: &impl Env, i: usize) -> Option<usize> {
    let mut w = [0u8; 20];
    let n = input::word_of(rt, i, &mut w);
    text::number_of(&w[..n], usize::MAX)
}

// Writes a command with the IMEI of word `i`, if it has one, a time, and the text of word `j`, the last of the words.
fn write_words<R: Print + Eprint + Env>(
    rt: &R,
    family: usize,
    message: Message,
    i: Option<usize>,
    time: Option<usize>,
    j: usize,
    words: usize,
) {
    if words.checked_sub(1) != Some(j) {
        return wrong(rt);
    }
    let Some(t) = time else {
        return wrong_time(rt);
    };
    let Ok(time) = u32::try_from(t) else {
        return wrong_time(rt);
    };
    let mut imei = [0u8; 16];
    let mut text = [0u8; 4096];
    let n = match i {
        Some(i) => input::word_of(rt, i, &mut imei),
        None => 0,
    };
    let Ok(m) = rt.arg(j, &mut text) else {
        return fail(rt, "inspect: the text is longer than 4096 bytes\n");
    };
    let Message { codec, kind } = message;
    report::say_command(rt, family, codec, kind, &imei[..n], time, &text[..m]);
}

// The same with the message of word `i`: behind it stands a time in codec 13 alone, an IMEI in codec 14 alone.
fn write_task<R: Print + Eprint + Env>(rt: &R, family: usize, i: usize, words: usize)
    requires { i ≤ 4 }
{
    let Some(message) = input::word_named(rt, i, &MESSAGES) else {
        return wrong(rt);
    };
    let none = Some(0);
    match message.codec {
        0x0D => {
            let time = number_of_word(rt, i + 1);
            write_words(rt, family, message, None, time, i + 2, words)
        }
        0x0E => write_words(rt, family, message, Some(i + 1), none, i + 2, words),
        _ => write_words(rt, family, message, None, none, i + 1, words),
    }
}

// How many arguments there are, the program's name among them.
fn word_count(rt: &impl Env) -> usize {
    let mut w = [0u8; 1];
    for i in 0..usize::MAX {
        if let Err(FillError::NotPresent) = rt.arg(i, &mut w) {
            return i;
        }
    }
    usize::MAX
}

// Does what the words from word `i` on ask for.
fn do_words<R: Print + Eprint + StandardInput + Env + Files>(rt: &R, family: usize, i: usize)
    requires { i ≤ 3 }
{
    let words = word_count(rt);
    match input::word_named(rt, i, &TASKS) {
        Some(Task::Help) => usage(rt),
        Some(Task::Write) => write_task(rt, family, i + 1, words),
        None => {
            if i + 1 < words {
                return wrong(rt);
            }
            inspect(rt, family, Task::Auto, i)
        }
        Some(task) => {
            if i + 2 < words {
                return wrong(rt);
            }
            inspect(rt, family, task, i + 1)
        }
    }
}

// The family that word `i` names; 0, which is refused as unknown, for any other word and for none.
fn family_of(rt: &impl Env, i: usize) -> usize {
    input::word_named(rt, i, &FAMILIES).unwrap_or(0)
}

fn main(rt: HostRuntime) {
    if input::word_named(&rt, 1, &[("family", ())]).is_some() {
        return do_words(&rt, family_of(&rt, 2), 3);
    }
    do_words(&rt, 2, 1)
}
