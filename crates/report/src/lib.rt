// What is in an input, in words on standard output, one function for each kind; and what it turns into.
// Each answers the number of the refusal that it says, 0 if none.
#![tactic(auto)]

mod items;
mod records;

ghost use Rattle.std.specs.Prelude.{◌≡◌, ◌≤◌};
ghost use Rattle.wire.specs.Limits.{limits_of};
ghost use Rattle.report.specs.Shown.{refusal_number, packet_refusal, datagram_refusal, login_refusal, command_refusal, packet_of_form_refusal, form_of_packet_refusal, form_of_datagram_refusal, write_refusal, feeds_refusal, connection_refusal, lines_of_packet_refusal, lines_of_datagram_refusal, earlier, lines_refusal};

use avl::DataResult;
use command::CommandFields;
use datagram::{DatagramResult, Header};
use items::say_item;
use records::{say_records, show_line};
use say::{say, say_around, say_bytes, say_hex, say_line, say_quoted};
use wire::Refusal;

// The meanings of the refusals, in the paper's words; the first line is 0's, which is none.
fn say_meaning(rt: &(impl Print + Eprint), number: usize) {
    say_line(
        rt,
        b"\n\
under 8 bytes (TCP packet), 17 (login), 26 (UDP)\n\
first four bytes not zero\n\
data length or datagram outside its family's limits\n\
input length differs from what its length field gives; login over 17 bytes\n\
CRC field wrong\n\
codec not one this entry point takes\n\
counts or quantities break their rule\n\
a field's bytes are not all there, or bytes are left over\n\
IO total wrong\n\
priority over 2\n\
generation type over 7\n\
record over 255 bytes (family 1)\n\
message type not allowed for its codec\n\
text size breaks its rule, or a command to write is over its family's limit\n\
IMEI length or digit wrong\n\
no such record, element or ID\n\
not the TLV form of any acceptable TCP data packet of the family\n\
lent buffer too short for the result\n\
connection closed, or a state that no feeds from a fresh one give\n\
not a billing line\n\
unknown family\n",
        number,
    );
}

// What was judged. The others are TLV forms, billing lines and a writer's arguments.
#[derive(Clone, Copy)]
enum Judged {
    Packet,
    Datagram,
    Command,
    Login,
    Other,
}

// Whether a refusal has a place in the input: 2, 3 and 5 to 15, but for 3 of a datagram.
fn has_place(what: Judged, number: usize) -> bool {
    match what {
        Judged::Other => false,
        Judged::Datagram => matches!(number, 5..=15),
        _ => matches!(number, 2 | 3 | 5..=15),
    }
}

// The record's index goes with 8 to 12 of data.
fn has_index(what: Judged, number: usize) -> bool {
    matches!(what, Judged::Packet | Judged::Datagram) && matches!(number, 8..=12)
}

fn say_where(rt: &(impl Print + Eprint), what: Judged, r: Refusal) {
    if has_index(what, r.number) {
        say(
            rt,
            b" at record %1, byte %1",
            &[r.index as u64, r.place as u64],
        );
    } else {
        say(rt, b" at byte %1", &[r.place as u64]);
    }
}

// A refusal of `p`, and the bytes around its place if it has one.
fn refuse(rt: &(impl Print + Eprint), what: Judged, p: &[u8], r: Refusal) -> usize
    ensures { result ≡ r.number }
{
    let placed = has_place(what, r.number);
    say(rt, b"refused: %1", &[r.number as u64]);
    if placed {
        say_where(rt, what, r);
    }
    say(rt, b": ", &[]);
    say_meaning(rt, r.number);
    if placed {
        say_around(rt, p, r.place);
    }
    r.number
}

fn say_hex_line(rt: &(impl Print + Eprint), s: &[u8]) {
    say_hex(rt, s);
    say(rt, b"\n", &[]);
}

fn say_codec(rt: &(impl Print + Eprint), codec: u8) {
    if codec == 0x8E {
        say(rt, b", codec 8 Extended", &[]);
    } else {
        say(rt, b", codec %1", &[codec as u64]);
    }
}

// 1 where a word has its plural.
fn more(n: usize) -> u64 {
    u64::from(n != 1)
}

// The end of a heading: the codec, the numbers of records and bytes, the acknowledgement.
fn say_counts(rt: &(impl Print + Eprint), codec: u8, count: u8, size: usize, answer: &[u8]) {
    say_codec(rt, codec);
    let numbers = [count as u64, more(count as usize), size as u64];
    say(rt, b", %1 record^s, %1 bytes; acknowledgement ", &numbers);
    say_hex_line(rt, answer);
}

pub fn show_packet(rt: &(impl Print + Eprint), family: usize, p: &[u8]) -> usize
    ensures { result ≡ packet_refusal family p.now }
{
    match packet::read_packet(family, p) {
        Err(r) => refuse(rt, Judged::Packet, p, r),
        Ok(DataResult { codec, count }) => {
            let mut answer = [0u8; 4];
            let _ = packet::acknowledge_packet(family, p, &mut answer);
            say(rt, b"TCP data packet", &[]);
            say_counts(rt, codec, count, p.len(), &answer);
            say_records(rt, family, false, codec, p);
            0
        }
    }
}

pub fn show_datagram(rt: &(impl Print + Eprint), family: usize, p: &[u8]) -> usize
    ensures { result ≡ datagram_refusal family p.now }
{
    match datagram::read_datagram(family, p) {
        Err(r) => refuse(rt, Judged::Datagram, p, r),
        Ok(DatagramResult { payload, header }) => {
            let mut answer = [0u8; 7];
            let _ = datagram::acknowledge_datagram(family, p, &mut answer);
            say(rt, b"UDP datagram", &[]);
            say_counts(rt, payload.codec, payload.count, p.len(), &answer);
            say_header(rt, header);
            say_records(rt, family, true, payload.codec, p);
            0
        }
    }
}

fn say_header(rt: &(impl Print + Eprint), h: Header) {
    let numbers = [h.imei, h.packet as u64, h.unused as u64, h.avl as u64];
    say(
        rt,
        b"IMEI %F  packet ID %1  unused byte %1  AVL packet ID %1\n",
        &numbers,
    );
}

pub fn show_login(rt: &(impl Print + Eprint), p: &[u8]) -> usize
    ensures { result ≡ login_refusal p.now }
{
    match login::read_login(p) {
        Err(r) => refuse(rt, Judged::Login, p, r),
        Ok(imei) => {
            say_imei(rt, imei);
            0
        }
    }
}

fn say_imei(rt: &(impl Print + Eprint), imei: u64) {
    say(
        rt,
        b"TCP login, IMEI %F\nanswer 01 if the unit is known, else 00\n",
        &[imei],
    );
}

pub fn show_command(rt: &(impl Print + Eprint), family: usize, p: &[u8]) -> usize
    ensures { result ≡ command_refusal family p.now }
{
    match command::read_command(family, p) {
        Err(r) => refuse(rt, Judged::Command, p, r),
        Ok(f) => {
            say(rt, b"TCP command packet, %1 bytes", &[p.len() as u64]);
            say_message(rt, f);
            say(rt, b"text ", &[]);
            say_quoted(rt, command::command_text(family, p));
            say(rt, b"\n", &[]);
            0
        }
    }
}

fn say_type(rt: &(impl Print + Eprint), kind: u8) {
    match kind {
        0x05 => say_bytes(rt, b"05 (command)\n"),
        0x06 => say_bytes(rt, b"06 (response)\n"),
        _ => say_bytes(rt, b"11 (IMEI doesn't match)\n"),
    };
}

// A message's time. The maker's pages do not agree on its unit, so the date is only what it may be.
fn say_message_time(rt: &(impl Print + Eprint), time: u64) {
    let d = text::date_of(time / 86_400);
    say(rt, b"time %1 (%4-%2-%2 ", &[time, d.year, d.month, d.day]);
    let clock = [time / 3600 % 24, time / 60 % 60, time % 60];
    say(rt, b"%2:%2:%2 UTC if it counts seconds)\n", &clock);
}

// Codec and type; in codec 14 alone the IMEI, in codec 13 alone the time.
fn say_message(rt: &(impl Print + Eprint), f: CommandFields) {
    say(rt, b", codec %1, type ", &[f.codec as u64]);
    say_type(rt, f.kind);
    if f.codec == 0x0E {
        say(rt, b"IMEI %F\n", &[f.imei]);
    }
    if f.codec == 0x0D {
        say_message_time(rt, f.time as u64);
    }
}

// A refusal has closed the connection; how many bytes stand behind it.
fn say_closed(rt: &(impl Print + Eprint), at: usize, left: usize) {
    let numbers = [at as u64, left as u64, more(left)];
    say(
        rt,
        b"-- closed at byte %1: %1 byte^s behind it not used\n",
        &numbers,
    );
}

// The input is used up: how many of its last bytes are held, and how many more are wanted.
fn say_end(rt: &(impl Print + Eprint), at: usize, fill: usize, wanted: usize)
    requires { fill ≤ at }
{
    if fill == 0 {
        say(rt, b"-- end at byte %1: no bytes held\n", &[at as u64]);
        return;
    }
    let from = at - fill;
    let numbers = [
        at as u64,
        fill as u64,
        more(fill),
        from as u64,
        wanted as u64,
    ];
    say(
        rt,
        b"-- end at byte %1: %1 byte^s held from byte %1 on, at least %1 more wanted\n",
        &numbers,
    );
}

// A captured connection: fed to a fresh one of the family, item by item, until it is used up or closed.
fn show_feeds(rt: &(impl Print + Eprint), family: usize, p: &[u8]) -> usize
    requires { 1 ≤ (limits_of family).largest }
    ensures { result ≡ feeds_refusal family p.now }
{
    let mut held = [0u8; wire::LARGEST];
    let mut packet = [0u8; wire::LARGEST];
    let mut phase: u8 = 0;
    let mut fill: usize = 0;
    let mut at: usize = 0;
    // Not a `for`: how far a turn goes is known only when it has fed.
    while at < p.len() {
        let fed = connection::feed_lent(family, phase, fill, &mut held, &p[at..], &mut packet);
        let item = fed.item;
        let end = at + fed.used;
        let number = say_item(rt, family, item, at, &p[at..end], &packet);
        at = end;
        phase = fed.phase;
        fill = fed.fill;
        if phase == 2 {
            say_closed(rt, at, p.len() - at);
            return number;
        }
    }
    say_end(rt, at, fill, connection::wanted(family, phase, fill, &held));
    0
}

// The same of any family: one that is not known is refused, and nothing is shown.
pub fn show_connection(rt: &(impl Print + Eprint), family: usize, p: &[u8]) -> usize
    ensures { result ≡ connection_refusal family p.now }
{
    if wire::limits_of(family).largest < 1 {
        let unknown = Refusal::of(21);
        return refuse(rt, Judged::Other, p, unknown);
    }
    show_feeds(rt, family, p)
}

// The first of two refusals, where 0 is none: so say the clauses of all that is shown.
#[tactic(auto, unfolding(crate::specs::Shown::earlier))]
fn earlier(a: usize, b: usize) -> usize
    ensures { result ≡ earlier a b }
{
    if a == 0 { b } else { a }
}

// Billing lines, one by one; the number of the first refusal that is said. No tag of an input that the
// program reads is longer than the buffer.
pub fn show_lines(rt: &(impl Print + Eprint), s: &[u8]) -> usize
    ensures { result ≡ lines_refusal s.now }
{
    let mut bytes = [0u8; 65536];
    let mut first: usize = 0;
    let mut at: usize = 0;
    let mut k: usize = 0;
    // Not a `for` over the lines: that would count `at`, the place of a refusal, beside them just so.
    while at < s.len() {
        let end = at + say::line_length(&s[at..]);
        let number = show_line(rt, k, at, &s[at..end], &mut bytes);
        first = earlier(first, number);
        at = end;
        k += 1;
    }
    first
}

// The packet that a TLV form stands for.
pub fn show_form(rt: &(impl Print + Eprint), family: usize, f: &[u8]) -> usize
    ensures { result ≡ packet_of_form_refusal family f.now }
{
    let mut p = [0u8; wire::LARGEST];
    match rebuild::packet_of_form(family, f, &mut p) {
        Err(r) => refuse(rt, Judged::Other, f, r),
        Ok(n) => {
            if let Some(packet) = p.get(..n) {
                say(
                    rt,
                    b"TLV form, %1 bytes, of this packet:\n",
                    &[f.len() as u64],
                );
                show_packet(rt, family, packet);
            }
            0
        }
    }
}

// How what was written is said: as a line of hex text, or as it is.
#[derive(Clone, Copy)]
enum Spelling {
    Hex,
    Plain,
}

// What was written of `p`.
fn say_written(
    rt: &(impl Print + Eprint),
    what: Judged,
    spelling: Spelling,
    p: &[u8],
    answer: Result<usize, Refusal>,
    out: &[u8],
) -> usize
    ensures { result ≡ refusal_number answer }
{
    match answer {
        Err(r) => refuse(rt, what, p, r),
        Ok(n) => {
            if let Some(bytes) = out.get(..n) {
                say_spelled(rt, spelling, bytes);
            }
            0
        }
    }
}

fn say_spelled(rt: &(impl Print + Eprint), spelling: Spelling, bytes: &[u8]) {
    match spelling {
        Spelling::Hex => say_hex_line(rt, bytes),
        Spelling::Plain => {
            say_bytes(rt, bytes);
        }
    }
}

// The functions below are alike, but each names its writer and the definition of its refusal: a function for all would
// take these two, and each of its callers would name them as it does here.

// The TLV form of a TCP data packet, and of a datagram.
pub fn say_form_of_packet(rt: &(impl Print + Eprint), family: usize, p: &[u8]) -> usize
    ensures { result ≡ form_of_packet_refusal family p.now }
{
    let mut out = [0u8; wire::LARGEST_FORM];
    let answer = form::form_of_packet(family, p, &mut out);
    say_written(rt, Judged::Packet, Spelling::Hex, p, answer, &out)
}

pub fn say_form_of_datagram(rt: &(impl Print + Eprint), family: usize, p: &[u8]) -> usize
    ensures { result ≡ form_of_datagram_refusal family p.now }
{
    let mut out = [0u8; wire::LARGEST_FORM];
    let answer = form::form_of_datagram(family, p, &mut out);
    say_written(rt, Judged::Datagram, Spelling::Hex, p, answer, &out)
}

// The billing lines of a TCP data packet, and of a datagram: they have at most as many bytes as a TLV form.
pub fn say_lines_of_packet(rt: &(impl Print + Eprint), family: usize, p: &[u8]) -> usize
    ensures { result ≡ lines_of_packet_refusal family p.now }
{
    let mut out = [0u8; wire::LARGEST_FORM];
    let answer = print::lines_of_packet(family, p, &mut out);
    say_written(rt, Judged::Packet, Spelling::Plain, p, answer, &out)
}

pub fn say_lines_of_datagram(rt: &(impl Print + Eprint), family: usize, p: &[u8]) -> usize
    ensures { result ≡ lines_of_datagram_refusal family p.now }
{
    let mut out = [0u8; wire::LARGEST_FORM];
    let answer = print::lines_of_datagram(family, p, &mut out);
    say_written(rt, Judged::Datagram, Spelling::Plain, p, answer, &out)
}

// The TCP data packet of a TLV form.
pub fn say_packet_of(rt: &(impl Print + Eprint), family: usize, f: &[u8]) -> usize
    ensures { result ≡ packet_of_form_refusal family f.now }
{
    let mut out = [0u8; wire::LARGEST];
    let answer = rebuild::packet_of_form(family, f, &mut out);
    say_written(rt, Judged::Other, Spelling::Hex, f, answer, &out)
}

// A command packet.
pub fn say_command(
    rt: &(impl Print + Eprint),
    family: usize,
    codec: u8,
    kind: u8,
    imei: &[u8],
    time: u32,
    text: &[u8],
) -> usize
    ensures { result ≡ write_refusal family codec kind imei.now time text.now }
{
    let mut out = [0u8; wire::LARGEST];
    let answer = command::write_command(family, codec, kind, imei, time, text, &mut out);
    say_written(rt, Judged::Other, Spelling::Hex, text, answer, &out)
}
