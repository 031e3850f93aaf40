// The records of a TCP data packet or a datagram, by its table of contents; and billing lines that are read back.
ghost use Rattle.std.specs.Prelude.{◌≡◌, ℕ, ◌+◌, ◌^◌, ◌≤◌, ◌<◌, length, drop, get_or};
ghost use Rattle.wire.specs.Buffers.{writing, leaving};
ghost use Rattle.contents.specs.Words.{title_result, record_of, value_of};
ghost use Rattle.contents.specs.Rows.{RowsAhead};
ghost use Rattle.report.specs.Shown.{contents_here, records_said, line_refusal};

use crate::{Judged, refuse, say_meaning};
use element::{RecordFields, Value};
use say::{say, say_hex, say_quoted};
use scan::LineFields;
use wire::Refusal;

// All records; how many they are.
pub fn say_records(
    rt: &(impl Print + Eprint),
    family: usize,
    udp: bool,
    codec: u8,
    p: &[u8],
) -> usize
    ensures { result ≡ records_said family udp p.now }
{
    let mut table = [0u64; wire::LARGEST_CONTENTS];
    match contents_at(family, udp, p, &mut table) {
        Err(_) => 0,
        Ok(_) => say_rows(rt, codec, p, &table),
    }
}

fn contents_at(family: usize, udp: bool, p: &[u8], table: &mut [u64]) -> Result<usize, Refusal>
    ensures answer { result ≡ writing (contents_here family udp p.now) table.old }
    ensures buffer { table.new ≡ leaving (contents_here family udp p.now) table.old }
{
    if udp {
        contents::contents_of_datagram(family, p, table)
    } else {
        contents::contents_of_packet(family, p, table)
    }
}

// The records whose words stand behind the packet's two; how many were said, counted where they are.
fn say_rows(rt: &(impl Print + Eprint), codec: u8, p: &[u8], t: &[u64]) -> usize
    requires in_bounds { 1 ≤ length t.now }
    requires rows_ahead { RowsAhead p.now t.now 2 (title_result t.now).count }
    ensures { result ≡ (title_result t.now).count }
{
    let count = contents::record_count(t);
    let mut at: usize = 2;
    let mut said: usize = 0;
    for n in 0..count {
        at = say_record(rt, codec, n, p, t, at);
        said += 1;
    }
    said
}

// The record whose words begin at `at`; where those of the next begin.
fn say_record(
    rt: &(impl Print + Eprint),
    codec: u8,
    n: usize,
    p: &[u8],
    t: &[u64],
    at: usize,
) -> usize
    requires { RowsAhead p.now t.now at 1 }
    ensures { result ≡ at + 4 + (record_of (drop at t.now)).elements }
{
    let f = contents::record_at(t, at);
    let elements = f.elements;
    let first = at + 4;
    say(rt, b"record %1", &[n as u64]);
    say_time(rt, f.timestamp);
    say_origin(rt, codec, f);
    say_position(rt, f);
    say_motion(rt, f);
    say_values(rt, p, t, first, elements);
    first + elements
}

// A time: milliseconds since 1970, and their date before the year 10000.
fn say_time(rt: &(impl Print + Eprint), ms: u64) {
    if 253_402_300_799_999 < ms {
        say(rt, b"  time %1", &[ms]);
        return;
    }
    let d = text::date_of(ms / 86_400_000);
    say(rt, b"  %4-%2-%2", &[d.year, d.month, d.day]);
    let clock = [
        ms / 3_600_000 % 24,
        ms / 60_000 % 60,
        ms / 1000 % 60,
        ms % 1000,
        ms,
    ];
    say(rt, b" %2:%2:%2.%3 UTC  time %1", &clock);
}

// Only codec 16 has a generation type.
fn say_origin(rt: &(impl Print + Eprint), codec: u8, f: RecordFields) {
    say(
        rt,
        b"  priority %1  event %1",
        &[f.priority as u64, f.event as u64],
    );
    if codec == 0x10 {
        say(rt, b"  generation type %1", &[f.generation as u64]);
    }
}

// 1 for a negative number, else 0.
fn sign(x: i32) -> u64 {
    u64::from(x.is_negative())
}

// Longitude and latitude are ten-millionths of a degree.
fn say_degrees(rt: &(impl Print + Eprint), s: &[u8], x: i32) {
    let n = text::distance(x);
    say(rt, s, &[sign(x), n / 10_000_000, n % 10_000_000]);
}

fn say_coordinates(rt: &(impl Print + Eprint), longitude: i32, latitude: i32) {
    say_degrees(rt, b"\n  position  longitude ^-%1.%7", longitude);
    say_degrees(rt, b"  latitude ^-%1.%7", latitude);
}

fn say_position(rt: &(impl Print + Eprint), f: RecordFields) {
    let altitude = i32::from(f.altitude);
    say_coordinates(rt, f.longitude, f.latitude);
    say(
        rt,
        b"  altitude ^-%1 m\n",
        &[sign(altitude), text::distance(altitude)],
    );
}

fn say_motion(rt: &(impl Print + Eprint), f: RecordFields) {
    let numbers = [
        f.speed as u64,
        f.angle as u64,
        f.satellites as u64,
        f.elements as u64,
    ];
    say(
        rt,
        b"  motion    speed %1 km/h  angle %1  satellites %1\n  values    %1\n",
        &numbers,
    );
}

// The values whose words stand from `first` on.
fn say_values(rt: &(impl Print + Eprint), p: &[u8], t: &[u64], first: usize, count: usize)
    requires count_in_bounds { first + count ≤ length t.now }
    requires by_index { (k : ℕ) → k < count → (value_of (get_or t.now (first + k) 0)).offset + (value_of (get_or t.now (first + k) 0)).size ≤ length p.now }
{
    for word in &t[first..first + count] {
        let v = contents::value_of(*word);
        let start = v.offset;
        let end = v.offset + v.size;
        say_found(rt, v, &p[start..end]);
    }
}

// The ID and the bytes; behind 1, 2, 4 or 8 of them their unsigned number, behind any others the text
// if all are printable.
fn say_found(rt: &(impl Print + Eprint), v: Value, s: &[u8]) {
    say(rt, b"    id ~5  size ~3  ", &[v.id as u64, s.len() as u64]);
    say_hex(rt, s);
    if v.kind == 9 {
        return say_variable(rt, s);
    }
    if s.len() <= 8 {
        say(rt, b"  (%1)\n", &[wire::number(s, 0, s.len())]);
    }
}

fn say_variable(rt: &(impl Print + Eprint), s: &[u8]) {
    say(rt, b"  variable", &[]);
    if text::is_printable_text(s) {
        say(rt, b" ", &[]);
        say_quoted(rt, s);
    }
    say(rt, b"\n", &[]);
}

// ---- billing lines; lines and bytes are counted from 0

// Line `k` of an input, which starts at byte `start`; the number of its refusal, 0 if none. The bytes
// of a tag go through the lent buffer.
pub fn show_line(
    rt: &(impl Print + Eprint),
    k: usize,
    start: usize,
    s: &[u8],
    bytes: &mut [u8],
) -> usize
    requires { start + length s.now < 2 ^ 64 }
    ensures { result ≡ line_refusal s.now }
{
    match scan::read_line(s) {
        Err(r) => refuse_line(rt, r, k, start, s),
        Ok(f) => {
            say(rt, b"line %1", &[k as u64]);
            say_fields(rt, f);
            say_elements(rt, s, f.start, f.elements, bytes);
            0
        }
    }
}

// The refusal of a line, and the byte at which it is wrong: of the line and of the input.
fn refuse_line(rt: &(impl Print + Eprint), r: Refusal, k: usize, start: usize, s: &[u8]) -> usize
    requires { start + length s.now < 2 ^ 64 }
    ensures { result ≡ r.number }
{
    let at = scan::wrong_byte(s);
    let place = start + at;
    let numbers = [r.number as u64, at as u64, k as u64, place as u64];
    say(
        rt,
        b"refused: %1 at byte %1 of line %1 (byte %1 of the input): ",
        &numbers,
    );
    say_meaning(rt, r.number);
    r.number
}

fn say_fields(rt: &(impl Print + Eprint), f: LineFields) {
    say_time(rt, f.timestamp);
    say_coordinates(rt, f.longitude, f.latitude);
    say(
        rt,
        b"\n  motion    speed %1 km/h\n  values    %1\n",
        &[f.speed as u64, f.elements as u64],
    );
}

// The elements, the field of the first of which starts at `start`.
fn say_elements(
    rt: &(impl Print + Eprint),
    s: &[u8],
    start: usize,
    count: usize,
    bytes: &mut [u8],
) {
    let mut at = start;
    for _ in 0..count {
        at = say_element(rt, s, at, bytes);
    }
}

// The element whose field starts at `at`: its ID, and its number or its tag; where the next field starts.
fn say_element(rt: &(impl Print + Eprint), s: &[u8], at: usize, bytes: &mut [u8]) -> usize {
    match scan::element_at(s, at, bytes) {
        Err(r) => {
            say(rt, b"    not shown  ", &[]);
            refuse(rt, Judged::Other, s, r);
            s.len()
        }
        Ok(e) => {
            say(rt, b"    id ~5  ", &[e.id as u64]);
            if e.tag {
                say_tag(rt, bytes, e.size);
            } else {
                say(rt, b"%1\n", &[e.value]);
            }
            e.next
        }
    }
}

// A tag, the first `size` of the bytes, between quotes; of one that is too long for that, its size.
fn say_tag(rt: &(impl Print + Eprint), bytes: &[u8], size: usize) {
    if 4096 < size || bytes.len() < size {
        say(
            rt,
            b"tag of %1 bytes, too long to be shown\n",
            &[size as u64],
        );
        return;
    }
    say_quoted(rt, &bytes[0..size]);
    say(rt, b"\n", &[]);
}
