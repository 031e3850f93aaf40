// Records and values by number and by ID, in TCP packets and datagrams.
#![tactic(auto)]

ghost use Rattle.std.specs.Prelude.{◌≡◌, ℕ, ◌+◌, ◌-◌, ◌^◌, ◌≤◌, ◌<◌, List, length, get_or};
ghost use Rattle.lookup.specs.Lookups.{Source, tcp_source, udp_source, record_by_number, value_by_number, value_by_id, passed_by_id, view, view_offset, in_older, last_known, passed_in_last, passed_by_last, known_place};
ghost use Rattle.element.specs.Elements.{nth, first_with};
ghost use Rattle.wire.specs.declared.Limits.{Limits};
ghost use Rattle.wire.specs.Limits.{limits_of};
ghost use Rattle.wire.specs.Answers.{Answer};
ghost use Rattle.wire.specs.Places.{behind};
ghost use Rattle.lookup.specs.Carriers.{Carried, walk_of};
ghost use Rattle.lookup.specs.Answers.{part_of, last_part, record_part, RecordAt, PartIn, RecordIn, ValueIn, PassedIn, Reaches, shifted, Within, Shows, view_of, start_of, answer_value, answer_known, known_view};

use avl::Widths;
use element::{RecordFields, Value};
use walk::DataWalk;
use wire::Refusal;

// What a look-up by ID gives, and the number of elements passed.
#[derive(Clone, Copy)]
pub struct CountedValue {
    pub answer: Result<Value, Refusal>,
    pub passed: usize,
}

// The last known value, and whether it stands in the older packet.
#[derive(Clone, Copy)]
pub struct Known {
    pub older: bool,
    pub value: Value,
}

// The same with the number of elements passed, in both packets.
#[derive(Clone, Copy)]
pub struct CountedKnown {
    pub answer: Result<Known, Refusal>,
    pub passed: usize,
}

// A record as a part of the input: its codec, its first byte, the number of its elements, the byte behind its last. Start and end apart: side by side they are read as one from where each was just written, which stalls.
#[derive(Clone, Copy)]
pub struct Part {
    pub codec: u8,
    pub start: usize,
    pub elements: usize,
    pub end: usize,
}

// ---- what carries records

// A TCP packet or a UDP datagram, whose first record begins at BASE. All else is one for both.
pub trait Carrier {
    const BASE: usize;

    ghost BASE: { ℕ };

    ghost source: { Limits → List ℕ → Answer Source };

    // The codec and the count, and where the record with number `n` lies behind the first BASE bytes.
    fn judge(family: usize, p: &[u8], n: usize) -> Result<DataWalk, Refusal>
        ensures walk { result ≡ walk_of n (source (limits_of family) p.now) }
        ensures carried { Carried (limits_of family).longest BASE p.now (source (limits_of family) p.now) };
}

pub struct TcpPacket;

impl Carrier for TcpPacket {
    const BASE: usize = 10;

    ghost BASE = { 10 };

    ghost source = { tcp_source };

    fn judge(family: usize, p: &[u8], n: usize) -> Result<DataWalk, Refusal> {
        packet::judge_packet(wire::limits_of(family), p, n)
    }
}

pub struct UdpDatagram;

impl Carrier for UdpDatagram {
    const BASE: usize = 25;

    ghost BASE = { 25 };

    ghost source = { udp_source };

    fn judge(family: usize, p: &[u8], n: usize) -> Result<DataWalk, Refusal> {
        datagram::judge_datagram(family, p, n)
    }
}

// ---- records as parts of the input

// Inlined: the answer of a call goes through memory, which took a quarter of a look-up in a short datagram.
#[inline(always)]
pub fn part_in<C: Carrier>(family: usize, p: &[u8], n: usize) -> Result<Part, Refusal>
    ensures part { result ≡ part_of (C.source (limits_of family) p.now) n }
    ensures carried { Carried (limits_of family).longest C.BASE p.now (C.source (limits_of family) p.now) }
{
    let data = C::judge(family, p, n)?;
    if n < data.count {
        return Ok(Part {
            codec: data.codec as u8,
            start: C::BASE + data.span.start,
            elements: data.span.elements,
            end: C::BASE + data.span.end,
        });
    }
    Err(Refusal::of(16))
}

// The number of a TCP packet's last record: one below the first count.
fn last_number(p: &[u8]) -> usize
    ensures { 10 ≤ length p.now → result ≡ get_or p.now 9 0 - 1 }
{
    if p.len() < 10 {
        return 0;
    }
    let count = p[9] as usize;
    if count < 1 {
        return 0;
    }
    count - 1
}

// The last record of a TCP packet.
fn last_part(family: usize, p: &[u8]) -> Result<Part, Refusal>
    ensures { result ≡ last_part (tcp_source (limits_of family) p.now) }
{
    part_in::<TcpPacket>(family, p, last_number(p))
}

// ---- records by number

// The fields of the record that a part is.
fn record_of_part(p: &[u8], part: Result<Part, Refusal>) -> Result<RecordFields, Refusal>
    requires { PartIn p.now part }
    ensures { RecordIn p.now part result }
{
    let Part {
        codec,
        start,
        elements,
        end,
    } = part?;
    Ok(element::fields_of(walk::widths_of(codec), &p[start..end], elements))
}

pub fn record_in<C: Carrier>(family: usize, p: &[u8], n: usize) -> Result<RecordFields, Refusal>
    ensures { result ≡ record_by_number (C.source (limits_of family) p.now) n }
{
    record_of_part(p, part_in::<C>(family, p, n))
}

// ---- values by number and by ID

// A value of the record that starts at `start`, its offset counted from the input's start.
fn moved(start: usize, found: Option<Value>) -> Result<Value, Refusal>
    requires { Reaches start found }
    ensures { result ≡ shifted start found }
{
    match found {
        None => Err(Refusal::of(16)),
        Some(v) => Ok(Value {
            id: v.id,
            kind: v.kind,
            offset: start + v.offset,
            size: v.size,
        }),
    }
}

// The value with this number in a record.
fn number_of_part(p: &[u8], part: Result<Part, Refusal>, k: usize) -> Result<Value, Refusal>
    requires { PartIn p.now part }
    ensures { ValueIn p.now part (nth k) result }
{
    let Part {
        codec,
        start,
        elements: _,
        end,
    } = part?;
    moved(
        start,
        element::nth_element(walk::widths_of(codec), &p[start..end], k),
    )
}

// The first value with this ID in the record from `start` to `end`. Apart from the look-up by number: a choice between the two costs time. The record's numbers are passed on one by one: a part goes through memory.
fn id_at(p: &[u8], codec: u8, start: usize, elements: usize, end: usize, id: u16) -> CountedValue
    requires { RecordAt p.now codec start end elements }
    ensures value { ValueIn p.now (record_part codec start elements end) (first_with id) result.answer }
    ensures passed { PassedIn p.now (record_part codec start elements end) id result.passed }
{
    let search = element::find_id(walk::widths_of(codec), &p[start..end], id);
    let at = search.answer;
    CountedValue {
        answer: moved(start, at),
        passed: search.passed,
    }
}

// The same of a part, and of a refusal that stands for one.
fn id_of_part(p: &[u8], part: Result<Part, Refusal>, id: u16) -> CountedValue
    requires { PartIn p.now part }
    ensures value { ValueIn p.now part (first_with id) result.answer }
    ensures passed { PassedIn p.now part id result.passed }
{
    match part {
        Err(r) => CountedValue {
            answer: Err(r),
            passed: 0,
        },
        Ok(
            Part {
                codec,
                start,
                elements,
                end,
            },
        ) => id_at(p, codec, start, elements, end, id),
    }
}

pub fn value_in<C: Carrier>(family: usize, p: &[u8], n: usize, k: usize) -> Result<Value, Refusal>
    ensures value { result ≡ answer_value (value_by_number (C.source (limits_of family) p.now) n k) }
    ensures shows { Shows p.now result (value_by_number (C.source (limits_of family) p.now) n k) }
{
    number_of_part(p, part_in::<C>(family, p, n), k)
}

pub fn id_in<C: Carrier>(family: usize, p: &[u8], n: usize, id: u16) -> CountedValue
    ensures value { result.answer ≡ answer_value (value_by_id (C.source (limits_of family) p.now) n id) }
    ensures passed { result.passed ≡ passed_by_id (C.source (limits_of family) p.now) n id }
    ensures shows { Shows p.now result.answer (value_by_id (C.source (limits_of family) p.now) n id) }
{
    id_of_part(p, part_in::<C>(family, p, n), id)
}

// ---- the same as views: parts of the input, empty on every refusal

fn view_of(p: &[u8], answer: Result<Value, Refusal>) -> &[u8]
    requires { Within p.now answer }
    ensures bytes { result.now ≡ view_of p.now answer }
    ensures place { result.ref_ptr ≡ behind p.entry.ref_ptr (start_of answer) }
{
    match answer {
        Err(_) => &p[0..0],
        Ok(v) => {
            let start = v.offset;
            let end = v.offset + v.size;
            &p[start..end]
        }
    }
}

pub fn view_in<C: Carrier>(family: usize, p: &[u8], n: usize, k: usize) -> &[u8]
    ensures bytes { result.now ≡ view (value_by_number (C.source (limits_of family) p.now) n k) }
    ensures place { result.ref_ptr ≡ behind p.entry.ref_ptr (view_offset (value_by_number (C.source (limits_of family) p.now) n k)) }
{
    view_of(p, value_in::<C>(family, p, n, k))
}

pub fn id_view_in<C: Carrier>(family: usize, p: &[u8], n: usize, id: u16) -> &[u8]
    ensures bytes { result.now ≡ view (value_by_id (C.source (limits_of family) p.now) n id) }
    ensures place { result.ref_ptr ≡ behind p.entry.ref_ptr (view_offset (value_by_id (C.source (limits_of family) p.now) n id)) }
{
    let found = id_in::<C>(family, p, n, id);
    let answer = found.answer;
    view_of(p, answer)
}

// ---- the last known value of an ID: in the newer packet's last record, else in the older's

// In the older, where so many elements were passed in the newer. An ID that is not there is refused by itself: the answer's own refusal would be read from memory.
fn known_in_older(family: usize, older: &[u8], id: u16, before: usize) -> CountedKnown
    requires { before < 256 ^ 2 }
    ensures value { result.answer ≡ answer_known (in_older id (tcp_source (limits_of family) older.now)) }
    ensures passed { result.passed ≡ before + passed_in_last id (tcp_source (limits_of family) older.now) }
{
    match last_part(family, older) {
        Err(r) => CountedKnown {
            answer: Err(r),
            passed: before,
        },
        Ok(
            Part {
                codec,
                start,
                elements,
                end,
            },
        ) => {
            let found = id_at(older, codec, start, elements, end, id);
            let answer = found.answer;
            let passed = before + found.passed;
            if let Ok(value) = answer {
                return CountedKnown {
                    answer: Ok(Known { older: true, value }),
                    passed,
                };
            }
            CountedKnown {
                answer: Err(Refusal::of(16)),
                passed,
            }
        }
    }
}

pub fn last_known(family: usize, newer: &[u8], older: &[u8], id: u16) -> CountedKnown
    ensures value { result.answer ≡ answer_known (last_known id (tcp_source (limits_of family) newer.now) (tcp_source (limits_of family) older.now)) }
    ensures passed { result.passed ≡ passed_by_last id (tcp_source (limits_of family) newer.now) (tcp_source (limits_of family) older.now) }
{
    match last_part(family, newer) {
        Err(r) => CountedKnown {
            answer: Err(r),
            passed: 0,
        },
        Ok(
            Part {
                codec,
                start,
                elements,
                end,
            },
        ) => {
            let found = id_at(newer, codec, start, elements, end, id);
            let answer = found.answer;
            if let Ok(value) = answer {
                return CountedKnown {
                    answer: Ok(Known {
                        older: false,
                        value,
                    }),
                    passed: found.passed,
                };
            }
            known_in_older(family, older, id, found.passed)
        }
    }
}

pub fn last_known_view<'a>(family: usize, newer: &'a [u8], older: &'a [u8], id: u16) -> &'a [u8]
    ensures bytes { result.now ≡ known_view (last_known id (tcp_source (limits_of family) newer.now) (tcp_source (limits_of family) older.now)) }
    ensures place { result.ref_ptr ≡ known_place (last_known id (tcp_source (limits_of family) newer.now) (tcp_source (limits_of family) older.now)) newer.entry.ref_ptr older.entry.ref_ptr }
{
    let known = last_known(family, newer, older, id);
    let answer = known.answer;
    match answer {
        Err(_) => &newer[0..0],
        Ok(found) => {
            if found.older {
                view_of(older, Ok(found.value))
            } else {
                view_of(newer, Ok(found.value))
            }
        }
    }
}
