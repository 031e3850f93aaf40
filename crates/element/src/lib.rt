// Reading within a record: its fields, and its elements by number and by ID.
#![tactic(auto)]

ghost use Rattle.std.specs.Prelude.{◌≡◌, ℕ, ◌+◌, ◌≤◌, List};
ghost use Rattle.wire.specs.Reading.{got};
ghost use Rattle.avl.specs.Records.{Element, AvlRecord};
ghost use Rattle.avl.specs.RecordReader.{element, group, plain_record};
ghost use Rattle.element.specs.Elements.{fixed_size, locate_group, nth, first_with};
ghost use Rattle.element.specs.Results.{record_result};
ghost use Rattle.element.specs.Search.{Readable, HasElements, ReadableElement, ReadableGroup, Finds, Passes, value_at, searched, element_as};

use avl::NarrowWidths;

// A record's fixed fields, and the number of its elements. Whole words first: a refusal's three words stand in their place, and they are copied as words. Latitude and longitude, which are the third, are stored as one in this order, as the packet has them byte by byte backwards.
#[derive(Clone, Copy)]
pub struct RecordFields {
    pub timestamp: u64,
    pub elements: usize,
    pub latitude: i32,
    pub longitude: i32,
    pub priority: u8,
    pub altitude: i16,
    pub angle: u16,
    pub satellites: u8,
    pub speed: u16,
    pub event: u16,
    pub generation: u8,
}

// A value: its ID, kind, offset from the input's start, and length. Offset and length apart: side by side they are read as one from where each was just written, which stalls.
#[derive(Clone, Copy)]
pub struct Value {
    pub offset: usize,
    pub id: u16,
    pub kind: u8,
    pub size: usize,
}

// What a look-up by ID in a record gives: the element, and the number of elements passed.
#[derive(Clone, Copy)]
pub struct CountedElement {
    pub answer: Option<Value>,
    pub passed: usize,
}

// The value looked for in a group, or where the group ends; and how many elements of the record were passed. No `Result`: a miss is no failure, and the search goes on behind it.
#[derive(Clone, Copy)]
enum Search {
    Hit { value: Value, passed: usize },
    Miss { next: usize, passed: usize },
}

// How many bytes of a record stand before its groups.
pub fn fixed_size(w: NarrowWidths) -> usize
    ensures { result ≡ fixed_size w.widths }
{
    24 + w.widths.event + w.widths.generation + w.widths.count
}

// The fixed fields of the record that `part` is, which has so many elements. The fields that are always there are read last, in one run.
pub fn fields_of(w: NarrowWidths, part: &[u8], elements: usize) -> RecordFields
    requires readable { Readable w.widths part.now }
    requires has_elements { HasElements w.widths part.now elements }
    ensures { (x : AvlRecord) (n : ℕ) → plain_record w.widths part.now 0 ≡ got x n → result ≡ record_result x }
{
    let event = w.widths.event;
    let generation = w.widths.generation;
    let behind = 24 + event;
    let event_id = wire::short_number(part, 24, event) as u16;
    let reason = wire::short_number(part, behind, generation) as u8;
    RecordFields {
        timestamp: wire::be64(part, 0),
        priority: part[8],
        longitude: wire::signed32(wire::be32(part, 9)),
        latitude: wire::signed32(wire::be32(part, 13)),
        altitude: wire::signed16(wire::be16(part, 17)),
        angle: wire::be16(part, 19),
        satellites: part[21],
        speed: wire::be16(part, 22),
        event: event_id,
        generation: reason,
        elements,
    }
}

// The element of a kind at `at`, its place counted from the record's start.
pub fn element_value(w: NarrowWidths, kind: usize, part: &[u8], at: usize) -> Value
    requires kind_bound { kind ≤ 9 }
    requires readable_element { ReadableElement w.widths kind part.now at }
    ensures { (e : Element) (n : ℕ) → element w.widths kind part.now at ≡ got e n → result ≡ value_at w.widths kind at e }
{
    let width = w.widths.id;
    let id = wire::short_number(part, at, width) as u16;
    let behind = at + width;
    if kind == 9 {
        let size = wire::be16(part, behind) as usize;
        return Value {
            id,
            kind: 9,
            offset: behind + 2,
            size,
        };
    }
    Value {
        id,
        kind: kind as u8,
        offset: behind,
        size: kind,
    }
}

// The first element of a group with this ID, behind so many elements before the group. It counts down, as it has to for the group's end: a count upwards beside that takes time.
fn find_in_group(
    w: NarrowWidths,
    kind: usize,
    part: &[u8],
    at: usize,
    id: u16,
    before: usize,
) -> Search
    requires le_kind { 1 ≤ kind }
    requires kind_bound { kind ≤ 9 }
    requires readable_group { ReadableGroup w.widths kind part.now at }
    requires before_le_at { before ≤ at }
    ensures { (g : List Element) (n : ℕ) → group w.widths kind part.now at ≡ got g n → result ≡ searched id before n (locate_group w.widths kind (at + w.widths.count) g) }
{
    let width = w.widths.count;
    let count = wire::short_number(part, at, width) as usize;
    let behind = before + count;
    let mut next = at + width;
    for left in (0..count).rev() {
        let v = element_value(w, kind, part, next);
        if v.id == id {
            return Search::Hit {
                value: v,
                passed: behind - left,
            };
        }
        next = v.offset + v.size;
    }
    Search::Miss {
        next,
        passed: behind,
    }
}

// The first element with this ID, of the record that `part` is, and the number of elements passed.
pub fn find_id(w: NarrowWidths, part: &[u8], id: u16) -> CountedElement
    requires readable { Readable w.widths part.now }
    ensures found { Finds w.widths part.now (first_with id) result.answer }
    ensures passed { Passes w.widths part.now id result.passed }
{
    let mut next = fixed_size(w);
    let mut before: usize = 0;
    for k in 0..walk::kind_count(w.widths) {
        match find_in_group(w, walk::kind_at(k), part, next, id, before) {
            Search::Hit { value, passed } => {
                return CountedElement {
                    answer: Some(value),
                    passed,
                };
            }
            Search::Miss { next: end, passed } => {
                next = end;
                before = passed;
            }
        }
    }
    CountedElement {
        answer: None,
        passed: before,
    }
}

// The variable element with number `n` in the group at `at`.
fn nth_variable(w: NarrowWidths, part: &[u8], at: usize, n: usize) -> Option<Value>
    requires readable_group { ReadableGroup w.widths 9 part.now at }
    ensures { (g : List Element) (m : ℕ) → group w.widths 9 part.now at ≡ got g m → result ≡ element_as (nth n (locate_group w.widths 9 (at + w.widths.count) g)) }
{
    let width = w.widths.count;
    let count = wire::short_number(part, at, width) as usize;
    if count <= n {
        return None;
    }
    let mut next = at + width;
    for _i in 0..n {
        let v = element_value(w, 9, part, next);
        next = v.offset + v.size;
    }
    Some(element_value(w, 9, part, next))
}

// The element with number `n` of the record that `part` is. A group of fixed values is stepped over by its size.
pub fn nth_element(w: NarrowWidths, part: &[u8], n: usize) -> Option<Value>
    requires readable { Readable w.widths part.now }
    ensures { Finds w.widths part.now (nth n) result }
{
    let width = w.widths.count;
    let id = w.widths.id;
    let mut left = n;
    let mut next = fixed_size(w);
    for k in 0..4 {
        let kind = walk::kind_at(k);
        let size = id + kind;
        let count = wire::short_number(part, next, width) as usize;
        let start = next + width;
        if left < count {
            let place = start + left * size;
            return Some(element_value(w, kind, part, place));
        }
        left -= count;
        next = start + count * size;
    }
    if w.widths.variable {
        return nth_variable(w, part, next, left);
    }
    None
}
