// The walk over records: the width set of each codec, and the functions that read it.
#![tactic(auto)]

ghost use Rattle.std.specs.Prelude.{◌≡◌, ◌+◌, ◌^◌, ◌≤◌, ◌<◌, length, get_or, leb};
ghost use Rattle.wire.specs.Numbers.{pick};
ghost use Rattle.wire.specs.Reading.{walked, repeat};
ghost use Rattle.wire.specs.Answers.{from};
ghost use Rattle.avl.specs.Codecs.{codec8, codec8_e, codec16, widths_of, is_data_codec, kinds, all_kinds};
ghost use Rattle.avl.specs.Records.{element_count};
ghost use Rattle.avl.specs.RecordReader.{fixed_fields, element, group, groups, avl_record, all_records};
ghost use Rattle.avl.specs.DataField.{read_data};
ghost use Rattle.walk.specs.Walks.{counted, elements_of, spanned, data_walk};

use avl::{NarrowWidths, Widths};
use wire::Refusal;

// The three codecs stay apart (a): each codec's widths are that codec's own constants. A trait would state each of the fifteen twice, in code and in ghost.
#[derive(Clone, Copy)]
pub struct Codec8;

impl Codec8 {
    pub const CODEC: u8 = 0x08;

    const EVENT: usize = 1;

    const GENERATION: usize = 0;

    const COUNT: usize = 1;

    const ID: usize = 1;

    const VARIABLE: bool = false;

    pub fn widths() -> NarrowWidths
        ensures { result.widths ≡ codec8 }
    {
        NarrowWidths {
            widths: Widths {
                event: Codec8::EVENT,
                generation: Codec8::GENERATION,
                count: Codec8::COUNT,
                id: Codec8::ID,
                variable: Codec8::VARIABLE,
            },
        }
    }
}

#[derive(Clone, Copy)]
pub struct Codec8E;

impl Codec8E {
    pub const CODEC: u8 = 0x8E;

    const EVENT: usize = 2;

    const GENERATION: usize = 0;

    const COUNT: usize = 2;

    const ID: usize = 2;

    const VARIABLE: bool = true;

    pub fn widths() -> NarrowWidths
        ensures { result.widths ≡ codec8_e }
    {
        NarrowWidths {
            widths: Widths {
                event: Codec8E::EVENT,
                generation: Codec8E::GENERATION,
                count: Codec8E::COUNT,
                id: Codec8E::ID,
                variable: Codec8E::VARIABLE,
            },
        }
    }
}

#[derive(Clone, Copy)]
pub struct Codec16;

impl Codec16 {
    pub const CODEC: u8 = 0x10;

    const EVENT: usize = 2;

    const GENERATION: usize = 1;

    const COUNT: usize = 1;

    const ID: usize = 2;

    const VARIABLE: bool = false;

    pub fn widths() -> NarrowWidths
        ensures { result.widths ≡ codec16 }
    {
        NarrowWidths {
            widths: Widths {
                event: Codec16::EVENT,
                generation: Codec16::GENERATION,
                count: Codec16::COUNT,
                id: Codec16::ID,
                variable: Codec16::VARIABLE,
            },
        }
    }
}

#[tactic(auto, unfolding(avl::specs::Codecs::widths_of))]
pub fn widths_of(codec: u8) -> NarrowWidths
    ensures { result.widths ≡ widths_of codec }
{
    match codec {
        Codec8::CODEC => Codec8::widths(),
        Codec8E::CODEC => Codec8E::widths(),
        _ => Codec16::widths(),
    }
}

#[tactic(auto, unfolding(avl::specs::Codecs::is_data_codec))]
pub fn is_data_codec(codec: u8) -> bool
    ensures { result ≡ is_data_codec codec }
{
    matches!(codec, Codec8::CODEC | Codec8E::CODEC | Codec16::CODEC)
}

// A record's first byte, the one behind its last, and the number of its elements.
#[derive(Clone, Copy)]
pub struct Span {
    pub start: usize,
    pub end: usize,
    pub elements: usize,
}

// A data field's codec and count, and where the wanted record lies between the counts. Whole words: bytes among them make an answer slow to copy.
#[derive(Clone, Copy)]
pub struct DataWalk {
    pub codec: usize,
    pub count: usize,
    pub span: Span,
}

// The fixed fields of the record at `at`.
fn fixed_fields(w: NarrowWidths, s: &[u8], at: usize) -> Result<usize, Refusal>
    requires at_in_bounds { at ≤ length s.now }
    ensures { result ≡ walked (fixed_fields w.widths s.now at) }
{
    let event = w.widths.event;
    let generation = w.widths.generation;
    let a1 = at + 8;
    let a2 = a1 + 1;
    let a8 = a2 + 4 + 4 + 2 + 2 + 1 + 2;
    let a9 = a8 + event;
    let a10 = a9 + generation;
    if s.len() < a10 {
        return fixed_missing(w, s, at);
    }
    if 2 < s[a1] {
        return Err(Refusal::at(10, a1));
    }
    if 7 < wire::short_number(s, a9, generation) {
        return Err(Refusal::at(11, a9));
    }
    Ok(a10)
}

// The same where some field is missing: the first that is.
fn fixed_missing(w: NarrowWidths, s: &[u8], at: usize) -> Result<usize, Refusal>
    requires at_in_bounds { at ≤ length s.now }
    requires s_len_bound { length s.now < at + 24 + w.widths.event + w.widths.generation }
    ensures { result ≡ walked (fixed_fields w.widths s.now at) }
{
    let priority = at + 8;
    if priority < s.len() && 2 < s[priority] {
        return Err(Refusal::at(10, priority));
    }
    let mut field = at;
    for width in [8, 1, 4, 4, 2, 2, 1, 2, w.widths.event] {
        if s.len() < field + width {
            return Err(Refusal::at(8, field));
        }
        field += width;
    }
    Err(Refusal::at(8, field))
}

// The variable element at `at`: its ID, the length of its value, the value.
fn variable_at(w: NarrowWidths, s: &[u8], at: usize) -> Result<usize, Refusal>
    requires at_in_bounds { at ≤ length s.now }
    ensures { result ≡ walked (element w.widths 9 s.now at) }
{
    let id = w.widths.id;
    let size_at = at + id;
    if s.len() < size_at {
        return Err(Refusal::at(8, at));
    }
    let value_at = size_at + 2;
    if s.len() < value_at {
        return Err(Refusal::at(8, size_at));
    }
    let end = value_at + (wire::be16(s, size_at) as usize);
    if s.len() < end {
        return Err(Refusal::at(8, value_at));
    }
    Ok(end)
}

// `n` variable elements, one behind another.
fn variables_at(w: NarrowWidths, s: &[u8], at: usize, n: usize) -> Result<usize, Refusal>
    requires at_in_bounds { at ≤ length s.now }
    ensures { result ≡ walked (repeat n (element w.widths 9) s.now at) }
{
    let mut next = at;
    for _i in 0..n {
        next = variable_at(w, s, next)?;
    }
    Ok(next)
}

// The field that is missing of an element at `at` of which only `rest` bytes are there: its ID or its value.
fn cut(at: usize, rest: usize, id: usize) -> usize
    requires { at + id < 2 ^ 64 }
    ensures { result ≡ pick (leb id rest) (at + id) at }
{
    if id <= rest { at + id } else { at }
}

// A group: its count and its elements. Values of one size are stepped over at once; where they are not all there, a division tells which is cut.
fn group_at(w: NarrowWidths, kind: usize, s: &[u8], at: usize) -> Result<(usize, usize), Refusal>
    requires le_kind { (1 ≤ kind) × (kind ≤ 9) }
    requires at_in_bounds { at ≤ length s.now }
    ensures { result ≡ counted length (group w.widths kind s.now at) }
{
    let count = w.widths.count;
    let id = w.widths.id;
    let start = at + count;
    if s.len() < start {
        return Err(Refusal::at(8, at));
    }
    let n = wire::short_number(s, at, count) as usize;
    if kind < 9 {
        let size = id + kind;
        let end = start + n * size;
        if end <= s.len() {
            return Ok((n, end));
        }
        let rest = (s.len() - start) % size;
        return Err(Refusal {
            number: 8,
            index: 0,
            place: cut(s.len() - rest, rest, id),
        });
    }
    let next = variables_at(w, s, start, n)?;
    Ok((n, next))
}

// How many groups a record has.
#[tactic(auto, unfolding(avl::specs::Codecs::kinds))]
pub fn kind_count(w: Widths) -> usize
    ensures { result ≡ length (kinds w) }
{
    4 + usize::from(w.variable)
}

// The kind of the group with number `k`, by a shift: a table or a `match` costs a jump where a loop over the kinds is not laid out.
pub fn kind_at(k: usize) -> usize
    requires { k < 5 }
    ensures { result ≡ get_or all_kinds k 0 }
{
    if k < 4 {
        return 1 << k;
    }
    9
}

// The groups of a record, in the order of their kinds. One loop with one call, so that the compiler lays out the groups one behind another.
fn groups_at(w: NarrowWidths, s: &[u8], at: usize) -> Result<(usize, usize), Refusal>
    requires at_in_bounds { at ≤ length s.now }
    ensures { result ≡ counted element_count (groups w.widths (kinds w.widths) s.now at) }
{
    let mut elements: usize = 0;
    let mut next = at;
    for k in 0..kind_count(w.widths) {
        let (count, to) = group_at(w, kind_at(k), s, next)?;
        elements += count;
        next = to;
    }
    Ok((elements, next))
}

// A record: its fixed fields, its total, its groups; then the total's rule and the record's length.
fn record_at(
    longest: usize,
    w: NarrowWidths,
    s: &[u8],
    at: usize,
) -> Result<(usize, usize), Refusal>
    requires at_in_bounds { at ≤ length s.now }
    ensures { result ≡ counted elements_of (avl_record longest w.widths s.now at) }
{
    let count = w.widths.count;
    let a1 = fixed_fields(w, s, at)?;
    let a2 = a1 + count;
    if s.len() < a2 {
        return Err(Refusal::at(8, a1));
    }
    let total = wire::short_number(s, a1, count) as usize;
    let (elements, end) = groups_at(w, s, a2)?;
    if total != elements {
        return Err(Refusal::at(9, at));
    }
    if longest < end - at {
        return Err(Refusal::at(12, at));
    }
    Ok((elements, end))
}

// The records that fill `s`, and where the one with number `want` lies.
fn all_records(
    longest: usize,
    w: NarrowWidths,
    s: &[u8],
    count: usize,
    want: usize,
) -> Result<Span, Refusal>
    ensures { result ≡ spanned w.widths want (all_records longest w.widths count s.now 0) }
{
    let mut next: usize = 0;
    let mut span = Span {
        start: 0,
        end: 0,
        elements: 0,
    };
    for i in 0..count {
        match record_at(longest, w, s, next) {
            Ok((elements, end)) => {
                if i == want {
                    span = Span {
                        start: next,
                        end,
                        elements,
                    };
                }
                next = end;
            }
            Err(x) => {
                return Err(Refusal {
                    number: x.number,
                    index: i,
                    place: x.place,
                });
            }
        }
    }
    if next != s.len() {
        return Err(Refusal {
            number: 8,
            index: count,
            place: next,
        });
    }
    Ok(span)
}

// The data field `d`, which starts at `base` in the input: codec, count, records, count again.
pub fn read_data(longest: usize, base: usize, d: &[u8], want: usize) -> Result<DataWalk, Refusal>
    requires { (3 ≤ length d.now) × (base < 256) }
    ensures { result ≡ data_walk want (from base (read_data longest d.now)) }
{
    let codec = d[0];
    let count = d[1];
    let last = d.len() - 1;
    if !is_data_codec(codec) {
        return Err(Refusal::at(6, base));
    }
    if count < 1 {
        return Err(Refusal::at(7, base + 1));
    }
    if count != d[last] {
        return Err(Refusal::at(7, base + last));
    }
    match all_records(longest, widths_of(codec), &d[2..last], count as usize, want) {
        Ok(span) => Ok(DataWalk {
            codec: codec as usize,
            count: count as usize,
            span,
        }),
        Err(x) => Err(Refusal {
            number: x.number,
            index: x.index,
            place: base + (2 + x.place),
        }),
    }
}
