// A packet's table of contents: judged once, then all its records and values in a lent buffer of words.
#![tactic(auto)]

ghost use Rattle.std.specs.Prelude.{◌≡◌, ℕ, ◌+◌, ◌*◌, ◌^◌, ◌≤◌, ◌<◌, length, drop};
ghost use Rattle.std.proofs.lemmas.List.Edits.{sets};
ghost use Rattle.wire.specs.Limits.{limits_of};
ghost use Rattle.wire.specs.Numbers.{number_at};
ghost use Rattle.wire.specs.Reading.{got};
ghost use Rattle.wire.specs.Buffers.{writing, leaving};
ghost use Rattle.avl.specs.Records.{AvlRecord};
ghost use Rattle.avl.specs.RecordReader.{plain_record};
ghost use Rattle.traverse.specs.Texts.{record_text};
ghost use Rattle.traverse.specs.Copying.{Ready};
ghost use Rattle.traverse.specs.Fields.{Field, Writes};
ghost use Rattle.contents.specs.Words.{quad, bits, record_words, title_result, record_of, value_of};
ghost use Rattle.contents.specs.Contents.{contents_of_packet, contents_of_datagram};
ghost use Rattle.contents.specs.Listing.{listed_word, head_text, field_contents};

use avl::NarrowWidths;
use element::{RecordFields, Value};
use traverse::{ElementWriter, FieldWriter, Moved, RecordWriter};
use wire::Refusal;

// Four numbers of 16 bits in a word, the first in the lowest: the sum that the definition states; `from_le_bytes` would take eight bytes.
fn quad_word(a: u64, b: u64, c: u64, d: u64) -> u64
    requires { (a < 2 ^ 16) × (b < 2 ^ 16) × (c < 2 ^ 16) × (d < 2 ^ 16) }
    ensures { result ≡ quad a b c d }
{
    a + 0x1_0000 * b + 0x1_0000_0000 * c + 0x1_0000_0000_0000 * d
}

// Writes the words of elements and records; the bytes that are read stand in the input from `base` on.
#[derive(Clone, Copy)]
struct Listing {
    base: usize,
}

impl ElementWriter for Listing {
    type Item = u64;

    ghost of_element = { λ x. listed_word x.base };

    ghost takes = { λ x n. x.base + n < 2 ^ 16 };

    fn put_element(
        self,
        w: NarrowWidths,
        kind: usize,
        s: &[u8],
        at: usize,
        out: &mut [u64],
        to: usize,
    ) -> Moved {
        let v = element::element_value(w, kind, s, at);
        let offset = self.base + v.offset;
        store::store_word(
            out,
            to,
            quad_word(v.id as u64, v.kind as u64, offset as u64, v.size as u64),
        );
        Moved {
            from: v.offset + v.size,
            to: to + 1,
        }
    }
}

// ---- the words of a record

// Altitude, angle, satellites and speed as they stand, below priority and generation type.
fn motion(w: NarrowWidths, s: &[u8], at: usize) -> u64
    requires generation_in_bounds { at + 24 + w.widths.event + w.widths.generation ≤ length s.now }
    requires at_bound { (number_at s.now (at + 8) 1 ≤ 2) × (number_at s.now (at + 24 + w.widths.event) w.widths.generation ≤ 7) }
    ensures { result ≡ number_at s.now (at + 17) 7 + 2 ^ 56 * number_at s.now (at + 8) 1 + 2 ^ 60 * number_at s.now (at + 24 + w.widths.event) w.widths.generation }
{
    let event = w.widths.event;
    let generation = w.widths.generation;
    // The number of seven bytes by one load; `wire::number` would load each byte.
    let low = wire::be64(s, at + 16) % 0x100_0000_0000_0000;
    let priority = wire::short_number(s, at + 8, 1);
    let reason = wire::short_number(s, at + 24 + event, generation);
    low + 0x100_0000_0000_0000 * priority + 0x1000_0000_0000_0000 * reason
}

// Event ID; where the record starts in the input, its bytes, its elements.
fn extent(w: NarrowWidths, s: &[u8], at: usize, start: usize, size: usize, elements: usize) -> u64
    requires event_in_bounds { at + 24 + w.widths.event ≤ length s.now }
    requires start_bound { (start < 2 ^ 16) × (size < 2 ^ 16) × (elements < 2 ^ 16) }
    ensures { result ≡ quad (number_at s.now (at + 24) w.widths.event) start size elements }
{
    let event = w.widths.event;
    let id = wire::short_number(s, at + 24, event);
    quad_word(id, start as u64, size as u64, elements as u64)
}

// The words of the record at `at`, which has so many bytes and elements.
fn put_head(
    w: NarrowWidths,
    base: usize,
    s: &[u8],
    at: usize,
    size: usize,
    elements: usize,
    out: &mut [u64],
    to: usize,
)
    requires s_bound { base + length s.now < 2 ^ 16 }
    requires ready { Ready (plain_record w.widths) s.now at to }
    requires size_bound { (size < 2 ^ 16) × (elements < 2 ^ 16) }
    ensures { (r : AvlRecord) (n : ℕ) → plain_record w.widths s.now at ≡ got r n → out.new ≡ sets out.old to (record_words r.fixed (base + at) size elements) }
{
    store::store_word(out, to, wire::be64(s, at));
    store::store_word(out, to + 1, wire::be64(s, at + 9));
    store::store_word(out, to + 2, motion(w, s, at));
    store::store_word(out, to + 3, extent(w, s, at, base + at, size, elements));
}

impl RecordWriter for Listing {
    ghost of_record = { λ x w. record_text (listed_word x.base) w (head_text x.base w) };

    // The words of a record and its elements. Its own come last: how many elements and bytes it has shows then.
    fn put_record(self, w: NarrowWidths, s: &[u8], at: usize, out: &mut [u64], to: usize) -> Moved {
        let first = to + 4;
        let moved = traverse::put_groups(self, w, s, at + element::fixed_size(w), out, first);
        put_head(
            w,
            self.base,
            s,
            at,
            moved.from - at,
            moved.to - first,
            out,
            to,
        );
        moved
    }
}

// Writes a table: what a datagram's header says, and where the records stand in the input.
#[derive(Clone, Copy)]
struct Table {
    packet: u16,
    unused: u8,
    avl: u8,
    imei: u64,
    base: usize,
}

impl FieldWriter for Table {
    type Item = u64;

    ghost of_field = { λ x. field_contents (record { packet = x.packet; unused = x.unused; avl = x.avl; imei = x.imei }) x.base };

    ghost spans = { λ x n. x.base + n < 2 ^ 16 };

    // The packet's words, then those of the records in `s`.
    fn put_field(self, codec: u8, count: usize, s: &[u8], out: &mut [u64]) -> Moved {
        let marks = (self.unused as u64) + 0x100 * (self.avl as u64);
        store::store_word(
            out,
            0,
            quad_word(codec as u64, count as u64, self.packet as u64, marks),
        );
        store::store_word(out, 1, self.imei);
        let listing = Listing { base: self.base };
        traverse::put_records(listing, walk::widths_of(codec), count, s, out, 2)
    }
}

// The table of the data field `d`, which has at most a word for every two bytes.
fn write_field(table: Table, d: &[u8], out: &mut [u64]) -> Result<usize, Refusal>
    requires field { Field d.now }
    requires d_bound { table.base + length d.now < 2 ^ 16 }
    ensures { Writes (field_contents (record { packet = table.packet; unused = table.unused; avl = table.avl; imei = table.imei }) table.base) d.now out.old out.new result }
{
    traverse::write_field(table, d, d.len() / 2 + 1, out)
}

// The table of contents of a TCP data packet.
pub fn contents_of_packet(family: usize, p: &[u8], out: &mut [u64]) -> Result<usize, Refusal>
    ensures answer { result ≡ writing (contents_of_packet (limits_of family) p.now) out.old }
    ensures buffer { out.new ≡ leaving (contents_of_packet (limits_of family) p.now) out.old }
{
    packet::judge_packet(wire::limits_of(family), p, 0)?;
    let end = p.len() - 4;
    let table = Table {
        packet: 0,
        unused: 0,
        avl: 0,
        imei: 0,
        base: 10,
    };
    write_field(table, &p[8..end], out)
}

// The table of contents of a UDP datagram: by itself, because of its header and its judge.
pub fn contents_of_datagram(family: usize, p: &[u8], out: &mut [u64]) -> Result<usize, Refusal>
    ensures answer { result ≡ writing (contents_of_datagram (limits_of family) p.now) out.old }
    ensures buffer { out.new ≡ leaving (contents_of_datagram (limits_of family) p.now) out.old }
{
    let accepted = datagram::read_datagram(family, p)?;
    let header = accepted.header;
    let table = Table {
        packet: header.packet,
        unused: header.unused,
        avl: header.avl,
        imei: header.imei,
        base: 25,
    };
    write_field(table, &p[23..], out)
}

// ---- reading a table

// `n` bits of a word, from bit `at` on.
fn bits(word: u64, at: u32, n: u32) -> u64
    requires { (at < 64) × (n < 64) }
    ensures value { result ≡ bits word at n }
    ensures below { result < 2 ^ n }
{
    (word >> at) % (1 << n)
}

// How many records the packet has.
pub fn record_count(t: &[u64]) -> usize
    requires { 1 ≤ length t.now }
    ensures { result ≡ (title_result t.now).count }
{
    bits(t[0], 16, 16) as usize
}

// The record whose words begin at `at`.
pub fn record_at(t: &[u64], at: usize) -> RecordFields
    requires { at + 4 ≤ length t.now }
    ensures { result ≡ record_of (drop at t.now) }
{
    let place = t[at + 1];
    let motion = t[at + 2];
    let extent = t[at + 3];
    RecordFields {
        timestamp: t[at],
        latitude: wire::signed32(bits(place, 0, 32) as u32),
        longitude: wire::signed32(bits(place, 32, 32) as u32),
        speed: bits(motion, 0, 16) as u16,
        satellites: bits(motion, 16, 8) as u8,
        angle: bits(motion, 24, 16) as u16,
        altitude: wire::signed16(bits(motion, 40, 16) as u16),
        priority: bits(motion, 56, 4) as u8,
        generation: bits(motion, 60, 4) as u8,
        event: bits(extent, 0, 16) as u16,
        elements: bits(extent, 48, 16) as usize,
    }
}

// The value of an element's word.
pub fn value_of(word: u64) -> Value
    ensures { result ≡ value_of word }
{
    Value {
        id: bits(word, 0, 16) as u16,
        kind: bits(word, 16, 8) as u8,
        offset: bits(word, 32, 16) as usize,
        size: bits(word, 48, 16) as usize,
    }
}
