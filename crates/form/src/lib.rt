// The TLV form of packets and datagrams (the paper's house form), written into a lent buffer.
#![tactic(auto)]

ghost use Rattle.std.specs.Prelude.{◌≡◌, ◌+◌, ◌^◌, ◌≤◌, ◌<◌, ◌++◌, length};
ghost use Rattle.wire.specs.Numbers.{number_at, le};
ghost use Rattle.wire.specs.Reading.{got, repeat};
ghost use Rattle.wire.specs.Buffers.{writing, leaving};
ghost use Rattle.store.specs.Stores.{Stored};
ghost use Rattle.avl.specs.RecordReader.{value_size, fixed_fields, plain_record};
ghost use Rattle.avl.specs.Codecs.{widths_of};
ghost use Rattle.tlv.specs.Form.{form};
ghost use Rattle.tlv.specs.PacketOf.{form_of_packet, form_of_datagram};
ghost use Rattle.wire.specs.Limits.{limits_of};
ghost use Rattle.traverse.specs.Texts.{record_text};
ghost use Rattle.traverse.specs.Copying.{Ready, Copies};
ghost use Rattle.traverse.specs.Fields.{field_text, Field, Writes};
ghost use Rattle.form.specs.Moves.{entry_text, fixed_text, head_text, form_of_field};

use avl::NarrowWidths;
use traverse::{ElementWriter, FieldWriter, Moved, RecordWriter};
use wire::Refusal;

// Reads a number of `w` bytes and stores it in `v`, the lowest first.
fn store_number(s: &[u8], at: usize, w: usize, out: &mut [u8], to: usize, v: usize) -> usize
    requires { (at + w ≤ length s.now) × (w ≤ 8) × (to ≤ 2 ^ 40) × (v ≤ 8) }
    ensures { Stored (le v (number_at s.now at w)) out.old out.new to result }
{
    store::store_le(out, to, v, wire::number(s, at, w))
}

// A fixed field of `w` bytes: `i` bytes behind the record's start, and as many behind the head of its entry.
fn store_field(s: &[u8], at: usize, i: usize, w: usize, out: &mut [u8], to: usize) -> usize
    requires { (at + i + w ≤ length s.now) × (w ≤ 8) × (i ≤ 24) × (to ≤ 2 ^ 36) }
    ensures { Stored (le w (number_at s.now (at + i) w)) out.old out.new (to + 4 + i) result }
{
    store_number(s, at + i, w, out, to + 4 + i, w)
}

// The entry of the fixed fields: kind 101, 27 bytes.
fn put_fixed(w: NarrowWidths, s: &[u8], at: usize, out: &mut [u8], to: usize) -> Moved
    requires ready { Ready (fixed_fields w.widths) s.now at to }
    ensures { Copies (fixed_fields w.widths) fixed_text s.now at to out.old out.new result }
{
    let event = w.widths.event;
    let generation = w.widths.generation;
    let behind = at + 24;
    let last = behind + event;
    store::store_head(out, to, 27, 101);
    store_field(s, at, 0, 8, out, to);
    store_field(s, at, 8, 1, out, to);
    store_field(s, at, 9, 4, out, to);
    store_field(s, at, 13, 4, out, to);
    store_field(s, at, 17, 2, out, to);
    store_field(s, at, 19, 2, out, to);
    store_field(s, at, 21, 1, out, to);
    store_field(s, at, 22, 2, out, to);
    store_number(s, behind, event, out, to + 28, 2);
    store_number(s, last, generation, out, to + 30, 1);
    Moved {
        from: last + generation,
        to: to + 31,
    }
}

// Where a value starts, and its length.
#[derive(Drop)]
struct Value {
    start: usize,
    size: usize,
}

// The value behind the ID: as long as its kind says, or as the two bytes before it say.
fn value_at(kind: usize, s: &[u8], at: usize) -> Value
    requires { kind ≡ 9 → at + 2 ≤ length s.now }
    ensures { value_size kind s.now at ≡ got result.size result.start }
{
    if kind == 9 {
        return Value {
            start: at + 2,
            size: wire::be16(s, at) as usize,
        };
    }
    Value {
        start: at,
        size: kind,
    }
}

// The first six bytes of an element's entry: its length, its kind, its ID. One test of the room serves all three.
fn put_head(out: &mut [u8], to: usize, size: u64, kind: u64, id: u64) -> usize
    requires { to ≤ 2 ^ 36 }
    ensures { Stored ((le 2 size ++ le 2 kind) ++ le 2 id) out.old out.new to result }
{
    let end = to + 6;
    if end <= out.len() {
        wire::put_le(out, to, 2, size);
        wire::put_le(out, to + 2, 2, kind);
        wire::put_le(out, to + 4, 2, id);
        return end;
    }
    let next = store::store_head(out, to, size, kind);
    store::store_le(out, next, 2, id)
}

// Writes entries.
#[derive(Clone, Copy)]
struct Entries;

impl ElementWriter for Entries {
    type Item = u8;

    ghost of_element = { λ x. entry_text };

    ghost takes = { λ x n. Unit {0} };

    // The entry of an element: its kind, its ID, its value as it stands.
    fn put_element(
        self,
        w: NarrowWidths,
        kind: usize,
        s: &[u8],
        at: usize,
        out: &mut [u8],
        to: usize,
    ) -> Moved {
        let id = w.widths.id;
        let value = value_at(kind, s, at + id);
        let start = value.start;
        let size = value.size;
        let end = start + size;
        let number = wire::short_number(s, at, id);
        put_head(out, to, (2 + size) as u64, kind as u64, number);
        store::store_bytes(out, to + 6, &s[start..end]);
        Moved {
            from: end,
            to: to + 6 + size,
        }
    }
}

impl RecordWriter for Entries {
    ghost of_record = { λ x w. record_text entry_text w head_text };

    // The entries of a record: that of the fixed fields, then those of its groups, which are those of its elements.
    fn put_record(self, w: NarrowWidths, s: &[u8], at: usize, out: &mut [u8], to: usize) -> Moved {
        let count = w.widths.count;
        let fixed = put_fixed(w, s, at, out, to);
        traverse::put_groups(self, w, s, fixed.from + count, out, fixed.to)
    }
}

impl FieldWriter for Entries {
    type Item = u8;

    ghost of_field = { λ x. form };

    ghost spans = { λ x n. Unit {0} };

    // The form of the records in `s`: the entry of the codec, then theirs.
    fn put_field(self, codec: u8, count: usize, s: &[u8], out: &mut [u8]) -> Moved {
        let head: [u8; 5] = [1, 0, 100, 0, codec];
        store::store_bytes(out, 0, &head);
        traverse::put_records(self, walk::widths_of(codec), count, s, out, 5)
    }
}

// The form of the data field `d`, which is at most four times as long.
fn write_field(d: &[u8], out: &mut [u8]) -> Result<usize, Refusal>
    requires { Field d.now }
    ensures { Writes form d.now out.old out.new result }
{
    traverse::write_field(Entries, d, 4 * d.len(), out)
}

// The form of a data field, which is judged first.
pub fn form_of_field(longest: usize, d: &[u8], out: &mut [u8]) -> Result<usize, Refusal>
    requires { (3 ≤ length d.now) × (length d.now < 2 ^ 32) }
    ensures answer { result ≡ writing (form_of_field longest d.now) out.old }
    ensures buffer { out.new ≡ leaving (form_of_field longest d.now) out.old }
{
    walk::read_data(longest, 0, d, 0)?;
    write_field(d, out)
}

// The form of a TCP data packet.
pub fn form_of_packet(family: usize, p: &[u8], out: &mut [u8]) -> Result<usize, Refusal>
    ensures answer { result ≡ writing (form_of_packet (limits_of family) p.now) out.old }
    ensures buffer { out.new ≡ leaving (form_of_packet (limits_of family) p.now) out.old }
{
    packet::judge_packet(wire::limits_of(family), p, 0)?;
    let end = p.len() - 4;
    write_field(&p[8..end], out)
}

// The form of a UDP datagram. Two functions: one over both would take the judge, its clause and the two bounds of the slice, for these two lines.
pub fn form_of_datagram(family: usize, p: &[u8], out: &mut [u8]) -> Result<usize, Refusal>
    ensures answer { result ≡ writing (form_of_datagram (limits_of family) p.now) out.old }
    ensures buffer { out.new ≡ leaving (form_of_datagram (limits_of family) p.now) out.old }
{
    datagram::judge_datagram(family, p, 0)?;
    write_field(&p[23..], out)
}
