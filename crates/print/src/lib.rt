// Lines for the billing desk: that of a record, and those of all records of a packet, printed into a lent buffer.
#![tactic(auto)]

ghost use Rattle.std.specs.Prelude.{◌≡◌, ◌+◌, ◌*◌, ◌^◌, ◌≤◌, ◌<◌, ◌∷◌, length};
ghost use Rattle.std.proofs.lemmas.List.Edits.{sets};
ghost use Rattle.wire.specs.Limits.{limits_of};
ghost use Rattle.wire.specs.Numbers.{number_at, digits};
ghost use Rattle.wire.specs.Sequences.{joined};
ghost use Rattle.wire.specs.Imei.{ascii_digit};
ghost use Rattle.wire.specs.Buffers.{writing, leaving};
ghost use Rattle.store.specs.Stores.{Stored};
ghost use Rattle.text.specs.Decimal.{decimal};
ghost use Rattle.avl.specs.Codecs.{widths_of};
ghost use Rattle.avl.specs.RecordReader.{plain_record};
ghost use Rattle.traverse.specs.Copying.{Ready};
ghost use Rattle.traverse.specs.Fields.{Field, Writes};
ghost use Rattle.lookup.specs.Answers.{PartIn};
ghost use Rattle.line.specs.Lines.{unsigned_degrees, degrees, escaped, quoted};
ghost use Rattle.line.specs.RecordLines.{line_of_packet, line_of_datagram, lines_of_packet, lines_of_datagram};
ghost use Rattle.print.specs.Printing.{printed, leading, line_text, lines_text, WritesLine, ShortPart, LineIn};

use avl::NarrowWidths;
use lookup::{Part, TcpPacket, UdpDatagram};
use traverse::{ElementWriter, FieldWriter, Moved, RecordWriter};
use wire::Refusal;

// ---- decimal numbers

// How many digits a number has: four for each division.
fn digit_count(n: u64) -> usize
    ensures { result ≡ length (decimal n) }
{
    let mut rest = n;
    let mut count: usize = 1;
    // down the number, whose length is what is looked for
    while 10_000 <= rest {
        rest /= 10_000;
        count += 4;
    }
    if rest < 10 {
        return count;
    }
    if rest < 100 {
        return count + 1;
    }
    if rest < 1000 {
        return count + 2;
    }
    count + 3
}

// Stores the digits of a number, which are so many and for which there is room: the last first, two at a time.
fn put_decimal(out: &mut [u8], to: usize, count: usize, n: u64)
    requires { (count ≡ length (decimal n)) × (to + count ≤ length out.old) }
    ensures { out.new ≡ sets out.old to (decimal n) }
{
    let mut rest = n;
    let mut next = to + count;
    // down the number, as above: the digits that are left are no count
    while 100 <= rest {
        let pair = rest % 100;
        next -= 2;
        out[next + 1] = (48 + pair % 10) as u8;
        out[next] = (48 + pair / 10) as u8;
        rest /= 100;
    }
    if 10 <= rest {
        out[to + 1] = (48 + rest % 10) as u8;
        out[to] = (48 + rest / 10) as u8;
    } else {
        out[to] = (48 + rest) as u8;
    }
}

// Stores the digits of a number, which are so many, where the buffer may end before them.
fn cut_decimal(out: &mut [u8], to: usize, count: usize, n: u64) -> usize
    requires { (count ≡ length (decimal n)) × (to < 2 ^ 63) }
    ensures { Stored (decimal n) out.old out.new to result }
{
    if out.len() <= to {
        return to + count;
    }
    let mut text = [0u8; 20];
    put_decimal(&mut text, 0, count, n);
    store::store_bytes(out, to, &text[0..count])
}

// Stores a number in digits: the room is tested once.
fn store_decimal(out: &mut [u8], to: usize, n: u64) -> usize
    requires { to < 2 ^ 62 }
    ensures { Stored (decimal n) out.old out.new to result }
{
    let count = digit_count(n);
    let end = to + count;
    if end <= out.len() {
        put_decimal(out, to, count, n);
        return end;
    }
    cut_decimal(out, to, count, n)
}

// Stores a mark, and a number in digits behind it: the room is tested once.
fn store_marked(out: &mut [u8], to: usize, mark: u8, n: u64) -> usize
    requires { to < 2 ^ 62 }
    ensures { Stored (mark ∷ decimal n) out.old out.new to result }
{
    let count = digit_count(n);
    let first = to + 1;
    let end = first + count;
    if end <= out.len() {
        out[to] = mark;
        put_decimal(out, first, count, n);
        return end;
    }
    store::store_byte(out, to, mark);
    cut_decimal(out, first, count, n)
}

// ---- degrees

// Stores a point and the seven lowest digits of a number, for which there is room.
fn put_places(out: &mut [u8], to: usize, n: u64)
    requires { to + 8 ≤ length out.old }
    ensures { out.new ≡ sets out.old to (46 ∷ joined ascii_digit (digits 10 7 n)) }
{
    out[to] = 46;
    let mut rest = n;
    for i in (0..7).rev() {
        out[to + 1 + i] = (48 + rest % 10) as u8;
        rest /= 10;
    }
}

// Stores a point and the seven lowest digits of a number.
fn store_places(out: &mut [u8], to: usize, n: u64) -> usize
    requires { to < 2 ^ 63 }
    ensures { Stored (46 ∷ joined ascii_digit (digits 10 7 n)) out.old out.new to result }
{
    let end = to + 8;
    if end <= out.len() {
        put_places(out, to, n);
        return end;
    }
    let mut text = [0u8; 8];
    put_places(&mut text, 0, n);
    store::store_bytes(out, to, &text)
}

// Stores ten-millionths of a degree as degrees with seven places.
fn store_unsigned(out: &mut [u8], to: usize, m: u64) -> usize
    requires { to < 2 ^ 61 }
    ensures { Stored (unsigned_degrees m) out.old out.new to result }
{
    let point = store_decimal(out, to, m / 10_000_000);
    store_places(out, point, m % 10_000_000)
}

// The same with a sign: the distance from 0 of the least number of 32 bits is no number of 32 bits.
fn store_degrees(out: &mut [u8], to: usize, x: i32) -> usize
    requires { to < 2 ^ 60 }
    ensures { Stored (degrees x) out.old out.new to result }
{
    let size = text::distance(x);
    if x < 0 {
        store::store_byte(out, to, 45);
        return store_unsigned(out, to + 1, size);
    }
    store_unsigned(out, to, size)
}

// Stores a comma, and degrees behind it.
fn store_coordinate(out: &mut [u8], to: usize, x: i32) -> usize
    requires { to < 2 ^ 59 }
    ensures { Stored (44 ∷ degrees x) out.old out.new to result }
{
    store::store_byte(out, to, 44);
    store_degrees(out, to + 1, x)
}

// ---- tags

// Stores a byte of a tag as it is written, where there is room for three.
fn put_escaped(out: &mut [u8], to: usize, b: u8) -> usize
    requires { to + 3 ≤ length out.old }
    ensures { Stored (escaped b) out.old out.new to result }
{
    if line::is_plain(b) {
        out[to] = b;
        return to + 1;
    }
    out[to] = 92;
    out[to + 1] = text::glyph_of(b / 16);
    out[to + 2] = text::glyph_of(b % 16);
    to + 3
}

// Stores a byte of a tag as it is written.
fn store_escaped(out: &mut [u8], to: usize, b: u8) -> usize
    requires { to < 2 ^ 63 }
    ensures { Stored (escaped b) out.old out.new to result }
{
    if to + 3 <= out.len() {
        return put_escaped(out, to, b);
    }
    let mut text = [0u8; 3];
    let size = put_escaped(&mut text, 0, b);
    store::store_bytes(out, to, &text[0..size])
}

// Stores bytes as a tag, between quotes.
fn store_quoted(out: &mut [u8], to: usize, src: &[u8]) -> usize
    requires { to + 3 * length src.now < 2 ^ 62 }
    ensures { Stored (quoted src.now) out.old out.new to result }
{
    store::store_byte(out, to, 34);
    let mut next = to + 1;
    for i in 0..src.len() {
        next = store_escaped(out, next, src[i]);
    }
    store::store_byte(out, next, 34);
    next + 1
}

// ---- elements

// A number of `w` bytes: the widths of fixed values by their own reads, where a loop over the bytes costs more.
fn value_number(s: &[u8], at: usize, w: usize) -> u64
    requires { (at + w ≤ length s.now) × (w ≤ 8) }
    ensures { result ≡ number_at s.now at w }
{
    match w {
        0..=2 => wire::short_number(s, at, w),
        4 => u64::from(wire::be32(s, at)),
        8 => wire::be64(s, at),
        _ => wire::number(s, at, w),
    }
}

// Writes elements and lines.
#[derive(Clone, Copy)]
struct Lines;

impl ElementWriter for Lines {
    type Item = u8;

    ghost of_element = { λ x. printed };

    ghost takes = { λ x n. Unit {0} };

    // The element at `at`, behind a comma: its ID, and its number or its tag.
    fn put_element(
        self,
        w: NarrowWidths,
        kind: usize,
        s: &[u8],
        at: usize,
        out: &mut [u8],
        to: usize,
    ) -> Moved {
        let v = element::element_value(w, kind, s, at);
        let start = v.offset;
        let end = start + v.size;
        let mark = store_marked(out, to, 44, v.id as u64);
        if kind == 9 {
            store::store_byte(out, mark, 61);
            let last = store_quoted(out, mark + 1, &s[start..end]);
            return Moved {
                from: end,
                to: last,
            };
        }
        let last = store_marked(out, mark, 61, value_number(s, start, kind));
        Moved {
            from: end,
            to: last,
        }
    }
}

// ---- lines

// The leading fields of the record at `at`: timestamp, longitude, latitude, speed.
fn put_head(s: &[u8], at: usize, out: &mut [u8], to: usize) -> usize
    requires { (at + 24 ≤ length s.now) × (to < 2 ^ 58) }
    ensures { Stored (leading (number_at s.now (at + 0) 8) (number_at s.now (at + 9) 4) (number_at s.now (at + 13) 4) (number_at s.now (at + 22) 2)) out.old out.new to result }
{
    let first = store_decimal(out, to, wire::be64(s, at));
    let second = store_coordinate(out, first, wire::signed32(wire::be32(s, at + 9)));
    let third = store_coordinate(out, second, wire::signed32(wire::be32(s, at + 13)));
    store_marked(out, third, 44, wire::be16(s, at + 22) as u64)
}

impl RecordWriter for Lines {
    ghost of_record = { λ x w. line_text w };

    // The line of the record at `at`.
    fn put_record(self, w: NarrowWidths, s: &[u8], at: usize, out: &mut [u8], to: usize) -> Moved {
        let first = put_head(s, at, out, to);
        let moved = traverse::put_groups(self, w, s, at + element::fixed_size(w), out, first);
        let last = moved.to;
        let end = last + 1;
        store::store_byte(out, last, 10);
        Moved {
            from: moved.from,
            to: end,
        }
    }
}

impl FieldWriter for Lines {
    type Item = u8;

    ghost of_field = { λ x. lines_text };

    ghost spans = { λ x n. Unit {0} };

    fn put_field(self, codec: u8, count: usize, s: &[u8], out: &mut [u8]) -> Moved {
        traverse::put_records(self, walk::widths_of(codec), count, s, out, 0)
    }
}

// The lines of the data field `d`, which have at most four characters for each of its bytes.
fn write_field(d: &[u8], out: &mut [u8]) -> Result<usize, Refusal>
    requires { Field d.now }
    ensures { Writes lines_text d.now out.old out.new result }
{
    traverse::write_field(Lines, d, 4 * d.len(), out)
}

// The line of the record that `s` is, in the same way.
fn write_line(codec: u8, s: &[u8], out: &mut [u8]) -> Result<usize, Refusal>
    requires { Ready (plain_record (widths_of codec)) s.now 0 0 }
    ensures { WritesLine (widths_of codec) s.now out.old out.new result }
{
    traverse::write_records(Lines, codec, 1, s, 4 * s.len(), out)
}

// The line of the record that the part is.
fn line_in(p: &[u8], part: Result<Part, Refusal>, out: &mut [u8]) -> Result<usize, Refusal>
    requires part_in { PartIn p.now part }
    requires short_part { ShortPart p.now part }
    ensures { LineIn p.now part out.old out.new result }
{
    let Part {
        codec,
        start,
        elements: _,
        end,
    } = part?;
    write_line(codec, &p[start..end], out)
}

// ---- the calls

// The line of a record of a TCP data packet.
pub fn line_of_packet(family: usize, p: &[u8], n: usize, out: &mut [u8]) -> Result<usize, Refusal>
    ensures answer { result ≡ writing (line_of_packet (limits_of family) p.now n) out.old }
    ensures buffer { out.new ≡ leaving (line_of_packet (limits_of family) p.now n) out.old }
{
    line_in(p, lookup::part_in::<TcpPacket>(family, p, n), out)
}

// The line of a record of a UDP datagram.
pub fn line_of_datagram(family: usize, p: &[u8], n: usize, out: &mut [u8]) -> Result<usize, Refusal>
    ensures answer { result ≡ writing (line_of_datagram (limits_of family) p.now n) out.old }
    ensures buffer { out.new ≡ leaving (line_of_datagram (limits_of family) p.now n) out.old }
{
    line_in(p, lookup::part_in::<UdpDatagram>(family, p, n), out)
}

// The lines of all records of a TCP data packet.
pub fn lines_of_packet(family: usize, p: &[u8], out: &mut [u8]) -> Result<usize, Refusal>
    ensures answer { result ≡ writing (lines_of_packet (limits_of family) p.now) out.old }
    ensures buffer { out.new ≡ leaving (lines_of_packet (limits_of family) p.now) out.old }
{
    packet::judge_packet(wire::limits_of(family), p, 0)?;
    let end = p.len() - 4;
    write_field(&p[8..end], out)
}

// The lines of all records of a UDP datagram: by itself, as a form is.
pub fn lines_of_datagram(family: usize, p: &[u8], out: &mut [u8]) -> Result<usize, Refusal>
    ensures answer { result ≡ writing (lines_of_datagram (limits_of family) p.now) out.old }
    ensures buffer { out.new ≡ leaving (lines_of_datagram (limits_of family) p.now) out.old }
{
    datagram::judge_datagram(family, p, 0)?;
    write_field(&p[23..], out)
}
