// Writers that go along records: they read at one place and store at another.
#![tactic(auto)]

ghost use Rattle.std.specs.Prelude.{◌≡◌, ℕ, ◌-◌, ◌^◌, ◌≤◌, ◌<◌, List, length, refl};
ghost use Rattle.wire.specs.Reading.{repeat};
ghost use Rattle.avl.specs.declared.Widths.{Widths};
ghost use Rattle.avl.specs.Codecs.{kinds, widths_of};
ghost use Rattle.avl.specs.Records.{AvlRecord};
ghost use Rattle.avl.specs.DataField.{AvlData};
ghost use Rattle.avl.specs.RecordReader.{element, group, groups, plain_record};
ghost use Rattle.element.specs.Elements.{Located};
ghost use Rattle.traverse.specs.Texts.{element_text, group_text, groups_text, records_text};
ghost use Rattle.traverse.specs.Copying.{Ready, Copies, OnPace};
ghost use Rattle.traverse.specs.Fields.{field_text, Field, Writes, WritesRecords, HasRoom, FieldRoom};

use avl::NarrowWidths;
use wire::Refusal;

// Where reading and storing go on.
#[derive(Clone, Copy)]
pub struct Moved {
    pub from: usize,
    pub to: usize,
}

// A type of number that buffers are lent of.
pub trait Number {
    ghost numbers: { List Self → List ℕ };

    ghost same_length: { (l : List Self) → length (numbers l) ≡ length l };
}

impl Number for u8 {
    ghost numbers = { λ l. l };

    ghost same_length = { λ l. refl };
}

impl Number for u64 {
    ghost numbers = { λ l. l };

    ghost same_length = { λ l. refl };
}

// Writes the text of an element.
pub trait ElementWriter: Copy {
    type Item: Number;

    ghost of_element: { Self → Located → List ℕ };

    // so many bytes may be read
    ghost takes: { Self → ℕ → Type 0 };

    fn put_element(
        self,
        w: NarrowWidths,
        kind: usize,
        s: &[u8],
        at: usize,
        out: &mut [Self::Item],
        to: usize,
    ) -> Moved
        requires le_kind { (1 ≤ kind) × (kind ≤ 9) }
        requires taken { takes self (length s.now) }
        requires ready { Ready (element w.widths kind) s.now at to }
        ensures copies { Copies (element w.widths kind) (element_text (of_element self) w.widths kind) s.now at to (Self.Item.numbers out.old) (Self.Item.numbers out.new) result }
        ensures pace { OnPace s.now at to result };
}

// Writes a group: the texts of its elements. Counted down: counted up, the loop keeps a second number, and a form takes 3 to 9 % longer.
pub fn put_group<W: ElementWriter>(
    writer: W,
    w: NarrowWidths,
    kind: usize,
    s: &[u8],
    at: usize,
    out: &mut [W::Item],
    to: usize,
) -> Moved
    requires le_kind { (1 ≤ kind) × (kind ≤ 9) }
    requires taken { W.takes writer (length s.now) }
    requires ready { Ready (group w.widths kind) s.now at to }
    ensures copies { Copies (group w.widths kind) (group_text (W.of_element writer) w.widths kind) s.now at to (W.Item.numbers out.old) (W.Item.numbers out.new) result }
    ensures pace { OnPace s.now at to result }
{
    let count = w.widths.count;
    let elements = wire::short_number(s, at, count);
    let mut moved = Moved {
        from: at + count,
        to,
    };
    for _i in (0..elements).rev() {
        moved = writer.put_element(w, kind, s, moved.from, out, moved.to);
    }
    moved
}

// Writes the groups of a record, in the order of their kinds. One loop with one call, so that the compiler lays out the groups one behind another.
pub fn put_groups<W: ElementWriter>(
    writer: W,
    w: NarrowWidths,
    s: &[u8],
    at: usize,
    out: &mut [W::Item],
    to: usize,
) -> Moved
    requires taken { W.takes writer (length s.now) }
    requires ready { Ready (groups w.widths (kinds w.widths)) s.now at to }
    ensures copies { Copies (groups w.widths (kinds w.widths)) (groups_text (W.of_element writer) w.widths (kinds w.widths)) s.now at to (W.Item.numbers out.old) (W.Item.numbers out.new) result }
    ensures pace { OnPace s.now at to result }
{
    let n = walk::kind_count(w.widths);
    let mut moved = Moved { from: at, to };
    for k in 0..n {
        moved = put_group(writer, w, walk::kind_at(k), s, moved.from, out, moved.to);
    }
    moved
}

// Writes the text of a record, with its elements.
pub trait RecordWriter: ElementWriter {
    ghost of_record: { Self → Widths → ℕ → AvlRecord → List ℕ };

    fn put_record(
        self,
        w: NarrowWidths,
        s: &[u8],
        at: usize,
        out: &mut [Self::Item],
        to: usize,
    ) -> Moved
        requires taken { Self.takes self (length s.now) }
        requires ready { Ready (plain_record w.widths) s.now at to }
        ensures copies { Copies (plain_record w.widths) (of_record self w.widths) s.now at to (Self.Item.numbers out.old) (Self.Item.numbers out.new) result }
        ensures pace { OnPace s.now at to result };
}

// Writes `count` records, which begin at 0.
pub fn put_records<W: RecordWriter>(
    writer: W,
    w: NarrowWidths,
    count: usize,
    s: &[u8],
    out: &mut [W::Item],
    to: usize,
) -> Moved
    requires taken { W.takes writer (length s.now) }
    requires ready { Ready (repeat count (plain_record w.widths)) s.now 0 to }
    ensures copies { Copies (repeat count (plain_record w.widths)) (records_text (W.of_record writer w.widths) w.widths) s.now 0 to (W.Item.numbers out.old) (W.Item.numbers out.new) result }
    ensures pace { OnPace s.now 0 to result }
{
    let mut moved = Moved { from: 0, to };
    for _i in 0..count {
        moved = writer.put_record(w, s, moved.from, out, moved.to);
    }
    moved
}

// Writes the text of a data field, of its codec and its records.
pub trait FieldWriter: Copy {
    type Item: Number;

    ghost of_field: { Self → AvlData → List ℕ };

    // so many bytes of records may be read
    ghost spans: { Self → ℕ → Type 0 };

    fn put_field(self, codec: u8, count: usize, s: &[u8], out: &mut [Self::Item]) -> Moved
        requires count_bound { count < 2 ^ 8 }
        requires spanned { spans self (length s.now) }
        requires ready { Ready (repeat count (plain_record (widths_of codec))) s.now 0 5 }
        ensures { Copies (repeat count (plain_record (widths_of codec))) (field_text (of_field self) codec) s.now 0 0 (Self.Item.numbers out.old) (Self.Item.numbers out.new) result };
}

// Writes the text of `count` records. Where `out` has `room`, it has room for any; else a run over no buffer gives the length first: 18 where it is longer than `out`.
pub fn write_records<W: FieldWriter>(
    writer: W,
    codec: u8,
    count: usize,
    s: &[u8],
    room: usize,
    out: &mut [W::Item],
) -> Result<usize, Refusal>
    requires count_bound { count < 2 ^ 8 }
    requires spanned { W.spans writer (length s.now) }
    requires ready { Ready (repeat count (plain_record (widths_of codec))) s.now 0 5 }
    requires enough { HasRoom codec count (W.of_field writer) s.now room }
    ensures { WritesRecords codec count (W.of_field writer) s.now (W.Item.numbers out.old) (W.Item.numbers out.new) result }
{
    if room <= out.len() {
        let done = writer.put_field(codec, count, s, out);
        return Ok(done.to);
    }
    let size = writer.put_field(codec, count, s, &mut out[0..0]).to;
    if out.len() < size {
        return Err(Refusal::of(18));
    }
    writer.put_field(codec, count, s, out);
    Ok(size)
}

// Writes the text of the data field `d`, in the same way.
pub fn write_field<W: FieldWriter>(
    writer: W,
    d: &[u8],
    room: usize,
    out: &mut [W::Item],
) -> Result<usize, Refusal>
    requires field { Field d.now }
    requires spanned { W.spans writer (length d.now - 3) }
    requires enough { FieldRoom (W.of_field writer) d.now room }
    ensures { Writes (W.of_field writer) d.now (W.Item.numbers out.old) (W.Item.numbers out.new) result }
{
    let last = d.len() - 1;
    write_records(writer, d[0], d[1] as usize, &d[2..last], room, out)
}
