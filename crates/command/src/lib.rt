// Command packets of codecs 12, 13 and 14: read and written.
#![tactic(auto)]

ghost use Rattle.std.specs.Prelude.{◌≡◌, ℕ, ◌+◌, ◌-◌, ◌*◌, ◌≤◌, eqb, length, Ok};
ghost use Rattle.std.proofs.lemmas.List.Edits.{sets};
ghost use Rattle.wire.specs.Answers.{from, told};
ghost use Rattle.wire.specs.Numbers.{number_at, pick, value_from};
ghost use Rattle.wire.specs.Reading.{◌>>=◌ as bind, pure, repeat};
ghost use Rattle.wire.specs.Buffers.{writing, leaving};
ghost use Rattle.wire.specs.Imei.{packed, text_digit};
ghost use Rattle.command.specs.Layouts.{layout_of, row_as, is_command, heading, Narrow, types, member};
ghost use Rattle.command.specs.Commands.{body_bytes, command_field, mismatch, command_body, read_field, read_command, answer_command, text_view, text_offset, answered};
ghost use Rattle.command.specs.Writing.{given_imei, given_time, bytes_within, command_bytes};
ghost use Rattle.wire.specs.Limits.{limits_of};
ghost use Rattle.wire.specs.Places.{behind};
ghost use Rattle.command.specs.Walks.{body_as, planned};

use wire::{Limits, Refusal};

// A row of the table of command layouts: the codec, whether it has type 11 besides 05 and 06, and how many bytes of IMEI and of time stand before the text.
#[derive(Clone, Copy)]
pub struct Layout {
    pub codec: u8,
    pub mismatch: bool,
    pub imei: usize,
    pub time: usize,
}

// A command's codec, type, IMEI (0 but in codec 14), time (0 but in codec 13), and its text's offset from the input's start and length. Words first: they stand where a refusal's words do, and bytes there would be read as a word just after they were written, which stalls.
#[derive(Clone, Copy)]
pub struct CommandFields {
    pub imei: u64,
    pub offset: usize,
    pub size: usize,
    pub time: u32,
    pub codec: u8,
    pub kind: u8,
}

// So many bytes in one codec, none in the others.
fn width_in(codec: u8, one: u8, width: usize) -> usize
    ensures { result ≡ pick (eqb codec one) width 0 }
{
    if codec == one { width } else { 0 }
}

// The table: codecs 12 to 14. By tests of the codec: behind one of them the compiler knows the widths.
pub fn layout_of(codec: u8) -> Option<Layout>
    ensures { row_as result ≡ layout_of codec }
{
    match codec {
        0x0C..=0x0E => Some(Layout {
            codec,
            mismatch: codec == 0x0E,
            imei: width_in(codec, 0x0E, 8),
            time: width_in(codec, 0x0D, 4),
        }),
        _ => None,
    }
}

// A packet of one of these codecs.
pub fn is_command(p: &[u8]) -> bool
    ensures { result ≡ is_command p.now }
{
    if p.len() <= 8 {
        return false;
    }
    layout_of(p[8]).is_some()
}

// The message types of a row: 05, 06 and, where it has it, 11.
fn allows(l: Layout, kind: u8) -> bool
    ensures { result ≡ member kind (types l) }
{
    match kind {
        0x05 | 0x06 => true,
        0x11 => l.mismatch,
        _ => false,
    }
}

// Type 11 has no text.
fn allows_text(kind: u8, text: &[u8]) -> bool
    ensures { result ≡ mismatch kind text.now }
{
    kind != 0x11 || text.is_empty()
}

// The time: a number of `w` bytes, 0 where there are none.
fn read_time(s: &[u8], at: usize, w: usize) -> u32
    requires { (at + w ≤ length s.now) × (w ≤ 4) }
    ensures { result ≡ number_at s.now at w }
{
    wire::number(s, at, w) as u32
}

// What stands between the quantities: the type, the IMEI, the time and how long the text is.
#[derive(Clone, Copy)]
pub struct Body {
    pub kind: u8,
    pub imei: u64,
    pub time: u32,
    pub size: usize,
}

fn read_body(l: Layout, s: &[u8]) -> Result<Body, Refusal>
    requires { Narrow l }
    ensures { result ≡ body_as (command_body l (length s.now) s.now 0) }
{
    if s.len() < 1 {
        return Err(Refusal::at(8, 0));
    }
    let kind = s[0];
    if !allows(l, kind) {
        return Err(Refusal::at(13, 0));
    }
    if s.len() < 5 {
        return Err(Refusal::at(8, 1));
    }
    let size = wire::be32(s, 1) as usize;
    let end = 5 + size;
    if end != s.len() {
        return Err(Refusal::at(14, 1));
    }
    if size < l.imei + l.time {
        return Err(Refusal::at(14, 1));
    }
    let (imei, at) = wire::read_packed(s, 5, l.imei)?;
    let time = read_time(s, at, l.time);
    let start = at + l.time;
    if !allows_text(kind, &s[start..end]) {
        return Err(Refusal::at(14, start));
    }
    Ok(Body {
        kind,
        imei,
        time,
        size: end - start,
    })
}

// The data field, which starts at 8 in the packet. The text ends where the second quantity stands.
fn read_field(d: &[u8]) -> Result<CommandFields, Refusal>
    requires { 3 ≤ length d.now }
    ensures { result ≡ answered (from 8 (read_field d.now)) }
{
    let codec = d[0];
    let Some(l) = layout_of(codec) else {
        return Err(Refusal::at(6, 8));
    };
    if d[1] != 1 {
        return Err(Refusal::at(7, 9));
    }
    let last = d.len() - 1;
    if d[last] != 1 {
        return Err(Refusal::at(7, 8 + last));
    }
    match read_body(l, &d[2..last]) {
        Ok(
            Body {
                kind,
                imei,
                time,
                size,
            },
        ) => Ok(CommandFields {
            codec,
            kind,
            imei,
            time,
            offset: 8 + (last - size),
            size,
        }),
        Err(x) => Err(Refusal {
            number: x.number,
            index: x.index,
            place: 8 + (2 + x.place),
        }),
    }
}

pub fn judge_command(limits: Limits, p: &[u8]) -> Result<CommandFields, Refusal>
    ensures { result ≡ answer_command limits p.now }
{
    let size = frame::unframed(limits.largest, p)?;
    let end = 8 + size;
    read_field(&p[8..end])
}

pub fn read_command(family: usize, p: &[u8]) -> Result<CommandFields, Refusal>
    ensures { result ≡ answer_command (limits_of family) p.now }
{
    judge_command(wire::limits_of(family), p)
}

// The text where it stands in the input, empty for a refused packet.
pub fn command_text(family: usize, p: &[u8]) -> &[u8]
    ensures bytes { result.now ≡ text_view (read_command (limits_of family) p.now) }
    ensures place { result.ref_ptr ≡ behind p.entry.ref_ptr (text_offset (answer_command (limits_of family) p.now)) }
{
    match read_command(family, p) {
        Ok(f) => {
            let start = f.offset;
            let end = start + f.size;
            &p[start..end]
        }
        Err(_) => &p[0..0],
    }
}

// How many digits stand in `w` bytes; the first of all is 0 and is not given.
fn digit_count(w: usize) -> usize
    requires { w ≤ 8 }
    ensures { result ≡ 2 * w - 1 }
{
    (2 * w).saturating_sub(1)
}

// The number that at most 15 digits give. Fifteen by themselves: a count that is known compiles to no loop.
fn digits_of(s: &[u8]) -> Result<u64, Refusal>
    requires { length s.now ≤ 15 }
    ensures { result ≡ told 0 (bind (repeat (length s.now) text_digit) (λ ds. pure (value_from 10 0 ds)) s.now 0) }
{
    match s.len() {
        15 => wire::text_number(15, s, 0),
        n => wire::text_number(n, s, 0),
    }
}

fn given_imei(l: Layout, s: &[u8]) -> Result<u64, Refusal>
    requires { l.imei ≤ 8 }
    ensures { result ≡ given_imei l s.now }
{
    if s.len() != digit_count(l.imei) {
        return Err(Refusal::of(15));
    }
    match digits_of(s) {
        Ok(imei) => Ok(imei),
        Err(r) => Err(Refusal::of(r.number)),
    }
}

// The time as the caller gives it, ignored where the codec has none.
fn given_time(l: Layout, time: u32) -> u32
    ensures { result ≡ given_time l time }
{
    if l.time == 0 {
        return 0;
    }
    time
}

// The length of the data field.
fn field_size(l: Layout, text: &[u8]) -> usize
    requires { Narrow l }
    ensures { result ≡ 8 + heading l + length text.now }
{
    8 + (l.imei + l.time) + text.len()
}

// Decides everything before a byte is written.
fn plan(limits: Limits, l: Layout, kind: u8, imei: &[u8], text: &[u8]) -> Result<u64, Refusal>
    requires { layout_of l.codec ≡ Ok l }
    ensures { (time : ℕ) → planned l kind time text.now result ≡ bytes_within limits l.codec kind imei.now time text.now }
{
    if !allows(l, kind) {
        return Err(Refusal::of(13));
    }
    let n = given_imei(l, imei)?;
    if !allows_text(kind, text) {
        return Err(Refusal::of(14));
    }
    let whole = field_size(l, text) + 12;
    if limits.largest < whole {
        return Err(Refusal::of(14));
    }
    Ok(n)
}

// An IMEI in `w` bytes, two digits a byte, the higher first.
fn put_packed(out: &mut [u8], at: usize, w: usize, imei: u64)
    requires { at + w ≤ length out.old }
    ensures { out.new ≡ sets out.old at (packed w imei) }
{
    let mut rest = imei;
    for i in (0..w).rev() {
        let d = rest % 100;
        out[at + i] = (d / 10 * 16 + d % 10) as u8;
        rest /= 100;
    }
}

fn put_body(out: &mut [u8], l: Layout, kind: u8, imei: u64, time: u32, text: &[u8])
    requires { 15 + heading l + length text.now ≤ length out.old }
    ensures { out.new ≡ sets out.old 10 (body_bytes l (record { codec = l.codec; type = kind; imei = imei; time = time; text = text.now })) }
{
    let w = l.imei;
    let ahead = w + l.time;
    let size = ahead + text.len();
    let at = 15 + w;
    let start = 15 + ahead;
    wire::put_be(out, 10, 1, kind as u64);
    wire::put_be(out, 11, 4, size as u64);
    put_packed(out, 15, w, imei);
    wire::put_be(out, at, l.time, time as u64);
    wire::put_bytes(out, start, text);
}

// The data field, at 8.
fn put_field(out: &mut [u8], l: Layout, kind: u8, imei: u64, time: u32, text: &[u8])
    requires { 16 + heading l + length text.now ≤ length out.old }
    ensures { out.new ≡ sets out.old 8 (command_field l (record { codec = l.codec; type = kind; imei = imei; time = time; text = text.now })) }
{
    let last = 15 + (l.imei + l.time) + text.len();
    wire::put_be(out, 8, 1, l.codec as u64);
    wire::put_be(out, 9, 1, 1);
    put_body(out, l, kind, imei, time, text);
    wire::put_be(out, last, 1, 1);
}

// The field, then the frame around it.
fn write_planned(
    l: Layout,
    kind: u8,
    imei: u64,
    time: u32,
    text: &[u8],
    out: &mut [u8],
) -> Result<usize, Refusal>
    requires { Narrow l }
    ensures result_value { result ≡ writing (planned l kind time text.now (Ok imei)) out.old }
    ensures out_after { out.new ≡ leaving (planned l kind time text.now (Ok imei)) out.old }
{
    let size = field_size(l, text);
    let whole = size + 12;
    if out.len() < whole {
        return Err(Refusal::of(18));
    }
    put_field(out, l, kind, imei, given_time(l, time), text);
    frame::put_frame(out, size);
    Ok(whole)
}

// Writes the packet to the start of `out`, within limits.
fn write_within(
    limits: Limits,
    codec: u8,
    kind: u8,
    imei: &[u8],
    time: u32,
    text: &[u8],
    out: &mut [u8],
) -> Result<usize, Refusal>
    ensures result_value { result ≡ writing (bytes_within limits codec kind imei.now time text.now) out.old }
    ensures out_after { out.new ≡ leaving (bytes_within limits codec kind imei.now time text.now) out.old }
{
    let Some(l) = layout_of(codec) else {
        return Err(Refusal::of(6));
    };
    let n = plan(limits, l, kind, imei, text)?;
    write_planned(l, kind, n, time, text, out)
}

// Writes the packet to the start of `out`; a refusal changes no byte.
pub fn write_command(
    family: usize,
    codec: u8,
    kind: u8,
    imei: &[u8],
    time: u32,
    text: &[u8],
    out: &mut [u8],
) -> Result<usize, Refusal>
    ensures result_value { result ≡ writing (command_bytes (limits_of family) codec kind imei.now time text.now) out.old }
    ensures out_after { out.new ≡ leaving (command_bytes (limits_of family) codec kind imei.now time text.now) out.old }
{
    let limits = wire::limits_of(family);
    if limits.largest < 1 {
        return Err(Refusal::of(21));
    }
    write_within(limits, codec, kind, imei, time, text, out)
}
