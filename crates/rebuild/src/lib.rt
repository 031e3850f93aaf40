// The TCP data packet of a TLV form: entries are read leniently, bytes are stored as far as the buffer goes, and what comes of it is judged.
#![tactic(auto)]

ghost use Rattle.std.specs.Prelude.{◌≡◌, ◌+◌, ◌*◌, ◌^◌, ◌≤◌, ◌<◌, [], length, MatchOption, Ok};
ghost use Rattle.std.proofs.lemmas.List.Edits.{sets};
ghost use Rattle.wire.specs.Numbers.{be, little_at};
ghost use Rattle.wire.specs.Sequences.{joined};
ghost use Rattle.wire.specs.Buffers.{writing, leaving};
ghost use Rattle.avl.specs.Codecs.{kinds};
ghost use Rattle.avl.specs.Records.{element_bytes, group_bytes, groups_bytes, fixed_bytes, record_bytes, element_count};
ghost use Rattle.avl.specs.DataField.{data_bytes};
ghost use Rattle.frame.specs.Frame.{framed};
ghost use Rattle.tlv.specs.Decoding.{entry_element, run, behind, fixed_of, groups_of, records_of, decoded};
ghost use Rattle.tlv.specs.PacketOf.{packet_within, packet_of_form};
ghost use Rattle.rebuild.specs.Candidates.{Roomy, form_within, has_form};
ghost use Rattle.wire.specs.Limits.{limits_of};
ghost use Rattle.store.specs.Stores.{Stored};
ghost use Rattle.store.specs.Entries.{next_at, entry_at, entries_at};
ghost use Rattle.rebuild.specs.FormPlaces.{record_at, behind_all, Goes, RecordFrom};

use avl::NarrowWidths;
use wire::{LARGEST_FORM, Limits, Refusal};

// Where reading and storing go on, and how many elements or records were stored.
#[derive(Clone, Copy)]
struct Run {
    from: usize,
    to: usize,
    count: usize,
}

// The most bytes of a data field.
const FIELD: usize = wire::LARGEST - 12;

// The little-endian number of `n` bytes at `at`, stored in `w` bytes, the highest first.
fn turned(b: &[u8], at: usize, n: usize, out: &mut [u8], to: usize, w: usize) -> usize
    requires { (at ≤ 32) × (n ≤ 8) × (to + w < 2 ^ 64) }
    ensures value { result ≡ to + w }
    ensures stored { Stored (be w (little_at b.now at n)) out.old out.new to result }
{
    store::store_be(out, to, w, store::little(b, at, n))
}

// The fixed fields of a record, from the body of its entry.
fn put_fixed(w: NarrowWidths, b: &[u8], out: &mut [u8], to: usize) -> usize
    requires to_bound { to ≤ 2 ^ 40 }
    ensures { Stored (fixed_bytes w.widths (fixed_of b.now)) out.old out.new to result }
{
    let a1 = turned(b, 0, 8, out, to, 8);
    let a2 = turned(b, 8, 1, out, a1, 1);
    let a3 = turned(b, 9, 4, out, a2, 4);
    let a4 = turned(b, 13, 4, out, a3, 4);
    let a5 = turned(b, 17, 2, out, a4, 2);
    let a6 = turned(b, 19, 2, out, a5, 2);
    let a7 = turned(b, 21, 1, out, a6, 1);
    let a8 = turned(b, 22, 2, out, a7, 2);
    let a9 = turned(b, 24, 2, out, a8, w.widths.event);
    turned(b, 26, 1, out, a9, w.widths.generation)
}

// An element of a kind, from the body of its entry.
fn put_element(w: NarrowWidths, kind: usize, b: &[u8], out: &mut [u8], to: usize) -> usize
    requires b_len_bound { length b.now ≤ 65536 }
    requires to_bound { to ≤ 2 ^ 40 }
    ensures { Stored (element_bytes w.widths kind (entry_element (record { kind = kind; body = b.now }))) out.old out.new to result }
{
    let start = b.len().min(2);
    let a1 = turned(b, 0, 2, out, to, w.widths.id);
    if kind == 9 {
        let size = b.len() - start;
        let a2 = store::store_be(out, a1, 2, size as u64);
        return store::store_bytes(out, a2, &b[start..]);
    }
    store::store_bytes(out, a1, &b[start..])
}

// The element of a kind whose entry is at `at`.
fn put_entry(w: NarrowWidths, kind: usize, f: &[u8], at: usize, out: &mut [u8], to: usize) -> usize
    requires f_len_bound { (length f.now ≤ 65536) × (at ≤ 65536) }
    requires to_bound { to ≤ 2 ^ 40 }
    ensures { Stored (element_bytes w.widths kind (entry_element (entry_at f.now at))) out.old out.new to result }
{
    put_element(w, kind, store::entry_body(f, at), out, to)
}

// The elements of a kind from `from` on.
fn put_run(
    w: NarrowWidths,
    kind: usize,
    f: &[u8],
    mut from: usize,
    out: &mut [u8],
    mut to: usize,
) -> Run
    requires f_len_bound { length f.now ≤ 65536 }
    requires from_bound { to + length (joined (element_bytes w.widths kind) (run kind (entries_at f.now from))) ≤ 2 ^ 40 }
    ensures { Goes f.now from (behind kind (entries_at f.now from)) (joined (element_bytes w.widths kind) (run kind (entries_at f.now from))) out.old out.new to (length (run kind (entries_at f.now from))) result }
{
    let mut count = 0;
    // By offset, here and in the walks below: the next walk goes on where one stops, and an iterator would have to give that back.
    while from < f.len() && store::entry_kind(f, from) == kind {
        to = put_entry(w, kind, f, from, out, to);
        from = store::next_at(f, from);
        count += 1;
    }
    Run { from, to, count }
}

// A group: its elements, and their count in front of them.
fn put_group(w: NarrowWidths, kind: usize, f: &[u8], from: usize, out: &mut [u8], to: usize) -> Run
    requires f_len_bound { length f.now ≤ 65536 }
    requires from_bound { to + length (group_bytes w.widths kind (run kind (entries_at f.now from))) ≤ 2 ^ 40 }
    ensures { Goes f.now from (behind kind (entries_at f.now from)) (group_bytes w.widths kind (run kind (entries_at f.now from))) out.old out.new to (length (run kind (entries_at f.now from))) result }
{
    let count = w.widths.count;
    let elements = put_run(w, kind, f, from, out, to + count);
    store::store_be(out, to, count, elements.count as u64);
    elements
}

// The groups from `from` on, in the order of their kinds, and how many elements they have.
fn put_groups(w: NarrowWidths, f: &[u8], mut from: usize, out: &mut [u8], mut to: usize) -> Run
    requires f_len_bound { length f.now ≤ 65536 }
    requires from_bound { to + length (groups_bytes w.widths (kinds w.widths) (groups_of (kinds w.widths) (entries_at f.now from))) ≤ 2 ^ 40 }
    ensures { Goes f.now from (behind_all (kinds w.widths) (entries_at f.now from)) (groups_bytes w.widths (kinds w.widths) (groups_of (kinds w.widths) (entries_at f.now from))) out.old out.new to (element_count (groups_of (kinds w.widths) (entries_at f.now from))) result }
{
    let mut count = 0;
    for k in 0..walk::kind_count(w.widths) {
        let group = put_group(w, walk::kind_at(k), f, from, out, to);
        from = group.from;
        to = group.to;
        count += group.count;
    }
    Run { from, to, count }
}

// The record whose entry 101 is at `at`: its fixed fields, its groups, and the total in front of these.
fn put_record(w: NarrowWidths, f: &[u8], at: usize, out: &mut [u8], to: usize) -> Run
    requires f_len_bound { (length f.now ≤ 65536) × (at ≤ 65536) }
    requires at_bound { to + length (record_bytes w.widths (record_at (kinds w.widths) f.now at)) ≤ 2 ^ 40 }
    ensures { Goes f.now (next_at f.now at) (behind_all (kinds w.widths) (entries_at f.now (next_at f.now at))) (record_bytes w.widths (record_at (kinds w.widths) f.now at)) out.old out.new to (element_count (groups_of (kinds w.widths) (entries_at f.now (next_at f.now at)))) result }
{
    let from = store::next_at(f, at);
    let count = w.widths.count;
    let a1 = put_fixed(w, store::entry_body(f, at), out, to);
    let groups = put_groups(w, f, from, out, a1 + count);
    store::store_be(out, a1, count, groups.count as u64);
    groups
}

// The first entry 101 from `from` on, or the end.
fn next_record(f: &[u8], mut from: usize) -> usize
    requires { length f.now ≤ 65536 }
    ensures { RecordFrom f.now from result }
{
    while from < f.len() && store::entry_kind(f, from) != 101 {
        from = store::next_at(f, from);
    }
    from
}

// The records from `from` on.
fn put_records(w: NarrowWidths, f: &[u8], mut from: usize, out: &mut [u8], mut to: usize) -> Run
    requires f_len_bound { length f.now ≤ 65536 }
    requires from_bound { to + length (joined (record_bytes w.widths) (records_of (kinds w.widths) (entries_at f.now from))) ≤ 2 ^ 40 }
    ensures { Goes f.now from [] (joined (record_bytes w.widths) (records_of (kinds w.widths) (entries_at f.now from))) out.old out.new to (length (records_of (kinds w.widths) (entries_at f.now from))) result }
{
    let mut count = 0;
    from = next_record(f, from);
    while from < f.len() {
        let record = put_record(w, f, from, out, to);
        from = next_record(f, record.from);
        to = record.to;
        count += 1;
    }
    Run { from, to, count }
}

// The data field of a form, and how long it is; a buffer that is too short gets its first bytes.
fn decode_form(f: &[u8], out: &mut [u8]) -> usize
    requires { length f.now ≤ 65536 }
    ensures size { result ≡ length (data_bytes (decoded f.now)) }
    ensures buffer { out.new ≡ sets out.old 0 (data_bytes (decoded f.now)) }
{
    let from = store::next_at(f, 0);
    let codec = store::byte_or_zero(store::entry_body(f, 0), 0);
    let a1 = store::store_be(out, 0, 1, codec as u64);
    let records = put_records(walk::widths_of(codec), f, from, out, a1 + 1);
    let count = records.count as u64;
    store::store_be(out, a1, 1, count);
    store::store_be(out, records.to, 1, count)
}

// Whether `d` is the data field of an acceptable packet and has the form `f`; its form is written into `g`.
fn same_form(limits: Limits, d: &[u8], f: &[u8], g: &mut [u8]) -> bool
    requires { (3 ≤ length d.now) × (length d.now < 2 ^ 32) × (4 * length d.now ≤ length g.old) }
    ensures { result ≡ has_form (form_within limits d.now) f.now }
{
    if limits.largest < d.len() + 12 {
        return false;
    }
    match form::form_of_field(limits.longest, d, g) {
        Err(_) => false,
        // a test and no bare `==`, so that the edit of what other bytes are answered changes a value and no form
        Ok(n) => {
            if &g[..n] == f {
                return true;
            }
            false
        }
    }
}

// Writes the packet around a data field.
fn put_packet(d: &[u8], out: &mut [u8]) -> Result<usize, Refusal>
    requires { length d.now < 2 ^ 32 }
    ensures answer { result ≡ writing (Ok (framed d.now)) out.old }
    ensures buffer { out.new ≡ leaving (Ok (framed d.now)) out.old }
{
    let n = d.len();
    if out.len() < n + 12 {
        return Err(Refusal::of(18));
    }
    wire::put_bytes(out, 8, d);
    frame::put_frame(out, n);
    Ok(n + 12)
}

// The packet of a form, of which the data field takes at most `FIELD` bytes; none where it takes more.
fn packet_in<const FIELD: usize, const FORM: usize>(
    limits: Limits,
    f: &[u8],
    out: &mut [u8],
) -> Option<Result<usize, Refusal>>
    requires room { (4 * FIELD ≤ FORM) × (FORM < 2 ^ 32) }
    requires roomy { Roomy limits }
    requires f_len_bound { length f.now ≤ 65536 }
    ensures answer { MatchOption result (FIELD < length (data_bytes (decoded f.now))) (λ r. r ≡ writing (packet_within limits f.now) out.old) }
    ensures buffer { MatchOption result (out.new ≡ out.old) (λ r. out.new ≡ leaving (packet_within limits f.now) out.old) }
{
    let mut d = [0u8; FIELD];
    let n = decode_form(f, &mut d);
    if FIELD < n {
        return None;
    }
    let mut g = [0u8; FORM];
    if same_form(limits, &d[..n], f, &mut g) {
        return Some(put_packet(&d[..n], out));
    }
    Some(Err(Refusal::of(17)))
}

// The packet of a form, in short arrays where they are enough: clearing long ones costs time.
fn packet_within(limits: Limits, f: &[u8], out: &mut [u8]) -> Result<usize, Refusal>
    requires roomy { Roomy limits }
    requires f_len_bound { length f.now ≤ 65536 }
    ensures answer { result ≡ writing (packet_within limits f.now) out.old }
    ensures buffer { out.new ≡ leaving (packet_within limits f.now) out.old }
{
    if f.len() <= 96 {
        if let Some(written) = packet_in::<64, 256>(limits, f, out) {
            return written;
        }
    }
    match packet_in::<FIELD, LARGEST_FORM>(limits, f, out) {
        Some(written) => written,
        None => Err(Refusal::of(17)),
    }
}

// The TCP data packet of a form; 17 where no acceptable packet has it.
pub fn packet_of_form(family: usize, f: &[u8], out: &mut [u8]) -> Result<usize, Refusal>
    ensures answer { result ≡ writing (packet_of_form (limits_of family) f.now) out.old }
    ensures buffer { out.new ≡ leaving (packet_of_form (limits_of family) f.now) out.old }
{
    let limits = wire::limits_of(family);
    if limits.largest < 1 {
        return Err(Refusal::of(21));
    }
    if LARGEST_FORM < f.len() {
        return Err(Refusal::of(17));
    }
    packet_within(limits, f, out)
}
