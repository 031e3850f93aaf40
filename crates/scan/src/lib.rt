// Reading a line for the billing desk: its four leading fields, and its elements one by one.
#![tactic(auto)]

ghost use Rattle.std.specs.Prelude.{◌≡◌, ◌+◌, ◌≤◌, false, length, drop};
ghost use Rattle.line.specs.LineReader.{read_decimal, read_unsigned, read_degrees, read_hex, read_tag, none, read_value, read_printed, read_elements, positive, negative, judge_line, wrong_at};
ghost use Rattle.line.specs.LineElements.{start_from, field_start, element_of, element_at};
ghost use Rattle.scan.specs.Fields.{field_from, field_end, stands_at, ends_at, run, number_as, run_as, places_of, degrees_as, signed_as, tag_start, item_as};
ghost use Rattle.scan.specs.Tags.{hex_as, tag_as, IsEscape, IsPiece, TagStored};
ghost use Rattle.scan.specs.Walking.{pieces_from, speed_on, latitude_on, longitude_on, passed_as, rest_as, judged_as, standing};
ghost use Rattle.scan.specs.Answers.{answer_line, answer_element, leaving_element};

use wire::Refusal;

// What stands at an offset in a tag's text: a byte, itself or escaped, and the offset behind it; or the quote that ends the field.
#[derive(Clone, Copy)]
enum Piece {
    Byte(u8, usize),
    End,
}

// An element that was read: its ID; its number, or where its tag's text starts and how many bytes the tag has; the offset behind its field.
#[derive(Clone, Copy)]
enum Item {
    Number(u16, u64, usize),
    Tag(u16, usize, usize, usize),
}

// The four leading fields of a line, in ten-millionths of a degree; how many elements it has, and where the field of the first starts.
#[derive(Clone, Copy)]
pub struct LineFields {
    pub timestamp: u64,
    pub longitude: i32,
    pub latitude: i32,
    pub speed: u16,
    pub elements: usize,
    pub start: usize,
}

// An element of a line: where the next field starts; how many bytes a tag has, 0 for a number; its number, 0 for a tag; its ID. In this order no two words are copied as one, which stalls. A flag and fields, as C's struct and the clause `answer_element` have them.
#[derive(Clone, Copy)]
pub struct LineElement {
    pub next: usize,
    pub size: usize,
    pub value: u64,
    pub id: u16,
    pub tag: bool,
}

// ---- numbers

// The digits from `at` on: the number that they say, if 64 bits hold it, and the offset behind them.
fn digit_run(t: &[u8], at: usize) -> Option<(u64, usize)>
    requires { at ≤ length t.now }
    ensures { result ≡ run_as at (run (drop at t.now)) }
{
    let mut n: u64 = 0;
    for i in at..t.len() {
        let c = t[i];
        if !c.is_ascii_digit() {
            return Some((n, i));
        }
        n = n.checked_mul(10)?.checked_add((c - 48) as u64)?;
    }
    Some((n, t.len()))
}

// The same up to `most`, and without spare zeros.
fn decimal_at(t: &[u8], at: usize, most: u64) -> Option<(u64, usize)>
    requires { at ≤ length t.now }
    ensures { result ≡ number_as (at + length (run (drop at t.now))) (read_decimal most (run (drop at t.now))) }
{
    let (n, end) = digit_run(t, at)?;
    if end <= at {
        return None;
    }
    if most < n {
        return None;
    }
    if t[at] == 48 {
        if at + 1 < end {
            return None;
        }
    }
    Some((n, end))
}

// The byte `b` stands at `at`.
fn stands(t: &[u8], at: usize, b: u8) -> bool
    ensures { result ≡ stands_at t.now at b }
{
    t.get(at) == Some(&b)
}

// A field ends at `at`.
fn ends(t: &[u8], at: usize) -> bool
    ensures { result ≡ ends_at t.now at }
{
    t.len() <= at || t[at] == 44
}

// A field that is a number.
fn number_field(t: &[u8], at: usize, most: u64) -> Option<(u64, usize)>
    requires { at ≤ length t.now }
    ensures { result ≡ number_as (field_end t.now at) (read_decimal most (field_from t.now at)) }
{
    let (n, end) = decimal_at(t, at, most)?;
    if ends(t, end) {
        return Some((n, end));
    }
    None
}

// ---- degrees

// The seven places behind the point, which end the field.
fn places_at(t: &[u8], at: usize, whole: u64) -> Option<(u64, usize)>
    requires { (at ≤ length t.now) × (whole ≤ 214) }
    ensures { result ≡ number_as (field_end t.now at) (places_of whole (field_from t.now at)) }
{
    let (n, end) = digit_run(t, at)?;
    if end == at + 7 {
        if ends(t, end) {
            return Some((whole * 10_000_000 + n, end));
        }
    }
    None
}

// A field that is degrees, behind the sign.
fn unsigned_field(t: &[u8], at: usize) -> Option<(u64, usize)>
    requires { at ≤ length t.now }
    ensures { result ≡ number_as (field_end t.now at) (read_unsigned (field_from t.now at)) }
{
    let (whole, point) = decimal_at(t, at, 214)?;
    if stands(t, point, 46) {
        return places_at(t, point + 1, whole);
    }
    None
}

fn positive_of(m: Option<(u64, usize)>) -> Option<(i32, usize)>
    ensures { result ≡ signed_as positive m }
{
    let (n, end) = m?;
    let degrees = i32::try_from(n).ok()?;
    Some((degrees, end))
}

fn negative_of(m: Option<(u64, usize)>) -> Option<(i32, usize)>
    ensures { result ≡ signed_as negative m }
{
    let (n, end) = m?;
    if 1 <= n {
        if n <= 0x8000_0000 {
            return Some((-(n as i64) as i32, end));
        }
    }
    None
}

// A field that is degrees.
fn degrees_field(t: &[u8], at: usize) -> Option<(i32, usize)>
    requires { at ≤ length t.now }
    ensures { result ≡ degrees_as (field_end t.now at) (read_degrees (field_from t.now at)) }
{
    if stands(t, at, 45) {
        return negative_of(unsigned_field(t, at + 1));
    }
    positive_of(unsigned_field(t, at))
}

// ---- tags

// 0 to 9, A to F.
fn hex_value(c: u8) -> Option<u8>
    ensures { result ≡ hex_as (read_hex c) }
{
    match c {
        48..=57 => Some(c - 48),
        65..=70 => Some(c - 55),
        _ => None,
    }
}

// The byte whose two digits stand from `i` on, behind a backslash.
fn escape_at(t: &[u8], i: usize) -> Option<u8>
    requires { i ≤ length t.now }
    ensures { IsEscape t.now i result }
{
    if t.len() - i < 2 {
        return None;
    }
    let h = hex_value(t[i])?;
    let l = hex_value(t[i + 1])?;
    let b = h * 16 + l;
    if line::is_plain(b) { None } else { Some(b) }
}

fn piece_at(t: &[u8], i: usize) -> Option<Piece>
    requires { i ≤ length t.now }
    ensures { IsPiece t.now i result }
{
    if i == t.len() {
        return None;
    }
    let c = t[i];
    if c == 34 {
        if ends(t, i + 1) {
            return Some(Piece::End);
        }
        return None;
    }
    if c == 92 {
        let b = escape_at(t, i + 1)?;
        return Some(Piece::Byte(b, i + 3));
    }
    if line::is_plain(c) {
        Some(Piece::Byte(c, i + 1))
    } else {
        None
    }
}

// The text of a tag from `at` on, behind its first quote, up to the next comma or the end of `t`.
fn tag_field(t: &[u8], at: usize) -> Option<(usize, usize)>
    requires { at ≤ length t.now }
    ensures { result ≡ tag_as (field_end t.now at) (read_tag none (field_from t.now at)) }
{
    let mut size: usize = 0;
    let mut i = at;
    while let Piece::Byte(_, next) = piece_at(t, i)? {
        size += 1;
        i = next;
    }
    Some((size, i + 1))
}

// Stores the bytes of the tag whose text stands from `at` on.
fn store_tag(t: &[u8], at: usize, out: &mut [u8])
    requires { at ≤ length t.now }
    ensures { TagStored t.now at out.old out.new }
{
    let mut to: usize = 0;
    let mut i = at;
    // No `while let`: behind it nothing says that the piece was no byte, so the proof did not close.
    loop {
        match piece_at(t, i) {
            Some(Piece::Byte(b, next)) => {
                store::store_byte(out, to, b);
                to += 1;
                i = next;
            }
            Some(Piece::End) => return,
            None => return,
        }
    }
}

// ---- elements

// The value of the element with this ID, which ends the field; `tags` says that a tag came before.
fn value_field(t: &[u8], at: usize, id: u16, tags: bool) -> Option<Item>
    requires { at ≤ length t.now }
    ensures { result ≡ item_as (at + 1) (field_end t.now at) (read_value tags id (field_from t.now at)) }
{
    if stands(t, at, 34) {
        let start = at + 1;
        let (size, end) = tag_field(t, start)?;
        return Some(Item::Tag(id, start, size, end));
    }
    if tags {
        return None;
    }
    let (n, end) = number_field(t, at, 0xFFFF_FFFF_FFFF_FFFF)?;
    Some(Item::Number(id, n, end))
}

// A field that is an element.
fn element_field(t: &[u8], at: usize, tags: bool) -> Option<Item>
    requires { at ≤ length t.now }
    ensures { result ≡ item_as (tag_start t.now at) (field_end t.now at) (read_printed tags (field_from t.now at)) }
{
    let (id, sign) = decimal_at(t, at, 0xFFFF)?;
    if stands(t, sign, 61) {
        return value_field(t, sign + 1, id as u16, tags);
    }
    None
}

// ---- lines

// The element whose field starts at `at`: where the next field starts, and whether it is a tag.
fn pass_element(t: &[u8], at: usize, tags: bool) -> Option<(usize, bool)>
    requires { at ≤ length t.now }
    ensures { result ≡ passed_as (field_end t.now at + 1) (read_printed tags (field_from t.now at)) }
{
    match element_field(t, at, tags)? {
        Item::Number(_, _, end) => Some((end + 1, false)),
        Item::Tag(_, _, _, end) => Some((end + 1, true)),
    }
}

// How many elements the fields from `at` on are, or where the first wrong field starts.
fn elements_on(t: &[u8], at: usize) -> Result<usize, usize>
    requires { at ≤ length t.now + 1 }
    ensures { result ≡ rest_as (read_elements false at (pieces_from t.now at)) }
{
    let mut next = at;
    let mut tags = false;
    let mut count: usize = 0;
    // No `for`: each turn says where the next starts.
    while next <= t.len() {
        let (end, tag) = pass_element(t, next, tags).ok_or(next)?;
        next = end;
        tags = tag;
        count += 1;
    }
    Ok(count)
}

// The speed, and the fields behind it; or where the first wrong field starts.
fn speed_on(
    t: &[u8],
    at: usize,
    timestamp: u64,
    longitude: i32,
    latitude: i32,
) -> Result<LineFields, usize>
    requires { at ≤ length t.now + 1 }
    ensures { result ≡ judged_as (start_from 1 at (pieces_from t.now at)) (speed_on timestamp longitude latitude at (pieces_from t.now at)) }
{
    if t.len() < at {
        return Err(at - 1);
    }
    let (speed, end) = number_field(t, at, 0xFFFF).ok_or(at)?;
    let start = end + 1;
    let elements = elements_on(t, start)?;
    Ok(LineFields {
        timestamp,
        longitude,
        latitude,
        speed: speed as u16,
        elements,
        start,
    })
}

// The latitude, and the fields behind it.
fn latitude_on(t: &[u8], at: usize, timestamp: u64, longitude: i32) -> Result<LineFields, usize>
    requires { at ≤ length t.now + 1 }
    ensures { result ≡ judged_as (start_from 2 at (pieces_from t.now at)) (latitude_on timestamp longitude at (pieces_from t.now at)) }
{
    if t.len() < at {
        return Err(at - 1);
    }
    let (latitude, end) = degrees_field(t, at).ok_or(at)?;
    speed_on(t, end + 1, timestamp, longitude, latitude)
}

// The longitude, and the fields behind it.
fn longitude_on(t: &[u8], at: usize, timestamp: u64) -> Result<LineFields, usize>
    requires { at ≤ length t.now + 1 }
    ensures { result ≡ judged_as (start_from 3 at (pieces_from t.now at)) (longitude_on timestamp at (pieces_from t.now at)) }
{
    if t.len() < at {
        return Err(at - 1);
    }
    let (longitude, end) = degrees_field(t, at).ok_or(at)?;
    latitude_on(t, end + 1, timestamp, longitude)
}

// The whole line.
fn judge_line(s: &[u8]) -> Result<LineFields, usize>
    ensures { result ≡ judged_as (field_start s.now 4) (judge_line s.now) }
{
    let Some((&last, t)) = s.split_last() else {
        return Err(0);
    };
    if last != 10 {
        return Err(s.len());
    }
    let (timestamp, end) = number_field(t, 0, 0xFFFF_FFFF_FFFF_FFFF).ok_or(0usize)?;
    longitude_on(t, end + 1, timestamp)
}

// A line's four leading fields, and how many elements it has.
pub fn read_line(s: &[u8]) -> Result<LineFields, Refusal>
    ensures { result ≡ answer_line s.now }
{
    match judge_line(s) {
        Ok(f) => Ok(f),
        Err(_) => Err(Refusal::of(20)),
    }
}

// The byte at which a line is wrong: where its first wrong field starts; its length where nothing is wrong.
pub fn wrong_byte(s: &[u8]) -> usize
    ensures { result ≡ wrong_at s.now }
{
    match judge_line(s) {
        Ok(_) => s.len(),
        Err(place) => place,
    }
}

// ---- elements one by one

// Where the field that starts at `at` ends.
fn field_end(t: &[u8], at: usize) -> usize
    requires { at ≤ length t.now }
    ensures { result ≡ field_end t.now at }
{
    // Not `position`: with it the walk to an element by its number took a third longer.
    for i in at..t.len() {
        if t[i] == 44 {
            return i;
        }
    }
    t.len()
}

// Where the n-th field from `at` on starts.
fn field_start(t: &[u8], at: usize, n: usize) -> usize
    requires { at ≤ length t.now + 1 }
    ensures { result ≡ start_from n at (pieces_from t.now at) }
{
    let mut next = at;
    for _ in 0..n {
        if t.len() < next {
            return next;
        }
        next = field_end(t, next) + 1;
    }
    next
}

// The element whose field starts at `at`; the bytes of a tag into the lent buffer.
fn element_from(t: &[u8], at: usize, out: &mut [u8]) -> Result<LineElement, Refusal>
    requires { at ≤ length t.now }
    ensures answer { result ≡ answer_element (standing t.now at) out.old }
    ensures buffer { out.new ≡ leaving_element (standing t.now at) out.old }
{
    match element_field(t, at, false) {
        None => Err(Refusal::of(20)),
        Some(Item::Number(id, value, end)) => Ok(LineElement {
            id,
            tag: false,
            value,
            size: 0,
            next: end + 1,
        }),
        Some(Item::Tag(id, start, size, end)) => {
            if out.len() < size {
                return Err(Refusal::of(18));
            }
            store_tag(t, start, out);
            Ok(LineElement {
                id,
                tag: true,
                value: 0,
                size,
                next: end + 1,
            })
        }
    }
}

// The element whose field starts at `at`, the rest of the line unread.
pub fn element_at(s: &[u8], at: usize, out: &mut [u8]) -> Result<LineElement, Refusal>
    ensures answer { result ≡ answer_element (element_at s.now at) out.old }
    ensures buffer { out.new ≡ leaving_element (element_at s.now at) out.old }
{
    if s.len() <= at {
        return Err(Refusal::of(20));
    }
    let last = s.len() - 1;
    element_from(&s[0..last], at, out)
}

// The element with number `k` of a line.
pub fn element_in_line(s: &[u8], k: usize, out: &mut [u8]) -> Result<LineElement, Refusal>
    ensures answer { result ≡ answer_element (element_of s.now k) out.old }
    ensures buffer { out.new ≡ leaving_element (element_of s.now k) out.old }
{
    match judge_line(s) {
        Err(_) => Err(Refusal::of(20)),
        Ok(f) => {
            if f.elements <= k {
                return Err(Refusal::of(16));
            }
            let last = s.len() - 1;
            let at = field_start(&s[0..last], 0, 4 + k);
            element_at(s, at, out)
        }
    }
}
