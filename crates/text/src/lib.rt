// Hex text to bytes and back, a decimal number, and the calendar date of a day.
#![tactic(auto)]

ghost use Rattle.std.specs.Prelude.{◌≡◌, ◌+◌, ◌*◌, ◌^◌, ◌<◌, length, nat_abs};
ghost use Rattle.std.specs.Option.{SomeIff};
ghost use Rattle.std.proofs.lemmas.List.Edits.{sets};
ghost use Rattle.text.specs.Hex.{among, mark_of, kind_of, hex_bytes, glyph_of, hex_text, printable};
ghost use Rattle.text.specs.Decimal.{number_read};
ghost use Rattle.text.specs.Calendar.{leap_day, year_days, month_days, InYear, DateOf};

// ---- hex text: digits in either case, white space anywhere

// What a character is in hex text.
#[derive(Clone, Copy)]
enum Mark {
    Digit(u8),
    Space,
    Other,
}

#[tactic(auto, unfolding(crate::specs::Hex::mark_of))]
fn mark_of(c: u8) -> Mark
    ensures { result ≡ mark_of c }
{
    // Digits by tests, one by one: a `match` on all of the ranges jumps by a table, and long hex text takes up to 1.6 of the time.
    if c.is_ascii_digit() {
        return Mark::Digit(c - b'0');
    }
    if matches!(c, b'A'..=b'F') {
        return Mark::Digit(c - b'A' + 10);
    }
    if matches!(c, b'a'..=b'f') {
        return Mark::Digit(c - b'a' + 10);
    }
    match c {
        b'\t'..=b'\r' | b' ' => Mark::Space,
        _ => Mark::Other,
    }
}

pub fn kind_of(s: &[u8]) -> Option<usize>
    ensures { result ≡ kind_of s.now }
{
    let mut n: usize = 0;
    for c in s {
        match mark_of(*c) {
            Mark::Digit(_) => n += 1,
            Mark::Space => {}
            Mark::Other => return None,
        }
    }
    Some(n)
}

// Stores the byte of each pair of digits, as far as there is room, and answers how many pairs there are.
pub fn decode(s: &[u8], out: &mut [u8]) -> usize
    ensures count { result ≡ length (hex_bytes s.now) }
    ensures buffer { out.new ≡ sets out.old 0 (hex_bytes s.now) }
{
    let mut to: usize = 0;
    let mut high: Option<u8> = None;
    for c in s {
        if let Mark::Digit(d) = mark_of(*c) {
            match high {
                Some(h) => {
                    store::store_byte(out, to, h * 16 + d);
                    to += 1;
                    high = None;
                }
                None => high = Some(d),
            }
        }
    }
    to
}

// A hex digit, in upper case.
#[tactic(auto, unfolding(crate::specs::Hex::glyph_of))]
pub fn glyph_of(d: u8) -> u8
    requires { d < 16 }
    ensures { result ≡ glyph_of d }
{
    if d < 10 { b'0' + d } else { b'A' + (d - 10) }
}

// Stores the two digits of each byte, as far as there is room, and answers how many digits there are.
pub fn encode(s: &[u8], out: &mut [u8]) -> usize
    ensures count { result ≡ 2 * length s.now }
    ensures buffer { out.new ≡ sets out.old 0 (hex_text s.now) }
{
    for (i, b) in s.iter().enumerate() {
        store::store_byte(out, 2 * i, glyph_of(b / 16));
        store::store_byte(out, 2 * i + 1, glyph_of(b % 16));
    }
    2 * s.len()
}

// ---- printable ASCII

pub fn is_printable(b: u8) -> bool
    ensures { result ≡ among 32 126 b }
{
    matches!(b, b' '..=b'~')
}

pub fn is_printable_text(s: &[u8]) -> bool
    ensures { result ≡ printable s.now }
{
    s.iter().all(|b| is_printable(*b))
}

// ---- numbers

// A number with one digit more, unless that is too large for a word.
fn with_digit(n: usize, d: usize) -> Option<usize>
    ensures { SomeIff result (n * 10 + d < 2 ^ 64) (n * 10 + d) }
{
    n.checked_mul(10)?.checked_add(d)
}

// A decimal number that is not above `limit`.
pub fn number_of(w: &[u8], limit: usize) -> Option<usize>
    ensures { result ≡ number_read limit w.now }
{
    if w.is_empty() {
        return None;
    }
    let mut n: usize = 0;
    for c in w {
        if !c.is_ascii_digit() {
            return None;
        }
        let Some(next) = with_digit(n, usize::from(*c - b'0')) else {
            return None;
        };
        if limit < next {
            return None;
        }
        n = next;
    }
    Some(n)
}

// How far a number is from 0.
pub fn distance(x: i32) -> u64
    ensures { result ≡ nat_abs x }
{
    u64::from(x.unsigned_abs())
}

// ---- the calendar

#[derive(Clone, Copy)]
pub struct Date {
    pub year: u64,
    pub month: u64,
    pub day: u64,
}

// The 29th of February, 1 or 0.
#[tactic(auto, unfolding(crate::specs::Calendar::leap_day))]
fn leap_day(year: u64) -> u64
    ensures { result ≡ leap_day year }
{
    u64::from(year % 4 == 0 && (year % 100 != 0 || year % 400 == 0))
}

// The days of a year.
#[tactic(auto, using(crate::proofs::CalendarLaws::leap_small))]
fn year_days(year: u64) -> u64
    ensures { result ≡ year_days year }
{
    365 + leap_day(year)
}

#[tactic(auto, using(crate::proofs::CalendarLaws::leap_small), unfolding(crate::specs::Calendar::month_days))]
fn month_days(year: u64, month: u64) -> u64
    ensures { result ≡ month_days year month }
{
    match month {
        2 => 28 + leap_day(year),
        4 | 6 | 9 | 11 => 30,
        _ => 31,
    }
}

// The date `rest` days after the year's first.
fn within_year(year: u64, rest: u64) -> Date
    requires { rest < year_days year }
    ensures { InYear year rest result }
{
    let mut left = rest;
    for month in 1..12 {
        let days = month_days(year, month);
        if left < days {
            return Date {
                year,
                month,
                day: left + 1,
            };
        }
        left -= days;
    }
    // What the first eleven months leave is in the last.
    Date {
        year,
        month: 12,
        day: left + 1,
    }
}

// The date `days` days after the first of January 1970.
pub fn date_of(days: u64) -> Date
    ensures { DateOf days result }
{
    // No `for`: the years have no last one, and behind a range with one an answer would be made up.
    let mut year: u64 = 1970;
    let mut rest = days;
    while year_days(year) <= rest {
        rest -= year_days(year);
        year += 1;
    }
    within_year(year, rest)
}
