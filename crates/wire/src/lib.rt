// Numbers in bytes: big- and little-endian at a width, and the two's complement.
#![tactic(auto)]

ghost use Rattle.std.specs.Prelude.{◌≡◌, ◌+◌, ◌≤◌, ◌<◌, length};
ghost use Rattle.std.specs.List.{between, prefix_len};
ghost use Rattle.std.specs.Char.{is_ascii_digit};
ghost use Rattle.std.proofs.lemmas.List.Edits.{sets};
ghost use Rattle.wire.specs.Numbers.{number_at, little_at, signed, value_from, be, le};
ghost use Rattle.wire.specs.Limits.{limits_of};
ghost use Rattle.wire.specs.Answers.{refusal_at, refusal, told};
ghost use Rattle.wire.specs.Reading.{numbered, ◌>>=◌ as bind, pure, repeat};
ghost use Rattle.wire.specs.Imei.{text_digit, read_imei, pair_up_to, read_packed};

// The most bytes of a TCP packet, of a datagram, and of a record.
#[derive(Clone, Copy)]
pub struct Limits {
    pub largest: usize,
    pub datagram: usize,
    pub longest: usize,
}

// The most bytes that a packet or a datagram of any family has.
pub const LARGEST: usize = 1280;

// A TLV form has at most four times the bytes of its packet.
pub const LARGEST_FORM: usize = 4 * LARGEST;

// A table of contents has at most a word for every two bytes of its packet.
pub const LARGEST_CONTENTS: usize = LARGEST / 2;

// The limits of a family of unit; of one that is not known, none is above 0. A family is a number, as C gives it, and `FamiliesKept` says what every other number gets.
pub fn limits_of(family: usize) -> Limits
    ensures { result ≡ limits_of family }
{
    match family {
        1 => Limits {
            largest: 512,
            datagram: 512,
            longest: 255,
        },
        2 => Limits {
            largest: LARGEST,
            datagram: LARGEST,
            longest: LARGEST,
        },
        _ => Limits {
            largest: 0,
            datagram: 0,
            longest: 0,
        },
    }
}

// Why an input is refused: the number of document 01, the record's index, and the place, which is the offset at which the offending field starts (request 6). A number and no enum: C's answers have it, and the definitions and theorems (`FamiliesKept`, the tables of claims) speak of it as a number.
#[derive(Clone, Copy)]
pub struct Refusal {
    pub number: usize,
    pub index: usize,
    pub place: usize,
}

pub fn number(s: &[u8], at: usize, w: usize) -> u64
    requires { (at + w ≤ length s.now) × (w ≤ 8) }
    ensures { result ≡ number_at s.now at w }
{
    let mut n: u64 = 0;
    for b in &s[at..at + w] {
        n = (n << 8) | u64::from(*b);
    }
    n
}

// The `N` bytes from `at` on.
fn bytes_at<const N: usize>(s: &[u8], at: usize) -> [u8; N]
    requires { at + N ≤ length s.now }
    ensures { result ≡ between at (at + N) s.now }
{
    s[at..at + N].try_into().unwrap()
}

pub fn be16(s: &[u8], at: usize) -> u16
    requires { at + 2 ≤ length s.now }
    ensures { result ≡ number_at s.now at 2 }
{
    u16::from_be_bytes(bytes_at(s, at))
}

pub fn be32(s: &[u8], at: usize) -> u32
    requires { at + 4 ≤ length s.now }
    ensures { result ≡ number_at s.now at 4 }
{
    u32::from_be_bytes(bytes_at(s, at))
}

// A width that is 2 at most: tested, where a loop over the bytes costs more than reading them.
pub fn short_number(s: &[u8], at: usize, w: usize) -> u64
    requires { (at + w ≤ length s.now) × (w ≤ 2) }
    ensures { result ≡ number_at s.now at w }
{
    match w {
        2 => u64::from(be16(s, at)),
        1 => u64::from(s[at]),
        _ => 0,
    }
}

pub fn be64(s: &[u8], at: usize) -> u64
    requires { at + 8 ≤ length s.now }
    ensures { result ≡ number_at s.now at 8 }
{
    u64::from_be_bytes(bytes_at(s, at))
}

// The same for little-endian numbers.
pub fn little(s: &[u8], at: usize, w: usize) -> u64
    requires { (at + w ≤ length s.now) × (w ≤ 8) }
    ensures { result ≡ little_at s.now at w }
{
    let mut n: u64 = 0;
    for i in (0..w).rev() {
        n = u64::from(s[at + i]) | (n << 8);
    }
    n
}

pub fn le64(s: &[u8], at: usize) -> u64
    requires { at + 8 ≤ length s.now }
    ensures { result ≡ little_at s.now at 8 }
{
    u64::from_le_bytes(bytes_at(s, at))
}

pub fn signed16(x: u16) -> i16
    ensures { result ≡ signed 2 x }
{
    x.cast_signed()
}

pub fn signed32(x: u32) -> i32
    ensures { result ≡ signed 4 x }
{
    x.cast_signed()
}

impl Refusal {
    // The refusal with this number of the field at this place; no record's.
    pub fn at(number: usize, place: usize) -> Self
        ensures { result ≡ refusal_at number place }
    {
        Self {
            number,
            index: 0,
            place,
        }
    }

    // The same of no field.
    pub fn of(number: usize) -> Self
        ensures { result ≡ refusal number }
    {
        Self::at(number, 0)
    }
}

// How many digits come before the first byte that is none.
fn leading_digits(text: &[u8]) -> usize
    ensures { result ≡ prefix_len is_ascii_digit text.now }
{
    text.iter().take_while(|b| b.is_ascii_digit()).count()
}

// The value of the `n` ASCII digits from `at` on; their bytes are there. A byte less 48 is a digit where that is below 10: one test for both ends. The place of one that is none is looked for anew: kept along, it costs a jump for each digit.
pub fn text_number(n: usize, s: &[u8], at: usize) -> Result<u64, Refusal>
    requires { (n ≤ 15) × (at + n ≤ length s.now) }
    ensures { result ≡ told 0 (bind (repeat n text_digit) (λ ds. pure (value_from 10 0 ds)) s.now at) }
{
    let text = &s[at..at + n];
    let mut value: u64 = 0;
    for b in text {
        let d = b.wrapping_sub(b'0');
        if 9 < d {
            return Err(Refusal::at(15, at + leading_digits(text)));
        }
        value = value * 10 + u64::from(d);
    }
    Ok(value)
}

// An IMEI as text: its length, 15, and its digits. Its 17 bytes are there.
pub fn read_imei(s: &[u8], at: usize) -> Result<u64, Refusal>
    requires { at + 17 ≤ length s.now }
    ensures { result ≡ told 0 (read_imei s.now at) }
{
    if be16(s, at) != 15 {
        return Err(Refusal::at(15, at));
    }
    text_number(15, s, at + 2)
}

// Two digits in a byte, the first at most `most`.
fn pair_up_to(most: u8, s: &[u8], at: usize) -> Result<(u64, usize), Refusal>
    requires { at ≤ length s.now }
    ensures { result ≡ numbered (pair_up_to most s.now at) }
{
    let Some(&b) = s.get(at) else {
        return Err(Refusal::at(8, at));
    };
    if most < b / 16 || 9 < b % 16 {
        return Err(Refusal::at(15, at));
    }
    Ok((u64::from(b / 16 * 10 + b % 16), at + 1))
}

// `n` pairs of digits behind the digits that gave `first`.
fn pairs_from(first: u64, n: usize, s: &[u8], at: usize) -> Result<(u64, usize), Refusal>
    requires { (first < 100) × (n < 8) × (at ≤ length s.now) }
    ensures { result ≡ numbered (bind (repeat n (pair_up_to 9)) (λ ds. pure (value_from 100 first ds)) s.now at) }
{
    let mut value = first;
    let mut next = at;
    for _i in 0..n {
        let (pair, behind) = pair_up_to(9, s, next)?;
        value = value * 100 + pair;
        next = behind;
    }
    Ok((value, next))
}

// An IMEI in `w` bytes, two digits a byte.
pub fn read_packed(s: &[u8], at: usize, w: usize) -> Result<(u64, usize), Refusal>
    requires { (at ≤ length s.now) × (w ≤ 8) }
    ensures { result ≡ numbered (read_packed w s.now at) }
{
    if w == 0 {
        return Ok((0, at));
    }
    let (first, next) = pair_up_to(0, s, at)?;
    pairs_from(first, w - 1, s, next)
}

// Stores the `w` lowest bytes of `n`, the highest first. A loop and not `to_be_bytes`: any width is allowed, more than the 8 bytes of a `u64` too.
pub fn put_be(out: &mut [u8], at: usize, w: usize, n: u64)
    requires { at + w ≤ length out.old }
    ensures { out.new ≡ sets out.old at (be w n) }
{
    let mut rest = n;
    for i in (0..w).rev() {
        out[at + i] = (rest % 256) as u8;
        rest /= 256;
    }
}

// Stores the `w` lowest bytes of `n`, the lowest first.
pub fn put_le(out: &mut [u8], at: usize, w: usize, n: u64)
    requires { at + w ≤ length out.old }
    ensures { out.new ≡ sets out.old at (le w n) }
{
    let mut rest = n;
    for i in 0..w {
        out[at + i] = (rest % 256) as u8;
        rest /= 256;
    }
}

// Stores the bytes of `src`. A `for` and no `copy_from_slice`: with its call for each value, a form takes up to a fifth longer (measured).
pub fn put_bytes(out: &mut [u8], at: usize, src: &[u8])
    requires { at + length src.now ≤ length out.old }
    ensures { out.new ≡ sets out.old at src.now }
{
    for i in 0..src.len() {
        out[at + i] = src[i];
    }
}
