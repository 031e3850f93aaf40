// CRC-16/IBM by words of eight bytes, without a table. Modulo x^15 + x + 1, a factor of the polynomial, words are folded by a few shifts; the
// other factor is x + 1, so the CRC has the parity of the data, which is set right at the end.
ghost use Rattle.std.specs.Prelude.{◌≡◌, ◌+◌, ◌%◌, ◌≤◌, length};
ghost use Rattle.checksum.specs.Crc.{shifts, crc};
ghost use Rattle.checksum.specs.Bits.{ones};
ghost use Rattle.checksum.specs.Fold.{Alike, joined, Fifteen, held, Reached, Ready};

// ---- folding: times x^128, x^64, x^32, x^16

#[derive(Drop)]
struct Pair {
    low: u64,
    high: u64,
}

fn fold128(low: u64, high: u64) -> Pair
    ensures { Alike (shifts 64 (joined 64 result.low result.high)) (shifts 128 (shifts 64 (joined 64 low high))) }
{
    let b = high ^ ((low << 56) ^ (low << 48));
    Pair {
        low: ((low >> 8) ^ (low >> 16)) ^ ((b << 56) ^ (b << 48)),
        high: (b >> 8) ^ (b >> 16),
    }
}

// A function for each width: at one type each shift would want a mask, and a trait would hold these lines in three impls.
fn fold64(a: u64) -> u64
    ensures { Alike (shifts 64 result) (shifts 64 (shifts 64 a)) }
{
    let b = a ^ ((a << 60) ^ (a << 56));
    (b >> 4) ^ (b >> 8)
}

fn fold32(a: u32) -> u32
    ensures { Alike (shifts 32 result) (shifts 32 (shifts 32 a)) }
{
    let b = a ^ ((a << 30) ^ (a << 28));
    (b >> 2) ^ (b >> 4)
}

fn fold16(a: u16) -> u16
    ensures { Alike result (shifts 16 a) }
{
    let b = a ^ ((a << 15) ^ (a << 14));
    (b >> 1) ^ (b >> 2)
}

fn narrowed(low: u64, high: u64) -> u16
    ensures { Alike result (shifts 64 (joined 64 low high)) }
{
    let a = fold64(low) ^ high;
    let b = fold32((a % 0x1_0000_0000) as u32) ^ ((a >> 32) as u32);
    let c = fold16((b % 0x1_0000) as u16) ^ ((b >> 16) as u16);
    fold16(c)
}

// x^15 + x + 1 is C001, and changes the parity.
fn with_parity(r: u16, p: u64) -> u16
    ensures { Alike result r × (ones 16 result % 2 ≡ ones 64 p % 2) }
{
    if (p ^ u64::from(r)).count_ones() % 2 == 1 {
        return r ^ 0xC001;
    }
    r
}

// ---- two words a step

#[derive(Drop)]
struct Lanes {
    at: usize,
    low: u64,
    high: u64,
    parity: u64,
}

fn to_the_end(s: &[u8], from: Lanes) -> u16
    requires { Ready s.now from.at (joined 64 from.low from.high) from.parity }
    ensures { result ≡ crc s.now }
{
    let Lanes {
        mut at,
        mut low,
        mut high,
        mut parity,
    } = from;
    if (s.len() - at) % 16 >= 8 {
        low = fold64(low) ^ high;
        high = wire::le64(s, at);
        parity ^= high;
        at += 8;
    }
    for k in 0..(s.len() - at) / 16 {
        let first = wire::le64(s, at + 16 * k);
        let second = wire::le64(s, at + 16 * k + 8);
        let p = fold128(low, high);
        low = p.low ^ first;
        high = p.high ^ second;
        parity ^= first ^ second;
    }
    with_parity(narrowed(low, high), parity)
}

// ---- fifteen words a step

// x^960 = x^64 + 1: each word goes into its neighbour before, the first into the last.
fn fold960(v: &mut [u64; 15], s: &[u8], at: usize, parity: u64) -> u64
    requires { (at + 120 ≤ length s.now) × Fifteen v.old × Reached s.now at (held v.old) parity }
    ensures { Fifteen v.new × Reached s.now (at + 120) (held v.new) result }
{
    v[14] ^= v[0];
    let mut p = parity;
    for k in 0..14 {
        let w = wire::le64(s, at + 8 * k);
        v[k] ^= v[k + 1] ^ w;
        p ^= w;
    }
    let w = wire::le64(s, at + 112);
    v[14] ^= w;
    p ^ w
}

fn paired(v: &[u64; 15]) -> Pair
    ensures { Alike (shifts 64 (held v.now)) (shifts 64 (joined 64 result.low result.high)) }
{
    let mut low: u64 = 0;
    let mut high = v[0];
    for k in 0..7 {
        let p = fold128(low, high);
        low = p.low ^ v[2 * k + 1];
        high = p.high ^ v[2 * k + 2];
    }
    Pair { low, high }
}

fn by_fifteen(s: &[u8], from: usize, first: u64) -> Lanes
    requires { Ready s.now from first first }
    ensures { Ready s.now result.at (joined 64 result.low result.high) result.parity }
{
    let mut v = [0u64; 15];
    v[14] = first;
    let mut parity = first;
    let steps = (s.len() - from) / 120;
    for k in 0..steps {
        parity = fold960(&mut v, s, from + 120 * k, parity);
    }
    let Pair { low, high } = paired(&v);
    Lanes {
        at: from + 120 * steps,
        low,
        high,
        parity,
    }
}

// ---- all bytes

// The bytes that do not fill a word are the upper end of the first; a CRC starts from 0, so the zeros before them do no harm.
fn odd_bytes(s: &[u8]) -> u64
    requires { 8 ≤ length s.now }
    ensures { Ready s.now (length s.now % 8) result result }
{
    let few = s.len() % 8;
    (wire::le64(s, 0) << (56 - 8 * few)) << 8
}

// From two steps of fifteen words on they pay (docs/PERFORMANCE.md).
const LONG: usize = 240;

pub fn by_words(s: &[u8]) -> u16
    requires { 8 ≤ length s.now }
    ensures { result ≡ crc s.now }
{
    let few = s.len() % 8;
    let first = odd_bytes(s);
    if s.len() < LONG {
        return to_the_end(
            s,
            Lanes {
                at: few,
                low: 0,
                high: first,
                parity: first,
            },
        );
    }
    to_the_end(s, by_fifteen(s, few, first))
}
