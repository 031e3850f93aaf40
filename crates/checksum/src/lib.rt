// CRC-16/IBM: by words of eight bytes, and from a table of 256 entries where there are too few bytes for a word.
#![tactic(auto)]

mod table;
mod words;

ghost use Rattle.std.specs.Prelude.{◌≡◌};
ghost use Rattle.checksum.specs.Crc.{crc};

// The last byte is in `c`, its eight shifts are still to come: so the next byte is put in without waiting for the entry.
fn by_table(s: &[u8]) -> u16
    ensures { result ≡ crc s.now }
{
    let t = table::entries();
    let mut c: u16 = 0;
    for b in s {
        let k = usize::from(c % 256);
        c = ((c >> 8) ^ u16::from(*b)) ^ t[k];
    }
    let k = usize::from(c % 256);
    (c >> 8) ^ t[k]
}

pub fn crc16(s: &[u8]) -> u16
    ensures { result ≡ crc s.now }
{
    if s.len() < 8 {
        return by_table(s);
    }
    words::by_words(s)
}
