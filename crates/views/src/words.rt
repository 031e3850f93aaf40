// The words of a line, each one space behind the one before, and bytes as hex digits.
ghost use Rattle.std.specs.Prelude.{◌≡◌, ◌+◌, length};
ghost use Rattle.std.proofs.lemmas.List.Edits.{sets};
ghost use Rattle.text.specs.Hex.{hex_bytes};
ghost use Rattle.views.specs.Words.{spaces, word_at, Counted};

pub fn count(line: &[u8]) -> usize
    ensures { result ≡ spaces line.now + 1 }
{
    // a loop and no `filter` and `count`, which take half as many steps again for a byte
    let mut n: usize = 1;
    for c in line {
        if *c == b' ' {
            n += 1;
        }
    }
    n
}

// Word `k`, counted from 0; empty if there is none. By `split` and `nth` the proof did not close: the search does not
// reach the piece that `nth` lends.
pub fn word(line: &[u8], k: usize) -> &[u8]
    ensures { result.now ≡ word_at k line.now }
{
    let mut left = k;
    let mut start: usize = 0;
    for (i, c) in line.iter().enumerate() {
        if *c == b' ' {
            if left == 0 {
                return &line[start..i];
            }
            left -= 1;
            start = i + 1;
        }
    }
    if left == 0 { &line[start..] } else { &[] }
}

// Pairs of hex digits and nothing else, or '-'.
fn is_bytes(w: &[u8]) -> bool {
    match text::kind_of(w) {
        None => w == b"-".as_slice(),
        Some(digits) => 0 < digits && digits == w.len() && digits % 2 == 0,
    }
}

// Stores the bytes of hex digits, as far as there is room, and answers how many there are, if they are all there; '-' is
// no bytes.
pub fn bytes_of(w: &[u8], buf: &mut [u8]) -> Option<usize>
    ensures count { Counted (length buf.old) result w.now }
    ensures buffer { buf.new ≡ sets buf.old 0 (hex_bytes w.now) }
{
    let n = text::decode(w, buf);
    if is_bytes(w) && n <= buf.len() {
        Some(n)
    } else {
        None
    }
}
