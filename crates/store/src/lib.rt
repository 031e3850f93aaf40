// Stores and reads at any offset: what would be stored past a buffer's end is left out, what is read past it is 0. TLV entries on top of them.
#![tactic(auto)]

ghost use Rattle.std.specs.Prelude.{◌≡◌, ◌+◌, ◌^◌, ◌≤◌, ◌<◌, min, ◌++◌, length, get_or, set};
ghost use Rattle.std.proofs.lemmas.List.Edits.{sets};
ghost use Rattle.wire.specs.Numbers.{be, le, little_at};
ghost use Rattle.store.specs.Stores.{Stored};
ghost use Rattle.store.specs.Entries.{kind_at, body_at, next_at};

// ---- stores; each gives the offset behind what it stores

// Stores an element.
fn store_at<T: Copy>(out: &mut [T], at: usize, x: T)
    ensures { out.new ≡ set out.old at x }
{
    if at < out.len() {
        out[at] = x;
    }
}

// Stores a byte.
pub fn store_byte(out: &mut [u8], at: usize, b: u8)
    ensures { out.new ≡ set out.old at b }
{
    store_at(out, at, b)
}

// Stores a word.
pub fn store_word(out: &mut [u64], to: usize, n: u64)
    ensures { out.new ≡ set out.old to n }
{
    store_at(out, to, n)
}

// The `w` lowest bytes of `n`, the highest first, where the buffer ends before them.
fn cut_be(out: &mut [u8], to: usize, w: usize, n: u64)
    requires { to + w < 2 ^ 64 }
    ensures { out.new ≡ sets out.old to (be w n) }
{
    let mut rest = n;
    for i in (0..w).rev() {
        store_byte(out, to + i, (rest % 256) as u8);
        rest /= 256;
    }
}

// Stores the `w` lowest bytes of `n`, the highest first.
pub fn store_be(out: &mut [u8], to: usize, w: usize, n: u64) -> usize
    requires { to + w < 2 ^ 64 }
    ensures value { result ≡ to + w }
    ensures stored { Stored (be w n) out.old out.new to result }
{
    let end = to + w;
    if end <= out.len() {
        wire::put_be(out, to, w, n);
        return end;
    }
    cut_be(out, to, w, n);
    end
}

// Stores the `w` lowest bytes of `n`, the lowest first. Two calls in place of one over `w.min(room)`: where the caller knows `w`, the first is one store, and a `min` makes it a loop (measured: 6 cycles against 8).
pub fn store_le(out: &mut [u8], to: usize, w: usize, n: u64) -> usize
    requires { to + w < 2 ^ 64 }
    ensures value { result ≡ to + w }
    ensures stored { Stored (le w n) out.old out.new to result }
{
    let end = to + w;
    if end <= out.len() {
        wire::put_le(out, to, w, n);
        return end;
    }
    if to < out.len() {
        wire::put_le(out, to, out.len() - to, n);
    }
    end
}

// Stores the bytes of `src`, by two calls for the same reason (five bytes that are known: 7 cycles against 12).
pub fn store_bytes(out: &mut [u8], to: usize, src: &[u8]) -> usize
    requires { to + length src.now < 2 ^ 64 }
    ensures { Stored src.now out.old out.new to result }
{
    let end = to + src.len();
    if end <= out.len() {
        wire::put_bytes(out, to, src);
        return end;
    }
    if to < out.len() {
        let room = out.len() - to;
        wire::put_bytes(out, to, &src[..room]);
    }
    end
}

// ---- little-endian numbers

// The byte at `at`; past the end it is 0.
pub fn byte_or_zero(f: &[u8], at: usize) -> u8
    ensures { result ≡ get_or f.now at 0 }
{
    f.get(at).copied().unwrap_or(0)
}

// The little-endian number of `w` bytes; those past the end are 0.
pub fn little(f: &[u8], at: usize, w: usize) -> u64
    requires { (at + w < 2 ^ 64) × (w ≤ 8) }
    ensures { result ≡ little_at f.now at w }
{
    if at + w <= f.len() {
        return wire::little(f, at, w);
    }
    if at < f.len() {
        return wire::little(f, at, f.len() - at);
    }
    0
}

// ---- TLV entries: length, kind, body

// The kind of the entry at `at`.
pub fn entry_kind(f: &[u8], at: usize) -> usize
    requires { at < 2 ^ 63 }
    ensures { result ≡ kind_at f.now at }
{
    little(f, at + 2, 2) as usize
}

// Where the entry behind the one at `at` starts.
pub fn next_at(f: &[u8], at: usize) -> usize
    requires { at < 2 ^ 63 }
    ensures { result ≡ next_at f.now at }
{
    at + 4 + (little(f, at, 2) as usize)
}

// The lesser of two numbers.
pub fn clipped(n: usize, most: usize) -> usize
    ensures { result ≡ min n most }
{
    n.min(most)
}

// The body of the entry at `at`, as far as it is there.
pub fn entry_body(f: &[u8], at: usize) -> &[u8]
    requires { at < 2 ^ 63 }
    ensures { result.now ≡ body_at f.now at }
{
    let start = (at + 4).min(f.len());
    let end = next_at(f, at).min(f.len());
    &f[start..end]
}

// Stores the head of an entry: the length of its body, its kind.
pub fn store_head(out: &mut [u8], to: usize, size: u64, kind: u64) -> usize
    requires { to < 2 ^ 63 }
    ensures value { result ≡ to + 4 }
    ensures stored { Stored (le 2 size ++ le 2 kind) out.old out.new to result }
{
    let next = store_le(out, to, 2, size);
    store_le(out, next, 2, kind)
}
