// The TCP packet around a data field.
#![tactic(auto)]

ghost use Rattle.std.specs.Prelude.{◌≡◌, ◌+◌, ◌≤◌, length, take, drop};
ghost use Rattle.std.proofs.lemmas.List.Edits.{sets};
ghost use Rattle.frame.specs.Frame.{framed, header, unframe, framing};

use wire::Refusal;

// The header: the length of the data field that it gives, or 2, 3.
pub fn header(largest: usize, p: &[u8]) -> Result<usize, Refusal>
    requires { 8 ≤ length p.now }
    ensures { result ≡ header largest p.now }
{
    let zeros = wire::be32(p, 0);
    if zeros != 0 {
        return Err(Refusal::of(2));
    }
    let size = wire::be32(p, 4) as usize;
    if size < 3 {
        return Err(Refusal::at(3, 4));
    }
    if largest < size + 12 {
        return Err(Refusal::at(3, 4));
    }
    Ok(size)
}

// The length of the data field, which starts at 8.
pub fn unframed(largest: usize, p: &[u8]) -> Result<usize, Refusal>
    ensures { result ≡ framing (unframe largest p.now) }
{
    if largest < 1 {
        return Err(Refusal::of(21));
    }
    if p.len() < 8 {
        return Err(Refusal::of(1));
    }
    let size = header(largest, p)?;
    if p.len() != size + 12 {
        return Err(Refusal::of(4));
    }
    let end = 8 + size;
    let sum = wire::be32(p, end);
    if sum != (checksum::crc16(&p[8..end]) as u32) {
        return Err(Refusal::at(5, end));
    }
    Ok(size)
}

// Writes the four zeros, the length and the CRC around the data field of `size` bytes that stands at 8.
pub fn put_frame(out: &mut [u8], size: usize)
    requires { size + 12 ≤ length out.old }
    ensures { out.new ≡ sets out.old 0 (framed (take size (drop 8 out.old))) }
{
    let end = 8 + size;
    let sum = checksum::crc16(&out[8..end]);
    wire::put_be(out, 0, 4, 0);
    wire::put_be(out, 4, 4, size as u64);
    wire::put_be(out, end, 4, sum as u64);
}
