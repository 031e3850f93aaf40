// UDP datagrams: judged, and acknowledged.
#![tactic(auto)]

ghost use Rattle.std.specs.Prelude.{◌≡◌, ◌+◌, ◌≤◌, ◌++◌, length, drop};
ghost use Rattle.wire.specs.Buffers.{writing, leaving};
ghost use Rattle.datagram.specs.Datagrams.{judge_header, read_datagram, answer_datagram, payload_of, header_as, answer_bytes, udp_acknowledgement};
ghost use Rattle.wire.specs.Limits.{limits_of};
ghost use Rattle.walk.specs.Walks.{data_walk};

use avl::DataResult;
use walk::DataWalk;
use wire::Refusal;

// What stands before the data field: packet ID, unused byte, AVL packet ID, IMEI.
#[derive(Clone, Copy)]
pub struct Header {
    pub packet: u16,
    pub unused: u8,
    pub avl: u8,
    pub imei: u64,
}

// What an accepted datagram is answered with.
#[derive(Clone, Copy)]
pub struct DatagramResult {
    pub payload: DataResult,
    pub header: Header,
}

// The IMEI of a header that is well-formed, or the refusal. Its other fields are read once the datagram is accepted.
fn read_header(largest: usize, p: &[u8]) -> Result<u64, Refusal>
    ensures { header_as p.now result ≡ judge_header largest p.now }
{
    if largest < 1 {
        return Err(Refusal::of(21));
    }
    if p.len() < 26 {
        return Err(Refusal::of(1));
    }
    if largest < p.len() {
        return Err(Refusal::of(3));
    }
    let size = wire::be16(p, 0) as usize;
    if p.len() != size + 2 {
        return Err(Refusal::of(4));
    }
    wire::read_imei(p, 6)
}

// The datagram's codec and count, and where the record with number `want` lies behind its first 25 bytes.
pub fn judge_datagram(family: usize, p: &[u8], want: usize) -> Result<DataWalk, Refusal>
    ensures { result ≡ data_walk want (payload_of (read_datagram (limits_of family) p.now)) }
{
    let limits = wire::limits_of(family);
    read_header(limits.datagram, p)?;
    walk::read_data(limits.longest, 23, &p[23..], want)
}

pub fn read_datagram(family: usize, p: &[u8]) -> Result<DatagramResult, Refusal>
    ensures { result ≡ answer_datagram (limits_of family) p.now }
{
    let limits = wire::limits_of(family);
    let imei = read_header(limits.datagram, p)?;
    let data = walk::read_data(limits.longest, 23, &p[23..], 0)?;
    Ok(DatagramResult {
        payload: DataResult {
            codec: data.codec as u8,
            count: data.count as u8,
        },
        header: Header {
            packet: wire::be16(p, 2),
            unused: p[4],
            avl: p[5],
            imei,
        },
    })
}

// The seven bytes of an acknowledgement, at the buffer's start: the IDs and the unused byte as the datagram has them.
fn put_acknowledgement(p: &[u8], count: u8, out: &mut [u8])
    requires { (26 ≤ length p.now) × (7 ≤ length out.old) }
    ensures { out.new ≡ answer_bytes p.now count ++ drop 7 out.old }
{
    out[..7].copy_from_slice(&[0, 5, p[2], p[3], p[4], p[5], count]);
}

// The acknowledgement (the paper's receipt): seven bytes; a refused datagram gets its refusal and no byte.
pub fn acknowledge_datagram(family: usize, p: &[u8], out: &mut [u8]) -> Result<usize, Refusal>
    ensures answer { result ≡ writing (udp_acknowledgement (limits_of family) p.now) out.old }
    ensures buffer { out.new ≡ leaving (udp_acknowledgement (limits_of family) p.now) out.old }
{
    // a match and no `?`, so that the edit of a refused datagram's answer changes a value and no form
    let data = match judge_datagram(family, p, 0) {
        Ok(data) => data,
        Err(r) => return Err(r),
    };
    if out.len() < 7 {
        return Err(Refusal::of(18));
    }
    put_acknowledgement(p, data.count as u8, out);
    Ok(7)
}
