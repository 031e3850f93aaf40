// TCP data packets: judged, and acknowledged.
#![tactic(auto)]

ghost use Rattle.std.specs.Prelude.{◌≡◌};
ghost use Rattle.wire.specs.Buffers.{writing, leaving};
ghost use Rattle.walk.specs.Walks.{data_walk};
ghost use Rattle.wire.specs.Limits.{limits_of};
ghost use Rattle.packet.specs.DataPackets.{read_packet, answer_packet, acknowledged, tcp_acknowledgement};

use avl::DataResult;
use walk::DataWalk;
use wire::{Limits, Refusal};

// The packet's codec and count, and where the record with number `want` lies behind its first 10 bytes.
pub fn judge_packet(limits: Limits, p: &[u8], want: usize) -> Result<DataWalk, Refusal>
    ensures { result ≡ data_walk want (read_packet limits p.now) }
{
    let size = frame::unframed(limits.largest, p)?;
    let end = 8 + size;
    walk::read_data(limits.longest, 8, &p[8..end], want)
}

pub fn read_packet(family: usize, p: &[u8]) -> Result<DataResult, Refusal>
    ensures { result ≡ answer_packet (limits_of family) p.now }
{
    let data = judge_packet(wire::limits_of(family), p, 0)?;
    Ok(DataResult {
        codec: data.codec as u8,
        count: data.count as u8,
    })
}

fn record_count(family: usize, p: &[u8]) -> u8
    ensures { result ≡ acknowledged (read_packet (limits_of family) p.now) }
{
    match judge_packet(wire::limits_of(family), p, 0) {
        Ok(data) => data.count as u8,
        Err(_) => 0,
    }
}

// The acknowledgement (the paper's receipt): the number of records in four bytes, zeros for a refused packet; 21 comes first.
pub fn acknowledge_packet(family: usize, p: &[u8], out: &mut [u8]) -> Result<usize, Refusal>
    ensures answer { result ≡ writing (tcp_acknowledgement (limits_of family) p.now) out.old }
    ensures buffer { out.new ≡ leaving (tcp_acknowledgement (limits_of family) p.now) out.old }
{
    if wire::limits_of(family).largest < 1 {
        return Err(Refusal::of(21));
    }
    let count = record_count(family, p);
    if out.len() < 4 {
        return Err(Refusal::of(18));
    }
    out[..4].copy_from_slice(&[0, 0, 0, count]);
    Ok(4)
}
