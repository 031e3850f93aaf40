// A connection fed from the socket: its state by value, or lent.
#![tactic(auto)]

ghost use Rattle.std.specs.Prelude.{◌≡◌, ◌-◌, ◌≤◌, length, eqb, Ok};
ghost use Rattle.std.proofs.lemmas.List.Edits.{sets};
ghost use Rattle.wire.specs.Answers.{refusal};
ghost use Rattle.wire.specs.Buffers.{writing, leaving};
ghost use Rattle.wire.specs.Limits.{limits_of};
ghost use Rattle.stream.specs.Stream.{needed, judged_packet, judged, settled, refusing, closed, next};
ghost use Rattle.connection.specs.State.{zeros, started, gathered, is_zero, phase_of, judged_at, count_of, wanted};
ghost use Rattle.connection.specs.Feeding.{outcome, fed, fed_into, packet_in, fed_as, lent_as, Feedable, Gives};

use wire::{LARGEST, Limits, Refusal};

// The bytes gathered so far and zeros behind them, how many they are, the phase (0 expects the login, 1 packets, 2 is closed) and the family. The phase is a number: C keeps the state and hands it in, any number it likes.
#[repr(C)]
#[derive(Drop)]
pub struct Connection {
    pub held: [u8; LARGEST],
    pub fill: usize,
    pub phase: u8,
    pub family: u8,
}

// The phase of a closed connection.
const CLOSED: u8 = 2;

// What a start gives: number 0 and a fresh connection, or 21 and a closed one of family 1. No `Result`: the clause `started` gives a state on a refusal too, as C needs one.
#[derive(Drop)]
pub struct Started {
    pub refusal: Refusal,
    pub state: Connection,
}

// What a feed tells: more bytes are needed, the login's IMEI, the packet's length, or the refusal. One enum and no `Result`: a refusal too uses bytes and changes the state, and nothing passes it on by `?`.
#[derive(Clone, Copy)]
pub enum Item {
    More,
    Login(u64),
    Packet(usize),
    Refused(Refusal),
}

// What a feed gives: the state, how many bytes it used, what it tells, and the packet's bytes with zeros behind them.
#[derive(Drop)]
pub struct Fed {
    pub state: Connection,
    pub used: usize,
    pub item: Item,
    pub packet: [u8; LARGEST],
}

// The same of a lent state, but for the bytes.
#[derive(Drop)]
pub struct Lent {
    pub phase: u8,
    pub fill: usize,
    pub used: usize,
    pub item: Item,
}

// 0 where all bytes are zero: one pass without a branch. By `iter().all(..)` it is slower: 950 ns for 1,280 zeros, and 50 so.
fn union(s: &[u8]) -> u8
    ensures { eqb result 0 ≡ is_zero s.now }
{
    let mut all: u8 = 0;
    for b in s {
        all |= *b;
    }
    all
}

// Clears the first `n` bytes.
fn clear(s: &mut [u8], n: usize)
    requires { n ≤ length s.old }
    ensures { s.new ≡ sets s.old 0 (zeros n) }
{
    s[..n].fill(0);
}

// How many bytes are judged together, as far as these tell; or why their header is refused.
fn needed(limits: Limits, phase: u8, s: &[u8]) -> Result<usize, Refusal>
    ensures { result ≡ needed limits (phase_of phase) s.now }
{
    if phase == 0 {
        return Ok(17);
    }
    if s.len() < 8 {
        return Ok(8);
    }
    let size = frame::header(limits.largest, s)?;
    Ok(size + 12)
}

// How many bytes the connection judges together next; 0 where a feed gives 19.
fn judged_at(limits: Limits, phase: u8, fill: usize, held: &[u8]) -> usize
    ensures { result ≡ count_of (judged_at limits 1280 (record { held = held.now; fill = fill; phase = phase })) }
{
    if limits.largest < 1 {
        return 0;
    }
    if 1 < phase {
        return 0;
    }
    if held.len() != LARGEST {
        return 0;
    }
    if LARGEST < fill {
        return 0;
    }
    if union(&held[fill..]) != 0 {
        return 0;
    }
    match needed(limits, phase, &held[0..fill]) {
        Err(_) => 0,
        Ok(n) => {
            if fill < n {
                return n;
            }
            0
        }
    }
}

// Writes a packet to the start of `out`.
fn put_packet(p: &[u8], out: &mut [u8]) -> Result<usize, Refusal>
    requires { length p.now ≤ length out.old }
    ensures result_value { result ≡ writing (Ok p.now) out.old }
    ensures out_after { out.new ≡ leaving (Ok p.now) out.old }
{
    wire::put_bytes(out, 0, p);
    Ok(p.len())
}

// Judges a whole packet, and writes it if it is accepted.
fn take_packet(limits: Limits, p: &[u8], out: &mut [u8]) -> Result<usize, Refusal>
    requires { (9 ≤ length p.now) × (length p.now ≤ length out.old) }
    ensures result_value { result ≡ writing (judged_packet limits p.now) out.old }
    ensures out_after { out.new ≡ leaving (judged_packet limits p.now) out.old }
{
    match command::layout_of(p[8]) {
        Some(_) => {
            command::judge_command(limits, p)?;
            put_packet(p, out)
        }
        None => {
            packet::judge_packet(limits, p, 0)?;
            put_packet(p, out)
        }
    }
}

// A refusal closes.
fn closing(used: usize, r: Refusal) -> Lent
    ensures { result ≡ lent_as (outcome 1280 (record { used = used; told = settled (refusing r); state = closed })) }
{
    Lent {
        phase: CLOSED,
        fill: 0,
        used,
        item: Item::Refused(r),
    }
}

// Judges the bytes of a whole item, with which `used` bytes are used.
fn settle(limits: Limits, phase: u8, s: &[u8], used: usize, out: &mut [u8]) -> Lent
    requires { (9 ≤ length s.now) × (length s.now ≤ length out.old) }
    ensures answer { result ≡ lent_as (outcome 1280 (record { used = used; told = settled (judged limits (phase_of phase) s.now); state = next (judged limits (phase_of phase) s.now) })) }
    ensures buffer { out.new ≡ leaving (Ok (packet_in (settled (judged limits (phase_of phase) s.now)))) out.old }
{
    if phase == 0 {
        return match login::read_login(s) {
            Ok(imei) => Lent {
                phase: 1,
                fill: 0,
                used,
                item: Item::Login(imei),
            },
            Err(r) => closing(used, r),
        };
    }
    match take_packet(limits, s, out) {
        Ok(n) => Lent {
            phase: 1,
            fill: 0,
            used,
            item: Item::Packet(n),
        },
        Err(r) => closing(used, r),
    }
}

// More is needed: `fill` bytes are held now.
fn waiting(phase: u8, fill: usize, used: usize) -> Lent
    ensures { result ≡ record { phase = phase; fill = fill; used = used; item = Item.More } }
{
    Lent {
        phase,
        fill,
        used,
        item: Item::More,
    }
}

// How many of `n` bytes still belong to a header: the lesser of `n` and what is missing.
fn header_rest(fill: usize, n: usize) -> usize
    ensures { result ≡ n - (n - (8 - fill)) }
{
    8usize.saturating_sub(fill).min(n)
}

// Gathers behind the bytes held: the rest of the header first, which tells how many bytes are judged together.
fn gather(
    limits: Limits,
    phase: u8,
    fill: usize,
    held: &mut [u8],
    bytes: &[u8],
    out: &mut [u8],
) -> Lent
    requires { Feedable limits 1280 (record { held = held.now; fill = fill; phase = phase }) out.old }
    ensures { Gives (fed limits 1280 (record { held = held.old; fill = fill; phase = phase }) bytes.now) out.old result held.new out.new }
{
    let front = header_rest(fill, bytes.len());
    let got = fill + front;
    wire::put_bytes(held, fill, &bytes[0..front]);
    match needed(limits, phase, &held[0..got]) {
        Err(r) => {
            clear(held, got);
            closing(front, r)
        }
        Ok(n) => {
            let used = n - fill;
            if bytes.len() < used {
                wire::put_bytes(held, fill, bytes);
                return waiting(phase, fill + bytes.len(), bytes.len());
            }
            wire::put_bytes(held, fill, &bytes[0..used]);
            let answer = settle(limits, phase, &held[0..n], used, out);
            clear(held, n);
            answer
        }
    }
}

// A refusal before a feed uses and changes nothing.
fn unfed(phase: u8, fill: usize, number: usize) -> Lent
    ensures { result ≡ record { phase = phase; fill = fill; used = 0; item = Item.Refused (refusal number) } }
{
    Lent {
        phase,
        fill,
        used: 0,
        item: Item::Refused(Refusal::of(number)),
    }
}

// Feeds an open connection. Where nothing is held and the item is whole in the bytes, it is judged there.
fn feed_open(
    limits: Limits,
    phase: u8,
    fill: usize,
    held: &mut [u8],
    bytes: &[u8],
    out: &mut [u8],
) -> Lent
    requires { Feedable limits 1280 (record { held = held.now; fill = fill; phase = phase }) out.old }
    ensures { Gives (fed limits 1280 (record { held = held.old; fill = fill; phase = phase }) bytes.now) out.old result held.new out.new }
{
    if fill == 0 {
        match needed(limits, phase, bytes) {
            Err(_) => {}
            Ok(n) => {
                if n <= bytes.len() {
                    return settle(limits, phase, &bytes[0..n], n, out);
                }
            }
        }
    }
    gather(limits, phase, fill, held, bytes, out)
}

// Feeds a lent state, of `LARGEST` bytes: 19, 18 unless the packet's buffer has room for every packet of the family, then the bytes.
pub fn feed_lent(
    family: usize,
    phase: u8,
    fill: usize,
    held: &mut [u8],
    bytes: &[u8],
    packet: &mut [u8],
) -> Lent
    ensures answer { result ≡ lent_as (fed_into (limits_of family) 1280 (record { held = held.old; fill = fill; phase = phase }) bytes.now packet.old) }
    ensures state { held.new ≡ (fed_into (limits_of family) 1280 (record { held = held.old; fill = fill; phase = phase }) bytes.now packet.old).state.held }
    ensures buffer { packet.new ≡ leaving (Ok (packet_in (fed_into (limits_of family) 1280 (record { held = held.old; fill = fill; phase = phase }) bytes.now packet.old).told)) packet.old }
{
    let limits = wire::limits_of(family);
    if judged_at(limits, phase, fill, held) == 0 {
        return unfed(phase, fill, 19);
    }
    if packet.len() < limits.largest {
        return unfed(phase, fill, 18);
    }
    feed_open(limits, phase, fill, held, bytes, packet)
}

// How many more bytes are wanted before anything is judged; 0 where a feed gives 19.
pub fn wanted(family: usize, phase: u8, fill: usize, held: &[u8]) -> usize
    ensures { result ≡ wanted (limits_of family) 1280 (record { held = held.now; fill = fill; phase = phase }) }
{
    judged_at(wire::limits_of(family), phase, fill, held).saturating_sub(fill)
}

fn none() -> [u8; LARGEST]
    ensures { result ≡ zeros 1280 }
{
    [0u8; LARGEST]
}

impl Connection {
    // A fresh connection of a family, or 21 and a closed one of family 1.
    pub fn start(family: usize) -> Started
        ensures { result ≡ started 1280 family }
    {
        let held = none();
        if wire::limits_of(family).largest < 1 {
            return Started {
                refusal: Refusal::of(21),
                state: Self {
                    held,
                    fill: 0,
                    phase: CLOSED,
                    family: 1,
                },
            };
        }
        Started {
            refusal: Refusal::of(0),
            state: Self {
                held,
                fill: 0,
                phase: 0,
                family: family as u8,
            },
        }
    }

    // As its family starts again, whatever the state.
    pub fn reset(mut self) -> Self
        ensures { result ≡ (started 1280 self.family).state }
    {
        let started = Self::start(self.family as usize);
        self = started.state;
        self
    }

    // Uses every byte up to the one that finishes or refuses an item, and none after it.
    pub fn feed(mut self, bytes: &[u8]) -> Fed
        ensures { result ≡ fed_as 1280 self.family (fed (limits_of self.family) 1280 (gathered self) bytes.now) }
    {
        let mut held = self.held;
        let mut packet = none();
        let lent = feed_lent(
            self.family as usize,
            self.phase,
            self.fill,
            &mut held,
            bytes,
            &mut packet,
        );
        self.held = held;
        self.fill = lent.fill;
        self.phase = lent.phase;
        let item = lent.item;
        Fed {
            state: self,
            used: lent.used,
            item,
            packet,
        }
    }
}
