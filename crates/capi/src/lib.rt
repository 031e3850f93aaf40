// The calls for C: flat answers. `number` is 0 where the input is accepted, else the refusal's number, with the record's index in `index` and the offending field's offset in `place`; all other fields are then 0.
#![tactic(auto)]

ghost use Rattle.std.specs.Prelude.{◌≡◌, Ok};
ghost use Rattle.wire.specs.Buffers.{writing, leaving};
ghost use Rattle.packet.specs.DataPackets.{answer_packet, tcp_acknowledgement};
ghost use Rattle.datagram.specs.Datagrams.{answer_datagram, udp_acknowledgement};
ghost use Rattle.login.specs.Login.{read_login, login_answer};
ghost use Rattle.command.specs.Commands.{answer_command};
ghost use Rattle.command.specs.Writing.{command_bytes};
ghost use Rattle.capi.specs.Flat.{flat_started, flat_fed, flat_lent, flat_written, flat_packet, flat_datagram, flat_login, flat_command, flat_record, flat_value, flat_found, flat_known, flat_line, flat_element};
ghost use Rattle.tlv.specs.PacketOf.{form_of_packet, form_of_datagram, packet_of_form};
ghost use Rattle.lookup.specs.Lookups.{tcp_source, udp_source, record_by_number, value_by_number, value_by_id, passed_by_id, last_known, passed_by_last};
ghost use Rattle.contents.specs.Contents.{contents_of_packet, contents_of_datagram};
ghost use Rattle.connection.specs.State.{started, gathered, wanted};
ghost use Rattle.connection.specs.Feeding.{fed, fed_into, packet_in, fed_as, lent_as};
ghost use Rattle.wire.specs.Limits.{limits_of};
ghost use Rattle.lookup.specs.Answers.{answer_value, answer_known};
ghost use Rattle.line.specs.RecordLines.{line_of_packet, line_of_datagram, lines_of_packet, lines_of_datagram};
ghost use Rattle.line.specs.LineReader.{wrong_at};
ghost use Rattle.line.specs.LineElements.{element_of, element_at};
ghost use Rattle.scan.specs.Answers.{answer_line, answer_element, leaving_element};

use avl::DataResult;
use command::CommandFields;
use connection::{Connection, Fed, Item, Lent, Started};
use datagram::DatagramResult;
use element::{RecordFields, Value};
use lookup::{CountedKnown, CountedValue, Known, TcpPacket, UdpDatagram};
use scan::{LineElement, LineFields};
use wire::{LARGEST, Refusal};

#[repr(C)]
#[derive(Default, Drop)]
pub struct WrittenC {
    pub number: usize,
    pub index: usize,
    pub place: usize,
    pub written: usize,
}

#[tactic(auto, unfolding(crate::specs::Flat::flat_written))]
impl From<Result<usize, Refusal>> for WrittenC {
    ghost from_gives = { λ a c. c ≡ flat_written a };

    fn from(a: Result<usize, Refusal>) -> WrittenC {
        match a {
            Ok(written) => WrittenC {
                written,
                ..WrittenC::default()
            },
            Err(r) => WrittenC {
                number: r.number,
                index: r.index,
                place: r.place,
                ..WrittenC::default()
            },
        }
    }
}

#[repr(C)]
#[derive(Default, Drop)]
pub struct PacketC {
    pub number: usize,
    pub index: usize,
    pub place: usize,
    pub codec: u8,
    pub count: u8,
}

#[tactic(auto, unfolding(crate::specs::Flat::flat_packet))]
impl From<Result<DataResult, Refusal>> for PacketC {
    ghost from_gives = { λ a c. c ≡ flat_packet a };

    fn from(a: Result<DataResult, Refusal>) -> PacketC {
        match a {
            Ok(d) => PacketC {
                codec: d.codec,
                count: d.count,
                ..PacketC::default()
            },
            Err(r) => PacketC {
                number: r.number,
                index: r.index,
                place: r.place,
                ..PacketC::default()
            },
        }
    }
}

#[repr(C)]
#[derive(Default, Drop)]
pub struct DatagramC {
    pub number: usize,
    pub index: usize,
    pub place: usize,
    pub codec: u8,
    pub count: u8,
    pub packet: u16,
    pub unused: u8,
    pub avl: u8,
    pub imei: u64,
}

#[tactic(auto, unfolding(crate::specs::Flat::flat_datagram))]
impl From<Result<DatagramResult, Refusal>> for DatagramC {
    ghost from_gives = { λ a c. c ≡ flat_datagram a };

    fn from(a: Result<DatagramResult, Refusal>) -> DatagramC {
        match a {
            Ok(DatagramResult { payload, header }) => DatagramC {
                codec: payload.codec,
                count: payload.count,
                packet: header.packet,
                unused: header.unused,
                avl: header.avl,
                imei: header.imei,
                ..DatagramC::default()
            },
            Err(r) => DatagramC {
                number: r.number,
                index: r.index,
                place: r.place,
                ..DatagramC::default()
            },
        }
    }
}

#[repr(C)]
#[derive(Default, Drop)]
pub struct LoginC {
    pub number: usize,
    pub index: usize,
    pub place: usize,
    pub imei: u64,
}

#[tactic(auto, unfolding(crate::specs::Flat::flat_login))]
impl From<Result<u64, Refusal>> for LoginC {
    ghost from_gives = { λ a c. c ≡ flat_login a };

    fn from(a: Result<u64, Refusal>) -> LoginC {
        match a {
            Ok(imei) => LoginC {
                imei,
                ..LoginC::default()
            },
            Err(r) => LoginC {
                number: r.number,
                index: r.index,
                place: r.place,
                ..LoginC::default()
            },
        }
    }
}

#[repr(C)]
#[derive(Default, Drop)]
pub struct CommandC {
    pub number: usize,
    pub index: usize,
    pub place: usize,
    pub codec: u8,
    pub kind: u8,
    pub time: u32,
    pub imei: u64,
    pub offset: usize,
    pub size: usize,
}

#[tactic(auto, unfolding(crate::specs::Flat::flat_command))]
impl From<Result<CommandFields, Refusal>> for CommandC {
    ghost from_gives = { λ a c. c ≡ flat_command a };

    fn from(a: Result<CommandFields, Refusal>) -> CommandC {
        match a {
            Ok(f) => CommandC {
                codec: f.codec,
                kind: f.kind,
                time: f.time,
                imei: f.imei,
                offset: f.offset,
                size: f.size,
                ..CommandC::default()
            },
            Err(r) => CommandC {
                number: r.number,
                index: r.index,
                place: r.place,
                ..CommandC::default()
            },
        }
    }
}

// The number of the interface that these calls and structs are. It stands in the name too, so that a caller of another one
// does not link; whatever breaks a caller who is not compiled anew moves both (CHANGELOG.md).
#[unsafe(no_mangle)]
pub extern "C" fn brundilope_abi_1() -> usize
    ensures { result ≡ 1 }
{
    1
}

#[unsafe(no_mangle)]
pub extern "C" fn brundilope_read_packet(family: usize, p: &[u8]) -> PacketC
    ensures { result ≡ flat_packet (answer_packet (limits_of family) p.now) }
{
    packet::read_packet(family, p).into()
}

#[unsafe(no_mangle)]
pub extern "C" fn brundilope_acknowledge_packet(family: usize, p: &[u8], out: &mut [u8]) -> WrittenC
    ensures answer { result ≡ flat_written (writing (tcp_acknowledgement (limits_of family) p.now) out.old) }
    ensures buffer { out.new ≡ leaving (tcp_acknowledgement (limits_of family) p.now) out.old }
{
    packet::acknowledge_packet(family, p, out).into()
}

#[unsafe(no_mangle)]
pub extern "C" fn brundilope_read_datagram(family: usize, p: &[u8]) -> DatagramC
    ensures { result ≡ flat_datagram (answer_datagram (limits_of family) p.now) }
{
    datagram::read_datagram(family, p).into()
}

#[unsafe(no_mangle)]
pub extern "C" fn brundilope_acknowledge_datagram(
    family: usize,
    p: &[u8],
    out: &mut [u8],
) -> WrittenC
    ensures answer { result ≡ flat_written (writing (udp_acknowledgement (limits_of family) p.now) out.old) }
    ensures buffer { out.new ≡ leaving (udp_acknowledgement (limits_of family) p.now) out.old }
{
    datagram::acknowledge_datagram(family, p, out).into()
}

#[unsafe(no_mangle)]
pub extern "C" fn brundilope_read_login(p: &[u8]) -> LoginC
    ensures { result ≡ flat_login (read_login p.now) }
{
    login::read_login(p).into()
}

#[unsafe(no_mangle)]
pub extern "C" fn brundilope_answer_login(p: &[u8], known: bool, out: &mut [u8]) -> WrittenC
    ensures answer { result ≡ flat_written (writing (Ok (login_answer known p.now)) out.old) }
    ensures buffer { out.new ≡ leaving (Ok (login_answer known p.now)) out.old }
{
    login::answer_login(p, known, out).into()
}

#[unsafe(no_mangle)]
pub extern "C" fn brundilope_read_command(family: usize, p: &[u8]) -> CommandC
    ensures { result ≡ flat_command (answer_command (limits_of family) p.now) }
{
    command::read_command(family, p).into()
}

#[unsafe(no_mangle)]
pub extern "C" fn brundilope_write_command(
    family: usize,
    codec: u8,
    kind: u8,
    imei: &[u8],
    time: u32,
    text: &[u8],
    out: &mut [u8],
) -> WrittenC
    ensures answer { result ≡ flat_written (writing (command_bytes (limits_of family) codec kind imei.now time text.now) out.old) }
    ensures buffer { out.new ≡ leaving (command_bytes (limits_of family) codec kind imei.now time text.now) out.old }
{
    command::write_command(family, codec, kind, imei, time, text, out).into()
}

// ---- looking up

#[repr(C)]
#[derive(Default, Drop)]
pub struct RecordC {
    pub number: usize,
    pub index: usize,
    pub place: usize,
    pub timestamp: u64,
    pub priority: u8,
    pub longitude: i32,
    pub latitude: i32,
    pub altitude: i16,
    pub angle: u16,
    pub satellites: u8,
    pub speed: u16,
    pub event: u16,
    pub generation: u8,
    pub elements: usize,
}

#[tactic(auto, unfolding(crate::specs::Flat::flat_record))]
impl From<Result<RecordFields, Refusal>> for RecordC {
    ghost from_gives = { λ a c. c ≡ flat_record a };

    fn from(a: Result<RecordFields, Refusal>) -> RecordC {
        match a {
            Ok(f) => RecordC {
                timestamp: f.timestamp,
                priority: f.priority,
                longitude: f.longitude,
                latitude: f.latitude,
                altitude: f.altitude,
                angle: f.angle,
                satellites: f.satellites,
                speed: f.speed,
                event: f.event,
                generation: f.generation,
                elements: f.elements,
                ..RecordC::default()
            },
            Err(r) => RecordC {
                number: r.number,
                index: r.index,
                place: r.place,
                ..RecordC::default()
            },
        }
    }
}

#[repr(C)]
#[derive(Default, Drop)]
pub struct ValueC {
    pub number: usize,
    pub index: usize,
    pub place: usize,
    pub id: u16,
    pub kind: u8,
    pub offset: usize,
    pub size: usize,
}

#[tactic(auto, unfolding(crate::specs::Flat::flat_value))]
impl From<Result<Value, Refusal>> for ValueC {
    ghost from_gives = { λ a c. c ≡ flat_value a };

    fn from(a: Result<Value, Refusal>) -> ValueC {
        match a {
            Ok(v) => ValueC {
                id: v.id,
                kind: v.kind,
                offset: v.offset,
                size: v.size,
                ..ValueC::default()
            },
            Err(r) => ValueC {
                number: r.number,
                index: r.index,
                place: r.place,
                ..ValueC::default()
            },
        }
    }
}

#[repr(C)]
#[derive(Drop)]
pub struct FoundC {
    pub value: ValueC,
    pub passed: usize,
}

#[tactic(auto, unfolding(crate::specs::Flat::flat_found))]
impl From<CountedValue> for FoundC {
    ghost from_gives = { λ f c. c ≡ flat_found f.answer f.passed };

    fn from(f: CountedValue) -> FoundC {
        FoundC {
            value: f.answer.into(),
            passed: f.passed,
        }
    }
}

#[repr(C)]
#[derive(Default, Drop)]
pub struct KnownC {
    pub number: usize,
    pub index: usize,
    pub place: usize,
    pub older: bool,
    pub id: u16,
    pub kind: u8,
    pub offset: usize,
    pub size: usize,
    pub passed: usize,
}

#[tactic(auto, unfolding(crate::specs::Flat::flat_known))]
impl From<CountedKnown> for KnownC {
    ghost from_gives = { λ k c. c ≡ flat_known k.answer k.passed };

    fn from(k: CountedKnown) -> KnownC {
        match k.answer {
            Ok(Known { older, value }) => KnownC {
                older,
                id: value.id,
                kind: value.kind,
                offset: value.offset,
                size: value.size,
                passed: k.passed,
                ..KnownC::default()
            },
            Err(r) => KnownC {
                number: r.number,
                index: r.index,
                place: r.place,
                passed: k.passed,
                ..KnownC::default()
            },
        }
    }
}

#[unsafe(no_mangle)]
pub extern "C" fn brundilope_record_in_packet(family: usize, p: &[u8], n: usize) -> RecordC
    ensures { result ≡ flat_record (record_by_number (tcp_source (limits_of family) p.now) n) }
{
    lookup::record_in::<TcpPacket>(family, p, n).into()
}

#[unsafe(no_mangle)]
pub extern "C" fn brundilope_record_in_datagram(family: usize, p: &[u8], n: usize) -> RecordC
    ensures { result ≡ flat_record (record_by_number (udp_source (limits_of family) p.now) n) }
{
    lookup::record_in::<UdpDatagram>(family, p, n).into()
}

#[unsafe(no_mangle)]
pub extern "C" fn brundilope_value_in_packet(family: usize, p: &[u8], n: usize, k: usize) -> ValueC
    ensures { result ≡ flat_value (answer_value (value_by_number (tcp_source (limits_of family) p.now) n k)) }
{
    lookup::value_in::<TcpPacket>(family, p, n, k).into()
}

#[unsafe(no_mangle)]
pub extern "C" fn brundilope_value_in_datagram(
    family: usize,
    p: &[u8],
    n: usize,
    k: usize,
) -> ValueC
    ensures { result ≡ flat_value (answer_value (value_by_number (udp_source (limits_of family) p.now) n k)) }
{
    lookup::value_in::<UdpDatagram>(family, p, n, k).into()
}

#[unsafe(no_mangle)]
pub extern "C" fn brundilope_id_in_packet(family: usize, p: &[u8], n: usize, id: u16) -> FoundC
    ensures { result ≡ flat_found (answer_value (value_by_id (tcp_source (limits_of family) p.now) n id)) (passed_by_id (tcp_source (limits_of family) p.now) n id) }
{
    lookup::id_in::<TcpPacket>(family, p, n, id).into()
}

#[unsafe(no_mangle)]
pub extern "C" fn brundilope_id_in_datagram(family: usize, p: &[u8], n: usize, id: u16) -> FoundC
    ensures { result ≡ flat_found (answer_value (value_by_id (udp_source (limits_of family) p.now) n id)) (passed_by_id (udp_source (limits_of family) p.now) n id) }
{
    lookup::id_in::<UdpDatagram>(family, p, n, id).into()
}

#[unsafe(no_mangle)]
pub extern "C" fn brundilope_last_known(
    family: usize,
    newer: &[u8],
    older: &[u8],
    id: u16,
) -> KnownC
    ensures { result ≡ flat_known (answer_known (last_known id (tcp_source (limits_of family) newer.now) (tcp_source (limits_of family) older.now))) (passed_by_last id (tcp_source (limits_of family) newer.now) (tcp_source (limits_of family) older.now)) }
{
    lookup::last_known(family, newer, older, id).into()
}

// ---- whole packets: the lent buffer is of words, and words are counted

#[unsafe(no_mangle)]
pub extern "C" fn brundilope_contents_of_packet(
    family: usize,
    p: &[u8],
    out: &mut [u64],
) -> WrittenC
    ensures answer { result ≡ flat_written (writing (contents_of_packet (limits_of family) p.now) out.old) }
    ensures buffer { out.new ≡ leaving (contents_of_packet (limits_of family) p.now) out.old }
{
    contents::contents_of_packet(family, p, out).into()
}

#[unsafe(no_mangle)]
pub extern "C" fn brundilope_contents_of_datagram(
    family: usize,
    p: &[u8],
    out: &mut [u64],
) -> WrittenC
    ensures answer { result ≡ flat_written (writing (contents_of_datagram (limits_of family) p.now) out.old) }
    ensures buffer { out.new ≡ leaving (contents_of_datagram (limits_of family) p.now) out.old }
{
    contents::contents_of_datagram(family, p, out).into()
}

// ---- TLV forms

#[unsafe(no_mangle)]
pub extern "C" fn brundilope_form_of_packet(family: usize, p: &[u8], out: &mut [u8]) -> WrittenC
    ensures answer { result ≡ flat_written (writing (form_of_packet (limits_of family) p.now) out.old) }
    ensures buffer { out.new ≡ leaving (form_of_packet (limits_of family) p.now) out.old }
{
    form::form_of_packet(family, p, out).into()
}

#[unsafe(no_mangle)]
pub extern "C" fn brundilope_form_of_datagram(family: usize, p: &[u8], out: &mut [u8]) -> WrittenC
    ensures answer { result ≡ flat_written (writing (form_of_datagram (limits_of family) p.now) out.old) }
    ensures buffer { out.new ≡ leaving (form_of_datagram (limits_of family) p.now) out.old }
{
    form::form_of_datagram(family, p, out).into()
}

#[unsafe(no_mangle)]
pub extern "C" fn brundilope_packet_of_form(family: usize, f: &[u8], out: &mut [u8]) -> WrittenC
    ensures answer { result ≡ flat_written (writing (packet_of_form (limits_of family) f.now) out.old) }
    ensures buffer { out.new ≡ leaving (packet_of_form (limits_of family) f.now) out.old }
{
    rebuild::packet_of_form(family, f, out).into()
}

// ---- a connection

// What a feed gives, with the state by value. `item` is 1 for a login, 2 for a packet, else 0.
#[repr(C)]
#[derive(Drop)]
pub struct FedC {
    pub number: usize,
    pub index: usize,
    pub place: usize,
    pub used: usize,
    pub item: u8,
    pub imei: u64,
    pub size: usize,
    pub packet: [u8; LARGEST],
    pub state: Connection,
}

#[tactic(auto, unfolding(crate::specs::Flat::flat_lent, crate::specs::Flat::flat_fed))]
impl From<Fed> for FedC {
    ghost from_gives = { λ f c. c ≡ flat_fed f };

    fn from(f: Fed) -> FedC {
        let packet = f.packet;
        let state = f.state;
        let flat = LentC::from(Lent {
            phase: 0,
            fill: 0,
            used: f.used,
            item: f.item,
        });
        FedC {
            number: flat.number,
            index: flat.index,
            place: flat.place,
            used: flat.used,
            item: flat.item,
            imei: flat.imei,
            size: flat.size,
            packet,
            state,
        }
    }
}

// The same of a lent state, but for the bytes.
#[repr(C)]
#[derive(Default, Drop)]
pub struct LentC {
    pub number: usize,
    pub index: usize,
    pub place: usize,
    pub used: usize,
    pub item: u8,
    pub imei: u64,
    pub size: usize,
    pub fill: usize,
    pub phase: u8,
}

#[tactic(auto, unfolding(crate::specs::Flat::flat_lent, crate::specs::Flat::item_number, crate::specs::Flat::item_imei, crate::specs::Flat::item_size, connection::specs::Feeding::item_refusal))]
impl From<Lent> for LentC {
    ghost from_gives = { λ l c. c ≡ flat_lent l };

    fn from(l: Lent) -> LentC {
        let flat = LentC {
            used: l.used,
            fill: l.fill,
            phase: l.phase,
            ..LentC::default()
        };
        match l.item {
            Item::More => flat,
            Item::Login(imei) => LentC {
                item: 1,
                imei,
                ..flat
            },
            Item::Packet(size) => LentC {
                item: 2,
                size,
                ..flat
            },
            Item::Refused(r) => LentC {
                number: r.number,
                index: r.index,
                place: r.place,
                ..flat
            },
        }
    }
}

// What a start gives, with the state by value.
#[repr(C)]
#[derive(Drop)]
pub struct StartedC {
    pub number: usize,
    pub index: usize,
    pub place: usize,
    pub state: Connection,
}

#[tactic(auto, unfolding(crate::specs::Flat::flat_started))]
impl From<Started> for StartedC {
    ghost from_gives = { λ s c. c ≡ flat_started s };

    fn from(s: Started) -> StartedC {
        let refusal = s.refusal;
        StartedC {
            number: refusal.number,
            index: refusal.index,
            place: refusal.place,
            state: s.state,
        }
    }
}

#[unsafe(no_mangle)]
pub extern "C" fn brundilope_start(family: usize) -> StartedC
    ensures { result ≡ flat_started (started 1280 family) }
{
    Connection::start(family).into()
}

#[unsafe(no_mangle)]
pub extern "C" fn brundilope_reset(state: Connection) -> Connection
    ensures { result ≡ (started 1280 state.family).state }
{
    state.reset()
}

#[unsafe(no_mangle)]
pub extern "C" fn brundilope_feed_lent(
    family: usize,
    phase: u8,
    fill: usize,
    held: &mut [u8],
    bytes: &[u8],
    packet: &mut [u8],
) -> LentC
    ensures answer { result ≡ flat_lent (lent_as (fed_into (limits_of family) 1280 (record { held = held.old; fill = fill; phase = phase }) bytes.now packet.old)) }
    ensures state { held.new ≡ (fed_into (limits_of family) 1280 (record { held = held.old; fill = fill; phase = phase }) bytes.now packet.old).state.held }
    ensures buffer { packet.new ≡ leaving (Ok (packet_in (fed_into (limits_of family) 1280 (record { held = held.old; fill = fill; phase = phase }) bytes.now packet.old).told)) packet.old }
{
    connection::feed_lent(family, phase, fill, held, bytes, packet).into()
}

#[unsafe(no_mangle)]
pub extern "C" fn brundilope_feed(state: Connection, bytes: &[u8]) -> FedC
    ensures { result ≡ flat_fed (fed_as 1280 state.family (fed (limits_of state.family) 1280 (gathered state) bytes.now)) }
{
    state.feed(bytes).into()
}

#[unsafe(no_mangle)]
pub extern "C" fn brundilope_wanted(family: usize, phase: u8, fill: usize, held: &[u8]) -> usize
    ensures { result ≡ wanted (limits_of family) 1280 (record { held = held.now; fill = fill; phase = phase }) }
{
    connection::wanted(family, phase, fill, held)
}

// ---- lines for the billing desk

#[repr(C)]
#[derive(Default, Drop)]
pub struct LineC {
    pub number: usize,
    pub index: usize,
    pub place: usize,
    pub timestamp: u64,
    pub longitude: i32,
    pub latitude: i32,
    pub speed: u16,
    pub elements: usize,
    pub start: usize,
}

#[tactic(auto, unfolding(crate::specs::Flat::flat_line))]
impl From<Result<LineFields, Refusal>> for LineC {
    ghost from_gives = { λ a c. c ≡ flat_line a };

    fn from(a: Result<LineFields, Refusal>) -> LineC {
        match a {
            Ok(f) => LineC {
                timestamp: f.timestamp,
                longitude: f.longitude,
                latitude: f.latitude,
                speed: f.speed,
                elements: f.elements,
                start: f.start,
                ..LineC::default()
            },
            Err(r) => LineC {
                number: r.number,
                index: r.index,
                place: r.place,
                ..LineC::default()
            },
        }
    }
}

#[repr(C)]
#[derive(Default, Drop)]
pub struct LineElementC {
    pub number: usize,
    pub index: usize,
    pub place: usize,
    pub id: u16,
    pub tag: bool,
    pub value: u64,
    pub size: usize,
    pub next: usize,
}

#[tactic(auto, unfolding(crate::specs::Flat::flat_element))]
impl From<Result<LineElement, Refusal>> for LineElementC {
    ghost from_gives = { λ a c. c ≡ flat_element a };

    fn from(a: Result<LineElement, Refusal>) -> LineElementC {
        match a {
            Ok(e) => LineElementC {
                id: e.id,
                tag: e.tag,
                value: e.value,
                size: e.size,
                next: e.next,
                ..LineElementC::default()
            },
            Err(r) => LineElementC {
                number: r.number,
                index: r.index,
                place: r.place,
                ..LineElementC::default()
            },
        }
    }
}

#[unsafe(no_mangle)]
pub extern "C" fn brundilope_line_of_packet(
    family: usize,
    p: &[u8],
    n: usize,
    out: &mut [u8],
) -> WrittenC
    ensures answer { result ≡ flat_written (writing (line_of_packet (limits_of family) p.now n) out.old) }
    ensures buffer { out.new ≡ leaving (line_of_packet (limits_of family) p.now n) out.old }
{
    print::line_of_packet(family, p, n, out).into()
}

#[unsafe(no_mangle)]
pub extern "C" fn brundilope_line_of_datagram(
    family: usize,
    p: &[u8],
    n: usize,
    out: &mut [u8],
) -> WrittenC
    ensures answer { result ≡ flat_written (writing (line_of_datagram (limits_of family) p.now n) out.old) }
    ensures buffer { out.new ≡ leaving (line_of_datagram (limits_of family) p.now n) out.old }
{
    print::line_of_datagram(family, p, n, out).into()
}

#[unsafe(no_mangle)]
pub extern "C" fn brundilope_lines_of_packet(family: usize, p: &[u8], out: &mut [u8]) -> WrittenC
    ensures answer { result ≡ flat_written (writing (lines_of_packet (limits_of family) p.now) out.old) }
    ensures buffer { out.new ≡ leaving (lines_of_packet (limits_of family) p.now) out.old }
{
    print::lines_of_packet(family, p, out).into()
}

#[unsafe(no_mangle)]
pub extern "C" fn brundilope_lines_of_datagram(family: usize, p: &[u8], out: &mut [u8]) -> WrittenC
    ensures answer { result ≡ flat_written (writing (lines_of_datagram (limits_of family) p.now) out.old) }
    ensures buffer { out.new ≡ leaving (lines_of_datagram (limits_of family) p.now) out.old }
{
    print::lines_of_datagram(family, p, out).into()
}

#[unsafe(no_mangle)]
pub extern "C" fn brundilope_read_line(s: &[u8]) -> LineC
    ensures { result ≡ flat_line (answer_line s.now) }
{
    scan::read_line(s).into()
}

#[unsafe(no_mangle)]
pub extern "C" fn brundilope_element_in_line(s: &[u8], k: usize, out: &mut [u8]) -> LineElementC
    ensures answer { result ≡ flat_element (answer_element (element_of s.now k) out.old) }
    ensures buffer { out.new ≡ leaving_element (element_of s.now k) out.old }
{
    scan::element_in_line(s, k, out).into()
}

#[unsafe(no_mangle)]
pub extern "C" fn brundilope_element_at(s: &[u8], at: usize, out: &mut [u8]) -> LineElementC
    ensures answer { result ≡ flat_element (answer_element (element_at s.now at) out.old) }
    ensures buffer { out.new ≡ leaving_element (element_at s.now at) out.old }
{
    scan::element_at(s, at, out).into()
}

#[unsafe(no_mangle)]
pub extern "C" fn brundilope_wrong_byte(s: &[u8]) -> usize
    ensures { result ≡ wrong_at s.now }
{
    scan::wrong_byte(s)
}
