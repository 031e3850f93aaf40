// The items of a connection, each behind a line that says where it stands. Bytes are counted from 0.
ghost use Rattle.std.specs.Prelude.{◌≡◌};
ghost use Rattle.connection.specs.Feeding.{item_refusal};

use crate::{Judged, refuse, say_imei, show_command, show_packet};
use connection::Item;
use say::say;
use wire::Refusal;

// What a feed told of the bytes `s`, which it used from `at` on, and left in `packet`; the number of
// the refusal, 0 if none.
pub fn say_item(
    rt: &(impl Print + Eprint),
    family: usize,
    item: Item,
    at: usize,
    s: &[u8],
    packet: &[u8],
) -> usize
    ensures { result ≡ (item_refusal item).number }
{
    match item {
        Item::More => 0,
        Item::Login(imei) => {
            say_place(rt, at, s.len());
            say_imei(rt, imei);
            0
        }
        Item::Packet(n) => {
            say_place(rt, at, s.len());
            if let Some(whole) = packet.get(..n) {
                say_whole(rt, family, whole);
            }
            0
        }
        Item::Refused(r) => {
            say_place(rt, at, s.len());
            refuse_item(rt, s, r)
        }
    }
}

fn say_place(rt: &(impl Print + Eprint), at: usize, size: usize) {
    say(
        rt,
        b"-- from byte %1, %1 bytes\n",
        &[at as u64, size as u64],
    );
}

// By its codec, a packet goes by the command rules or by the data rules.
fn say_whole(rt: &(impl Print + Eprint), family: usize, p: &[u8]) -> usize {
    if command::is_command(p) {
        show_command(rt, family, p)
    } else {
        show_packet(rt, family, p)
    }
}

// The refusal of a packet; that of a login, 15, is said alike by both.
fn refuse_item(rt: &(impl Print + Eprint), s: &[u8], r: Refusal) -> usize
    ensures { result ≡ r.number }
{
    let what = if command::is_command(s) {
        Judged::Command
    } else {
        Judged::Packet
    };
    refuse(rt, what, s, r)
}
