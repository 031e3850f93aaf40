// The words and the input: a word among those known, a file read to its end, and the kind of what it holds.
ghost use Rattle.std.specs.Prelude.{◌≡◌, ◌≤◌, length, map, slice_get};
ghost use Rattle.inspect.specs.FirstBytes.{shows, is_tcp, is_login, is_form, is_connection, kind_of};
ghost use Rattle.inspect.specs.Words.{place_of, StandsFor};
ghost use Rattle.inspect.specs.Reading.{ReadInto};

use crate::Task;
use std::env::{Env, FillError};
use std::fs::File;
use std::io::{Error, Input as StandardInput, Read};
use std::rt::Files;
use std::str;

// Why an input is not there: it is longer than there is room for, or a reason that standard error has.
#[derive(Clone, Copy)]
pub enum ReadError {
    Long,
    Failed,
}

fn failed(rt: &impl Eprint, what: &str, error: &Error) -> ReadError
    ensures { result ≡ ReadError.Failed }
{
    say::fail(rt, what, error);
    ReadError::Failed
}

// Reads to the end, and answers how many bytes there are. A buffer that is filled was too short.
fn read_all(
    rt: &impl Eprint,
    from: &mut impl Read,
    name: &str,
    buf: &mut [u8],
) -> Result<usize, ReadError>
    ensures { ReadInto buf.old buf.new result }
{
    let mut n: usize = 0;
    while n < buf.len() {
        match from.read(&mut buf[n..]) {
            Ok(0) => return Ok(n),
            Ok(more) => n += more,
            Err(e) => return Err(failed(rt, name, &e)),
        }
    }
    Err(ReadError::Long)
}

// What a word stands for in a table.
fn named<T: Copy>(w: &[u8], table: &[(&str, T)]) -> Option<T>
    ensures { result ≡ slice_get (map (λ e. e.1) table.now) (place_of w.now (map (λ e. e.0.now) table.now)) }
{
    for e in table {
        if w == e.0.as_bytes() {
            return Some(e.1);
        }
    }
    None
}

// Stores argument `i`, and answers how many bytes it has; 0 for one that is missing or has no room.
pub fn word_of(rt: &impl Env, i: usize, buf: &mut [u8]) -> usize
    ensures { result ≤ length buf.new }
{
    rt.arg(i, buf).unwrap_or(0)
}

// What argument `i` stands for; one that is missing or has over 16 bytes counts as an empty word.
pub fn word_named<R: Env, T: Copy>(rt: &R, i: usize, table: &[(&str, T)]) -> Option<T>
    ensures { StandsFor 16 (map (λ e. e.0.now) table.now) (map (λ e. e.1) table.now) result }
{
    let mut w = [0u8; 16];
    let n = word_of(rt, i, &mut w);
    named(&w[..n], table)
}

// The system's numbers for a name that is too long, and for one that is no text.
const TOO_LONG: i32 = 36;

const NO_TEXT: i32 = 84;

// A name that cannot be asked for.
fn not_named(rt: &impl Eprint, code: i32) -> ReadError
    ensures { result ≡ ReadError.Failed }
{
    failed(rt, "inspect: FILE", &Error::from_raw_os_error(code))
}

// Reads the file that word `i` names; "-" and no word are standard input.
pub fn read_word<R: Env + Files + StandardInput + Eprint>(
    rt: &R,
    i: usize,
    buf: &mut [u8],
) -> Result<usize, ReadError>
    ensures { ReadInto buf.old buf.new result }
{
    let mut path = [0u8; 4096];
    match rt.arg(i, &mut path) {
        Ok(n) => read_path(rt, &path[..n], buf),
        Err(FillError::NotPresent) => read_path(rt, b"-", buf),
        Err(FillError::TooLong) => Err(not_named(rt, TOO_LONG)),
    }
}

fn read_path<R: Files + StandardInput + Eprint>(
    rt: &R,
    path: &[u8],
    buf: &mut [u8],
) -> Result<usize, ReadError>
    ensures { ReadInto buf.old buf.new result }
{
    if path == b"-".as_slice() {
        return read_all(rt, &mut rt.reader(), "standard input", buf);
    }
    let name = str::from_utf8(path).map_err(|_| not_named(rt, NO_TEXT))?;
    read_file(rt, name, buf)
}

fn read_file<R: Files + Eprint>(rt: &R, name: &str, buf: &mut [u8]) -> Result<usize, ReadError>
    ensures { ReadInto buf.old buf.new result }
{
    let mut file = File::open(rt, name).map_err(|e| failed(rt, name, &e))?;
    read_all(rt, &mut file, name, buf)
}

// ---- the kind of an input, by its first bytes

#[tactic(auto, unfolding(crate::specs::FirstBytes::shows))]
fn shows(p: &[u8], at: usize, w: usize, n: u64) -> bool
    requires { (at ≤ 8) × (w ≤ 8) }
    ensures { result ≡ shows p.now at w n }
{
    at + w <= p.len() && wire::number(p, at, w) == n
}

#[tactic(auto, unfolding(crate::specs::FirstBytes::is_tcp))]
pub fn is_tcp(p: &[u8]) -> bool
    ensures { result ≡ is_tcp p.now }
{
    shows(p, 0, 4, 0)
}

#[tactic(auto, unfolding(crate::specs::FirstBytes::is_login))]
fn is_login(p: &[u8]) -> bool
    ensures { result ≡ is_login p.now }
{
    p.len() == 17 && shows(p, 0, 2, 0x000F)
}

#[tactic(auto, unfolding(crate::specs::FirstBytes::is_form))]
fn is_form(p: &[u8]) -> bool
    ensures { result ≡ is_form p.now }
{
    shows(p, 0, 4, 0x0100_6400) && !shows(p, 6, 2, 0x000F)
}

#[tactic(auto, unfolding(crate::specs::FirstBytes::is_connection))]
fn is_connection(p: &[u8]) -> bool
    ensures { result ≡ is_connection p.now }
{
    17 < p.len() && !shows(p, 6, 2, 0x000F) && shows(p, 0, 2, 0x000F)
}

pub fn found(p: &[u8]) -> Task
    ensures { result ≡ kind_of p.now }
{
    if is_login(p) {
        return Task::Login;
    }
    if is_tcp(p) {
        if command::is_command(p) {
            return Task::Command;
        }
        return Task::Packet;
    }
    if is_form(p) {
        return Task::Form;
    }
    if is_connection(p) {
        return Task::Connection;
    }
    Task::Datagram
}
