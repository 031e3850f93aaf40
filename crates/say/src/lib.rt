// Text on standard output: with numbers in it, as hex text, between quotes, as it is. What is said is put on a
// page or found in a text by functions whose promises say it byte by byte. No contract can speak of
// what goes to a stream: the functions that write answer how many of those bytes they hand over.
#![tactic(auto)]

ghost use Rattle.std.specs.Prelude.{◌≡◌, [], ◌∷◌, ◌-◌, ◌*◌, ◌<◌, ◌==◌, min, position, length, take, drop, replicate};
ghost use Rattle.say.specs.Page.{OnPage, Puts};
ghost use Rattle.say.specs.Rendering.{padded, width_of, shown, is_mark, rendered, is_plain, quotable, quoted, group, onward, around};
ghost use Rattle.say.specs.Lines.{line_length, line_of};
ghost use Rattle.text.specs.Hex.{hex_text};
ghost use Rattle.text.specs.Decimal.{decimal};
ghost use Rattle.wire.specs.Limits.{largest_of_all};

use itoa::Buffer;
use std::io::{Cursor, Write};
use std::{io, str};

// The width that a character means: 1 to 9, A for 10 to F for 15.
#[tactic(auto, unfolding(crate::specs::Rendering::width_of))]
fn width_of(c: u8) -> usize
    ensures { result ≡ width_of c }
{
    let zero = if c < 65 { 48 } else { 55 };
    usize::from(c.saturating_sub(zero))
}

#[tactic(auto, unfolding(crate::specs::Rendering::is_mark))]
fn is_mark(c: u8) -> bool
    ensures { result ≡ is_mark c }
{
    matches!(c, b'%' | b'~' | b'^')
}

#[tactic(auto, unfolding(crate::specs::Rendering::is_plain))]
fn is_plain(b: u8) -> bool
    ensures { result ≡ is_plain b }
{
    !matches!(b, b'"' | b'\\') && text::is_printable(b)
}

// The first `n` bytes, or all; and the bytes behind them.
fn first(s: &[u8], n: usize) -> &[u8]
    ensures { result.now ≡ take n s.now }
{
    &s[..n.min(s.len())]
}

fn behind(s: &[u8], n: usize) -> &[u8]
    ensures { result.now ≡ drop n s.now }
{
    &s[n.min(s.len())..]
}

// ---- a page, and the place where it goes on

#[derive(Drop)]
struct Page<'a> {
    bytes: &'a mut [u8],
    at: usize,
}

impl<'a> Page<'a> {
    fn put(&mut self, b: u8)
        ensures same { self.new.bytes.ghost_name ≡ self.old.bytes.ghost_name }
        ensures page { Puts (b ∷ []) self.old self.new }
    {
        if self.at < self.bytes.len() {
            self.bytes[self.at] = b;
            self.at += 1;
        }
    }

    fn put_text(&mut self, s: &[u8])
        ensures same { self.new.bytes.ghost_name ≡ self.old.bytes.ghost_name }
        ensures page { Puts s.now self.old self.new }
    {
        for b in s {
            self.put(*b);
        }
    }

    fn put_times(&mut self, b: u8, times: usize)
        ensures same { self.new.bytes.ghost_name ≡ self.old.bytes.ghost_name }
        ensures page { Puts (replicate times b) self.old self.new }
    {
        for _ in 0..times {
            self.put(b);
        }
    }

    // A number, with `pad` in front up to `width`.
    fn put_padded(&mut self, n: u64, width: usize, pad: u8)
        ensures same { self.new.bytes.ghost_name ≡ self.old.bytes.ghost_name }
        ensures page { Puts (padded width pad n) self.old self.new }
    {
        let mut digits = Buffer::new();
        let text = digits.format(n).as_bytes();
        self.put_times(pad, width.saturating_sub(text.len()));
        self.put_text(text);
    }

    #[tactic(auto, unfolding(crate::specs::Rendering::shown))]
    fn put_number(&mut self, mark: u8, c: u8, n: u64)
        ensures same { self.new.bytes.ghost_name ≡ self.old.bytes.ghost_name }
        ensures page { Puts (shown mark c n) self.old self.new }
    {
        match mark {
            b'%' => self.put_padded(n, width_of(c), b'0'),
            b'~' => self.put_padded(n, width_of(c), b' '),
            _ => self.put_times(c, n as usize),
        }
    }

    // Text with numbers in it.
    fn put_rendered(&mut self, s: &[u8], numbers: &[u64])
        ensures same { self.new.bytes.ghost_name ≡ self.old.bytes.ghost_name }
        ensures page { Puts (rendered s.now numbers.now) self.old self.new }
    {
        let mut text = s.iter();
        let mut values = numbers.iter();
        while let Some(c) = text.next() {
            if is_mark(*c) {
                if let Some(d) = text.next() {
                    self.put_number(*c, *d, values.next().copied().unwrap_or(0));
                }
            } else {
                self.put(*c);
            }
        }
    }

    // The two digits of a byte.
    fn put_digits(&mut self, b: u8)
        ensures same { self.new.bytes.ghost_name ≡ self.old.bytes.ghost_name }
        ensures page { Puts (hex_text (b ∷ [])) self.old self.new }
    {
        let mut digits = [0u8; 2];
        text::encode(&[b], &mut digits);
        self.put_text(&digits);
    }

    // A printable byte as it is, but quote and backslash; every other one as \xNN.
    #[tactic(auto, unfolding(crate::specs::Rendering::quotable))]
    fn put_quotable(&mut self, b: u8)
        ensures same { self.new.bytes.ghost_name ≡ self.old.bytes.ghost_name }
        ensures page { Puts (quotable b) self.old self.new }
    {
        if is_plain(b) {
            return self.put(b);
        }
        self.put_text(b"\\x");
        self.put_digits(b);
    }

    // Text between quotes.
    #[tactic(auto, unfolding(crate::specs::Rendering::quoted))]
    fn put_quoted(&mut self, s: &[u8])
        ensures same { self.new.bytes.ghost_name ≡ self.old.bytes.ghost_name }
        ensures page { Puts (quoted s.now) self.old self.new }
    {
        self.put(b'"');
        for b in s {
            self.put_quotable(*b);
        }
        self.put(b'"');
    }

    // Bytes as hex text.
    fn put_hex(&mut self, s: &[u8])
        ensures same { self.new.bytes.ghost_name ≡ self.old.bytes.ghost_name }
        ensures page { Puts (hex_text s.now) self.old self.new }
    {
        for b in s {
            self.put_digits(*b);
        }
    }

    // The same with a space in front; nothing for no bytes.
    #[tactic(auto, unfolding(crate::specs::Rendering::group))]
    fn put_group(&mut self, s: &[u8])
        ensures same { self.new.bytes.ghost_name ≡ self.old.bytes.ghost_name }
        ensures page { Puts (group s.now) self.old self.new }
    {
        if s.is_empty() {
            return;
        }
        self.put(b' ');
        self.put_hex(s);
    }

    // An input from a place on: its byte in brackets, which are empty at the input's end, and up to 16 behind it.
    #[tactic(auto, unfolding(crate::specs::Rendering::onward))]
    fn put_onward(&mut self, s: &[u8])
        ensures same { self.new.bytes.ghost_name ≡ self.old.bytes.ghost_name }
        ensures page { Puts (onward s.now) self.old self.new }
    {
        self.put_text(b" [");
        self.put_hex(first(s, 1));
        self.put_text(b"]");
        self.put_group(first(behind(s, 1), 16));
        self.put(b'\n');
    }

    // The offset of the first byte shown, up to 16 bytes before a place, and the input from there on.
    fn put_around(&mut self, p: &[u8], place: usize)
        ensures same { self.new.bytes.ghost_name ≡ self.old.bytes.ghost_name }
        ensures page { Puts (around p.now place) self.old self.new }
    {
        let from = place.saturating_sub(16);
        self.put_rendered(b"  from byte %1:", &[from as u64]);
        self.put_group(behind(first(p, place), from));
        self.put_onward(behind(p, place));
    }
}

// ---- each function answers where the page goes on

// Text with numbers in it, each for two characters: %w is the number with zeros in front up to w
// digits, ~w the same with spaces, and ^c the character c as often as the number says.
pub fn render(page: &mut [u8], s: &[u8], numbers: &[u64]) -> usize
    ensures { OnPage (rendered s.now numbers.now) page.old 0 page.new result }
{
    let mut to = Page { bytes: page, at: 0 };
    to.put_rendered(s, numbers);
    to.at
}

// Text between quotes.
pub fn quote(page: &mut [u8], s: &[u8]) -> usize
    ensures { OnPage (quoted s.now) page.old 0 page.new result }
{
    let mut to = Page { bytes: page, at: 0 };
    to.put_quoted(s);
    to.at
}

// The bytes around a place.
pub fn around(page: &mut [u8], p: &[u8], place: usize) -> usize
    ensures { OnPage (around p.now place) page.old 0 page.new result }
{
    let mut to = Page { bytes: page, at: 0 };
    to.put_around(p, place);
    to.at
}

// ---- lines

fn line_end(s: &[u8]) -> Option<usize>
    ensures { result ≡ position (λ c. c == 10) s.now }
{
    s.iter().position(|c| *c == b'\n')
}

// How long the first line is, with its end.
pub fn line_length(s: &[u8]) -> usize
    ensures { result ≡ line_length s.now }
{
    match line_end(s) {
        Some(i) => i + 1,
        None => s.len(),
    }
}

// Line `n` of a text, counted from 0, with its end.
pub fn line_of(s: &[u8], n: usize) -> &[u8]
    ensures { result.now ≡ line_of n s.now }
{
    let mut at: usize = 0;
    for _ in 0..n {
        at += line_length(&s[at..]);
    }
    let end = at + line_length(&s[at..]);
    &s[at..end]
}

// ---- what the program says

// The system's words for an error, without the number that stands behind them.
fn reason<'a>(error: &io::Error, page: &'a mut [u8]) -> &'a str {
    let mut to = Cursor::new(page);
    let _ = write!(to, "{error}");
    let text = str::from_utf8(to.into_inner()).unwrap_or("");
    match text.split_once(" (os error ") {
        Some((words, _)) => words,
        None => text,
    }
}

// A line on standard error: what failed, a colon and why. Answers how many bytes of it say what failed: of the
// system's words for why, no contract can speak.
pub fn fail(rt: &impl Eprint, what: &str, error: &io::Error) -> usize
    ensures { result ≡ length what.now }
{
    let mut page = [0u8; 256];
    let why = reason(error, &mut page);
    let _ = eprintln!(rt; "{what}: {why}");
    what.len()
}

// Hands the first `n` bytes, or all, to standard output. What fails is said on standard error.
fn write(rt: &(impl Print + Eprint), page: &[u8], n: usize) -> usize
    ensures { result ≡ min n (length page.now) }
{
    let most = n.min(page.len());
    if let Err(e) = rt.write_all(&page[..most]) {
        fail(rt, "standard output", &e);
    }
    most
}

// Text with numbers in it: at most 4,096 bytes.
pub fn say(rt: &(impl Print + Eprint), s: &[u8], numbers: &[u64]) -> usize
    ensures { result ≡ min (length (rendered s.now numbers.now)) 4096 }
{
    let mut page = [0u8; 4096];
    let n = render(&mut page, s, numbers);
    write(rt, &page, n)
}

// Text between quotes: at most 16,386 bytes, as 4,096 bytes take that are all shown as \xNN.
pub fn say_quoted(rt: &(impl Print + Eprint), s: &[u8]) -> usize
    ensures { result ≡ min (length (quoted s.now)) 16386 }
{
    let mut page = [0u8; 16386];
    let n = quote(&mut page, s);
    write(rt, &page, n)
}

// The bytes around a place.
pub fn say_around(rt: &(impl Print + Eprint), p: &[u8], place: usize) -> usize
    ensures { result ≡ min (length (around p.now place)) 4096 }
{
    let mut page = [0u8; 4096];
    let n = around(&mut page, p, place);
    write(rt, &page, n)
}

// Bytes as hex text: at most as many as a TLV form has.
pub fn say_hex(rt: &(impl Print + Eprint), s: &[u8]) -> usize
    ensures { result ≡ min (2 * length s.now) (8 * largest_of_all) }
{
    let mut digits = [0u8; 2 * wire::LARGEST_FORM];
    let n = text::encode(s, &mut digits);
    write(rt, &digits, n)
}

// Bytes as they are.
pub fn say_bytes(rt: &(impl Print + Eprint), s: &[u8]) -> usize
    ensures { result ≡ length s.now }
{
    write(rt, s, s.len())
}

pub fn say_line(rt: &(impl Print + Eprint), s: &[u8], n: usize) -> usize
    ensures { result ≡ length (line_of n s.now) }
{
    let line = line_of(s, n);
    write(rt, line, line.len())
}
