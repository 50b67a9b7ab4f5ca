// What an event asks for itself: where it leads, the bytes of its own step, and that step written, byte by byte or by one wide write. The
// check adds these bytes up, the resolution writes the steps.
#![tactic(auto)]

ghost use Rattle.std.specs.Prelude.{◌≡◌, ◌+◌, ◌/◌, ◌%◌, ◌<◌, ◌≤◌, length, get_or};
ghost use Rattle.event.specs.Event.{decode, distance};
ghost use Rattle.records.specs.Record.{bytes, over, Wrote};
ghost use Rattle.own.specs.Own.{own, cost};
ghost use Rattle.own.specs.Inside.{listed, Say, heads, le64, Laid};

use event::Event;
use records::{ENTER, LEAVE, Step, TOKEN, put, size};

// The step that an event asks for itself, where it asks for one: no chain comes into it.
fn step_of(e: Event) -> Option<Step>
    ensures { own e ≡ listed result }
{
    match e {
        Event::Start(0, _) | Event::NoEvent(..) => None,
        Event::Start(k, _) => Some(Step::Enter(k)),
        Event::Finish => Some(Step::Leave),
        Event::Token(k, n) => Some(Step::Token(k, n)),
        // "expected KIND" has what was found
        Event::Error(1, x, f) => Some(Step::Expected(x, f)),
        Event::Error(c, x, _) => Some(Step::Error(c, x)),
    }
}

// The bytes of it.
pub fn cost(e: Event) -> usize
    ensures { result ≡ cost e }
{
    match step_of(e) {
        Some(s) => size(s),
        None => 0,
    }
}

// The distance of the event that two words say: only a start has one.
pub fn leads(a: u32, b: u32) -> u32
    requires { 65536 ≤ a }
    ensures { result ≡ distance (decode a b) }
{
    if a < 131072 { b } else { 0 }
}

// Writes what an event asks for itself.
pub fn put_own(out: &mut [u8], at: usize, e: Event) -> usize
    requires { at + cost e ≤ length out.old }
    ensures { Wrote out.old at (bytes (own e)) result out.new }
{
    match step_of(e) {
        Some(s) => put(out, at, s),
        None => at,
    }
}

// The first four bytes of the record of a start, a finish or a token, by its first word: payload length and record kind.
fn head_of(a: u32) -> u32
    ensures { result ≡ get_or heads (a / 65536 % 4) 0 }
{
    match a / 65536 % 4 {
        0 => 0,
        1 => ENTER,
        2 => LEAVE,
        _ => TOKEN,
    }
}

// Writes eight bytes, little-endian.
fn put_u64(out: &mut [u8], at: usize, n: u64)
    requires { at + 8 ≤ length out.old }
    ensures { out.new ≡ over out.old at (le64 n) }
{
    out[at..at + 8].copy_from_slice(&n.to_le_bytes());
}

// Writes what the event of two words asks for itself, in one write of eight bytes: what is past its record is to be written over. No
// error is written so: its record may have more bytes.
pub fn put_wide(out: &mut [u8], at: usize, a: u32, b: u32) -> usize
    requires say { Say a b }
    requires a_bound { a < 262144 }
    requires at_in_bounds { at + 8 ≤ length out.old }
    ensures { Laid out.old at (bytes (own (decode a b))) (at + 8) result out.new }
{
    let head = head_of(a);
    let tail = a % 65536 + b % 65536 * 65536;
    put_u64(out, at, head as u64 + tail as u64 * 4294967296);
    // a tombstone has no record
    if a == 65536 {
        return at;
    }
    at + 4 + (head % 8) as usize
}
