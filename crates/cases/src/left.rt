// How a call left what it was lent, to a writer.
use crate::show::{Bytes, Words};
use std::io::Write;
use std::{fmt, io};

// A word of a parse's room, and a byte of the step room, before the call.
pub const WORD: u32 = 3735928559;

pub const BYTE: u8 = 165;

// What is left: the list of events that were made, zeros, what was lent, a list of bare tombstones, or something else.
#[derive(Clone, Copy)]
enum State {
    List,
    Zero,
    Same,
    Bare,
    Other,
}

impl fmt::Display for State {
    fn fmt<W: fmt::Write>(&self, f: &mut fmt::Formatter<W>) -> fmt::Result {
        f.write_str(match self {
            State::List => "list",
            State::Zero => "zero",
            State::Same => "same",
            State::Bare => "bare",
            State::Other => "other",
        })
    }
}

// Whether these words are a list of bare tombstones.
fn is_bare(words: &[u32]) -> bool {
    words
        .iter()
        .enumerate()
        .all(|(i, &word)| word == if i % 2 == 0 { 65536 } else { 0 })
}

// How a parse left the words that are no events, which is asked first for the state that it must leave: a done one, and one that is
// refused with a number.
fn rest_state(done: Result<usize, u32>, rest: &[u32]) -> State {
    let zero = rest.iter().all(|&word| word == 0);
    let same = rest.iter().all(|&word| word == WORD);
    match done {
        Ok(_) if zero => State::List,
        Err(number) if number >= 5 && zero => State::Zero,
        Err(_) if same => State::Same,
        Err(_) if zero => State::Zero,
        _ => State::Other,
    }
}

// Writes how a parse left its room, whose first words are the events where it is done, and which it has not filled where it is refused
// with a number.
// Stays (plainer): this crate does not stand on the parse, so it knows no enum of its refusals.
pub fn put_parsed<W: Write>(out: &mut W, done: Result<usize, u32>, room: &[u32]) -> io::Result<()> {
    let n = done.unwrap_or(0);
    if n > room.len() {
        return write!(out, " other -");
    }
    write!(
        out,
        " {} {}",
        rest_state(done, &room[n..]),
        Words(&room[..n])
    )
}

// How a resolution left the list, which was `kept`, and the bytes behind the file, where it is done or refused.
fn list_state(done: bool, words: &[u32], kept: &[u32], rest: &[u8]) -> State {
    if rest.iter().any(|&byte| byte != BYTE) {
        return State::Other;
    }
    match (is_bare(words), words == kept) {
        (true, true) if done => State::Bare,
        (_, true) => State::Same,
        (true, false) => State::Bare,
        (false, false) => State::Other,
    }
}

// Writes how a resolution left its room, whose first bytes are the file where it is done, and the list.
pub fn put_resolved<W: Write>(
    out: &mut W,
    done: Option<usize>,
    room: &[u8],
    words: &[u32],
    kept: &[u32],
) -> io::Result<()> {
    let n = done.unwrap_or(0);
    if n > room.len() {
        return write!(out, " - other");
    }
    let state = list_state(done.is_some(), words, kept, &room[n..]);
    write!(out, " {} {state}", Bytes(&room[..n]))
}
