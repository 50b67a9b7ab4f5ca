// What the tables of names.rt say of numbers, and the kind with a name.
use crate::names::{KINDS, MEANINGS, MESSAGES, WORDS};
use std::fmt;

// The kind with a name.
pub fn kind_named(name: &[u8]) -> Option<u16> {
    let kind = KINDS.iter().position(|text| text.as_bytes() == name)?;
    u16::try_from(kind).ok()
}

// What is said of a number, which stands for itself where nothing is.
// Stays (promise): numbers, not enums, and of 64 bits: `put_kind`, `put_message` and `put_meaning` wrote every u64.
#[derive(Clone, Copy)]
pub enum Said {
    // A kind's name.
    Name(u64),
    // What a kind is called in a message. A number above those of the kinds has no words.
    Words(u64),
    // The message of a code.
    Message(u64),
    // The message of code 1 with the kind that was expected, and what was found, which goes behind any message.
    Expected(u64),
    Found(u64),
    // What the number of an answer means.
    Meaning(u64),
}

// Writes the text of a number.
fn put<W: fmt::Write>(f: &mut fmt::Formatter<W>, texts: &[&str], number: u64) -> fmt::Result {
    match texts.get(number as usize) {
        Some(text) => f.write_str(text),
        None => write!(f, "{number}"),
    }
}

// Stays (plainer): as above but for the words before a number that has none.
// Writes what a kind is called.
fn put_words<W: fmt::Write>(f: &mut fmt::Formatter<W>, kind: u64) -> fmt::Result {
    match WORDS.get(kind as usize) {
        Some(words) => f.write_str(words),
        None => write!(f, "kind {kind}"),
    }
}

impl fmt::Display for Said {
    fn fmt<W: fmt::Write>(&self, f: &mut fmt::Formatter<W>) -> fmt::Result {
        match *self {
            Said::Name(kind) => put(f, &KINDS, kind),
            Said::Words(kind) => put_words(f, kind),
            Said::Message(code) => put(f, &MESSAGES, code),
            Said::Expected(kind) => {
                put(f, &MESSAGES, 1)?;
                f.write_str(" ")?;
                put_words(f, kind)
            }
            Said::Found(kind) => {
                f.write_str(", found ")?;
                put_words(f, kind)
            }
            Said::Meaning(number) => put(f, &MEANINGS, number),
        }
    }
}
