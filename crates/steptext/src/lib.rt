// Steps as text to a writer, a line each (docs/RULES.md, section 9), and what a file or a list is refused with.
#![tactic(auto)]

use records::{Step, size};
use std::io;
use std::io::Write;
use stepfile::step_at;
use tokens::table::Said;

// A step's line, with the words of an error where they are asked for.
fn put_step<W: Write>(out: &mut W, s: Step, worded: bool) -> io::Result<()> {
    match s {
        Step::Enter(kind) => writeln!(out, "enter {kind}"),
        Step::Leave => writeln!(out, "leave"),
        Step::Token(kind, count) => writeln!(out, "token {kind} {count}"),
        Step::Error(code, argument) => {
            write!(out, "error {code} {argument}")?;
            if worded && code == 1 {
                write!(out, ": {}", Said::Expected(argument.into()))?;
            }
            writeln!(out)
        }
        Step::Expected(kind, found) => {
            write!(out, "error 1 {kind} {found}")?;
            if worded {
                let expected = Said::Expected(kind.into());
                write!(out, ": {expected}{}", Said::Found(found.into()))?;
            }
            writeln!(out)
        }
    }
}

// Stays (promise): loops over places in the file, here and below, as `stepfile::step_at` takes one.
// How many steps a file has from its front on.
fn count(file: &[u8]) -> usize {
    let mut at = 0;
    let mut n = 0;
    while let Ok(Some(s)) = step_at(file, at) {
        at += size(s);
        n += 1;
    }
    n
}

// The steps of a file: how many, and each.
fn put_all<W: Write>(out: &mut W, file: &[u8], worded: bool) -> io::Result<()> {
    writeln!(out, "steps {}", count(file))?;
    let mut at = 0;
    while let Ok(Some(s)) = step_at(file, at) {
        put_step(out, s, worded)?;
        at += size(s);
    }
    Ok(())
}

// The same in numbers alone.
pub fn put_steps<W: Write>(out: &mut W, file: &[u8]) -> io::Result<()> {
    put_all(out, file, false)
}

// Stays (plainer): the number is what is written, and a file and a list are refused with an enum of their own.
pub fn put_refused<W: Write>(out: &mut W, number: u32, place: usize) -> io::Result<()> {
    writeln!(out, "refused {number} {place}")
}

// The steps of a good file, with words; of another one nothing but why it is refused, and where.
pub fn show_file<W: Write>(out: &mut W, file: &[u8]) -> io::Result<()> {
    match stepfile::read_file(file) {
        Ok(_) => put_all(out, file, true),
        Err(e) => put_refused(out, e.code(), e.place()),
    }
}
