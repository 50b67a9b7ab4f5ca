// Parses OpenQASM text or tokens that stand as text on standard input, and writes the tree (docs/RULES.md, section 10).
#![tactic(auto)]

ghost use Rattle.std.specs.Prelude.{◌≤◌, length};

use event::EVENT_WORDS;
use lex::lex;
use parse::{Entry, Parsed};
use std::io;
use std::io::{Read, Write};
use text::stream::{read_full, room};
use tokens::read::{Asked, has_source, read};
use tree::{Tokens, put_done, put_refused, put_tree};

// Resolves the events of a done parse into the room of their steps, and writes the tree and the last line.
fn put_steps<W: Write>(
    out: &mut W,
    words: &mut [u32],
    steps: &mut [u8],
    parsed: Parsed,
    tokens: Tokens<'_>,
) -> io::Result<()>
    requires { length steps.old ≤ 1048576 }
{
    match events::resolve(words, steps) {
        Ok(n) if n <= steps.len() => {
            let errors = put_tree(out, tokens, &steps[..n])?;
            put_done(
                out,
                parsed.tokens,
                tokens.kinds.len(),
                parsed.events,
                parsed.lookups,
                errors,
            )
        }
        Ok(_) => Ok(()),
        Err(e) => put_refused(out, e.code(), e.place() as u64, tokens),
    }
}

// The entry of a parse.
// Stays (plainer): neither of the two crates stands on the other, so no `From` between their entries can be written.
fn entry_of(e: tokens::read::Entry) -> Entry {
    match e {
        tokens::read::Entry::Source => Entry::SourceFile,
        tokens::read::Entry::Item => Entry::Item,
        tokens::read::Entry::Expr => Entry::Expression,
    }
}

// Parses what is asked for, and writes what comes of it. The rooms hold all the events that a list may have, and the longest file of their
// steps.
fn run<W: Write>(
    out: &mut W,
    asked: Asked<'_>,
    tokens: Tokens<'_>,
    joints: &[u64],
) -> io::Result<()> {
    let entry = entry_of(asked.entry);
    let mut words: [u32; 131072] = room(0);
    let parsed = match parse::parse(entry, asked.mode, tokens.kinds, joints, &mut words) {
        Ok(parsed) => parsed,
        Err(e) => return put_refused(out, e.code(), e.place() as u64, tokens),
    };
    let n = EVENT_WORDS * parsed.events as usize;
    if n <= words.len() {
        let mut steps: [u8; 655360] = room(0);
        put_steps(out, &mut words[..n], &mut steps, parsed, tokens)?;
    }
    Ok(())
}

// Parses OpenQASM text, whose tokens are told by their lines and columns. The rooms hold the kinds, the joint words and the list of a token
// for each byte of the longest text.
fn run_source<W: Write>(out: &mut W, asked: Asked<'_>, text: &[u8]) -> io::Result<()>
    requires { length text.now ≤ 1048576 }
{
    let mut kinds: [u16; 65536] = room(0);
    let mut joints: [u64; 1024] = room(0);
    let mut words: [u32; 131072] = room(0);
    match lex(text, &mut kinds, &mut joints, &mut words) {
        Ok(l) if l.kinds <= kinds.len() && l.tokens <= words.len() / 2 => {
            let tokens = Tokens::of_text(&kinds[..l.kinds], text, &words[..2 * l.tokens]);
            run(out, asked, tokens, &joints)
        }
        Ok(_) => Ok(()),
        Err(e) => {
            let tokens = Tokens::of_text(&kinds, text, &words);
            put_refused(out, e.code(), e.place() as u64, tokens)
        }
    }
}

// Parses what a text asks for: its own tokens, which are told by their numbers, or the OpenQASM text that it leads to. The rooms hold the
// tokens that a parse takes and one more, and their joint words.
fn run_text<W: Write>(out: &mut W, text: &[u8]) -> io::Result<()>
    requires { length text.now ≤ 1048576 }
{
    let mut kinds: [u16; 8193] = room(0);
    let mut joints: [u64; 129] = room(0);
    let Some(asked) = read(out, text, &mut kinds, &mut joints)? else {
        return writeln!(out, "bad input");
    };
    if let Some(source) = asked.source {
        return run_source(out, asked, source);
    }
    let tokens = Tokens {
        kinds: &kinds[..asked.count],
        source: None,
    };
    run(out, asked, tokens, &joints)
}

// Reads standard input into the room. One that fills it may be longer: too long for tokens, and for OpenQASM text in any case.
fn run_input<R: Read, W: Write>(input: &mut R, out: &mut W, text: &mut [u8]) -> io::Result<()>
    requires { length text.old ≤ 1048576 }
{
    let n = read_full(input, text)?;
    if n == text.len() && !has_source(text) {
        return writeln!(out, "bad input: more than 1048575 bytes");
    }
    run_text(out, &text[..n])
}

fn main(rt: HostRuntime) -> io::Result<()> {
    let mut text: [u8; 1048576] = room(0);
    run_input(&mut rt.reader(), &mut io::writer(&rt), &mut text)
}
