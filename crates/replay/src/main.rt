// Replays cases from standard input, a line each, and writes a line for each (docs/RULES.md, section 11).
#![tactic(auto)]

ghost use Rattle.std.specs.Prelude.{◌≤◌, ◌<◌, length, IfOk};

use cases::left::{BYTE, WORD, put_parsed, put_resolved};
use cases::numbers::numbers;
use cases::{BYTES, Head, Parse, Resolve, WORDS, head_of, read_parse, read_resolve};
use event::EVENT_WORDS;
use lists::Refusal;
use parse::Entry;
use std::io;
use std::io::{Read, Write};
use text::stream::{keep, read_behind, room};

// What a line that is no case is answered.
fn put_bad<W: Write>(out: &mut W) -> io::Result<()> {
    write!(out, "bad line")
}

// Parses what a case has lent. Its room is made here, where a line that is no case does not come: a function pays for its rooms as it begins.
fn run_parse<W: Write>(
    out: &mut W,
    entry: Entry,
    case: Parse,
    kinds: &[u16],
    joints: &[u64],
) -> io::Result<()>
    requires { case.room ≤ 131080 }
{
    let mut words: [u32; WORDS] = room(WORD);
    let lent = &mut words[..case.room];
    let done = match parse::parse(entry, case.mode, kinds, joints, lent) {
        Ok(p) => {
            write!(out, "0 {} {} {}", p.tokens, p.events, p.lookups)?;
            Ok(EVENT_WORDS * p.events as usize)
        }
        Err(e) => {
            write!(out, "{} {} 0 0", e.code(), e.place())?;
            Err(e.code())
        }
    };
    put_parsed(out, done, lent)
}

fn parse_case<W: Write>(out: &mut W, line: &[u8], entry: Entry) -> io::Result<()> {
    let mut kinds: [u16; 8256] = room(0);
    let mut joints: [u64; 256] = room(0);
    match read_parse(line, &mut kinds, &mut joints) {
        Some(case) => run_parse(
            out,
            entry,
            case,
            &kinds[..case.kinds],
            &joints[..case.joints],
        ),
        None => put_bad(out),
    }
}

// The number and the place of what a check or a resolution answers.
fn put_answer<W: Write>(out: &mut W, a: Result<usize, Refusal>) -> io::Result<()> {
    write!(out, "{} {}", lists::code(a), lists::place(a))
}

fn check_case<W: Write>(out: &mut W, line: &[u8]) -> io::Result<()> {
    let mut words: [u32; WORDS] = room(0);
    let Some((count, [])) = numbers(line, 10, &mut words) else {
        return put_bad(out);
    };
    put_answer(out, lists::check(&words[..count]))
}

// Resolves the list that a case has lent, in rooms that are made here for the same reason.
fn run_resolve<W: Write>(out: &mut W, case: Resolve, words: &mut [u32; WORDS]) -> io::Result<()>
    requires { (case.room ≤ 655368) × (case.words ≤ 131080) }
{
    let kept = *words;
    let list = &mut words[..case.words];
    let mut bytes: [u8; BYTES] = room(BYTE);
    let lent = &mut bytes[..case.room];
    let a = events::resolve(list, lent);
    put_answer(out, a)?;
    put_resolved(out, a.ok(), lent, list, &kept[..case.words])
}

fn resolve_case<W: Write>(out: &mut W, line: &[u8]) -> io::Result<()> {
    let mut words: [u32; WORDS] = room(0);
    match read_resolve(line, &mut words) {
        Some(case) => run_resolve(out, case, &mut words),
        None => put_bad(out),
    }
}

// Answers a line, without its line feed, by its head.
fn answer_case<W: Write>(out: &mut W, line: &[u8]) -> io::Result<()> {
    let Some((head, rest)) = head_of(line) else {
        return put_bad(out);
    };
    match head {
        Head::Source => parse_case(out, rest, Entry::SourceFile),
        Head::Item => parse_case(out, rest, Entry::Item),
        Head::Expr => parse_case(out, rest, Entry::Expression),
        Head::Check => check_case(out, rest),
        Head::Resolve => resolve_case(out, rest),
        Head::Copied => out.write_all(line),
    }
}

fn answer<W: Write>(out: &mut W, line: &[u8]) -> io::Result<()> {
    answer_case(out, line)?;
    writeln!(out)
}

// Answers the lines of a text that have ended, and tells the place past them.
fn answer_lines<W: Write>(out: &mut W, text: &[u8]) -> io::Result<usize>
    ensures { IfOk result (λ at. at ≤ length text.now) }
{
    let mut rest = text;
    while let Some(end) = rest.iter().position(|&b| b == b'\n') {
        answer(out, &rest[..end])?;
        rest = &rest[end + 1..];
    }
    Ok(text.len() - rest.len())
}

// Answers the lines of standard input as they come, and the last one where no line feed ends it. No input outlasts the turns.
fn answer_input<R: Read, W: Write>(input: &mut R, out: &mut W, text: &mut [u8]) -> io::Result<()>
    requires { 1 < length text.old }
{
    let mut held = 0;
    for _ in 0..u64::MAX {
        let to = read_behind(input, text, held)?;
        if to == held {
            if held > 0 {
                answer(out, &text[..held])?;
            }
            break;
        }
        let from = answer_lines(out, &text[..to])?;
        held = keep(text, from, to);
    }
    Ok(())
}

fn main(rt: HostRuntime) -> io::Result<()> {
    let mut text: [u8; 1572864] = room(0);
    answer_input(&mut rt.reader(), &mut io::writer(&rt), &mut text)
}
