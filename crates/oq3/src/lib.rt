// The public calls: `oq3_c` exports them for C and Rust. A call returns the number of docs/RULES.md and writes its
// place to the first word of a lent answer room, a parse its events and lookups to the next two, a lexing its kinds to the second. Where that
// room is too short it returns 100, and reads and writes nothing.
// Stays (C interface): numbers for entries, modes and refusals, slices one by one, and words of a lent room for what is answered.
#![tactic(auto)]

ghost use Rattle.std.specs.Prelude.{◌≡◌, [], ◌≤◌, length, set};
ghost use Rattle.parse.specs.Answer.{numbers};
ghost use Rattle.parse.specs.Parse.{lent, parsed};
ghost use Rattle.oq3.specs.Calls.{checks, resolves, returns, three, told_parse, parses, lex_returns, lexes};

use parse::{Entry, Parsed, Refusal};

// Writes a place, and how many events and lookups.
fn put_three(answer: &mut [u64], place: u32, events: u32, lookups: u32)
    requires { 3 ≤ length answer.old }
    ensures { answer.new ≡ set (set (set answer.old 0 place) 1 events) 2 lookups }
{
    answer[0] = place as u64;
    answer[1] = events as u64;
    answer[2] = lookups as u64;
}

// Writes the place, the events and the lookups of what a parse says, and hands its number back.
fn tell(answer: &mut [u64], said: Result<Parsed, Refusal>) -> u32
    requires { 3 ≤ length answer.old }
    ensures { (result ≡ (numbers said).code) × (answer.new ≡ three (numbers said) answer.old) }
{
    match said {
        Ok(p) => {
            put_three(answer, p.tokens, p.events, p.lookups);
            0
        }
        Err(refusal) => {
            put_three(answer, refusal.place(), 0, 0);
            refusal.code()
        }
    }
}

// A parse from an entry, told.
fn parse_from(
    entry: Entry,
    mode: u32,
    kinds: &[u16],
    joints: &[u64],
    room: &mut [u32],
    answer: &mut [u64],
) -> u32
    requires { 3 ≤ length answer.old }
    ensures { told_parse answer.old (parsed (lent entry mode kinds.now joints.now room.old)) ≡ returns result room.new [] answer.new }
{
    let said = parse::parse(entry, mode, kinds, joints, room);
    tell(answer, said)
}

// Entry 0 is the source file, 1 an item, 2 an expression. Another one returns 101, with 0 for each word of the answer, before any test
// of docs/RULES.md.
pub fn oq3_parse(
    entry: u32,
    mode: u32,
    kinds: &[u16],
    joints: &[u64],
    room: &mut [u32],
    answer: &mut [u64],
) -> u32
    ensures { parses entry mode kinds.now joints.now room.old answer.old ≡ returns result room.new [] answer.new }
{
    if answer.len() < 3 {
        return 100;
    }
    match entry {
        0 => parse_from(Entry::SourceFile, mode, kinds, joints, room, answer),
        1 => parse_from(Entry::Item, mode, kinds, joints, room, answer),
        2 => parse_from(Entry::Expression, mode, kinds, joints, room, answer),
        _ => {
            put_three(answer, 0, 0, 0);
            101
        }
    }
}

pub fn oq3_check(words: &[u32], answer: &mut [u64]) -> u32
    ensures { checks words.now answer.old ≡ returns result words.now [] answer.new }
{
    if answer.len() == 0 {
        return 100;
    }
    let a = lists::check(words);
    answer[0] = lists::place(a) as u64;
    lists::code(a)
}

pub fn oq3_resolve(words: &mut [u32], steps: &mut [u8], answer: &mut [u64]) -> u32
    ensures { resolves words.old steps.old answer.old ≡ returns result words.new steps.new answer.new }
{
    if answer.len() == 0 {
        return 100;
    }
    let a = events::resolve(words, steps);
    answer[0] = lists::place(a) as u64;
    lists::code(a)
}

pub fn oq3_lex(
    text: &[u8],
    kinds: &mut [u16],
    joints: &mut [u64],
    tokens: &mut [u32],
    answer: &mut [u64],
) -> u32
    ensures { lexes text.now kinds.old joints.old tokens.old answer.old ≡ lex_returns result kinds.new joints.new tokens.new answer.new }
{
    if answer.len() < 2 {
        return 100;
    }
    match lex::lex(text, kinds, joints, tokens) {
        Ok(l) => {
            answer[0] = l.tokens as u64;
            answer[1] = l.kinds as u64;
            0
        }
        Err(r) => {
            answer[0] = r.place() as u64;
            answer[1] = 0;
            r.code()
        }
    }
}
