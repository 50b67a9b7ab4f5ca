// The parse: three entries, refusals 1 to 8, and every word of the lent room determined.
#![tactic(auto)]

ghost use Rattle.std.specs.Prelude.{◌≡◌, ◌*◌, ◌≤◌, false, length, MatchOption};
ghost use Rattle.event.specs.Event.{event_words};
ghost use Rattle.input.specs.Lent.{tokens};
ghost use Rattle.runtime.specs.State.{view, new, live, Known};
ghost use Rattle.runtime.specs.Acts.{Does};
ghost use Rattle.parse.specs.Parse.{lent, acts_of, refuses, first_fault, zeroed, settled, number_of, ends, parsed};
ghost use Rattle.parse.specs.Answer.{refused, numbers, Faults};

use cycle::entry;
use event::EVENT_WORDS;
use input::Input;
use kinds::syntax_kind as kind;
use runtime::parser::Parser;

// At most so many tokens are lent.
const MOST_TOKENS: usize = 8192;

// Where a parse begins.
#[derive(Clone, Copy)]
pub enum Entry {
    SourceFile,
    Item,
    Expression,
}

// What a done parse says: the tokens consumed, and how many events and lookups the run has made.
#[derive(Clone, Copy)]
pub struct Parsed {
    pub tokens: u32,
    pub events: u32,
    pub lookups: u32,
}

// Why a parse is refused; `refused` in specs/Answer has the number and place of docs/RULES.md, section 3, for each.
#[derive(Clone, Copy)]
pub enum Refusal {
    // the mode is not 0 or 1
    Mode,
    // more than 8,192 tokens
    TooMany,
    // too few joint words
    FewJoints,
    // a kind that is not permitted: the first such token
    Kind(u32),
    // one more event than the room holds: the tokens consumed, here and below
    NoRoom(u32),
    // a counted call begins too deep
    Deep(u32),
    // the 10,001st lookup since a token
    Lookups(u32),
    // an assertion fails, or a source file leaves a token
    Panic(u32),
}

// Stays (plainer): the numbers of this crate's refusals; a trait over the four would say each case twice, in its definition and here.
impl Refusal {
    // The number of docs/RULES.md.
    pub fn code(self) -> u32
        ensures { result ≡ (refused self).code }
    {
        match self {
            Refusal::Mode => 1,
            Refusal::TooMany => 2,
            Refusal::FewJoints => 3,
            Refusal::Kind(_) => 4,
            Refusal::NoRoom(_) => 5,
            Refusal::Deep(_) => 6,
            Refusal::Lookups(_) => 7,
            Refusal::Panic(_) => 8,
        }
    }

    // Its place.
    pub fn place(self) -> u32
        ensures { result ≡ (refused self).place }
    {
        match self {
            Refusal::Mode | Refusal::TooMany | Refusal::FewJoints => 0,
            Refusal::Kind(at)
            | Refusal::NoRoom(at)
            | Refusal::Deep(at)
            | Refusal::Lookups(at)
            | Refusal::Panic(at) => at,
        }
    }
}

// The first token whose kind is not permitted; the number of tokens where each is.
fn first_fault(kinds: &[u16]) -> usize
    ensures { result ≡ first_fault kinds.now }
{
    for (i, kind) in kinds.iter().enumerate() {
        if !kind::permitted(*kind) {
            return i;
        }
    }
    kinds.len()
}

// Makes the words from a place on zero.
fn zero_from(room: &mut [u32], from: usize)
    ensures { room.new ≡ zeroed from room.old }
{
    if from < room.len() {
        room[from..].fill(0);
    }
}

// The run of an entry, from no events.
fn run(entry: Entry, mode: u8, input: &Input, room: &mut [u32]) -> Parser
    ensures { Does (tokens input.now) (acts_of entry mode) (view new room.old) tt (view result room.new) }
{
    let p = Parser::new();
    match entry {
        Entry::SourceFile => entry::source_file(input, room, p, mode),
        Entry::Item => entry::item(input, room, p, mode),
        Entry::Expression => entry::expression(input, room, p, mode),
    }
}

// The refusal of a run that is refused: its number is one of 5 to 8.
fn refusal_of(p: Parser) -> Refusal
    requires known { Known p }
    requires stopped { live p ≡ false }
    ensures { refused result ≡ refuses p.refused p.pos }
{
    let at = p.pos as u32;
    match p.refused {
        5 => Refusal::NoRoom(at),
        6 => Refusal::Deep(at),
        7 => Refusal::Lookups(at),
        _ => Refusal::Panic(at),
    }
}

// Why a run that has ended is refused, if it is: its own refusal, or a token that a source file leaves.
fn fault(entry: Entry, tokens: usize, p: Parser) -> Option<Refusal>
    requires { Known p }
    ensures { MatchOption result (number_of entry tokens p ≡ 0) (λ r. Faults entry tokens p r) }
{
    if p.stopped() {
        return Some(refusal_of(p));
    }
    match entry {
        Entry::SourceFile => {
            if p.pos < tokens {
                return Some(Refusal::Panic(p.pos as u32));
            }
            None
        }
        Entry::Item | Entry::Expression => None,
    }
}

// What a run comes to: done, its list and zeros after it; refused, nothing but zeros.
fn settle(entry: Entry, tokens: usize, room: &mut [u32], p: Parser) -> Result<Parsed, Refusal>
    requires known { Known p }
    requires events_in_bounds { p.len * event_words ≤ length room.old }
    ensures { settled (number_of entry tokens p) (length room.old) (view p room.old) ≡ ends (numbers result) room.new }
{
    match fault(entry, tokens, p) {
        Some(refusal) => {
            zero_from(room, 0);
            Err(refusal)
        }
        None => {
            zero_from(room, p.len * EVENT_WORDS);
            Ok(Parsed {
                tokens: p.pos as u32,
                events: p.len as u32,
                lookups: p.looks,
            })
        }
    }
}

// Parses tokens into the room. Refused with 1 to 4 the room is untouched, with 5 to 8 it is all zero.
pub fn parse(
    entry: Entry,
    mode: u32,
    kinds: &[u16],
    joints: &[u64],
    room: &mut [u32],
) -> Result<Parsed, Refusal>
    ensures { parsed (lent entry mode kinds.now joints.now room.old) ≡ ends (numbers result) room.new }
{
    if mode > 1 {
        return Err(Refusal::Mode);
    }
    if kinds.len() > MOST_TOKENS {
        return Err(Refusal::TooMany);
    }
    if joints.len() < (kinds.len() + 63) / 64 {
        return Err(Refusal::FewJoints);
    }
    let fault = first_fault(kinds);
    if fault < kinds.len() {
        return Err(Refusal::Kind(fault as u32));
    }
    let p = run(entry, mode as u8, &Input { kinds, joints }, room);
    settle(entry, kinds.len(), room, p)
}
