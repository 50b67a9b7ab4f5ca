// The tree of a step file to a writer, a line for each node, token and error, and the last line, which says how a parse ended
// (docs/RULES.md, section 10).
#![tactic(auto)]

ghost use Rattle.std.specs.Prelude.{◌≡◌, ◌+◌, ◌*◌, ◌≤◌, length, IsSomeAnd};

use position::{Listed, Position, start};
use records::{Step, size};
use std::io::Write;
use std::{fmt, io};
use stepfile::step_at;
use tokens::table::Said;

// A text that is read, with the list of its tokens.
#[derive(Clone, Copy)]
pub struct Source<'a> {
    pub listed: Listed<'a>,
    ghost short: { length listed.text.now ≤ 1048576 },
}

// The tokens of a parse: their kinds, and the text where they are those of one.
#[derive(Clone, Copy)]
pub struct Tokens<'a> {
    pub kinds: &'a [u16],
    pub source: Option<Source<'a>>,
}

impl<'a> Tokens<'a> {
    // The tokens of a text.
    pub fn of_text(kinds: &'a [u16], text: &'a [u8], words: &'a [u32]) -> Self
        requires { length text.now ≤ 1048576 }
        ensures kinds { result.kinds.now ≡ kinds.entry.now }
        ensures source { IsSomeAnd result.source (λ s. (s.listed.text.now ≡ text.entry.now) × (s.listed.words.now ≡ words.entry.now)) }
    {
        let listed = Listed { text, words };
        Tokens {
            kinds,
            source: Some(Source { listed }),
        }
    }

    // What stands at a place: a kind, EOF behind the last token.
    fn found(self, place: u64) -> Said {
        Said::Found(lookahead::found_at(self.kinds, place as usize).into())
    }
}

// Where a walk over the steps is: the nodes open, the tokens passed, the errors met.
#[derive(Clone, Copy)]
struct Walk {
    depth: u64,
    place: u64,
    errors: u64,
}

// Where a token or an error is said to stand: at its number, or at a line and a column.
#[derive(Clone, Copy)]
enum Place {
    Number(u64),
    Line(Position),
}

impl fmt::Display for Place {
    fn fmt<W: fmt::Write>(&self, f: &mut fmt::Formatter<W>) -> fmt::Result {
        match *self {
            Place::Number(n) => write!(f, "{n}"),
            Place::Line(p) => write!(f, "{}:{}", p.line, p.column),
        }
    }
}

// Two spaces for each level.
#[derive(Clone, Copy)]
struct Indent(u64);

impl fmt::Display for Indent {
    fn fmt<W: fmt::Write>(&self, f: &mut fmt::Formatter<W>) -> fmt::Result {
        for _ in 0..self.0 {
            f.write_str("  ")?;
        }
        Ok(())
    }
}

// The line of a step; a leave has none. A token has the number of those that it is glued of, where that is more than one. An error says
// what was found: what stands where the walk is, or what it says itself.
fn put_step<W: Write>(
    out: &mut W,
    tokens: Tokens<'_>,
    s: Step,
    w: Walk,
    place: Place,
) -> io::Result<()> {
    let indent = Indent(w.depth);
    match s {
        Step::Enter(kind) => writeln!(out, "{indent}{}", Said::Name(kind.into())),
        Step::Leave => Ok(()),
        Step::Token(kind, count) => {
            write!(out, "{indent}{}", Said::Name(kind.into()))?;
            if count != 1 {
                write!(out, " ({count} tokens)")?;
            }
            writeln!(out, " at {place}")
        }
        Step::Error(code, argument) => {
            let said = if code == 1 {
                Said::Expected(argument.into())
            } else {
                Said::Message(code.into())
            };
            let found = tokens.found(w.place);
            writeln!(out, "{indent}error {code} at {place}: {said}{found}")
        }
        Step::Expected(kind, found) => {
            let said = Said::Expected(kind.into());
            let found = Said::Found(found.into());
            writeln!(out, "{indent}error 1 at {place}: {said}{found}")
        }
    }
}

// The walk past a step.
fn walked(s: Step, w: Walk) -> Walk
    requires { (w.depth ≤ 1048576) × (w.place ≤ 255 * 1048576) × (w.errors ≤ 1048576) }
    ensures depth_bound { (result.depth ≤ w.depth + 1) × (result.place ≤ w.place + 255) × (result.errors ≤ w.errors + 1) }
    ensures place_le_place { w.place ≤ result.place }
{
    match s {
        Step::Enter(_) => Walk {
            depth: w.depth + 1,
            ..w
        },
        Step::Leave => Walk {
            depth: w.depth.saturating_sub(1),
            ..w
        },
        Step::Token(_, count) => Walk {
            place: w.place + u64::from(count),
            ..w
        },
        Step::Error(..) | Step::Expected(..) => Walk {
            errors: w.errors + 1,
            ..w
        },
    }
}

// Writes the tree of a step file of some tokens, and tells its errors. Where the tokens are those of a text it says the lines and the columns
// at which they stand, by a cursor that goes along with the walk, and else their numbers.
pub fn put_tree<W: Write>(out: &mut W, tokens: Tokens<'_>, file: &[u8]) -> io::Result<u64>
    requires { length file.now ≤ 1048576 }
{
    // Stays (promise): a loop over places in the file, as `stepfile::step_at` takes one.
    let mut at = 0;
    let mut here = start();
    let mut w = Walk {
        depth: 0,
        place: 0,
        errors: 0,
    };
    while let Ok(Some(s)) = step_at(file, at) {
        let place = match tokens.source {
            Some(source) => {
                here = source.listed.moved(here, w.place as usize);
                Place::Line(source.listed.position_at(here))
            }
            None => Place::Number(w.place),
        };
        put_step(out, tokens, s, w, place)?;
        w = walked(s, w);
        at += size(s);
    }
    Ok(w.errors)
}

// The last line of a parse that is refused, and of one that is done. What stands at the place of a refusal is said where that is a token's.
// Stays (plainer): the number is what is written, and lexing, parsing and resolution each refuse with an enum of their own.
pub fn put_refused<W: Write>(
    out: &mut W,
    number: u32,
    place: u64,
    tokens: Tokens<'_>,
) -> io::Result<()> {
    let is_token = matches!(number, 4..=8);
    let stands = match tokens.source {
        Some(source) if is_token => Place::Line(source.listed.position_of(place as usize)),
        _ => Place::Number(place),
    };
    let meaning = Said::Meaning(number.into());
    write!(out, "refused {number} at {stands}: {meaning}")?;
    if is_token {
        write!(out, "{}", tokens.found(place))?;
    }
    writeln!(out)
}

pub fn put_done<W: Write>(
    out: &mut W,
    place: u32,
    tokens: usize,
    events: u32,
    lookups: u32,
    errors: u64,
) -> io::Result<()> {
    writeln!(
        out,
        "done: {place} of {tokens} tokens, {events} events, {lookups} lookups, {errors} errors"
    )
}
