// Cases as lines (docs/RULES.md, section 11): what a line asks for, and what its answer is made of.
#![tactic(auto)]

pub mod left;
pub mod numbers;
mod show;

ghost use Rattle.std.specs.Prelude.{◌≡◌, ◌≤◌, ℕ, length, drop, IfSome};

use numbers::numbers;
use text::number::field;

// The most words of a room or a list, and bytes of a step room, that a case has.
pub const WORDS: usize = 131080;

pub const BYTES: usize = 655368;

// What a line begins with: a parse from one of the three entries, the check, resolution, and a line that is copied.
#[derive(Clone, Copy)]
pub enum Head {
    Source,
    Item,
    Expr,
    Check,
    Resolve,
    Copied,
}

const HEADS: [(&str, Head); 6] = [
    ("parse source", Head::Source),
    ("parse item", Head::Item),
    ("parse expr", Head::Expr),
    ("check", Head::Check),
    ("resolve", Head::Resolve),
    ("#", Head::Copied),
];

// The head of a line, and what stands behind it.
pub fn head_of(line: &[u8]) -> Option<(Head, &[u8])>
    ensures { IfSome result (λ h. (n : ℕ) × (h.1.now ≡ drop n line.now)) }
{
    for (words, head) in HEADS {
        if let Some(rest) = line.strip_prefix(words.as_bytes()) {
            return Some((head, rest));
        }
    }
    None
}

// What a parse is lent: the mode, the words of the room, and how many kinds and joint words were read.
#[derive(Clone, Copy)]
pub struct Parse {
    pub mode: u32,
    pub room: usize,
    pub kinds: usize,
    pub joints: usize,
}

// What a resolution is lent: the bytes of the room, and how many words were read.
#[derive(Clone, Copy)]
pub struct Resolve {
    pub room: usize,
    pub words: usize,
}

// The size of a room that is at most the given one.
fn size(line: &[u8], most: usize) -> Option<(usize, &[u8])>
    ensures { IfSome result (λ n. n.0 ≤ most) }
{
    let (size, rest) = field(line)?;
    let size = size as usize;
    if size > most {
        return None;
    }
    Some((size, rest))
}

// Reads `MODE ROOM KINDS JOINTS`, and nothing behind it.
pub fn read_parse(line: &[u8], kinds: &mut [u16], joints: &mut [u64]) -> Option<Parse>
    ensures room { IfSome result (λ p. p.room ≤ 131080) }
    ensures kinds { IfSome result (λ p. p.kinds ≤ length kinds.new) }
    ensures joints { IfSome result (λ p. p.joints ≤ length joints.new) }
{
    let (mode, rest) = field(line)?;
    let (room, rest) = size(rest, WORDS)?;
    let (kinds, rest) = numbers(rest, 10, kinds)?;
    let (joints, rest) = numbers(rest, 16, joints)?;
    if !rest.is_empty() {
        return None;
    }
    Some(Parse {
        mode,
        room,
        kinds,
        joints,
    })
}

// Reads `ROOM WORDS`, and nothing behind it.
pub fn read_resolve(line: &[u8], words: &mut [u32]) -> Option<Resolve>
    ensures room { IfSome result (λ r. r.room ≤ 655368) }
    ensures words { IfSome result (λ r. r.words ≤ length words.new) }
{
    let (room, rest) = size(line, BYTES)?;
    let (words, rest) = numbers(rest, 10, words)?;
    if !rest.is_empty() {
        return None;
    }
    Some(Resolve { room, words })
}
