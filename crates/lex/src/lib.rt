// The lexer: from the bytes of a text to kinds and joint bits, and a list of all tokens.
#![tactic(auto)]

mod table;
mod tokens;

ghost use Rattle.std.specs.Prelude.{◌≡◌, true, false, not, cond, ◌≤◌, ◌<◌, ◌+◌, ◌*◌, ◌/◌, length, set, None, Some, Err, OnOk, IfErr};
ghost use Rattle.std.specs.Option.{ForSome};
ghost use Rattle.lex.specs.declared.Refusal.TheVariants.{NoRoom};
ghost use Rattle.lex.specs.Answer.{numbers};
ghost use Rattle.lex.specs.Lexing.{is_trivia, kinds_in, with_bit, put_bit, fit, fits, lent, ends, says, refuses, writes, lexing};
ghost use Rattle.lex.specs.Inside.{joined};
ghost use Rattle.lex.specs.Left.{left};

use crate::tokens::{Token, Tokens};
use kinds::syntax_kind_enum as k;

// What stands in the rooms: so many tokens, trivia too, and so many kinds.
#[derive(Clone, Copy, PartialEq, Eq, Debug)]
pub struct Lexed {
    pub tokens: usize,
    pub kinds: usize,
}

// Why a text is not lexed, and the rooms are left as they were; `numbers` in specs/Answer has the number and place of docs/RULES.md for each.
#[derive(Clone, Copy, PartialEq, Eq, Debug)]
pub enum Refusal {
    // more than 65,536 bytes
    TooLong,
    // a room is too small: all tokens of the text
    NoRoom(usize),
}

// Stays (plainer): the numbers of this crate's refusals; a trait over the four would say each case twice, in its definition and here.
impl Refusal {
    // The number of docs/RULES.md.
    pub fn code(self) -> u32
        ensures { result ≡ (numbers (Err self)).code }
    {
        match self {
            Refusal::TooLong => 14,
            Refusal::NoRoom(_) => 15,
        }
    }

    // Its place.
    pub fn place(self) -> usize
        ensures { result ≡ (numbers (Err self)).place }
    {
        match self {
            Refusal::TooLong => 0,
            Refusal::NoRoom(n) => n,
        }
    }
}

const MOST_TEXT: usize = 65536;

// `is_trivia`
#[tactic(auto, unfolding(kinds::specs::Membership::one_of))]
fn is_trivia(kind: u16) -> bool
    ensures { result ≡ is_trivia kind }
{
    kind == k::WHITESPACE || kind == k::COMMENT
}

// How many tokens there are, and how many of them are no trivia.
fn count(all: Tokens) -> Lexed
    ensures { (result.tokens ≡ length (left all.entry)) × (result.kinds ≡ length (kinds_in (left all.entry))) }
{
    let mut n = Lexed {
        tokens: 0,
        kinds: 0,
    };
    for t in all {
        n.tokens += 1;
        n.kinds += usize::from(!is_trivia(t.kind));
    }
    n
}

// Writes kind and length of the n-th token.
fn put(tokens: &mut [u32], n: usize, t: Token)
    requires { 2 * n + 2 ≤ length tokens.old }
    ensures { tokens.new ≡ set (set tokens.old (2 * n) t.kind) (2 * n + 1) t.len }
{
    tokens[2 * n] = u32::from(t.kind);
    tokens[2 * n + 1] = t.len;
}

// Makes bit i of some words 0 or 1.
fn put_bit(words: &mut [u64], i: usize, bit: bool)
    requires { i / 64 < length words.old }
    ensures { words.new ≡ put_bit words.old i bit }
{
    words[i / 64] = with_bit(words[i / 64], i % 64, bit);
}

// A word with its bit j made 0 or 1.
fn with_bit(w: u64, j: usize, bit: bool) -> u64
    requires { j < 64 }
    ensures { result ≡ with_bit w j bit }
{
    (w & !(1 << j)) | (u64::from(bit) << j)
}

// Writes the joint bit of the kind that waits for it.
fn put_waiting(joints: &mut [u64], waiting: Option<usize>, bit: bool)
    requires { ForSome waiting (λ i. i / 64 < length joints.old) }
    ensures { joints.new ≡ joined waiting bit joints.old }
{
    if let Some(i) = waiting {
        put_bit(joints, i, bit);
    }
}

// What a token leaves beside the list, where m kinds are written: the bit that waits, and its own kind, whose bit waits then for the next token.
fn put_part(
    kinds: &mut [u16],
    joints: &mut [u64],
    m: usize,
    waiting: Option<usize>,
    kind: u16,
) -> Option<usize>
    requires m_in_bounds { is_trivia kind ≡ false → m < length kinds.old }
    requires waiting_in_bounds { ForSome waiting (λ i. i / 64 < length joints.old) }
    ensures waits { result ≡ cond (is_trivia kind) None (Some m) }
    ensures kinds { kinds.new ≡ cond (is_trivia kind) kinds.old (set kinds.old m kind) }
    ensures joints { joints.new ≡ joined waiting (not (is_trivia kind)) joints.old }
{
    let trivia = is_trivia(kind);
    put_waiting(joints, waiting, !trivia);
    if trivia {
        return None;
    }
    kinds[m] = kind;
    Some(m)
}

// Writes all tokens of a text into rooms that hold them.
fn put_all(all: Tokens, kinds: &mut [u16], joints: &mut [u64], tokens: &mut [u32]) -> Lexed
    requires { fits (left all) (lent all.rest.now kinds.old joints.old tokens.old) ≡ true }
    ensures { writes (left all.entry) (lent all.entry.rest.now kinds.old joints.old tokens.old) ≡ ends (says 0 result.tokens result.kinds) kinds.new joints.new tokens.new }
{
    // Stays (plainer): both numbers are the answer when the loop has ended.
    let mut n = Lexed {
        tokens: 0,
        kinds: 0,
    };
    let mut waiting = None;
    for t in all {
        put(tokens, n.tokens, t);
        waiting = put_part(kinds, joints, n.kinds, waiting, t.kind);
        n.tokens += 1;
        n.kinds += usize::from(waiting.is_some());
    }
    // the end of the text touches nothing, as white space does
    put_waiting(joints, waiting, false);
    n
}

// Whether rooms hold so many tokens and kinds.
fn hold(n: Lexed, kinds: usize, joints: usize, tokens: usize) -> bool
    requires { (n.tokens ≤ 65536) × (n.kinds ≤ 65536) }
    ensures { result ≡ fit n.tokens n.kinds kinds joints tokens }
{
    if 2 * n.tokens > tokens {
        return false;
    }
    if n.kinds > kinds {
        return false;
    }
    n.kinds.div_ceil(64) <= joints
}

// Whether the rooms hold the tokens. Such with a place for each byte need no count.
fn room_for(all: Tokens, kinds: &[u16], joints: &[u64], tokens: &[u32]) -> Result<(), Refusal>
    ensures ok { OnOk result (fits (left all.entry) (lent all.entry.rest.now kinds.now joints.now tokens.now) ≡ true) }
    ensures err { IfErr result (λ r. (fits (left all.entry) (lent all.entry.rest.now kinds.now joints.now tokens.now) ≡ false) × (r ≡ NoRoom (length (left all.entry)))) }
{
    let most = Lexed {
        tokens: all.rest.len(),
        kinds: all.rest.len(),
    };
    if hold(most, kinds.len(), joints.len(), tokens.len()) {
        return Ok(());
    }
    let n = count(all);
    if hold(n, kinds.len(), joints.len(), tokens.len()) {
        return Ok(());
    }
    Err(Refusal::NoRoom(n.tokens))
}

// The kinds and joint bits of a text's tokens, and kind and length of each token, trivia too.
// Stays (C interface): joint bits in words, and two words for each token, as `oq3_lex` is lent them.
// Stays (plainer): three rooms side by side; a struct of them would be made here and taken apart again in `put_all`.
pub fn lex(
    text: &[u8],
    kinds: &mut [u16],
    joints: &mut [u64],
    tokens: &mut [u32],
) -> Result<Lexed, Refusal>
    ensures { lexing (lent text.now kinds.old joints.old tokens.old) ≡ ends (numbers result) kinds.new joints.new tokens.new }
{
    if text.len() > MOST_TEXT {
        return Err(Refusal::TooLong);
    }
    let all = Tokens::new(text);
    room_for(all, kinds, joints, tokens)?;
    Ok(put_all(all, kinds, joints, tokens))
}
