// Where the tokens of a text stand in it: lines and columns (docs/RULES.md, section 10). It prints nothing.
#![tactic(auto)]

ghost use Rattle.std.specs.Prelude.{◌≡◌, ◌+◌, ◌*◌, ◌^◌, ◌≤◌, ◌<◌, min, length, get_or};
ghost use Rattle.position.specs.Position.{ends, position, is_trivia, count, byte_of, token_of, position_of};
ghost use Rattle.position.specs.Inside.{spot, cursor, begins, Stands, has_come};

use kinds::syntax_kind_enum as k;

// A line and a column, from 1.
#[derive(Clone, Copy)]
pub struct Position {
    pub line: u64,
    pub column: u64,
}

// A place in a text: the bytes before it, the lines that have ended there, and the first byte of its line.
#[derive(Clone, Copy)]
pub struct Spot {
    pub at: usize,
    pub lines: usize,
    pub start: usize,
}

// A place in a text and between the tokens of its list: the tokens before it, and those of them that are no trivia.
#[derive(Clone, Copy)]
pub struct Cursor {
    pub token: usize,
    pub place: usize,
    pub spot: Spot,
}

// A text, and the list of all its tokens: two words for each, its kind and its bytes.
#[derive(Clone, Copy)]
pub struct Listed<'a> {
    pub text: &'a [u8],
    pub words: &'a [u32],
}

// Whether a line ends with a byte: with LF, and with CR where no LF follows it.
#[tactic(auto, using(crate::proofs::Moves::beyond), unfolding(crate::specs::Position::ends))]
fn ends_line(text: &[u8], i: usize) -> bool
    requires { i < length text.now }
    ensures { result ≡ ends text.now i }
{
    match text[i] {
        b'\n' => true,
        b'\r' => text.get(i + 1) != Some(&b'\n'),
        _ => false,
    }
}

// A spot moved past a byte.
#[tactic(auto, using(crate::proofs::Moves::spot_ends, crate::proofs::Moves::spot_goes, crate::proofs::Moves::ended_le))]
fn past_byte(text: &[u8], s: Spot) -> Spot
    requires s_value { s ≡ spot text.now s.at }
    requires at_in_bounds { s.at < length text.now }
    ensures { result ≡ spot text.now (s.at + 1) }
{
    if ends_line(text, s.at) {
        return Spot {
            at: s.at + 1,
            lines: s.lines + 1,
            start: s.at + 1,
        };
    }
    Spot { at: s.at + 1, ..s }
}

// Stays (plainer): `past_byte` says where the next spot is; no index is counted here, nor in `moved`.
// A spot moved past so many bytes, and no further than the end of the text.
fn past_bytes(text: &[u8], from: Spot, bytes: usize) -> Spot
    requires from_value { from ≡ spot text.now from.at }
    requires at_in_bounds { from.at ≤ length text.now }
    ensures { result ≡ spot text.now (min (from.at + bytes) (length text.now)) }
{
    let end = text.len().min(from.at.saturating_add(bytes));
    let mut s = from;
    while s.at < end {
        s = past_byte(text, s);
    }
    s
}

// Whether a kind is trivia.
#[tactic(auto, unfolding(crate::specs::Position::is_trivia))]
fn is_trivia(kind: u32) -> bool
    ensures { result ≡ is_trivia kind }
{
    kind == k::WHITESPACE as u32 || kind == k::COMMENT as u32
}

// The cursor at the beginning of a text; `begins-stands` in proofs/Theorems: it stands in each.
pub fn start() -> Cursor
    ensures { result ≡ begins }
{
    Cursor {
        token: 0,
        place: 0,
        spot: Spot {
            at: 0,
            lines: 0,
            start: 0,
        },
    }
}

impl Listed<'_> {
    // A cursor moved past a token.
    #[tactic(auto, using(crate::proofs::Moves::passed_le, crate::proofs::Moves::past_trivia, crate::proofs::Moves::past_other))]
    fn past_token(self, c: Cursor) -> Cursor
        requires c_value { c ≡ cursor self.text.now self.words.now c.token }
        requires token_bound { c.token < count self.words.now }
        ensures { result ≡ cursor self.entry.text.now self.entry.words.now (c.token + 1) }
    {
        let bytes = self.words[2 * c.token + 1] as usize;
        let spot = past_bytes(self.text, c.spot, bytes);
        let moved = Cursor {
            token: c.token + 1,
            spot,
            ..c
        };
        if is_trivia(self.words[2 * c.token]) {
            return moved;
        }
        Cursor {
            place: c.place + 1,
            ..moved
        }
    }

    // Whether a cursor stands before the token with a place, or at the end of the list.
    #[tactic(auto, unfolding(crate::specs::Inside::has_come))]
    fn has_come(self, c: Cursor, place: usize) -> bool
        ensures { result ≡ has_come self.entry.words.now place c.token c.place }
    {
        if c.token >= self.words.len() / 2 {
            return true;
        }
        if is_trivia(self.words[2 * c.token]) {
            return false;
        }
        c.place >= place
    }

    // A cursor moved on to the token with a place, the end of the text where there is none. It stands at no later one.
    pub fn moved(self, from: Cursor, place: usize) -> Cursor
        requires stands { Stands self.text.now self.words.now from }
        requires place_le_place { from.place ≤ place }
        ensures value { result ≡ cursor self.entry.text.now self.entry.words.now (token_of self.entry.words.now place) }
        ensures stands_2 { (Stands self.entry.text.now self.entry.words.now result) × (result.place ≤ place) }
    {
        let mut c = from;
        while !self.has_come(c, place) {
            c = self.past_token(c);
        }
        c
    }

    // The line and the column of a cursor.
    #[tactic(auto, using(crate::proofs::Moves::starts_before, crate::proofs::Moves::few_lines))]
    pub fn position_at(self, c: Cursor) -> Position
        requires stands { Stands self.text.now self.words.now c }
        requires text_len_bound { length self.text.now + 1 < 2 ^ 64 }
        ensures { result ≡ position self.entry.text.now (byte_of self.entry.text.now self.entry.words.now c.token) }
    {
        let s = c.spot;
        Position {
            line: s.lines as u64 + 1,
            column: (s.at - s.start) as u64 + 1,
        }
    }

    // The line and the column of the token with a place, those of the end of the text where there is none.
    pub fn position_of(self, place: usize) -> Position
        requires { length self.text.now + 1 < 2 ^ 64 }
        ensures { result ≡ position_of self.entry.text.now self.entry.words.now place }
    {
        self.position_at(self.moved(start(), place))
    }
}
