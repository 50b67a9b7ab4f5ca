// The tokens of a text, one after the other, by the table of states.
ghost use Rattle.std.specs.Prelude.{◌≡◌, ◌≤◌, ◌<◌, ◌-◌, ℕ, length, get_or};
ghost use Rattle.lexical.specs.Lexed.{coded, longest};
ghost use Rattle.lexical.specs.Rules.{rules};
ghost use Rattle.lexical.specs.Table.{part, next, kind-of, State};
ghost use Rattle.lex.specs.Inside.{NoClose};

use crate::table::{BODY, CLASSES, KIND_PART, KIND_WORD, LAST, LIVE, NEXTS, START};

// A token's kind and its bytes.
#[derive(Clone, Copy)]
pub struct Token {
    pub kind: u16,
    pub len: u32,
}

// A state of the table, told by the place of its row.
#[derive(Clone, Copy)]
pub struct Row {
    pub at: usize,
    ghost state: { State at },
}

impl Row {
    // The state behind a byte.
    fn step(self, b: u8) -> Row
        ensures { result.at ≡ next self.at b }
    {
        let class = usize::from(CLASSES[usize::from(b)]);
        Row {
            at: usize::from(entry(NEXTS[self.at + class / 4], class % 4)),
        }
    }

    // The kind of the token that ends here.
    fn kind(self) -> u16
        ensures { result ≡ kind-of self.at }
    {
        entry(NEXTS[self.at + KIND_WORD], KIND_PART)
    }
}

// The i-th number of a word of the table.
fn entry(word: u64, i: usize) -> u16
    requires { i < 4 }
    ensures { result ≡ part word i }
{
    ((word >> (16 * i)) % 65536) as u16
}

// A place from which on no `*/` begins, so that a comment is not looked for where none can end: right behind the last one's first byte.
fn last_close(text: &[u8]) -> usize
    ensures { NoClose text.now result }
{
    for i in (1..text.len()).rev() {
        if text[i - 1] == b'*' && text[i] == b'/' {
            return i;
        }
    }
    0
}

// The tokens of a text, one after the other: what is left of it, and the place in that from which on no `*/` begins.
#[derive(Clone, Copy, Drop)]
pub struct Tokens<'a> {
    pub rest: &'a [u8],
    pub close: usize,
    ghost few: { length rest.now ≤ 65536 },
    ghost bytes: { (k : ℕ) → get_or rest.now k 0 < 256 },
    ghost no_close: { NoClose rest.now close },
}

impl<'a> Tokens<'a> {
    ghost use Rattle.lex.specs.Left.{left};

    pub fn new(text: &'a [u8]) -> Tokens<'a>
        requires { length text.now ≤ 65536 }
        ensures { result.rest ≡ text.entry }
    {
        Tokens {
            rest: text,
            close: last_close(text),
        }
    }

    // The token in front. Where the scan ends by a test of its own, the next token's place is foreseen, and waits for no state.
    fn first(&self) -> Token
        ensures is { longest rules 0 self.now.rest.now ≡ coded result.kind result.len }
        ensures inside { result.len ≤ length self.now.rest.now }
    {
        let rest = self.rest;
        let mut row = Row { at: START };
        // Stays (plainer): state 0 and 0 bytes are what the definition answers where no token has ended; an Option would be unwrapped into just these.
        // the last state where a token ended, and its end
        let mut found = Row { at: 0 };
        let mut end = 0;
        for (i, &b) in rest.iter().enumerate() {
            // a comment that is never closed
            if row.at == BODY && self.close <= i {
                return ended(found, end);
            }
            row = row.step(b);
            if row.at == 0 {
                return ended(found, end);
            }
            if row.at < LIVE {
                continue;
            }
            found = row;
            end = i + 1;
            if row.at >= LAST {
                return ended(found, end);
            }
        }
        ended(found, end)
    }
}

// The token that ended last.
fn ended(found: Row, end: usize) -> Token
    requires { end ≤ 65536 }
    ensures { (result.kind ≡ kind-of found.at) × (result.len ≡ end) }
{
    Token {
        kind: found.kind(),
        len: end as u32,
    }
}

impl<'a> Iterator for Tokens<'a> {
    ghost use Rattle.std.specs.Iterator.{YieldsFirstBy, item_count};
    ghost use Rattle.lex.specs.Left.{left, told};

    type Item = Token;

    ghost next_gives = { YieldsFirstBy told left };

    ghost remaining = { item_count left };

    fn next(&mut self) -> Option<Token> {
        if self.rest.is_empty() {
            return None;
        }
        let t = self.first();
        let n = t.len as usize;
        self.rest = &self.rest[n..];
        self.close = self.close.saturating_sub(n);
        Some(t)
    }
}
