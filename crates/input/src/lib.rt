// Reading the lent tokens: src/input.rs, and the tests of src/parser.rs that only read them.
#![tactic(auto)]

ghost use Rattle.std.specs.Prelude.{◌≡◌, ◌+◌, ◌≤◌, min, leb, length};
ghost use Rattle.input.specs.Input.{most_tokens, seen, is_joint};
ghost use Rattle.input.specs.Lent.{tokens};
ghost use Rattle.input.specs.Glue.{at_composite2, at_composite3, stands_at, parts_of, is_one, raw_count};

use kinds::syntax_kind_enum as k;

// At most so many tokens are consumed.
const MOST_TOKENS: usize = 8192;

// What a kind is made of: itself, or two or three tokens that are glued.
#[derive(Clone, Copy)]
pub enum Parts {
    One(u16),
    Two(u16, u16),
    Three(u16, u16, u16),
}

// The kind at a position: EOF beyond the last token, and everywhere once the run is refused.
// Stays (promise): the refusal is a number, here and below, since `kind` and `stands_at` say what every one of them makes of a look (`seen`).
pub fn kind(kinds: &[u16], refused: u32, i: usize) -> u16
    ensures { result ≡ seen kinds.now refused i }
{
    if refused == 0 {
        if i < kinds.len() {
            return kinds[i];
        }
    }
    k::EOF
}

// Whether the tokens before a position are there to be consumed.
pub fn enough(kinds: &[u16], end: usize) -> bool
    ensures { result ≡ leb end (min (length kinds.now) most_tokens) }
{
    if end <= MOST_TOKENS {
        return end <= kinds.len();
    }
    false
}

// Whether the token at a position touches the next one.
fn is_joint(joints: &[u64], n: usize) -> bool
    ensures { result ≡ is_joint joints.now n }
{
    let w = n / 64;
    if w < joints.len() {
        return (joints[w] >> (n % 64)) % 2 == 1;
    }
    false
}

// The lent tokens: the kinds, and the words of their joint bits.
#[derive(Clone, Copy)]
pub struct Input<'a> {
    pub kinds: &'a [u16],
    pub joints: &'a [u64],
}

impl<'a> Input<'a> {
    // The kind at a position, in a run with this refusal.
    pub fn kind(&self, refused: u32, i: usize) -> u16
        ensures { result ≡ seen self.now.kinds.now refused i }
    {
        kind(self.kinds, refused, i)
    }

    fn at_composite2(&self, refused: u32, i: usize, k1: u16, k2: u16) -> bool
        requires { i ≤ most_tokens + 3 }
        ensures { result ≡ at_composite2 (tokens self.now) refused i k1 k2 }
    {
        self.kind(refused, i) == k1 && self.kind(refused, i + 1) == k2 && is_joint(self.joints, i)
    }

    fn at_composite3(&self, refused: u32, i: usize, k1: u16, k2: u16, k3: u16) -> bool
        requires { i ≤ most_tokens + 3 }
        ensures { result ≡ at_composite3 (tokens self.now) refused i k1 k2 k3 }
    {
        self.kind(refused, i) == k1
            && self.kind(refused, i + 1) == k2
            && self.kind(refused, i + 2) == k3
            && is_joint(self.joints, i)
            && is_joint(self.joints, i + 1)
    }

    // Whether the tokens at a position are these parts.
    pub fn stands_at(&self, refused: u32, i: usize, parts: Parts) -> bool
        requires { i ≤ most_tokens + 3 }
        ensures { result ≡ stands_at (tokens self.now) refused i parts }
    {
        match parts {
            Parts::One(k1) => self.kind(refused, i) == k1,
            Parts::Two(k1, k2) => self.at_composite2(refused, i, k1, k2),
            Parts::Three(k1, k2, k3) => self.at_composite3(refused, i, k1, k2, k3),
        }
    }
}

// The kinds below 64 that are one token, a bit for each. Above them no kind is glued.
const PLAIN: u64 = 0xff80002947fffffb;

// Whether a kind is one token.
pub fn is_plain(kind: u16) -> bool
    ensures { result ≡ is_one (parts_of kind) }
{
    if kind > 63 {
        return true;
    }
    (PLAIN >> kind) % 2 == 1
}

// How many tokens a kind is made of, told by the kind: `parts_of` has one caller, and is compiled into it (docs/SPEED.md).
pub fn raw_of(kind: u16) -> usize
    ensures { result ≡ raw_count (parts_of kind) }
{
    if is_plain(kind) {
        return 1;
    }
    match kind {
        k::DOT3 | k::DOT2EQ | k::SHLEQ | k::SHREQ => 3,
        _ => 2,
    }
}

// What a kind is made of: the arms of `nth_at`, in its order.
pub fn parts_of(kind: u16) -> Parts
    ensures { result ≡ parts_of kind }
{
    match kind {
        k::MINUSEQ => Parts::Two(k::MINUS, k::EQ),
        k::THIN_ARROW => Parts::Two(k::MINUS, k::R_ANGLE),
        k::COLON2 => Parts::Two(k::COLON, k::COLON),
        k::NEQ => Parts::Two(k::BANG, k::EQ),
        k::DOT2 => Parts::Two(k::DOT, k::DOT),
        k::STAREQ => Parts::Two(k::STAR, k::EQ),
        k::SLASHEQ => Parts::Two(k::SLASH, k::EQ),
        k::AMP2 => Parts::Two(k::AMP, k::AMP),
        k::AMPEQ => Parts::Two(k::AMP, k::EQ),
        k::PERCENTEQ => Parts::Two(k::PERCENT, k::EQ),
        k::CARETEQ => Parts::Two(k::CARET, k::EQ),
        k::PLUSEQ => Parts::Two(k::PLUS, k::EQ),
        k::DOUBLE_PLUS => Parts::Two(k::PLUS, k::PLUS),
        k::SHL => Parts::Two(k::L_ANGLE, k::L_ANGLE),
        k::LTEQ => Parts::Two(k::L_ANGLE, k::EQ),
        k::EQ2 => Parts::Two(k::EQ, k::EQ),
        k::FAT_ARROW => Parts::Two(k::EQ, k::R_ANGLE),
        k::GTEQ => Parts::Two(k::R_ANGLE, k::EQ),
        k::SHR => Parts::Two(k::R_ANGLE, k::R_ANGLE),
        k::PIPEEQ => Parts::Two(k::PIPE, k::EQ),
        k::PIPE2 => Parts::Two(k::PIPE, k::PIPE),
        k::DOT3 => Parts::Three(k::DOT, k::DOT, k::DOT),
        k::DOT2EQ => Parts::Three(k::DOT, k::DOT, k::EQ),
        k::SHLEQ => Parts::Three(k::L_ANGLE, k::L_ANGLE, k::EQ),
        k::SHREQ => Parts::Three(k::R_ANGLE, k::R_ANGLE, k::EQ),
        _ => Parts::One(kind),
    }
}
