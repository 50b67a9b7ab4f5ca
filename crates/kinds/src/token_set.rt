// Sets of kinds: src/token_set.rs, and the fixed sets that the grammar's files have as constants.
ghost use Rattle.std.specs.Prelude.{◌≡◌, true, ◌/◌, ◌%◌, ◌^◌, eqb};
ghost use Rattle.kinds.specs.Membership.{held, either, number};

use crate::syntax_kind_enum as k;

// A set of kinds, a bit for each: kind k is bit k % 64 of word k / 64. A kind beyond the words is in no set.
#[derive(Clone, Copy)]
pub struct TokenSet {
    pub words: [u64; 4],
}

impl TokenSet {
    // The kinds of either set.
    pub fn union(self, other: TokenSet) -> TokenSet
        ensures { held result ≡ either (held self) (held other) }
    {
        let a = self.words;
        let b = other.words;
        TokenSet {
            words: [a[0] | b[0], a[1] | b[1], a[2] | b[2], a[3] | b[3]],
        }
    }

    // Whether the set has the kind. A fixed set's words are constants, and comparing leaves only those that are not 0.
    pub fn contains(self, kind: u16) -> bool
        ensures { result ≡ held self kind }
    {
        let words = self.words;
        if kind < 64 {
            return has_bit(words[0], kind);
        }
        if kind < 128 {
            return has_bit(words[1], kind);
        }
        if kind < 192 {
            return has_bit(words[2], kind);
        }
        if kind < 256 {
            return has_bit(words[3], kind);
        }
        false
    }

    // How many kinds the set has: the ones of its words.
    pub fn count(self) -> u32
        ensures { result ≡ number (held self) }
    {
        let words = self.words;
        u64::count_ones(words[0])
            + u64::count_ones(words[1])
            + u64::count_ones(words[2])
            + u64::count_ones(words[3])
    }
}

// Whether a word has the bit of a kind.
fn has_bit(word: u64, kind: u16) -> bool
    ensures { result ≡ eqb (word / 2 ^ (kind % 64) % 2) 1 }
{
    (word >> (kind % 64)) % 2 == 1
}

// The crate's own test of its token sets, here proved to say yes: a set of two kinds has both, and not a third.
fn token_set_works_for_tokens() -> bool
    ensures { result ≡ true }
{
    let eof = TokenSet {
        words: [0x2, 0x0, 0x0, 0x0],
    };
    let comment = TokenSet {
        words: [0x0, 0x40000000000000, 0x0, 0x0],
    };
    let ts = eof.union(comment);
    if !ts.contains(k::EOF) {
        return false;
    }
    if !ts.contains(k::COMMENT) {
        return false;
    }
    !ts.contains(k::PLUS)
}
