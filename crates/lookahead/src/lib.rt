// A reader: it holds the lent kinds and a position, and answers what stands there and ahead of it. Each method is thin: the work is
// done by `kind_ahead`, which takes a plain slice, and everyone else calls `found_at`.
#![tactic(auto)]

ghost use Rattle.std.specs.Prelude.{◌≡◌, ◌+◌};
ghost use Rattle.input.specs.Input.{kind};

use kinds::syntax_kind_enum as k;

// The lent kinds and a position among them.
#[derive(Clone, Copy)]
pub struct Reader<'a> {
    pub kinds: &'a [u16],
    pub at: usize,
}

// The kind so many tokens ahead of a position; beyond the last token it is EOF, also where the sum is beyond 64 bits.
pub fn kind_ahead(kinds: &[u16], at: usize, n: usize) -> u16
    ensures { result ≡ kind kinds.now (at + n) }
{
    if at < kinds.len() && n < kinds.len() - at {
        return input::kind(kinds, 0, at + n);
    }
    k::EOF
}

impl<'a> Reader<'a> {
    // A reader at the first token.
    pub fn new(kinds: &'a [u16]) -> Reader<'a>
        ensures { (result.kinds ≡ kinds.entry) × (result.at ≡ 0) }
    {
        Reader { kinds, at: 0 }
    }

    // Its position.
    pub fn at(self) -> usize
        ensures { result ≡ self.entry.at }
    {
        self.at
    }

    // The kind so many tokens ahead of its position: no lookup is counted.
    pub fn ahead(self, n: usize) -> u16
        ensures { result ≡ kind self.entry.kinds.now (self.entry.at + n) }
    {
        kind_ahead(self.kinds, self.at, n)
    }

    // The kind at its position.
    pub fn current(self) -> u16
        ensures { result ≡ kind self.entry.kinds.now self.entry.at }
    {
        self.ahead(0)
    }

    // The reader at another position.
    pub fn moved(self, at: usize) -> Reader<'a>
        ensures { (result.kinds ≡ self.entry.kinds) × (result.at ≡ at) }
    {
        Reader { at, ..self }
    }
}

// The kind at a position of some tokens, for a caller that holds no reader.
pub fn found_at(kinds: &[u16], at: usize) -> u16
    ensures { result ≡ kind kinds.now at }
{
    Reader::new(kinds).ahead(at)
}
