// Steps, and their records in a step file: payload length, record kind, payload, little-endian (docs/RULES.md, section 7). The format's one
// home: `events` writes records with `put`, and `stepfile` reads them.
#![tactic(auto)]

ghost use Rattle.std.specs.Prelude.{◌≡◌, ◌+◌, ◌≤◌, [], ◌∷◌, ◌++◌, length};
ghost use Rattle.records.specs.Record.{le16, record_of, Wrote};

// A tree step, one for each record kind. The numbers are a kind; a kind and the raw count; a code and its argument; the kinds expected and
// found by the error with code 1.
#[derive(Clone, Copy)]
pub enum Step {
    Enter(u16),
    Leave,
    Token(u16, u8),
    Error(u16, u16),
    Expected(u16, u16),
}

// The first four bytes of each record as one number: its payload's length, and 65,536 times its kind.
pub const ENTER: u32 = 65538;

pub const LEAVE: u32 = 131072;

pub const TOKEN: u32 = 196611;

pub const ERROR: u32 = 262148;

pub const EXPECTED: u32 = 327686;

// The bytes of a step's record.
pub fn size(s: Step) -> usize
    ensures { result ≡ length (record_of s) }
{
    match s {
        Step::Enter(_) => 6,
        Step::Leave => 4,
        Step::Token(_, _) => 7,
        Step::Error(_, _) => 8,
        Step::Expected(_, _) => 10,
    }
}

// Writes bytes at a place; the place past them.
// Stays (plainer): a room and a place; a writer that holds both would be made anew for each event, as a chain is written back to front.
fn put_bytes(out: &mut [u8], at: usize, bytes: &[u8]) -> usize
    requires { at + length bytes.now ≤ length out.old }
    ensures { Wrote out.old at bytes.now result out.new }
{
    let past = at + bytes.len();
    out[at..past].copy_from_slice(bytes);
    past
}

// Writes a step's record at a place; the place past it. A record is its payload's length and its kind, in two bytes each, and the payload.
pub fn put(out: &mut [u8], at: usize, s: Step) -> usize
    requires { at + length (record_of s) ≤ length out.old }
    ensures { Wrote out.old at (record_of s) result out.new }
{
    match s {
        Step::Enter(kind) => {
            let [k, l] = kind.to_le_bytes();
            put_bytes(out, at, &[2, 0, 1, 0, k, l])
        }
        Step::Leave => put_bytes(out, at, &[0, 0, 2, 0]),
        Step::Token(kind, count) => {
            let [k, l] = kind.to_le_bytes();
            put_bytes(out, at, &[3, 0, 3, 0, k, l, count])
        }
        Step::Error(code, argument) => {
            let [c, d] = code.to_le_bytes();
            let [a, b] = argument.to_le_bytes();
            put_bytes(out, at, &[4, 0, 4, 0, c, d, a, b])
        }
        Step::Expected(kind, found) => {
            let [k, l] = kind.to_le_bytes();
            let [f, g] = found.to_le_bytes();
            put_bytes(out, at, &[6, 0, 5, 0, 1, 0, k, l, f, g])
        }
    }
}
