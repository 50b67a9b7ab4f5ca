// The operators: fn current_op of src/grammar/expressions.rs, and the powers of both modes.
#![tactic(auto)]

ghost use Rattle.std.specs.Prelude.{◌≡◌, [], ◌∷◌};
ghost use Rattle.input.specs.Lent.{tokens};
ghost use Rattle.runtime.specs.Acts.{Peeks};
ghost use Rattle.operators.specs.Operators as acts;

use input::Input;
use kinds::syntax_kind_enum as k;
use runtime::parser::Parser;

// An operator: its power, its kind, and the least power of its right side.
#[derive(Clone, Copy)]
pub struct Op {
    pub power: u8,
    pub kind: u16,
    pub next: u8,
}

// The powers of mode 0, a byte for each kind, eight to a word: twice the power, and one more where the operator is right.
const CRATE_ORDER: [u64; 7] = [
    0x0000000000040000,
    0x0000000a0a000000,
    0x0e1616140c100000,
    0x0000040004000016,
    0x0a00140a00000a19,
    0x030303030303030a,
    0x0003031212060803,
];

// The powers of mode 1.
const SPECIFICATION_ORDER: [u64; 7] = [
    0x0000000000040000,
    0x0000001818000000,
    0x102424200c140000,
    0x0000040004000024,
    0x1800201600001629,
    0x0303030303030318,
    0x0003031c1c060803,
];

// The first of some kinds that stands here, and else another.
fn first_of(input: &Input, p: Parser, kinds: &[u16], plain: u16) -> u16
    ensures { Peeks (tokens input.now) (acts.first_at kinds.now plain) p result p }
{
    for kind in kinds {
        if p.at(input, *kind) {
            return *kind;
        }
    }
    plain
}

// The operator that stands here, where the token is of a kind; DOT3 for none.
// Stays (promise): the definition has the crate's own answer for none, a power of 0 and DOT3.
fn operator_at(input: &Input, p: Parser, kind: u16) -> u16
    ensures { Peeks (tokens input.now) (acts.arm_of acts.arms kind) p result p }
{
    match kind {
        k::PIPE => first_of(input, p, &[k::PIPE2, k::PIPEEQ], k::PIPE),
        k::R_ANGLE => first_of(input, p, &[k::SHREQ, k::SHR, k::GTEQ], k::R_ANGLE),
        k::EQ => first_of(input, p, &[k::FAT_ARROW, k::EQ2], k::EQ),
        k::L_ANGLE => first_of(input, p, &[k::LTEQ, k::SHLEQ, k::SHL], k::L_ANGLE),
        k::PLUS => first_of(input, p, &[k::PLUSEQ, k::DOUBLE_PLUS], k::PLUS),
        k::CARET => first_of(input, p, &[k::CARETEQ], k::CARET),
        k::PERCENT => first_of(input, p, &[k::PERCENTEQ], k::PERCENT),
        k::AMP => first_of(input, p, &[k::AMPEQ, k::AMP2], k::AMP),
        k::SLASH => first_of(input, p, &[k::SLASHEQ], k::SLASH),
        k::STAR => first_of(input, p, &[k::STAREQ], k::STAR),
        k::DOT => first_of(input, p, &[k::DOT2EQ, k::DOT2], k::DOT3),
        k::BANG => first_of(input, p, &[k::NEQ], k::DOT3),
        k::MINUS => first_of(input, p, &[k::MINUSEQ], k::MINUS),
        _ => k::DOT3,
    }
}

// The byte of a kind in a mode.
fn power_of(mode: u8, kind: u16) -> u64
    ensures { result ≡ acts.packed (acts.table_of mode kind) }
{
    let i = (kind / 8) as usize;
    let n = 8 * (kind % 8);
    if i < 7 {
        if mode == 0 {
            return (CRATE_ORDER[i] >> n) % 256;
        }
        return (SPECIFICATION_ORDER[i] >> n) % 256;
    }
    0
}

// What stands here under the table of a mode: one lookup.
pub fn current_op(input: &Input, p: Parser, mode: u8) -> (Parser, Op)
    ensures { Peeks (tokens input.now) (acts.current_op (acts.table_of mode)) p result.1 result.0 }
{
    let (p, here) = p.current(input);
    let kind = operator_at(input, p, here);
    let byte = power_of(mode, kind);
    let op = Op {
        power: (byte / 2) as u8,
        kind,
        next: (byte / 2 + 1 - byte % 2) as u8,
    };
    (p, op)
}
