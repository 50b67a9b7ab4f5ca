// src/grammar/expressions/atom.rs: what calls nothing recursive (`hardware_qubit`, which statements call too, is in `grammar`).
ghost use Rattle.std.specs.Prelude.{◌≡◌};
ghost use Rattle.input.specs.Lent.{tokens};
ghost use Rattle.runtime.specs.State.{view};
ghost use Rattle.runtime.specs.Acts.{Does, Peeks, Steps};
ghost use Rattle.grammar.specs.Atom as acts;

use grammar::{Next, fail_if_at};
use input::Input;
use kinds::sets::Fixed;
use kinds::{messages as say, syntax_kind_enum as k};
use runtime::parser::{Completed, Parser};

pub fn identifier(input: &Input, room: &mut [u32], p: Parser) -> (Parser, Completed)
    ensures { Does (tokens input.now) acts.identifier (view p room.old) result.1 (view result.0 room.new) }
{
    let (p, m) = p.start(room);
    let (p, _) = p.expect(input, room, k::IDENT);
    p.complete(room, m, k::IDENTIFIER)
}

// The end of atom_expr: an atom that was made, and whether it is block-like.
pub fn node(cm: Completed) -> Option<(Completed, bool)>
    ensures { result ≡ acts.node_of cm }
{
    Some((cm, cm.kind == k::BLOCK_EXPR))
}

// The error of a timing literal that begins with no number.
fn timing(input: &Input, room: &mut [u32], p: Parser) -> Parser
    ensures { Does (tokens input.now) acts.timing (view p room.old) tt (view result room.new) }
{
    let (p, begins) = p.at_ts(input, Fixed::TimingLiteralFirst);
    if begins {
        return p;
    }
    p.error(room, say::TIMING_AND_IMAGINARY_LITERALS_MUST_BEGIN_WITH, 0)
}

pub fn literal(input: &Input, room: &mut [u32], p: Parser) -> (Parser, Option<(Completed, bool)>)
    ensures { Does (tokens input.now) acts.literal (view p room.old) result.1 (view result.0 room.new) }
{
    let (p, begins) = p.at_ts(input, Fixed::LiteralFirst);
    if begins {
        let p = fail_if_at(input, room, p, k::STRING, say::UNEXPECTED_STRING_LITERAL);
        let (p, m) = p.start(room);
        let (p, next) = p.nth(input, 1);
        if next == k::IDENT {
            let p = timing(input, room, p);
            let (p, m1) = p.start(room);
            let p = p.bump_any(input, room);
            let (p, _) = p.complete(room, m, k::LITERAL);
            let (p, _) = identifier(input, room, p);
            let (q, cm) = p.complete(room, m1, k::TIMING_LITERAL);
            return (q, Some((cm, false)));
        }
        let p = p.bump_any(input, room);
        let (q, cm) = p.complete(room, m, k::LITERAL);
        return (q, Some((cm, false)));
    }
    (p, None)
}

// The modifier `inv`.
pub fn inv_modifier(input: &Input, room: &mut [u32], p: Parser) -> Parser
    ensures { Does (tokens input.now) acts.inv_modifier (view p room.old) tt (view result room.new) }
{
    let (p, m) = p.start(room);
    let p = p.bump(input, room, k::INV_KW);
    if p.at(input, k::AT) {
        let p = p.bump(input, room, k::AT);
        let (p, _) = p.complete(room, m, k::INV_MODIFIER);
        return p;
    }
    if p.at(input, k::L_PAREN) {
        let p = p.error(room, say::MODIFIER_INV_ACCEPTS_NO_PARAMETER_EXPECTING_AT, 0);
        let (p, _) = p.complete(room, m, k::INV_MODIFIER);
        return p;
    }
    let p = p.error(room, say::EXPECTING_AT, 0);
    let (p, _) = p.complete(room, m, k::INV_MODIFIER);
    p
}

// The error of a modifier that must have an argument.
pub fn no_argument(room: &mut [u32], p: Parser, kw: u16) -> Parser
    ensures { Steps (acts.no_argument kw) (view p room.old) tt (view result room.new) }
{
    if kw == k::POW_KW {
        return p.error(room, say::EXPECTING_ARGUMENT_TO_POW_GATE_MODIFIER, 0);
    }
    p
}

// A comma where the first element of a tuple is to stand.
pub fn tuple_comma(input: &Input, room: &mut [u32], p: Parser) -> (Parser, bool)
    ensures { Does (tokens input.now) acts.tuple_comma (view p room.old) result.1 (view result.0 room.new) }
{
    let (p, eaten) = p.eat(input, room, k::COMMA);
    if eaten {
        let p = p.error(room, say::EXPECTED_EXPRESSION_FOUND_COMMA_INSTEAD, 0);
        return (p, true);
    }
    (p, false)
}

// After an element of a tuple: whether there was a comma in it.
pub fn tuple_next(input: &Input, room: &mut [u32], p: Parser, comma: bool) -> (Parser, bool)
    ensures { Does (tokens input.now) (acts.tuple_next comma) (view p room.old) result.1 (view result.0 room.new) }
{
    if p.at(input, k::R_PAREN) {
        return (p, comma);
    }
    let (p, _) = p.expect(input, room, k::COMMA);
    (p, true)
}

pub fn tuple_end(
    input: &Input,
    room: &mut [u32],
    p: Parser,
    m: u32,
    saw: bool,
    comma: bool,
) -> (Parser, Completed)
    ensures { Does (tokens input.now) (acts.tuple_end m saw comma) (view p room.old) result.1 (view result.0 room.new) }
{
    let (p, _) = p.expect(input, room, k::R_PAREN);
    p.complete(room, m, tuple_kind(saw, comma))
}

fn tuple_kind(saw: bool, comma: bool) -> u16
    ensures { result ≡ acts.tuple_kind saw comma }
{
    if saw {
        if comma {
            return k::TUPLE_EXPR;
        }
        return k::PAREN_EXPR;
    }
    k::TUPLE_EXPR
}

pub fn array_next(
    input: &Input,
    room: &mut [u32],
    p: Parser,
    first: bool,
    semi: bool,
) -> (Parser, Next)
    ensures { Does (tokens input.now) (acts.array_next first semi) (view p room.old) result.1 (view result.0 room.new) }
{
    let (p, yes) = first_semicolon(input, room, p, first);
    if yes {
        return (p, Next::Semi);
    }
    if semi {
        return (p, Next::Stop);
    }
    if p.at(input, k::R_BRACK) {
        return (p, Next::Comma);
    }
    let (p, met) = p.expect(input, room, k::COMMA);
    if met {
        return (p, Next::Comma);
    }
    (p, Next::Stop)
}

// A semicolon, which may follow the first element alone.
fn first_semicolon(input: &Input, room: &mut [u32], p: Parser, first: bool) -> (Parser, bool)
    ensures { Does (tokens input.now) (acts.first_semicolon first) (view p room.old) result.1 (view result.0 room.new) }
{
    if first {
        return p.eat(input, room, k::SEMICOLON);
    }
    (p, false)
}

pub fn array_end(input: &Input, room: &mut [u32], p: Parser, m: u32) -> (Parser, Completed)
    ensures { Does (tokens input.now) (acts.array_end m) (view p room.old) result.1 (view result.0 room.new) }
{
    let (p, _) = p.expect(input, room, k::R_BRACK);
    p.complete(room, m, k::ARRAY_EXPR)
}
