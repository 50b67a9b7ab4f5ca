// src/grammar/params.rs: what calls nothing recursive.
ghost use Rattle.std.specs.Prelude.{◌≡◌};
ghost use Rattle.input.specs.Lent.{tokens};
ghost use Rattle.runtime.specs.State.{view};
ghost use Rattle.runtime.specs.Acts.{Does, Peeks, Steps};
ghost use Rattle.grammar.specs.Params as acts;

use grammar::{DefFlavor, How, Shape};
use input::Input;
use kinds::sets::Fixed;
use kinds::{messages as say, syntax_kind as kind, syntax_kind_enum as k};
use runtime::parser::Parser;

fn make(parens: bool, end: u16, end2: u16, one: bool, node: u16, how: How) -> Shape
    ensures { result ≡ acts.shape parens end end2 one node how }
{
    Shape {
        parens,
        end,
        end2,
        one,
        node,
        how,
    }
}

pub fn shape_of(flavor: DefFlavor) -> Shape
    ensures { result ≡ acts.shape_of flavor }
{
    match flavor {
        DefFlavor::GateParams => {
            make(
                true,
                k::R_PAREN,
                k::R_PAREN,
                true,
                k::PARAM_LIST,
                How::Untyped,
            )
        }
        DefFlavor::GateQubits => {
            make(
                false,
                k::L_CURLY,
                k::L_CURLY,
                false,
                k::PARAM_LIST,
                How::Untyped,
            )
        }
        DefFlavor::GateCallQubits => {
            make(
                false,
                k::SEMICOLON,
                k::SEMICOLON,
                false,
                k::QUBIT_LIST,
                How::Qubit,
            )
        }
        DefFlavor::DefParams => {
            make(
                true,
                k::R_PAREN,
                k::R_PAREN,
                false,
                k::TYPED_PARAM_LIST,
                How::Typed,
            )
        }
        DefFlavor::DefCalParams => {
            make(
                true,
                k::R_PAREN,
                k::R_PAREN,
                false,
                k::TYPED_PARAM_LIST,
                How::Typed,
            )
        }
        DefFlavor::DefCalQubits => {
            make(
                false,
                k::L_CURLY,
                k::THIN_ARROW,
                false,
                k::QUBIT_LIST,
                How::Untyped,
            )
        }
        DefFlavor::ExpressionList => {
            make(
                false,
                k::R_BRACK,
                k::R_BRACK,
                true,
                k::EXPRESSION_LIST,
                How::Expr,
            )
        }
    }
}

pub fn param_untyped(input: &Input, room: &mut [u32], p: Parser, m: u32) -> (Parser, bool)
    ensures { Does (tokens input.now) (acts.param_untyped m) (view p room.old) result.1 (view result.0 room.new) }
{
    if p.at(input, k::IDENT) {
        let p = p.bump(input, room, k::IDENT);
        let (p, _) = p.complete(room, m, k::PARAM);
        return (p, true);
    }
    let p = p.error(room, say::EXPECTED_PARAMETER_NAME, 0);
    let p = p.abandon(room, m);
    (p, false)
}

// The list's start, and its parenthesis.
pub fn list_open(input: &Input, room: &mut [u32], p: Parser, shape: Shape) -> (Parser, u32)
    ensures { Does (tokens input.now) (acts.list_open shape) (view p room.old) result.1 (view result.0 room.new) }
{
    let (p, m) = p.start(room);
    if shape.parens {
        let p = p.bump(input, room, k::L_PAREN);
        return (p, m);
    }
    (p, m)
}

// Whether the list ends here.
fn at_list_end(input: &Input, p: Parser, shape: Shape) -> bool
    ensures { result ≡ acts.ends_here (tokens input.now) p shape }
{
    p.at(input, shape.end) || p.at(input, shape.end2)
}

// Whether the list goes on here.
pub fn list_goes(input: &Input, p: Parser, shape: Shape) -> bool
    ensures { result ≡ acts.goes_here (tokens input.now) p shape }
{
    !p.at(input, k::EOF) && !at_list_end(input, p, shape)
}

// Whether a parameter begins here.
pub fn param_ahead(input: &Input, p: Parser) -> (Parser, bool)
    ensures { Peeks (tokens input.now) acts.param_ahead p result.1 result.0 }
{
    let (p, here) = p.current(input);
    if kind::is_type(here) {
        return (p, true);
    }
    p.at_ts(input, Fixed::ParamFirst)
}

// After a parameter: whether another one is to follow.
pub fn list_next(input: &Input, room: &mut [u32], p: Parser, shape: Shape) -> (Parser, bool)
    ensures { Does (tokens input.now) (acts.list_next shape) (view p room.old) result.1 (view result.0 room.new) }
{
    if at_list_end(input, p, shape) {
        return (p, false);
    }
    if p.at(input, k::COMMA) {
        let p = p.bump(input, room, k::COMMA);
        return (p, true);
    }
    let (p, begins) = p.at_ts(input, Fixed::ParamFirst);
    if begins {
        let p = p.error(room, say::EXPECTED_COMMA, 0);
        return (p, true);
    }
    (p, false)
}

// The error of an empty list where one must not be.
fn list_empty(room: &mut [u32], p: Parser, one: bool, n: u32) -> Parser
    ensures { Steps (acts.list_empty one n) (view p room.old) tt (view result room.new) }
{
    if one {
        if n < 1 {
            return p.error(room, say::EXPECTED_ONE_OR_MORE_PARAMETERS, 0);
        }
    }
    p
}

// The list's end, after n parameters.
pub fn list_end(input: &Input, room: &mut [u32], p: Parser, m: u32, shape: Shape, n: u32) -> Parser
    ensures { Does (tokens input.now) (acts.list_end m shape n) (view p room.old) tt (view result room.new) }
{
    let p = list_empty(room, p, shape.one, n);
    if shape.parens {
        let (p, _) = p.expect(input, room, k::R_PAREN);
        let (p, _) = p.complete(room, m, shape.node);
        return p;
    }
    let (p, _) = p.complete(room, m, shape.node);
    p
}
