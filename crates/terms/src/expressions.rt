// src/grammar/expressions.rs: what calls nothing recursive (`var_name`, which statements call too, is in `grammar`).
ghost use Rattle.std.specs.Prelude.{◌≡◌, not, ◌&&◌};
ghost use Rattle.input.specs.Lent.{tokens};
ghost use Rattle.runtime.specs.State.{view};
ghost use Rattle.runtime.specs.Acts.{Does, Peeks, Steps};
ghost use Rattle.grammar.specs.Expressions as acts;

use input::Input;
use kinds::sets::Fixed;
use kinds::{messages as say, syntax_kind as kind, syntax_kind_enum as k};
use runtime::parser::{Completed, Parser};

pub fn both(a: bool, b: bool) -> bool
    ensures { result ≡ (a && b) }
{
    a && b
}

pub fn not_both(a: bool, b: bool) -> bool
    ensures { result ≡ not (a && b) }
{
    !(a && b)
}

// A marker that is handed over, or a new one.
pub fn marker(room: &mut [u32], p: Parser, given: Option<u32>) -> (Parser, u32)
    ensures { Steps (acts.marker given) (view p room.old) result.1 (view result.0 room.new) }
{
    match given {
        Some(m) => (p, m),
        None => p.start(room),
    }
}

pub fn type_name(input: &Input, room: &mut [u32], p: Parser) -> Parser
    ensures { Does (tokens input.now) acts.type_name (view p room.old) tt (view result room.new) }
{
    let (p, here) = p.current(input);
    if kind::is_type(here) {
        let (p, here1) = p.current(input);
        return p.bump(input, room, here1);
    }
    p.error(room, say::EXPECTED_TYPE_NAME, 0)
}

// Whether no expression begins here: neither a kind that begins one nor a cast.
pub fn lacks_expr(input: &Input, p: Parser) -> (Parser, bool)
    ensures { Peeks (tokens input.now) acts.lacks_expr p result.1 result.0 }
{
    let (p, begins) = p.at_ts(input, Fixed::ExprFirst);
    if begins {
        return (p, false);
    }
    let (p, here) = p.current(input);
    if kind::is_classical_type(here) {
        let (p, next) = p.nth(input, 1);
        if Fixed::CastNext.has(next) {
            return (p, false);
        }
        return (p, true);
    }
    (p, true)
}

// Whether a cast begins here: a classical type, and `(` or `[`.
fn cast_ahead(input: &Input, p: Parser) -> (Parser, bool)
    ensures { Peeks (tokens input.now) acts.cast_ahead p result.1 result.0 }
{
    let (p, here) = p.current(input);
    if kind::is_classical_type(here) {
        let (p, next) = p.nth(input, 1);
        if next == k::L_PAREN {
            return (p, true);
        }
        let (p, next1) = p.nth(input, 1);
        if next1 == k::L_BRACK {
            return (p, true);
        }
        return (p, false);
    }
    (p, false)
}

// Whether a statement lacks an expression: stmt asks in another order than expr_bp.
pub fn stmt_lacks_expr(input: &Input, p: Parser) -> (Parser, bool)
    ensures { Peeks (tokens input.now) acts.stmt_lacks_expr p result.1 result.0 }
{
    let (p, cast) = cast_ahead(input, p);
    if cast {
        return (p, false);
    }
    let (p, begins) = p.at_ts(input, Fixed::ExprFirst);
    if begins {
        return (p, false);
    }
    (p, true)
}

// The error of a missing semicolon, which a block needs not have.
fn no_semicolon(room: &mut [u32], p: Parser, block: bool, semi: bool) -> Parser
    ensures { Steps (acts.no_semicolon block semi) (view p room.old) tt (view result room.new) }
{
    if block {
        return p;
    }
    if semi {
        return p;
    }
    p.error(room, say::EXPECTING_SEMICOLON_TERMINATING_STATEMENT, 0)
}

// The end of an expression statement: its semicolon, unless it is an assignment or a block ends here.
pub fn stmt_end(input: &Input, room: &mut [u32], p: Parser, cm: Completed, block: bool) -> Parser
    ensures { Does (tokens input.now) (acts.stmt_end cm block) (view p room.old) tt (view result room.new) }
{
    if cm.kind == k::ASSIGNMENT_STMT {
        return p;
    }
    if p.at(input, k::R_CURLY) {
        return p;
    }
    let (p, m) = p.precede(room, cm);
    let (p, eaten) = p.eat(input, room, k::SEMICOLON);
    let p = no_semicolon(room, p, block, eaten);
    let (p, _) = p.complete(room, m, k::EXPR_STMT);
    p
}

// The error of an assignment that is no statement.
fn no_assignment(room: &mut [u32], p: Parser, prefer: bool) -> Parser
    ensures { Steps (acts.no_assignment prefer) (view p room.old) tt (view result room.new) }
{
    if prefer {
        return p;
    }
    p.error(
        room,
        say::ASSIGNMENT_STATEMENT_FOUND_WHERE_EXPRESSION_EXPECTED,
        0,
    )
}

// The semicolon of an assignment statement.
fn assigned(input: &Input, room: &mut [u32], p: Parser, prefer: bool) -> Parser
    ensures { Does (tokens input.now) (acts.assigned prefer) (view p room.old) tt (view result room.new) }
{
    if prefer {
        let (p, _) = p.expect(input, room, k::SEMICOLON);
        return p;
    }
    p
}

// The end of an operator's application: an assignment has rules of its own.
pub fn close_op(
    input: &Input,
    room: &mut [u32],
    p: Parser,
    prefer: bool,
    before: u16,
    op: u16,
    m: u32,
) -> (Parser, Completed)
    ensures { Does (tokens input.now) (acts.close_op prefer before op m) (view p room.old) result.1 (view result.0 room.new) }
{
    if op == k::EQ {
        let p = no_assignment(room, p, prefer);
        if Fixed::Assignable.has(before) {
            let p = assigned(input, room, p, prefer);
            return p.complete(room, m, k::ASSIGNMENT_STMT);
        }
        let p = p.error(room, say::ILLEGAL_LHS_IN_ASSIGNMENT, 0);
        return p.complete(room, m, k::BIN_EXPR);
    }
    p.complete(room, m, k::BIN_EXPR)
}

// Stays (rule): a function for each of the crate, as `scalar_return` of grammar is.
// The error of an array's base type.
pub fn array_base(input: &Input, room: &mut [u32], p: Parser) -> Parser
    ensures { Does (tokens input.now) acts.array_base (view p room.old) tt (view result room.new) }
{
    let (p, here) = p.current(input);
    if Fixed::ArrayBases.has(here) {
        return p;
    }
    p.error(room, say::ILLEGAL_BASE_TYPE_FOR_ARRAY, 0)
}

// The error of a literal in a designator that is no integer.
pub fn literal_designator(input: &Input, room: &mut [u32], p: Parser) -> Parser
    ensures { Does (tokens input.now) acts.literal_designator (view p room.old) tt (view result room.new) }
{
    let (p, here) = p.current(input);
    if Fixed::NoIntegers.has(here) {
        let (p, next) = p.nth(input, 1);
        if next == k::R_BRACK {
            return p.error(room, say::LITERAL_TYPE_DESIGNATOR_MUST_BE_AN_INTEGER, 0);
        }
        return p;
    }
    p
}

// The error of an index at what has none.
pub fn unindexed(room: &mut [u32], p: Parser, kind: u16) -> Parser
    ensures { Steps (acts.unindexed kind) (view p room.old) tt (view result room.new) }
{
    if Fixed::Unindexed.has(kind) {
        return p.error(room, say::INDEXING_INTO_LITERAL_IS_NOT_ALLOWED, 0);
    }
    p
}

// The end of call_arg_list.
pub fn args_end(input: &Input, room: &mut [u32], p: Parser, m: u32, m1: u32) -> Parser
    ensures { Does (tokens input.now) (acts.args_end m m1) (view p room.old) tt (view result room.new) }
{
    let (p, _) = p.expect(input, room, k::R_PAREN);
    let (p, _) = p.complete(room, m1, k::EXPRESSION_LIST);
    let (p, _) = p.complete(room, m, k::ARG_LIST);
    p
}
