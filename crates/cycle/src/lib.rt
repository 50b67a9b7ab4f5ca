// The productions that call one another, in one cycle: src/grammar.rs and the files below it, in the crate's order. Each counted call has
// one call less to spare, `left`; docs/ARCHITECTURE.md says which function of the crate is where, docs/DECISIONS.md why the names are short.
// Stays (rule): a function for each of the crate, also where two differ by a keyword and a node, as `ret` and `bx` do.
// Stays (rule): the room and the state are parameters of their own. The state goes by value and is handed back, the room is lent, and with the room
// in a struct beside the `Input` each contract would have to say that the `Input` is as it was.
#![tactic(auto)]

pub mod entry;

ghost use Rattle.std.specs.Prelude.{◌≡◌, ◌≤◌};
ghost use Rattle.input.specs.Lent.{tokens};
ghost use Rattle.runtime.specs.State.{view};
ghost use Rattle.runtime.specs.Acts.{Does};
ghost use Rattle.operators.specs.Operators.{table_of};
ghost use Rattle.grammar.specs.Grammar as G;
ghost use Rattle.grammar.specs.Expressions as E;
ghost use Rattle.grammar.specs.Params as P;
ghost use Rattle.grammar.specs.Atom as atoms;
ghost use Rattle.grammar.specs.Items as I;
ghost use Rattle.grammar.specs.Entry.{counted, later};

use grammar::{DefFlavor, How, Next};
use input::Input;
use kinds::sets::Fixed;
use kinds::{messages as say, syntax_kind as kind, syntax_kind_enum as k};
use runtime::parser::{Completed, Parser, Stop};
use statements::{items, params};
use terms::{atom, expressions};

// What a production is lent beside the state: the operators' mode, and how many counted calls it may still make.
#[derive(Clone, Copy)]
pub struct Level {
    pub mode: u8,
    pub left: u32,
}

// ---- src/grammar.rs

// the end of def_stmt and defcal_: opt_ret_type, and the body
#[cycle(productions)]
fn sig(input: &Input, room: &mut [u32], p: Parser, level: Level, m: u32, node: u16) -> Parser
    ensures { Does (tokens input.now) (I.signature (counted (table_of level.mode) level.left) m node) (view p room.old) tt (view result room.new) }
{
    if p.at(input, k::THIN_ARROW) {
        let (p, m1) = p.start(room);
        let p = p.bump(input, room, k::THIN_ARROW);
        let p = grammar::scalar_return(input, room, p);
        let (p, here) = p.current(input);
        if kind::is_type(here) {
            let p = spec(input, room, p, level);
            let p = grammar::completed(room, p, m1, k::RETURN_SIGNATURE);
            let p = body(input, room, p, level);
            return grammar::completed(room, p, m, node);
        }
        let p = p.abandon(room, m1);
        let p = body(input, room, p, level);
        return grammar::completed(room, p, m, node);
    }
    let p = body(input, room, p, level);
    grammar::completed(room, p, m, node)
}

// ---- src/grammar/params.rs

// expression_list
#[cycle(productions)]
fn els(input: &Input, room: &mut [u32], p: Parser, level: Level) -> Parser
    ensures { Does (tokens input.now) (counted (table_of level.mode) level.left).expression_list (view p room.old) tt (view result room.new) }
{
    if level.left == 0 {
        return p.stop(room, Stop::Deep);
    }
    let d = Level {
        left: level.left - 1,
        ..level
    };
    list(input, room, p, d, DefFlavor::ExpressionList)
}

// _param_list_openqasm
#[cycle(productions)]
fn list(input: &Input, room: &mut [u32], p: Parser, level: Level, flavor: DefFlavor) -> Parser
    ensures { Does (tokens input.now) (P.param_list_openqasm (counted (table_of level.mode) level.left) flavor) (view p room.old) tt (view result room.new) }
{
    let shape = params::shape_of(flavor);
    let how = shape.how;
    let (mut q, m) = params::list_open(input, room, p, shape);
    // Stays (plainer): the count of parameters that were found, not of rounds; `list_end` is told it.
    let mut n: u32 = 0;
    while params::list_goes(input, q, shape) {
        let (p, m1) = q.start(room);
        let (p, ahead) = params::param_ahead(input, p);
        if ahead {
            let (p, found) = par(input, room, p, level, how, m1);
            if found {
                n = n + 1;
                let (p, more) = params::list_next(input, room, p, shape);
                q = p;
                if more {
                    continue;
                }
                return params::list_end(input, room, q, m, shape, n);
            }
            return params::list_end(input, room, p, m, shape, n);
        }
        let p = p.error(room, say::EXPECTED_VALUE_PARAMETER, 0);
        let p = p.abandon(room, m1);
        return params::list_end(input, room, p, m, shape, n);
    }
    params::list_end(input, room, q, m, shape, n)
}

// one parameter of _param_list_openqasm: expr_or_range_expr, arg_gate_call_qubit, param_typed or param_untyped
#[cycle(productions)]
fn par(input: &Input, room: &mut [u32], p: Parser, level: Level, how: How, m: u32) -> (Parser, bool)
    ensures { Does (tokens input.now) (P.found_param (counted (table_of level.mode) level.left) how m) (view p room.old) result.1 (view result.0 room.new) }
{
    match how {
        How::Expr => {
            let p = p.abandon(room, m);
            let (p, m1) = p.start(room);
            let (p, _) = expr_bp(input, room, p, level, None, false, 1);
            if p.at(input, k::COLON) {
                let p = p.bump(input, room, k::COLON);
                let (p, _) = expr_bp(input, room, p, level, None, false, 1);
                if p.at(input, k::COLON) {
                    let p = p.bump(input, room, k::COLON);
                    let (p, _) = expr_bp(input, room, p, level, None, false, 1);
                    let p = grammar::completed(room, p, m1, k::RANGE_EXPR);
                    return (p, true);
                }
                let p = grammar::completed(room, p, m1, k::RANGE_EXPR);
                return (p, true);
            }
            let p = p.abandon(room, m1);
            return (p, true);
        }
        How::Qubit => {
            return qarg(input, room, p, level, m);
        }
        How::Typed => {
            let p = spec(input, room, p, level);
            let p = grammar::var_name(input, room, p);
            let p = grammar::completed(room, p, m, k::TYPED_PARAM);
            return (p, true);
        }
        How::Untyped => {
            return params::param_untyped(input, room, p, m);
        }
    }
}

// arg_gate_call_qubit
#[cycle(productions)]
fn qarg(input: &Input, room: &mut [u32], p: Parser, level: Level, m: u32) -> (Parser, bool)
    ensures { Does (tokens input.now) (P.arg_gate_call_qubit (counted (table_of level.mode) level.left) m) (view p room.old) result.1 (view result.0 room.new) }
{
    if p.at(input, k::HARDWAREIDENT) {
        let p = p.bump(input, room, k::HARDWAREIDENT);
        let p = grammar::completed(room, p, m, k::HARDWARE_QUBIT);
        return (p, true);
    }
    if p.at(input, k::IDENT) {
        let p = p.bump(input, room, k::IDENT);
        let (p, cm) = p.complete(room, m, k::IDENTIFIER);
        if p.at(input, k::L_BRACK) {
            let (p, _) = ids(input, room, p, level, cm);
            return (p, true);
        }
        return (p, true);
    }
    let p = p.error(room, say::EXPECTED_NAME_IN_QUBIT_ARGUMENT, 0);
    let p = p.abandon(room, m);
    (p, false)
}

// ---- src/grammar/expressions/atom.rs

// atom_expr
#[cycle(productions)]
fn atom(
    input: &Input,
    room: &mut [u32],
    p: Parser,
    level: Level,
) -> (Parser, Option<(Completed, bool)>)
    ensures { Does (tokens input.now) (atoms.atom_expr (counted (table_of level.mode) level.left)) (view p room.old) result.1 (view result.0 room.new) }
{
    let (p, got) = atom::literal(input, room, p);
    if let Some((cm, _)) = got {
        return (p, Some((cm, false)));
    }
    let (p, next) = p.nth(input, 1);
    let (p, here) = p.current(input);
    if kind::is_classical_type(here) {
        let (q, cm) = cast(input, room, p, level);
        return (q, Some((cm, false)));
    }
    let (p, first) = p.current(input);
    match first {
        k::HARDWAREIDENT => {
            let (p, cm) = grammar::hardware_qubit(input, room, p);
            return (p, atom::node(cm));
        }
        k::L_PAREN => {
            let (p, cm) = tup(input, room, p, level);
            return (p, atom::node(cm));
        }
        k::L_BRACK => {
            let (p, cm) = arr(input, room, p, level);
            return (p, atom::node(cm));
        }
        k::BOX_KW => {
            let (p, cm) = bx(input, room, p, level);
            return (p, atom::node(cm));
        }
        k::MEASURE_KW => {
            let (p, cm) = meas(input, room, p, level);
            return (p, atom::node(cm));
        }
        k::RETURN_KW => {
            let (p, cm) = ret(input, room, p, level);
            return (p, atom::node(cm));
        }
        k::L_CURLY => {
            let (p, cm) = blk(input, room, p, level);
            return (p, atom::node(cm));
        }
        k::INV_KW => {
            let (p, cm) = mods(input, room, p, level);
            return (p, atom::node(cm));
        }
        k::POW_KW => {
            let (p, cm) = mods(input, room, p, level);
            return (p, atom::node(cm));
        }
        k::CTRL_KW => {
            let (p, cm) = mods(input, room, p, level);
            return (p, atom::node(cm));
        }
        k::NEGCTRL_KW => {
            let (p, cm) = mods(input, room, p, level);
            return (p, atom::node(cm));
        }
        k::GPHASE_KW => {
            let (p, cm) = gph(input, room, p, level);
            return (p, atom::node(cm));
        }
        k::IDENT => {
            if Fixed::QubitFirst.has(next) {
                let (p, cm) = gate(input, room, p, level);
                return (p, atom::node(cm));
            }
            let (p, cm) = atom::identifier(input, room, p);
            return (p, atom::node(cm));
        }
        _ => {
            let q = p.err_and_bump(input, room, say::ATOM_EXPR_EXPECTED_EXPRESSION);
            return (q, None);
        }
    }
}

// cast_expr
#[cycle(productions)]
fn cast(input: &Input, room: &mut [u32], p: Parser, level: Level) -> (Parser, Completed)
    ensures { Does (tokens input.now) (atoms.cast_expr (counted (table_of level.mode) level.left)) (view p room.old) result.1 (view result.0 room.new) }
{
    let (p, m) = p.start(room);
    let p = spec(input, room, p, level);
    let p = grammar::expected(input, room, p, k::L_PAREN);
    let (p, _) = expr_bp(input, room, p, level, None, false, 1);
    let p = grammar::expected(input, room, p, k::R_PAREN);
    p.complete(room, m, k::CAST_EXPRESSION)
}

// gphase_call_expr
#[cycle(productions)]
fn gph(input: &Input, room: &mut [u32], p: Parser, level: Level) -> (Parser, Completed)
    ensures { Does (tokens input.now) (atoms.gphase_call_expr (counted (table_of level.mode) level.left)) (view p room.old) result.1 (view result.0 room.new) }
{
    let p = p.must(input, room, k::GPHASE_KW);
    let (p, m) = p.start(room);
    let p = p.bump(input, room, k::GPHASE_KW);
    let (p, _) = expr_bp(input, room, p, level, None, false, 1);
    p.complete(room, m, k::G_PHASE_CALL_EXPR)
}

// modified_gate_call_expr
#[cycle(productions)]
fn mods(input: &Input, room: &mut [u32], p: Parser, level: Level) -> (Parser, Completed)
    ensures { Does (tokens input.now) (atoms.modified_gate_call_expr (counted (table_of level.mode) level.left)) (view p room.old) result.1 (view result.0 room.new) }
{
    let (mut q, m) = p.start(room);
    loop {
        let (p, kw) = q.current(input);
        match kw {
            k::INV_KW => {
                q = atom::inv_modifier(input, room, p);
            }
            k::POW_KW => {
                q = ctl(input, room, p, level, k::POW_KW, k::POW_MODIFIER);
            }
            k::CTRL_KW => {
                q = ctl(input, room, p, level, k::CTRL_KW, k::CTRL_MODIFIER);
            }
            k::NEGCTRL_KW => {
                q = ctl(input, room, p, level, k::NEGCTRL_KW, k::NEG_CTRL_MODIFIER);
            }
            _ => {
                if p.at(input, k::GPHASE_KW) {
                    let (p, _) = gph(input, room, p, level);
                    return p.complete(room, m, k::MODIFIED_GATE_CALL_EXPR);
                }
                let (p, _) = gate(input, room, p, level);
                return p.complete(room, m, k::MODIFIED_GATE_CALL_EXPR);
            }
        }
    }
}

// the modifiers `pow`, `ctrl` and `negctrl` of modified_gate_call_expr
#[cycle(productions)]
fn ctl(input: &Input, room: &mut [u32], p: Parser, level: Level, kw: u16, node: u16) -> Parser
    ensures { Does (tokens input.now) (atoms.modifier (counted (table_of level.mode) level.left) kw node) (view p room.old) tt (view result room.new) }
{
    let (p, m) = p.start(room);
    let p = p.bump(input, room, kw);
    if p.at(input, k::L_PAREN) {
        let (p, m1) = p.start(room);
        let p = grammar::expected(input, room, p, k::L_PAREN);
        let (p, _) = expr_bp(input, room, p, level, None, false, 1);
        let p = grammar::expected(input, room, p, k::R_PAREN);
        let p = grammar::completed(room, p, m1, k::PAREN_EXPR);
        return grammar::close(input, room, p, k::AT, m, node);
    }
    let p = atom::no_argument(room, p, kw);
    grammar::close(input, room, p, k::AT, m, node)
}

// gate_call_expr
#[cycle(productions)]
fn gate(input: &Input, room: &mut [u32], p: Parser, level: Level) -> (Parser, Completed)
    ensures { Does (tokens input.now) (atoms.gate_call_expr (counted (table_of level.mode) level.left)) (view p room.old) result.1 (view result.0 room.new) }
{
    let (p, m) = p.start(room);
    let (p, _) = atom::identifier(input, room, p);
    if p.at(input, k::L_PAREN) {
        let p = args(input, room, p, level);
        let p = list(input, room, p, level, DefFlavor::GateCallQubits);
        return p.complete(room, m, k::GATE_CALL_EXPR);
    }
    let p = list(input, room, p, level, DefFlavor::GateCallQubits);
    p.complete(room, m, k::GATE_CALL_EXPR)
}

// measure_expression
#[cycle(productions)]
fn meas(input: &Input, room: &mut [u32], p: Parser, level: Level) -> (Parser, Completed)
    ensures { Does (tokens input.now) (atoms.measure_expression (counted (table_of level.mode) level.left)) (view p room.old) result.1 (view result.0 room.new) }
{
    let (p, m) = p.start(room);
    let p = p.bump(input, room, k::MEASURE_KW);
    let (p, here) = p.current(input);
    if Fixed::QubitFirst.has(here) {
        let (p, m1) = p.start(room);
        let (p, _) = qarg(input, room, p, level, m1);
        return p.complete(room, m, k::MEASURE_EXPRESSION);
    }
    let p = p.error(room, say::EXPECTING_QUBIT_S_TO_MEASURE, 0);
    p.complete(room, m, k::MEASURE_EXPRESSION)
}

// tuple_expr
#[cycle(productions)]
fn tup(input: &Input, room: &mut [u32], p: Parser, level: Level) -> (Parser, Completed)
    ensures { Does (tokens input.now) (atoms.tuple_expr (counted (table_of level.mode) level.left)) (view p room.old) result.1 (view result.0 room.new) }
{
    let p = p.must(input, room, k::L_PAREN);
    let (p, m) = p.start(room);
    let p = grammar::expected(input, room, p, k::L_PAREN);
    let (mut q, mut comma) = atom::tuple_comma(input, room, p);
    let mut saw = false;
    while q.goes_on(input, k::R_PAREN) {
        saw = true;
        let (p, g) = expr_bp(input, room, q, level, None, false, 1);
        let Some(_) = g else {
            return atom::tuple_end(input, room, p, m, saw, comma);
        };
        let (p, comma1) = atom::tuple_next(input, room, p, comma);
        q = p;
        comma = comma1;
    }
    atom::tuple_end(input, room, q, m, saw, comma)
}

// array_expr
#[cycle(productions)]
fn arr(input: &Input, room: &mut [u32], p: Parser, level: Level) -> (Parser, Completed)
    ensures { Does (tokens input.now) (atoms.array_expr (counted (table_of level.mode) level.left)) (view p room.old) result.1 (view result.0 room.new) }
{
    let p = p.must(input, room, k::L_BRACK);
    let (p, m) = p.start(room);
    let mut q = p.bump(input, room, k::L_BRACK);
    let mut first = true;
    let mut semi = false;
    while q.goes_on(input, k::R_BRACK) {
        let (p, g) = expr_bp(input, room, q, level, None, false, 1);
        let Some(_) = g else {
            return atom::array_end(input, room, p, m);
        };
        let (p, next) = atom::array_next(input, room, p, first, semi);
        match next {
            Next::Semi => {
                q = p;
                first = false;
                semi = true;
            }
            Next::Comma => {
                q = p;
                first = false;
            }
            Next::Stop => {
                return atom::array_end(input, room, p, m);
            }
        }
    }
    atom::array_end(input, room, q, m)
}

// try_block_expr
#[cycle(productions)]
fn body(input: &Input, room: &mut [u32], p: Parser, level: Level) -> Parser
    ensures { Does (tokens input.now) (atoms.try_block_expr (counted (table_of level.mode) level.left)) (view p room.old) tt (view result room.new) }
{
    if p.at(input, k::L_CURLY) {
        let (p, _) = blk(input, room, p, level);
        return p;
    }
    p.error(room, say::EXPECTED_A_BLOCK, 0)
}

// block_expr
#[cycle(productions)]
fn blk(input: &Input, room: &mut [u32], p: Parser, level: Level) -> (Parser, Completed)
    ensures { Does (tokens input.now) (atoms.block_expr (counted (table_of level.mode) level.left)) (view p room.old) result.1 (view result.0 room.new) }
{
    let p = p.must(input, room, k::L_CURLY);
    let (p, m) = p.start(room);
    let p = p.bump(input, room, k::L_CURLY);
    let p = sts(input, room, p, level);
    let p = grammar::expected(input, room, p, k::R_CURLY);
    p.complete(room, m, k::BLOCK_EXPR)
}

// return_expr
#[cycle(productions)]
fn ret(input: &Input, room: &mut [u32], p: Parser, level: Level) -> (Parser, Completed)
    ensures { Does (tokens input.now) (atoms.return_expr (counted (table_of level.mode) level.left)) (view p room.old) result.1 (view result.0 room.new) }
{
    let p = p.must(input, room, k::RETURN_KW);
    let (p, m) = p.start(room);
    let p = p.bump_any(input, room);
    let (p, begins) = p.at_ts(input, Fixed::ExprFirst);
    if begins {
        let (p, _) = expr_bp(input, room, p, level, None, false, 1);
        return p.complete(room, m, k::RETURN_EXPR);
    }
    p.complete(room, m, k::RETURN_EXPR)
}

// box_expr
#[cycle(productions)]
fn bx(input: &Input, room: &mut [u32], p: Parser, level: Level) -> (Parser, Completed)
    ensures { Does (tokens input.now) (atoms.box_expr (counted (table_of level.mode) level.left)) (view p room.old) result.1 (view result.0 room.new) }
{
    let p = p.must(input, room, k::BOX_KW);
    let (p, m) = p.start(room);
    let p = p.bump(input, room, k::BOX_KW);
    let (p, begins) = p.at_ts(input, Fixed::ExprFirst);
    if begins {
        let (p, _) = expr_bp(input, room, p, level, None, false, 1);
        return p.complete(room, m, k::BOX_EXPR);
    }
    p.complete(room, m, k::BOX_EXPR)
}

// ---- src/grammar/expressions.rs

// range_expr
#[cycle(productions)]
fn range(input: &Input, room: &mut [u32], p: Parser, level: Level) -> Parser
    ensures { Does (tokens input.now) (E.range_expr (counted (table_of level.mode) level.left)) (view p room.old) tt (view result room.new) }
{
    let (p, m) = p.start(room);
    let p = p.must(input, room, k::L_BRACK);
    let p = p.bump(input, room, k::L_BRACK);
    let (p, _) = expr_bp(input, room, p, level, None, false, 1);
    if p.at(input, k::COLON) {
        let p = p.bump(input, room, k::COLON);
        let (p, _) = expr_bp(input, room, p, level, None, false, 1);
        if p.at(input, k::COLON) {
            let p = p.bump(input, room, k::COLON);
            let (p, _) = expr_bp(input, room, p, level, None, false, 1);
            return grammar::close(input, room, p, k::R_BRACK, m, k::RANGE_EXPR);
        }
        return grammar::close(input, room, p, k::R_BRACK, m, k::RANGE_EXPR);
    }
    let p = p.error(room, say::EXPECTING_COLON_IN_RANGE_EXPRESSION, 0);
    grammar::close(input, room, p, k::R_BRACK, m, k::RANGE_EXPR)
}

// stmt, with let_stmt
#[cycle(productions)]
fn stmt(input: &Input, room: &mut [u32], p: Parser, level: Level) -> Parser
    ensures { Does (tokens input.now) (counted (table_of level.mode) level.left).stmt (view p room.old) tt (view result room.new) }
{
    if level.left == 0 {
        return p.stop(room, Stop::Deep);
    }
    let d = Level {
        left: level.left - 1,
        ..level
    };
    let (p, eaten) = p.eat(input, room, k::SEMICOLON);
    if eaten {
        return p;
    }
    if p.at(input, k::LET_KW) {
        let (p, m) = p.start(room);
        let p = p.bump(input, room, k::LET_KW);
        let p = grammar::expected(input, room, p, k::IDENT);
        let p = grammar::expected(input, room, p, k::EQ);
        let (p, _) = expr_bp(input, room, p, d, None, false, 1);
        return grammar::close(input, room, p, k::SEMICOLON, m, k::LET_STMT);
    }
    let (p, m1) = p.start(room);
    let (p, offer) = opt(input, room, p, d, m1);
    match offer {
        Ok(()) => p,
        Err(m) => {
            if p.at(input, k::PRAGMA) {
                let p = p.bump_any(input, room);
                return grammar::completed(room, p, m, k::PRAGMA_STATEMENT);
            }
            if p.at(input, k::ANNOTATION) {
                let p = p.bump_any(input, room);
                return grammar::completed(room, p, m, k::ANNOTATION_STATEMENT);
            }
            let (p, lacks) = expressions::stmt_lacks_expr(input, p);
            if lacks {
                let p = p.err_and_bump(
                    input,
                    room,
                    say::STMT_EXPECTED_EXPRESSION_TYPE_DECLARATION_OR_LET,
                );
                return p.abandon(room, m);
            }
            let (p, g) = expr_bp(input, room, p, d, Some(m), true, 1);
            match g {
                None => p,
                Some((cm, block)) => expressions::stmt_end(input, room, p, cm, block),
            }
        }
    }
}

// expr_block_contents
#[cycle(productions)]
fn sts(input: &Input, room: &mut [u32], p: Parser, level: Level) -> Parser
    ensures { Does (tokens input.now) (E.expr_block_contents (counted (table_of level.mode) level.left)) (view p room.old) tt (view result room.new) }
{
    let mut q = p;
    while q.goes_on(input, k::R_CURLY) {
        q = stmt(input, room, q, level);
    }
    q
}

// expr_bp
#[cycle(productions)]
pub fn expr_bp(
    input: &Input,
    room: &mut [u32],
    p: Parser,
    level: Level,
    given: Option<u32>,
    prefer: bool,
    bp: u8,
) -> (Parser, Option<(Completed, bool)>)
    requires le_bp { 1 ≤ bp }
    ensures { Does (tokens input.now) ((counted (table_of level.mode) level.left).expr_bp given prefer bp) (view p room.old) result.1 (view result.0 room.new) }
{
    if level.left == 0 {
        let q = p.stop(room, Stop::Deep);
        return (q, None);
    }
    let d = Level {
        left: level.left - 1,
        ..level
    };
    let (p, m) = expressions::marker(room, p, given);
    let (p, lacks) = expressions::lacks_expr(input, p);
    if lacks {
        let p = p.err_recover(
            input,
            room,
            say::EXPR_BP_EXPECTED_EXPRESSION,
            Fixed::ExprRecoverySet,
        );
        let p = p.abandon(room, m);
        return (p, None);
    }
    let (p, g) = lhs(input, room, p, d, prefer);
    match g {
        None => {
            let p = p.abandon(room, m);
            return (p, None);
        }
        Some((first, block)) => {
            let (mut q, mut cm) = p.extend_to(room, first, m);
            if expressions::both(prefer, block) {
                return (q, Some((cm, true)));
            }
            loop {
                let (p, op) = operators::current_op(input, q, d.mode);
                q = p;
                if op.power < bp {
                    return (q, Some((cm, false)));
                }
                let before = cm.kind;
                let (p, m1) = q.precede(room, cm);
                let p = p.bump(input, room, op.kind);
                let (p, _) = expr_bp(input, room, p, d, None, false, op.next);
                let (p, cm1) = expressions::close_op(input, room, p, prefer, before, op.kind, m1);
                q = p;
                cm = cm1;
            }
        }
    }
}

// lhs: a prefix operator and its operand, or an atom and what follows it
#[cycle(productions)]
fn lhs(
    input: &Input,
    room: &mut [u32],
    p: Parser,
    level: Level,
    prefer: bool,
) -> (Parser, Option<(Completed, bool)>)
    ensures { Does (tokens input.now) (E.lhs (counted (table_of level.mode) level.left) (later (counted (table_of level.mode) level.left)) prefer) (view p room.old) result.1 (view result.0 room.new) }
{
    let (p, here) = p.current(input);
    if Fixed::PrefixOps.has(here) {
        let (p, m) = p.start(room);
        let p = p.bump_any(input, room);
        let (p, _) = expr_bp(input, room, p, level, None, prefer, 255);
        let (p, cm) = p.complete(room, m, k::PREFIX_EXPR);
        return (p, Some((cm, false)));
    }
    let (p, g) = atom(input, room, p, level);
    match g {
        None => (p, None),
        Some((cm, block)) => {
            let calls = expressions::not_both(prefer, block);
            post(input, room, p, level, cm, block, calls)
        }
    }
}

// postfix_expr
#[cycle(productions)]
fn post(
    input: &Input,
    room: &mut [u32],
    p: Parser,
    level: Level,
    first: Completed,
    block: bool,
    allow: bool,
) -> (Parser, Option<(Completed, bool)>)
    ensures { Does (tokens input.now) (E.postfix_expr (counted (table_of level.mode) level.left) (later (counted (table_of level.mode) level.left)) first block allow) (view p room.old) result.1 (view result.0 room.new) }
{
    let mut q = p;
    let mut cm = first;
    let mut blocky = block;
    let mut calls = allow;
    loop {
        let (p, here) = q.current(input);
        q = p;
        if !calls {
            return (q, Some((cm, blocky)));
        }
        if here == k::L_PAREN {
            let (p, cm1) = call(input, room, q, level, cm);
            q = p;
            cm = cm1;
            blocky = false;
            calls = true;
            continue;
        }
        if here == k::L_BRACK {
            let (p, cm2) = idx(input, room, q, level, cm);
            q = p;
            cm = cm2;
            blocky = false;
            calls = true;
            continue;
        }
        return (q, Some((cm, blocky)));
    }
}

// postfix_expr at `[`: indexed_identifier, or index_expr with or without an error
#[cycle(productions)]
fn idx(
    input: &Input,
    room: &mut [u32],
    p: Parser,
    level: Level,
    first: Completed,
) -> (Parser, Completed)
    ensures { Does (tokens input.now) (E.indexed (counted (table_of level.mode) level.left) first) (view p room.old) result.1 (view result.0 room.new) }
{
    if first.kind == k::IDENTIFIER {
        return ids(input, room, p, level, first);
    }
    let p = expressions::unindexed(room, p, first.kind);
    let p = p.must(input, room, k::L_BRACK);
    let (p, m) = p.precede(room, first);
    let p = subs(input, room, p, level);
    p.complete(room, m, k::INDEX_EXPR)
}

// call_expr
#[cycle(productions)]
fn call(
    input: &Input,
    room: &mut [u32],
    p: Parser,
    level: Level,
    first: Completed,
) -> (Parser, Completed)
    ensures { Does (tokens input.now) (E.call_expr (counted (table_of level.mode) level.left) (later (counted (table_of level.mode) level.left)) first) (view p room.old) result.1 (view result.0 room.new) }
{
    let p = p.must(input, room, k::L_PAREN);
    let (p, m) = p.precede(room, first);
    let p = args(input, room, p, level);
    let (p, here) = p.current(input);
    if Fixed::QubitFirst.has(here) {
        let p = list(input, room, p, level, DefFlavor::GateCallQubits);
        return p.complete(room, m, k::GATE_CALL_EXPR);
    }
    p.complete(room, m, k::CALL_EXPR)
}

// type_spec, with array_type_spec
#[cycle(productions)]
fn spec(input: &Input, room: &mut [u32], p: Parser, level: Level) -> Parser
    ensures { Does (tokens input.now) (counted (table_of level.mode) level.left).type_spec (view p room.old) tt (view result room.new) }
{
    if level.left == 0 {
        return p.stop(room, Stop::Deep);
    }
    let d = Level {
        left: level.left - 1,
        ..level
    };
    if p.at(input, k::ARRAY_KW) {
        let p = p.must(input, room, k::ARRAY_KW);
        let (p, m) = p.start(room);
        let p = p.bump_any(input, room);
        let (p, _) = p.expect(input, room, k::L_BRACK);
        let p = expressions::array_base(input, room, p);
        let p = spec(input, room, p, d);
        let (mut q, _) = p.expect(input, room, k::COMMA);
        loop {
            let (p, _) = expr_bp(input, room, q, d, None, false, 1);
            if p.at(input, k::R_BRACK) {
                let p = p.bump_any(input, room);
                let (p, _) = p.complete(room, m, k::ARRAY_TYPE);
                return p;
            }
            let (p, _) = p.expect(input, room, k::COMMA);
            q = p;
            if q.stopped() {
                let (p, _) = q.complete(room, m, k::ARRAY_TYPE);
                return p;
            }
        }
    }
    scal(input, room, p, d)
}

// non_array_type_spec
#[cycle(productions)]
fn scal(input: &Input, room: &mut [u32], p: Parser, level: Level) -> Parser
    ensures { Does (tokens input.now) (E.non_array_type_spec (counted (table_of level.mode) level.left)) (view p room.old) tt (view result room.new) }
{
    if p.at(input, k::COMPLEX_TY) {
        return cplx(input, room, p, level);
    }
    let (p, m) = p.start(room);
    let p = expressions::type_name(input, room, p);
    if p.at(input, k::L_BRACK) {
        let p = width(input, room, p, level);
        return grammar::completed(room, p, m, k::SCALAR_TYPE);
    }
    grammar::completed(room, p, m, k::SCALAR_TYPE)
}

// complex_type_spec
#[cycle(productions)]
fn cplx(input: &Input, room: &mut [u32], p: Parser, level: Level) -> Parser
    ensures { Does (tokens input.now) (counted (table_of level.mode) level.left).complex_type_spec (view p room.old) tt (view result room.new) }
{
    if level.left == 0 {
        return p.stop(room, Stop::Deep);
    }
    let d = Level {
        left: level.left - 1,
        ..level
    };
    let p = p.must(input, room, k::COMPLEX_TY);
    let (p, m) = p.start(room);
    let p = p.bump_any(input, room);
    if p.at(input, k::L_BRACK) {
        let p = p.bump(input, room, k::L_BRACK);
        let p = grammar::fail_unless_at(
            input,
            room,
            p,
            k::FLOAT_TY,
            say::EXPECTING_FLOAT_IN_COMPLEX_DESIGNATOR,
        );
        let p = scal(input, room, p, d);
        return grammar::close(input, room, p, k::R_BRACK, m, k::SCALAR_TYPE);
    }
    grammar::completed(room, p, m, k::SCALAR_TYPE)
}

// designator
#[cycle(productions)]
fn width(input: &Input, room: &mut [u32], p: Parser, level: Level) -> Parser
    ensures { Does (tokens input.now) (E.designator (counted (table_of level.mode) level.left)) (view p room.old) tt (view result room.new) }
{
    let p = p.must(input, room, k::L_BRACK);
    let (p, m) = p.start(room);
    let p = p.bump(input, room, k::L_BRACK);
    let p = expressions::literal_designator(input, room, p);
    let (p, _) = expr_bp(input, room, p, level, None, false, 1);
    grammar::close(input, room, p, k::R_BRACK, m, k::DESIGNATOR)
}

// indexed_identifier
#[cycle(productions)]
fn ids(
    input: &Input,
    room: &mut [u32],
    p: Parser,
    level: Level,
    first: Completed,
) -> (Parser, Completed)
    ensures { Does (tokens input.now) (E.indexed_identifier (counted (table_of level.mode) level.left) first) (view p room.old) result.1 (view result.0 room.new) }
{
    let p = p.must(input, room, k::L_BRACK);
    let (mut q, m) = p.precede(room, first);
    while q.at(input, k::L_BRACK) {
        q = subs(input, room, q, level);
    }
    q.complete(room, m, k::INDEXED_IDENTIFIER)
}

// set_expression
#[cycle(productions)]
fn set(input: &Input, room: &mut [u32], p: Parser, level: Level) -> Parser
    ensures { Does (tokens input.now) (E.set_expression (counted (table_of level.mode) level.left)) (view p room.old) tt (view result room.new) }
{
    let p = p.must(input, room, k::L_CURLY);
    let (p, m) = p.start(room);
    let p = p.bump(input, room, k::L_CURLY);
    let p = els(input, room, p, level);
    let p = p.bump(input, room, k::R_CURLY);
    grammar::completed(room, p, m, k::SET_EXPRESSION)
}

// index_operator
#[cycle(productions)]
fn subs(input: &Input, room: &mut [u32], p: Parser, level: Level) -> Parser
    ensures { Does (tokens input.now) (E.index_operator (counted (table_of level.mode) level.left)) (view p room.old) tt (view result room.new) }
{
    let p = p.must(input, room, k::L_BRACK);
    let (p, m) = p.start(room);
    let p = grammar::expected(input, room, p, k::L_BRACK);
    if p.at(input, k::L_CURLY) {
        let p = set(input, room, p, level);
        return grammar::close(input, room, p, k::R_BRACK, m, k::INDEX_OPERATOR);
    }
    let p = els(input, room, p, level);
    grammar::close(input, room, p, k::R_BRACK, m, k::INDEX_OPERATOR)
}

// call_arg_list, with its use of `delimited`
#[cycle(productions)]
fn args(input: &Input, room: &mut [u32], p: Parser, level: Level) -> Parser
    ensures { Does (tokens input.now) (E.call_arg_list (counted (table_of level.mode) level.left)) (view p room.old) tt (view result room.new) }
{
    let p = p.must(input, room, k::L_PAREN);
    let (p, m) = p.start(room);
    let (p, m1) = p.start(room);
    let mut q = p.bump(input, room, k::L_PAREN);
    while q.goes_on(input, k::R_PAREN) {
        let (p, g) = expr_bp(input, room, q, level, None, false, 1);
        let Some(_) = g else {
            return expressions::args_end(input, room, p, m, m1);
        };
        let (p, more) = grammar::separator(input, room, p, k::COMMA, Fixed::ExprFirst);
        q = p;
        if more {
            continue;
        }
        return expressions::args_end(input, room, q, m, m1);
    }
    expressions::args_end(input, room, q, m, m1)
}

// ---- src/grammar/items.rs

// opt_item, with qubit_declaration_stmt, qubit_type_spec, while_stmt and cal_: the arms of its match before `reset`
#[cycle(productions)]
fn opt(
    input: &Input,
    room: &mut [u32],
    p: Parser,
    level: Level,
    m: u32,
) -> (Parser, Result<(), u32>)
    ensures { Does (tokens input.now) (I.opt_item (counted (table_of level.mode) level.left) m) (view p room.old) result.1 (view result.0 room.new) }
{
    let (p, next) = p.nth(input, 1);
    let (p, here) = p.current(input);
    if items::declares(here, next) {
        let p = decl(input, room, p, level, m);
        return (p, Ok(()));
    }
    let (p, first) = p.current(input);
    match first {
        k::QUBIT_KW => {
            let p = p.must(input, room, k::QUBIT_KW);
            let p = p.must(input, room, k::QUBIT_KW);
            let (p, m1) = p.start(room);
            let p = expressions::type_name(input, room, p);
            if p.at(input, k::L_BRACK) {
                let p = width(input, room, p, level);
                let p = grammar::fail_if_at(
                    input,
                    room,
                    p,
                    k::HARDWAREIDENT,
                    say::FOUND_DESIGNATOR_IN_HARDWARE_QUBIT_DECLARATION,
                );
                let p = grammar::completed(room, p, m1, k::QUBIT_TYPE);
                let p = items::qubit_end(input, room, p, m);
                return (p, Ok(()));
            }
            let p = grammar::completed(room, p, m1, k::QUBIT_TYPE);
            let p = items::qubit_end(input, room, p, m);
            return (p, Ok(()));
        }
        k::CONST_KW => {
            let p = decl(input, room, p, level, m);
            return (p, Ok(()));
        }
        k::GATE_KW => {
            let p = gdef(input, room, p, level, m);
            return (p, Ok(()));
        }
        k::BREAK_KW => {
            let p = items::break_(input, room, p, m);
            return (p, Ok(()));
        }
        k::CONTINUE_KW => {
            let p = items::continue_(input, room, p, m);
            return (p, Ok(()));
        }
        k::END_KW => {
            let p = items::end_(input, room, p, m);
            return (p, Ok(()));
        }
        k::IF_KW => {
            let p = ifs(input, room, p, level, m);
            return (p, Ok(()));
        }
        k::WHILE_KW => {
            let p = p.must(input, room, k::WHILE_KW);
            let p = p.bump(input, room, k::WHILE_KW);
            let p = grammar::expected(input, room, p, k::L_PAREN);
            let (p, _) = expr_bp(input, room, p, level, None, false, 1);
            let p = grammar::expected(input, room, p, k::R_PAREN);
            let p = body(input, room, p, level);
            let p = grammar::completed(room, p, m, k::WHILE_STMT);
            return (p, Ok(()));
        }
        k::FOR_KW => {
            let p = fors(input, room, p, level, m);
            return (p, Ok(()));
        }
        k::DEF_KW => {
            let p = def(input, room, p, level, m);
            return (p, Ok(()));
        }
        k::DEFCAL_KW => {
            let p = dcal(input, room, p, level, m);
            return (p, Ok(()));
        }
        k::CAL_KW => {
            let p = p.bump(input, room, k::CAL_KW);
            let p = body(input, room, p, level);
            let p = grammar::completed(room, p, m, k::CAL);
            return (p, Ok(()));
        }
        k::DEFCALGRAMMAR_KW => {
            let p = items::defcalgrammar_(input, room, p, m);
            return (p, Ok(()));
        }
        _ => {
            return more(input, room, p, level, m, first);
        }
    }
}

// the arms of opt_item from `reset` on, with reset_stmt, barrier_, alias_stmt and delay_stmt
#[cycle(productions)]
fn more(
    input: &Input,
    room: &mut [u32],
    p: Parser,
    level: Level,
    m: u32,
    first: u16,
) -> (Parser, Result<(), u32>)
    ensures { Does (tokens input.now) (I.opt_item_more (counted (table_of level.mode) level.left) m first) (view p room.old) result.1 (view result.0 room.new) }
{
    match first {
        k::RESET_KW => {
            let p = p.bump(input, room, k::RESET_KW);
            let (p, here) = p.current(input);
            if Fixed::QubitFirst.has(here) {
                let (p, m1) = p.start(room);
                let (p, _) = qarg(input, room, p, level, m1);
                let p = grammar::expected(input, room, p, k::SEMICOLON);
                let p = grammar::completed(room, p, m, k::RESET);
                return (p, Ok(()));
            }
            let p = p.error(room, say::EXPECTING_NAME_OF_QUBIT_OR_REGISTER_TO, 0);
            let p = p.abandon(room, m);
            return (p, Ok(()));
        }
        k::BARRIER_KW => {
            let p = p.bump(input, room, k::BARRIER_KW);
            if p.at(input, k::SEMICOLON) {
                let p = grammar::expected(input, room, p, k::SEMICOLON);
                let p = grammar::completed(room, p, m, k::BARRIER);
                return (p, Ok(()));
            }
            let p = list(input, room, p, level, DefFlavor::GateCallQubits);
            let p = grammar::expected(input, room, p, k::SEMICOLON);
            let p = grammar::completed(room, p, m, k::BARRIER);
            return (p, Ok(()));
        }
        k::O_P_E_N_Q_A_S_M_KW => {
            let p = items::version_string(input, room, p, m);
            return (p, Ok(()));
        }
        k::INCLUDE_KW => {
            let p = items::include(input, room, p, m);
            return (p, Ok(()));
        }
        k::SWITCH_KW => {
            let p = sw(input, room, p, level, m);
            return (p, Ok(()));
        }
        k::LET_KW => {
            let p = p.must(input, room, k::LET_KW);
            let p = p.bump_any(input, room);
            let p = grammar::name_r(input, room, p, Fixed::ItemRecoverySet);
            let p = grammar::expected(input, room, p, k::EQ);
            let (p, _) = expr_bp(input, room, p, level, None, false, 1);
            let p = grammar::expected(input, room, p, k::SEMICOLON);
            let p = grammar::completed(room, p, m, k::ALIAS_DECLARATION_STATEMENT);
            return (p, Ok(()));
        }
        k::DELAY_KW => {
            let p = p.bump(input, room, k::DELAY_KW);
            let p = width(input, room, p, level);
            let p = list(input, room, p, level, DefFlavor::GateCallQubits);
            let p = grammar::expected(input, room, p, k::SEMICOLON);
            let p = grammar::completed(room, p, m, k::DELAY_STMT);
            return (p, Ok(()));
        }
        k::INPUT_KW => {
            let p = io(input, room, p, level, m);
            return (p, Ok(()));
        }
        k::OUTPUT_KW => {
            let p = io(input, room, p, level, m);
            return (p, Ok(()));
        }
        _ => {
            return (p, Err(m));
        }
    }
}

// switch_case_stmt
#[cycle(productions)]
fn sw(input: &Input, room: &mut [u32], p: Parser, level: Level, m: u32) -> Parser
    ensures { Does (tokens input.now) (I.switch_case_stmt (counted (table_of level.mode) level.left) m) (view p room.old) tt (view result room.new) }
{
    let p = p.must(input, room, k::SWITCH_KW);
    let p = p.bump(input, room, k::SWITCH_KW);
    let p = grammar::expected(input, room, p, k::L_PAREN);
    let (p, _) = expr_bp(input, room, p, level, None, false, 1);
    let p = grammar::expected(input, room, p, k::R_PAREN);
    let p = grammar::expected(input, room, p, k::L_CURLY);
    let mut q = grammar::fail_unless_at(input, room, p, k::CASE_KW, say::EXPECTING_CASE_KEYWORD);
    while q.at(input, k::CASE_KW) {
        let (p, m1) = q.start(room);
        let p = p.bump(input, room, k::CASE_KW);
        let p = els(input, room, p, level);
        let p = body(input, room, p, level);
        q = grammar::completed(room, p, m1, k::CASE_EXPR);
    }
    let (p, eaten) = q.eat(input, room, k::DEFAULT_KW);
    if eaten {
        let p = body(input, room, p, level);
        return grammar::close(input, room, p, k::R_CURLY, m, k::SWITCH_CASE_STMT);
    }
    grammar::close(input, room, p, k::R_CURLY, m, k::SWITCH_CASE_STMT)
}

// if_stmt
#[cycle(productions)]
fn ifs(input: &Input, room: &mut [u32], p: Parser, level: Level, m: u32) -> Parser
    ensures { Does (tokens input.now) ((counted (table_of level.mode) level.left).if_stmt m) (view p room.old) tt (view result room.new) }
{
    if level.left == 0 {
        return p.stop(room, Stop::Deep);
    }
    let d = Level {
        left: level.left - 1,
        ..level
    };
    let p = p.must(input, room, k::IF_KW);
    let p = p.bump(input, room, k::IF_KW);
    let p = grammar::expected(input, room, p, k::L_PAREN);
    let (p, _) = expr_bp(input, room, p, d, None, false, 1);
    let p = grammar::expected(input, room, p, k::R_PAREN);
    let p = body(input, room, p, d);
    if p.at(input, k::ELSE_KW) {
        let p = p.bump(input, room, k::ELSE_KW);
        if p.at(input, k::IF_KW) {
            let (p, m1) = p.start(room);
            let p = ifs(input, room, p, d, m1);
            return grammar::completed(room, p, m, k::IF_STMT);
        }
        let p = body(input, room, p, d);
        return grammar::completed(room, p, m, k::IF_STMT);
    }
    grammar::completed(room, p, m, k::IF_STMT)
}

// for_stmt
#[cycle(productions)]
fn fors(input: &Input, room: &mut [u32], p: Parser, level: Level, m: u32) -> Parser
    ensures { Does (tokens input.now) (I.for_stmt (counted (table_of level.mode) level.left) m) (view p room.old) tt (view result room.new) }
{
    let p = p.must(input, room, k::FOR_KW);
    let p = p.bump(input, room, k::FOR_KW);
    let p = spec(input, room, p, level);
    let p = grammar::name_r(input, room, p, Fixed::Empty);
    let p = grammar::expected(input, room, p, k::IN_KW);
    let (p, m1) = p.start(room);
    if p.at(input, k::L_CURLY) {
        let p = set(input, room, p, level);
        return rest(input, room, p, level, m, m1);
    }
    if p.at(input, k::L_BRACK) {
        let p = range(input, room, p, level);
        return rest(input, room, p, level, m, m1);
    }
    let (p, _) = expr_bp(input, room, p, level, None, false, 1);
    rest(input, room, p, level, m, m1)
}

// the end of for_stmt: its iterable, and its body
#[cycle(productions)]
fn rest(input: &Input, room: &mut [u32], p: Parser, level: Level, m: u32, m1: u32) -> Parser
    ensures { Does (tokens input.now) (I.for_rest (counted (table_of level.mode) level.left) m m1) (view p room.old) tt (view result room.new) }
{
    let p = grammar::completed(room, p, m1, k::FOR_ITERABLE);
    if p.at(input, k::L_CURLY) {
        let (p, _) = blk(input, room, p, level);
        return grammar::completed(room, p, m, k::FOR_STMT);
    }
    let p = stmt(input, room, p, level);
    grammar::completed(room, p, m, k::FOR_STMT)
}

// gate_definition
#[cycle(productions)]
fn gdef(input: &Input, room: &mut [u32], p: Parser, level: Level, m: u32) -> Parser
    ensures { Does (tokens input.now) (I.gate_definition (counted (table_of level.mode) level.left) m) (view p room.old) tt (view result room.new) }
{
    let p = p.bump(input, room, k::GATE_KW);
    let p = grammar::name_r(input, room, p, Fixed::ItemRecoverySet);
    if p.at(input, k::L_PAREN) {
        let p = list(input, room, p, level, DefFlavor::GateParams);
        let p = list(input, room, p, level, DefFlavor::GateQubits);
        let p = body(input, room, p, level);
        return grammar::completed(room, p, m, k::GATE);
    }
    let p = list(input, room, p, level, DefFlavor::GateQubits);
    let p = body(input, room, p, level);
    grammar::completed(room, p, m, k::GATE)
}

// defcal_
#[cycle(productions)]
fn dcal(input: &Input, room: &mut [u32], p: Parser, level: Level, m: u32) -> Parser
    ensures { Does (tokens input.now) (I.defcal (counted (table_of level.mode) level.left) m) (view p room.old) tt (view result room.new) }
{
    let p = p.bump(input, room, k::DEFCAL_KW);
    let p = grammar::name_r(input, room, p, Fixed::ItemRecoverySet);
    if p.at(input, k::L_PAREN) {
        let p = list(input, room, p, level, DefFlavor::DefCalParams);
        let p = list(input, room, p, level, DefFlavor::DefCalQubits);
        return sig(input, room, p, level, m, k::DEF_CAL);
    }
    let p = list(input, room, p, level, DefFlavor::DefCalQubits);
    sig(input, room, p, level, m, k::DEF_CAL)
}

// _returns_bool_classical_declaration_stmt
#[cycle(productions)]
fn decl(input: &Input, room: &mut [u32], p: Parser, level: Level, m: u32) -> Parser
    ensures { Does (tokens input.now) (I.classical_declaration_stmt (counted (table_of level.mode) level.left) m) (view p room.old) tt (view result room.new) }
{
    let (p, _) = p.eat(input, room, k::CONST_KW);
    let (p, m1) = p.start(room);
    let p = spec(input, room, p, level);
    let (p, here) = p.current(input);
    if here == k::L_PAREN {
        let p = grammar::expected(input, room, p, k::L_PAREN);
        let (p, _) = expr_bp(input, room, p, level, None, false, 1);
        let p = grammar::expected(input, room, p, k::R_PAREN);
        let p = grammar::completed(room, p, m1, k::CAST_EXPRESSION);
        if p.at(input, k::SEMICOLON) {
            return grammar::close(input, room, p, k::SEMICOLON, m, k::EXPR_STMT);
        }
        return p.abandon(room, m);
    }
    let p = p.abandon(room, m1);
    let p = grammar::var_name(input, room, p);
    let (p, eaten) = p.eat(input, room, k::SEMICOLON);
    if eaten {
        return grammar::completed(room, p, m, k::CLASSICAL_DECLARATION_STATEMENT);
    }
    let (p, met) = p.expect(input, room, k::EQ);
    if met {
        let (p, _) = expr_bp(input, room, p, level, None, false, 1);
        return grammar::close(
            input,
            room,
            p,
            k::SEMICOLON,
            m,
            k::CLASSICAL_DECLARATION_STATEMENT,
        );
    }
    p.abandon(room, m)
}

// io_declaration_stmt
#[cycle(productions)]
fn io(input: &Input, room: &mut [u32], p: Parser, level: Level, m: u32) -> Parser
    ensures { Does (tokens input.now) (I.io_declaration_stmt (counted (table_of level.mode) level.left) m) (view p room.old) tt (view result room.new) }
{
    let p = p.bump_any(input, room);
    let p = items::io_type(input, room, p);
    let p = spec(input, room, p, level);
    let p = grammar::var_name(input, room, p);
    grammar::close(
        input,
        room,
        p,
        k::SEMICOLON,
        m,
        k::I_O_DECLARATION_STATEMENT,
    )
}

// def_stmt
#[cycle(productions)]
fn def(input: &Input, room: &mut [u32], p: Parser, level: Level, m: u32) -> Parser
    ensures { Does (tokens input.now) (I.def_stmt (counted (table_of level.mode) level.left) m) (view p room.old) tt (view result room.new) }
{
    let p = p.must(input, room, k::DEF_KW);
    let p = p.bump_any(input, room);
    let p = grammar::name_r(input, room, p, Fixed::ItemRecoverySet);
    if p.at(input, k::L_PAREN) {
        let p = list(input, room, p, level, DefFlavor::DefParams);
        return sig(input, room, p, level, m, k::DEF);
    }
    let p = p.error(room, say::EXPECTED_FUNCTION_ARGUMENTS_IN_DEF, 0);
    sig(input, room, p, level, m, k::DEF)
}
