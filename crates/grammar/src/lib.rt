// The types that the definitions speak of, and the functions that several files of the grammar call: src/grammar.rs, `hardware_qubit` and
// `var_name`. Other productions that call nothing recursive are in the crates terms and statements, the rest is in cycle.
#![tactic(auto)]

ghost use Rattle.std.specs.Prelude.{◌≡◌};
ghost use Rattle.input.specs.Lent.{tokens};
ghost use Rattle.runtime.specs.State.{view};
ghost use Rattle.kinds.specs.Sets.{kinds_of};
ghost use Rattle.runtime.specs.Acts.{Does, Steps};
ghost use Rattle.grammar.specs.Grammar as acts;
ghost use Rattle.grammar.specs.Atom as atoms;
ghost use Rattle.grammar.specs.Expressions as E;

use input::Input;
use kinds::sets::Fixed;
use kinds::{messages as say, syntax_kind as kind, syntax_kind_enum as k};
use runtime::parser::{Completed, Parser};

// What follows an element of an array.
#[derive(Clone, Copy)]
pub enum Next {
    Semi,
    Comma,
    Stop,
}

// Which list is parsed.
#[derive(Clone, Copy)]
pub enum DefFlavor {
    GateParams,
    GateQubits,
    GateCallQubits,
    DefParams,
    DefCalParams,
    DefCalQubits,
    ExpressionList,
}

// How a parameter is parsed.
#[derive(Clone, Copy)]
pub enum How {
    Expr,
    Qubit,
    Typed,
    Untyped,
}

// What a flavor says of its list: whether it stands in parentheses, the two kinds that end it, whether it must not be empty, the
// node that it makes, and how a parameter is parsed.
#[derive(Clone, Copy)]
pub struct Shape {
    pub parens: bool,
    pub end: u16,
    pub end2: u16,
    pub one: bool,
    pub node: u16,
    pub how: How,
}

// A name, or a recovery.
pub fn name_r(input: &Input, room: &mut [u32], p: Parser, recovery: Fixed) -> Parser
    ensures { Does (tokens input.now) (acts.name_r (kinds_of recovery)) (view p room.old) tt (view result room.new) }
{
    if p.at(input, k::HARDWAREIDENT) {
        let (p, m) = p.start(room);
        let p = p.bump(input, room, k::HARDWAREIDENT);
        let (p, _) = p.complete(room, m, k::HARDWARE_QUBIT);
        return p;
    }
    if p.at(input, k::IDENT) {
        let (p, m1) = p.start(room);
        let p = p.bump(input, room, k::IDENT);
        let (p, _) = p.complete(room, m1, k::NAME);
        return p;
    }
    p.err_recover(input, room, say::EXPECTED_A_NAME, recovery)
}

// `expect`, where the answer is not read.
pub fn expected(input: &Input, room: &mut [u32], p: Parser, kind: u16) -> Parser
    ensures { Does (tokens input.now) (acts.expected kind) (view p room.old) tt (view result room.new) }
{
    let (p, _) = p.expect(input, room, kind);
    p
}

// `complete`, where the completed marker is not read.
pub fn completed(room: &mut [u32], p: Parser, m: u32, node: u16) -> Parser
    ensures { Steps (acts.completed m node) (view p room.old) tt (view result room.new) }
{
    let (p, _) = p.complete(room, m, node);
    p
}

// A kind that is to stand here, and the end of a node.
pub fn close(input: &Input, room: &mut [u32], p: Parser, ket: u16, m: u32, node: u16) -> Parser
    ensures { Does (tokens input.now) (acts.close ket m node) (view p room.old) tt (view result room.new) }
{
    let (p, _) = p.expect(input, room, ket);
    let (p, _) = p.complete(room, m, node);
    p
}

// An error where a kind stands.
pub fn fail_if_at(input: &Input, room: &mut [u32], p: Parser, kind: u16, code: u16) -> Parser
    ensures { Does (tokens input.now) (acts.fail_if_at kind code) (view p room.old) tt (view result room.new) }
{
    if p.at(input, kind) {
        return p.error(room, code, 0);
    }
    p
}

// An error where a kind does not stand.
pub fn fail_unless_at(input: &Input, room: &mut [u32], p: Parser, kind: u16, code: u16) -> Parser
    ensures { Does (tokens input.now) (acts.fail_unless_at kind code) (view p room.old) tt (view result room.new) }
{
    if p.at(input, kind) {
        return p;
    }
    p.error(room, code, 0)
}

// After an element of a list: whether another one is to follow.
pub fn separator(
    input: &Input,
    room: &mut [u32],
    p: Parser,
    delim: u16,
    first: Fixed,
) -> (Parser, bool)
    ensures { Does (tokens input.now) (acts.separator delim (kinds_of first)) (view p room.old) result.1 (view result.0 room.new) }
{
    if p.at(input, delim) {
        let p = p.bump(input, room, delim);
        return (p, true);
    }
    let (p, begins) = p.at_ts(input, first);
    if begins {
        let p = p.error_expected(input, room, delim);
        return (p, true);
    }
    (p, false)
}

// Stays (rule): a function for each of the crate; `array_base` of terms differs by the code of its error.
// The error of a return type that is no scalar.
pub fn scalar_return(input: &Input, room: &mut [u32], p: Parser) -> Parser
    ensures { Does (tokens input.now) acts.scalar_return (view p room.old) tt (view result room.new) }
{
    let (p, here) = p.current(input);
    if kind::is_scalar_type(here) {
        return p;
    }
    p.error(room, say::EXPECTED_SCALAR_RETURN_TYPE_AFTER_ARROW, 0)
}

// atom.rs: a physical qubit.
pub fn hardware_qubit(input: &Input, room: &mut [u32], p: Parser) -> (Parser, Completed)
    ensures { Does (tokens input.now) atoms.hardware_qubit (view p room.old) result.1 (view result.0 room.new) }
{
    let (p, m) = p.start(room);
    let p = p.bump(input, room, k::HARDWAREIDENT);
    p.complete(room, m, k::HARDWARE_QUBIT)
}

// expressions.rs: a name, or an error where none stands.
pub fn var_name(input: &Input, room: &mut [u32], p: Parser) -> Parser
    ensures { Does (tokens input.now) E.var_name (view p room.old) tt (view result room.new) }
{
    let (p, m) = p.start(room);
    if p.at(input, k::IDENT) {
        let p = p.bump_any(input, room);
        let (p, _) = p.complete(room, m, k::NAME);
        return p;
    }
    let p = p.error(room, say::EXPECTING_PARAMETER_NAME, 0);
    let (p, _) = p.complete(room, m, k::NAME);
    p
}
