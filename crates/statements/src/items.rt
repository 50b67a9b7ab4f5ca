// src/grammar/items.rs: what calls nothing recursive.
// Stays (rule): a function for each of the crate, under its name, also where two differ by a keyword and a node alone.
ghost use Rattle.std.specs.Prelude.{◌≡◌};
ghost use Rattle.input.specs.Lent.{tokens};
ghost use Rattle.runtime.specs.State.{view};
ghost use Rattle.runtime.specs.Acts.{Does, Peeks, Steps};
ghost use Rattle.grammar.specs.Items as acts;
ghost use Rattle.kinds.specs.Sets.{kinds_of};

use input::Input;
use kinds::sets::Fixed;
use kinds::{messages as say, syntax_kind as kind, syntax_kind_enum as k};
use runtime::parser::Parser;

pub fn break_(input: &Input, room: &mut [u32], p: Parser, m: u32) -> Parser
    ensures { Does (tokens input.now) (acts.break m) (view p room.old) tt (view result room.new) }
{
    let p = p.bump(input, room, k::BREAK_KW);
    let (p, _) = p.expect(input, room, k::SEMICOLON);
    let (p, _) = p.complete(room, m, k::BREAK_STMT);
    p
}

pub fn continue_(input: &Input, room: &mut [u32], p: Parser, m: u32) -> Parser
    ensures { Does (tokens input.now) (acts.continue m) (view p room.old) tt (view result room.new) }
{
    let p = p.must(input, room, k::CONTINUE_KW);
    let p = p.bump(input, room, k::CONTINUE_KW);
    let (p, _) = p.expect(input, room, k::SEMICOLON);
    let (p, _) = p.complete(room, m, k::CONTINUE_STMT);
    p
}

pub fn end_(input: &Input, room: &mut [u32], p: Parser, m: u32) -> Parser
    ensures { Does (tokens input.now) (acts.end m) (view p room.old) tt (view result room.new) }
{
    let p = p.must(input, room, k::END_KW);
    let p = p.bump(input, room, k::END_KW);
    let (p, _) = p.expect(input, room, k::SEMICOLON);
    let (p, _) = p.complete(room, m, k::END_STMT);
    p
}

fn filepath_r(input: &Input, room: &mut [u32], p: Parser, recovery: Fixed) -> Parser
    ensures { Does (tokens input.now) (acts.filepath_r (kinds_of recovery)) (view p room.old) tt (view result room.new) }
{
    if p.at(input, k::STRING) {
        let (p, m) = p.start(room);
        let p = p.bump(input, room, k::STRING);
        let (p, _) = p.complete(room, m, k::FILE_PATH);
        return p;
    }
    p.err_recover(input, room, say::EXPECTED_A_PATH_TO_A_FILE, recovery)
}

pub fn defcalgrammar_(input: &Input, room: &mut [u32], p: Parser, m: u32) -> Parser
    ensures { Does (tokens input.now) (acts.defcalgrammar m) (view p room.old) tt (view result room.new) }
{
    let p = p.bump(input, room, k::DEFCALGRAMMAR_KW);
    let p = filepath_r(input, room, p, Fixed::ItemRecoverySet);
    let (p, _) = p.expect(input, room, k::SEMICOLON);
    let (p, _) = p.complete(room, m, k::DEF_CAL_GRAMMAR);
    p
}

pub fn include(input: &Input, room: &mut [u32], p: Parser, m: u32) -> Parser
    ensures { Does (tokens input.now) (acts.include m) (view p room.old) tt (view result room.new) }
{
    let p = p.bump(input, room, k::INCLUDE_KW);
    let p = filepath_r(input, room, p, Fixed::ItemRecoverySet);
    let (p, _) = p.expect(input, room, k::SEMICOLON);
    let (p, _) = p.complete(room, m, k::INCLUDE);
    p
}

// Where no version number stands, what stands there is passed, unless it is `;`.
fn skip_to_semicolon(input: &Input, room: &mut [u32], p: Parser, number: bool) -> Parser
    ensures { Does (tokens input.now) (acts.skip_to_semicolon number) (view p room.old) tt (view result room.new) }
{
    if number {
        return p;
    }
    if p.at(input, k::SEMICOLON) {
        return p;
    }
    p.bump_any(input, room)
}

fn version_(input: &Input, room: &mut [u32], p: Parser) -> Parser
    ensures { Does (tokens input.now) acts.version (view p room.old) tt (view result room.new) }
{
    let (p, m) = p.start(room);
    let (p, met) = p.expect(input, room, k::FLOAT_NUMBER);
    let p = skip_to_semicolon(input, room, p, met);
    let (p, _) = p.expect(input, room, k::SEMICOLON);
    let (p, _) = p.complete(room, m, k::VERSION);
    p
}

pub fn version_string(input: &Input, room: &mut [u32], p: Parser, m: u32) -> Parser
    ensures { Does (tokens input.now) (acts.version_string m) (view p room.old) tt (view result room.new) }
{
    let p = p.bump(input, room, k::O_P_E_N_Q_A_S_M_KW);
    let p = version_(input, room, p);
    let (p, _) = p.complete(room, m, k::VERSION_STRING);
    p
}

// The error of an input or output whose type is not classical.
pub fn io_type(input: &Input, room: &mut [u32], p: Parser) -> Parser
    ensures { Does (tokens input.now) acts.io_type (view p room.old) tt (view result room.new) }
{
    let (p, here) = p.current(input);
    if kind::is_classical_type(here) {
        return p;
    }
    p.error(room, say::QUANTUM_TYPE_FOUND_IN_INPUT_OUTPUT_DECLARATION, 0)
}

// The end of a qubit's declaration: its name.
pub fn qubit_end(input: &Input, room: &mut [u32], p: Parser, m: u32) -> Parser
    ensures { Does (tokens input.now) (acts.qubit_end m) (view p room.old) tt (view result room.new) }
{
    if p.at(input, k::HARDWAREIDENT) {
        let (p, _) = grammar::hardware_qubit(input, room, p);
        let (p, _) = p.expect(input, room, k::SEMICOLON);
        let (p, _) = p.complete(room, m, k::QUANTUM_DECLARATION_STATEMENT);
        return p;
    }
    let p = grammar::var_name(input, room, p);
    let (p, _) = p.expect(input, room, k::SEMICOLON);
    let (p, _) = p.complete(room, m, k::QUANTUM_DECLARATION_STATEMENT);
    p
}

// Whether a classical declaration begins with these two kinds.
pub fn declares(kind: u16, next: u16) -> bool
    ensures { result ≡ acts.declares kind next }
{
    if kind::is_classical_type(kind) {
        return next != k::L_PAREN;
    }
    false
}
