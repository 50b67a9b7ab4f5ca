// The three entries: `mod entry` of src/grammar.rs, and the functions of src/grammar/items.rs that stand above the cycle.
ghost use Rattle.std.specs.Prelude.{◌≡◌, false};
ghost use Rattle.input.specs.Lent.{tokens};
ghost use Rattle.runtime.specs.State.{view};
ghost use Rattle.runtime.specs.Acts.{Does};
ghost use Rattle.operators.specs.Operators.{table_of};
ghost use Rattle.grammar.specs.Items as I;
ghost use Rattle.grammar.specs.Entry as entry;

use crate::{Level, expr_bp, opt, sts};
use input::Input;
use kinds::{messages as say, syntax_kind_enum as k};
use runtime::parser::Parser;

// item, with `stop_on_r_curly` false
fn item_at(input: &Input, room: &mut [u32], p: Parser, level: Level) -> Parser
    ensures { Does (tokens input.now) (I.item (entry.counted (table_of level.mode) level.left) false) (view p room.old) tt (view result room.new) }
{
    let (p, m) = p.start(room);
    let (p, offer) = opt(input, room, p, level, m);
    match offer {
        Ok(()) => {
            if p.at(input, k::SEMICOLON) {
                return p.err_and_bump(input, room, say::EXPECTED_STATEMENT_FOUND_SEMICOLON);
            }
            p
        }
        Err(m) => {
            let (p, here) = p.current(input);
            if here == k::R_CURLY {
                let p = p.abandon(room, m);
                let (p, m1) = p.start(room);
                let p = p.error(room, say::UNMATCHED_R_CURLY, 0);
                let p = p.bump(input, room, k::R_CURLY);
                let (p, _) = p.complete(room, m1, k::ERROR);
                return p;
            }
            if here == k::EOF {
                return p.abandon(room, m);
            }
            let p = p.abandon(room, m);
            sts(input, room, p, level)
        }
    }
}

// source_file_contents, with `stop_on_r_curly` false
fn source_file_contents(input: &Input, room: &mut [u32], p: Parser, level: Level) -> Parser
    ensures { Does (tokens input.now) (I.source_file_contents (entry.counted (table_of level.mode) level.left) false) (view p room.old) tt (view result room.new) }
{
    let mut q = p;
    loop {
        if q.at(input, k::EOF) {
            return q;
        }
        q = item_at(input, room, q, level);
    }
}

// The source file: at most 64 counted calls are unfinished.
pub fn source_file(input: &Input, room: &mut [u32], p: Parser, mode: u8) -> Parser
    ensures { Does (tokens input.now) (entry.source_file (table_of mode)) (view p room.old) tt (view result room.new) }
{
    let (p, m) = p.start(room);
    let p = source_file_contents(input, room, p, Level { mode, left: 64 });
    let (p, _) = p.complete(room, m, k::SOURCE_FILE);
    p
}

// One item.
pub fn item(input: &Input, room: &mut [u32], p: Parser, mode: u8) -> Parser
    ensures { Does (tokens input.now) (entry.one_item (table_of mode)) (view p room.old) tt (view result room.new) }
{
    item_at(input, room, p, Level { mode, left: 64 })
}

// One expression.
pub fn expression(input: &Input, room: &mut [u32], p: Parser, mode: u8) -> Parser
    ensures { Does (tokens input.now) (entry.one_expression (table_of mode)) (view p room.old) tt (view result room.new) }
{
    let (p, _) = expr_bp(input, room, p, Level { mode, left: 64 }, None, false, 1);
    p
}
