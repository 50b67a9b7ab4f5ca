// The parser's state and operations: src/parser.rs. Each operation hands the state back, and is proved equal to its acts.
ghost use Rattle.std.specs.Prelude.{◌≡◌, ◌==◌, ◌+◌, ◌<◌, ◌≤◌, not};
ghost use Rattle.kinds.specs.Sets.{kinds_of};
ghost use Rattle.input.specs.Input.{seen};
ghost use Rattle.input.specs.Lent.{tokens};
ghost use Rattle.event.specs.Event.{Sound, is_start, is_bare};
ghost use Rattle.runtime.specs.State as state;
ghost use Rattle.runtime.specs.State.{view, event_at};
ghost use Rattle.runtime.specs.Acts as acts;
ghost use Rattle.runtime.specs.Acts.{Does, Steps, Peeks, nth_sees, sees, goes, stopped};

use event::{EVENT_WORDS, Event};
use input::Input;
use kinds::sets::Fixed;
use kinds::syntax_kind_enum as k;
use std::marker::Model;

// At most so many lookups are made since the last token.
const MOST_LOOKS: usize = 10000;

// The state: tokens consumed, lookups since the last token, events written, lookups in all, and the refusal's number, 0 for none.
// It is passed by value, and each operation hands it back. A refused one is handed back as it is. The fields leave no gap between
// them, which would be copied with them (docs/SPEED.md).
// Stays (promise): the refusal is a number, as `input::kind` takes it; an enum of one byte would leave such a gap too.
#[derive(Clone, Copy)]
pub struct Parser {
    pub pos: usize,
    pub since: usize,
    pub len: usize,
    pub looks: u32,
    pub refused: u32,
}

// What contracts see of it: its numbers, which keep their bounds.
impl Model for Parser {
    ghost use Rattle.runtime.specs.State as state;

    ghost Value = { state.Parser };

    ghost view = { λ a. record { pos = a.pos; since = a.since; len = a.len; looks = a.looks; refused = a.refused } };

    ghost invariant = { λ a. state.Fit (record { pos = a.pos; since = a.since; len = a.len; looks = a.looks; refused = a.refused }) };

    ghost inverse = { λ d. record { pos = d.pos; since = d.since; len = d.len; looks = d.looks; refused = d.refused } };
}

// A completed marker: the position of its start, and its kind. (A marker is such a position.)
#[derive(Clone, Copy)]
pub struct Completed {
    pub pos: u32,
    pub kind: u16,
}

// Why the grammar stops a run: a counted call begins too deep, or an assertion fails. Each is the refusal's number.
#[derive(Clone, Copy)]
pub enum Stop {
    Deep = 6,
    Panic = 8,
}

impl Stop {
    fn number(self) -> u32
        ensures { result ≡ state.stop_number self }
    {
        self as u32
    }
}

impl Completed {
    pub fn kind(self) -> u16
        ensures { result ≡ self.kind }
    {
        self.kind
    }
}

impl Parser {
    // A run that begins.
    pub fn new() -> Parser
        ensures { result ≡ state.new }
    {
        Parser {
            pos: 0,
            since: 0,
            looks: 0,
            len: 0,
            refused: 0,
        }
    }

    // Whether a run with this number is refused.
    pub fn is_refused(refused: u32) -> bool
        ensures { result ≡ not (refused == 0) }
    {
        refused != 0
    }

    // Whether the run is refused.
    pub fn stopped(self) -> bool
        ensures { result ≡ stopped self }
    {
        Parser::is_refused(self.refused)
    }

    fn refuse(self, n: u32) -> Parser
        ensures { result ≡ state.refusal n self }
    {
        Parser { refused: n, ..self }
    }

    // Refuses the run, if it is not refused yet.
    pub fn stop(self, room: &mut [u32], why: Stop) -> Parser
        ensures { Steps (acts.stop why) (view self room.old) tt (view result room.new) }
    {
        if self.refused != 0 {
            return self;
        }
        self.refuse(why.number())
    }

    // The kind n tokens ahead, as it stands there: no lookup.
    fn ahead(self, input: &Input, n: usize) -> u16
        requires { n ≤ 3 }
        ensures { result ≡ seen input.now.kinds.now self.refused (self.pos + n) }
    {
        input.kind(self.refused, self.pos + n)
    }

    // The kind n tokens ahead: one lookup.
    pub fn nth(self, input: &Input, n: usize) -> (Parser, u16)
        requires { n ≤ 3 }
        ensures { Peeks (tokens input.now) (acts.nth n) self result.1 result.0 }
    {
        if self.refused != 0 {
            return (self, k::EOF);
        }
        if self.since < MOST_LOOKS {
            let p = Parser {
                since: self.since + 1,
                looks: self.looks + 1,
                ..self
            };
            return (p, self.ahead(input, n));
        }
        (self.refuse(7), k::EOF)
    }

    pub fn current(self, input: &Input) -> (Parser, u16)
        ensures { Peeks (tokens input.now) acts.current self result.1 result.0 }
    {
        self.nth(input, 0)
    }

    // Whether a kind, glued or not, stands n tokens ahead: no lookup, and the state stays as it is.
    pub fn nth_at(self, input: &Input, n: usize, kind: u16) -> bool
        requires { n ≤ 3 }
        ensures { result ≡ nth_sees (tokens input.now) self n kind }
    {
        if input::is_plain(kind) {
            return input.kind(self.refused, self.pos + n) == kind;
        }
        input.stands_at(self.refused, self.pos + n, input::parts_of(kind))
    }

    // `nth_at` of 0. A kind of one token is tested here, so that the test is compiled into each caller.
    pub fn at(self, input: &Input, kind: u16) -> bool
        ensures { result ≡ sees (tokens input.now) self kind }
    {
        if input::is_plain(kind) {
            return input.kind(self.refused, self.pos) == kind;
        }
        self.nth_at(input, 0, kind)
    }

    pub fn at_ts(self, input: &Input, set: Fixed) -> (Parser, bool)
        ensures { Peeks (tokens input.now) (acts.at_ts (kinds_of set)) self result.1 result.0 }
    {
        let (p, kind) = self.current(input);
        (p, set.has(kind))
    }

    // Writes one event, where the room holds it.
    fn push_event(self, room: &mut [u32], e: Event) -> Parser
        requires { Sound e }
        ensures { view result room.new ≡ state.push_event e (view self room.old) }
    {
        if self.refused != 0 {
            return self;
        }
        let len = self.len;
        if len < event::holds(room.len()) {
            event::store(room, len, e);
            return Parser {
                len: len + 1,
                ..self
            };
        }
        self.refuse(5)
    }

    // Consumes n tokens as one of a kind: first its event is written, and then the tokens are consumed.
    fn do_bump(self, input: &Input, room: &mut [u32], kind: u16, n: usize) -> Parser
        requires { (1 ≤ n) × (n ≤ 3) }
        ensures { view result room.new ≡ state.do_bump (tokens input.now) kind n (view self room.old) }
    {
        if self.refused != 0 {
            return self;
        }
        if input::enough(input.kinds, self.pos + n) {
            let p = self.push_event(room, Event::Token(kind, n as u8));
            if p.refused != 0 {
                return p;
            }
            return Parser {
                pos: p.pos + n,
                since: 0,
                ..p
            };
        }
        self.refuse(8)
    }

    // Consumes a kind, glued or not, if it stands here.
    pub fn eat(self, input: &Input, room: &mut [u32], kind: u16) -> (Parser, bool)
        ensures { Does (tokens input.now) (acts.eat kind) (view self room.old) result.1 (view result.0 room.new) }
    {
        if self.at(input, kind) {
            let n = input::raw_of(kind);
            return (self.do_bump(input, room, kind, n), true);
        }
        (self, false)
    }

    // Consumes a kind that must stand here: an assertion.
    pub fn bump(self, input: &Input, room: &mut [u32], kind: u16) -> Parser
        ensures { Does (tokens input.now) (acts.bump kind) (view self room.old) tt (view result room.new) }
    {
        let (p, eaten) = self.eat(input, room, kind);
        if eaten {
            return p;
        }
        p.stop(room, Stop::Panic)
    }

    // Consumes the token here, if there is one: one lookup.
    pub fn bump_any(self, input: &Input, room: &mut [u32]) -> Parser
        ensures { Does (tokens input.now) acts.bump_any (view self room.old) tt (view result room.new) }
    {
        let (p, kind) = self.nth(input, 0);
        if kind == k::EOF {
            return p;
        }
        p.do_bump(input, room, kind, 1)
    }

    // Records a message by its number, with a kind or 0 as argument.
    pub fn error(self, room: &mut [u32], code: u16, arg: u16) -> Parser
        ensures { Steps (acts.error code arg) (view self room.old) tt (view result room.new) }
    {
        self.push_event(room, Event::Error(code, arg, 0))
    }

    // Records that a kind was expected, and the kind that stands here: no lookup.
    pub fn error_expected(self, input: &Input, room: &mut [u32], kind: u16) -> Parser
        ensures { Does (tokens input.now) (acts.error_expected kind) (view self room.old) tt (view result room.new) }
    {
        let found = self.ahead(input, 0);
        self.push_event(room, Event::Error(1, kind, found))
    }

    pub fn expect(self, input: &Input, room: &mut [u32], kind: u16) -> (Parser, bool)
        ensures { Does (tokens input.now) (acts.expect kind) (view self room.old) result.1 (view result.0 room.new) }
    {
        let (p, eaten) = self.eat(input, room, kind);
        if eaten {
            return (p, true);
        }
        (p.error_expected(input, room, kind), false)
    }

    pub fn start(self, room: &mut [u32]) -> (Parser, u32)
        ensures { Steps acts.start (view self room.old) result.1 (view result.0 room.new) }
    {
        let m = self.len as u32;
        let p = self.push_event(room, Event::Start(k::TOMBSTONE, 0));
        (p, m)
    }

    // Whether a start stands at a position.
    // Stays (plainer): as `is_bare` below; one function over the test would take a closure and its clauses.
    fn is_start(self, room: &[u32], m: usize) -> bool
        ensures { result ≡ is_start (event_at (view self room.now) m) }
    {
        if m < self.len {
            if m < room.len() / EVENT_WORDS {
                return event::start_at(room, m);
            }
        }
        false
    }

    // Gives the start at a position a kind.
    // Stays (plainer): as `link` below; one function over what is given would take a closure and its clauses.
    fn name(self, room: &mut [u32], m: usize, kind: u16) -> Parser
        ensures { view result room.new ≡ state.named m kind (view self room.old) }
    {
        if self.refused != 0 {
            return self;
        }
        if self.is_start(room, m) {
            event::set_kind(room, m, kind);
            return self;
        }
        self.refuse(8)
    }

    // Gives the start at a position a distance.
    fn link(self, room: &mut [u32], m: usize, distance: u32) -> Parser
        ensures { view result room.new ≡ state.linked m distance (view self room.old) }
    {
        if self.refused != 0 {
            return self;
        }
        if self.is_start(room, m) {
            event::set_distance(room, m, distance);
            return self;
        }
        self.refuse(8)
    }

    pub fn complete(self, room: &mut [u32], m: u32, kind: u16) -> (Parser, Completed)
        ensures { Steps (acts.complete m kind) (view self room.old) result.1 (view result.0 room.new) }
    {
        let p = self.name(room, m as usize, kind);
        let p = p.push_event(room, Event::Finish);
        (p, Completed { pos: m, kind })
    }

    // Takes the start away where it is the last event; else it stays as it is.
    pub fn abandon(self, room: &mut [u32], m: u32) -> Parser
        ensures { Steps (acts.abandon m) (view self room.old) tt (view result room.new) }
    {
        if self.refused != 0 {
            return self;
        }
        let at = m as usize;
        let len = self.len;
        if at + 1 != len {
            return self;
        }
        if self.is_bare(room, at) {
            event::store(room, at, Event::NoEvent(0, 0));
            return Parser {
                len: len - 1,
                ..self
            };
        }
        self.refuse(8)
    }

    // Whether a start with neither kind nor distance stands at a position.
    fn is_bare(self, room: &[u32], m: usize) -> bool
        ensures { result ≡ is_bare (event_at (view self room.now) m) }
    {
        if m < self.len {
            if m < room.len() / EVENT_WORDS {
                return event::bare_at(room, m);
            }
        }
        false
    }

    // A new start before a completed node: the node's start gets the distance to it.
    pub fn precede(self, room: &mut [u32], cm: Completed) -> (Parser, u32)
        ensures { Steps (acts.precede cm) (view self room.old) result.1 (view result.0 room.new) }
    {
        let m = self.len as u32;
        let p = self.push_event(room, Event::Start(k::TOMBSTONE, 0));
        let distance = m.wrapping_sub(cm.pos);
        let p = p.link(room, cm.pos as usize, distance);
        (p, m)
    }

    // Extends a completed node to the left, up to a start.
    pub fn extend_to(self, room: &mut [u32], cm: Completed, m: u32) -> (Parser, Completed)
        ensures { Steps (acts.extend_to cm m) (view self room.old) result.1 (view result.0 room.new) }
    {
        let distance = cm.pos.wrapping_sub(m);
        let p = self.link(room, m as usize, distance);
        (p, cm)
    }

    // At `{`, `}` or a kind of the set, only the error; else an ERROR node over it and one token.
    pub fn err_recover(self, input: &Input, room: &mut [u32], code: u16, set: Fixed) -> Parser
        ensures { Does (tokens input.now) (acts.err_recover code (kinds_of set)) (view self room.old) tt (view result room.new) }
    {
        let (p, kind) = self.current(input);
        if kind == k::L_CURLY {
            return p.error(room, code, 0);
        }
        if kind == k::R_CURLY {
            return p.error(room, code, 0);
        }
        let (p, recovers) = p.at_ts(input, set);
        if recovers {
            return p.error(room, code, 0);
        }
        let (p, m) = p.start(room);
        let p = p.error(room, code, 0);
        let p = p.bump_any(input, room);
        let (p, _) = p.complete(room, m, k::ERROR);
        p
    }

    pub fn err_and_bump(self, input: &Input, room: &mut [u32], code: u16) -> Parser
        ensures { Does (tokens input.now) (acts.err_and_bump code) (view self room.old) tt (view result room.new) }
    {
        self.err_recover(input, room, code, Fixed::Empty)
    }

    // An assertion of the grammar: refused with 8 where another kind stands here. It asks `nth_at`, whose second caller keeps it apart
    // from `at`.
    pub fn must(self, input: &Input, room: &mut [u32], kind: u16) -> Parser
        ensures { Does (tokens input.now) (acts.must kind) (view self room.old) tt (view result room.new) }
    {
        if self.nth_at(input, 0, kind) {
            return self;
        }
        self.stop(room, Stop::Panic)
    }

    // A test of the grammar's loops: neither the end nor a kind stands here.
    pub fn goes_on(self, input: &Input, kind: u16) -> bool
        ensures { result ≡ goes (tokens input.now) self kind }
    {
        !self.at(input, k::EOF) && !self.at(input, kind)
    }
}
