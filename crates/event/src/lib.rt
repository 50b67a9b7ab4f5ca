// An event, its words, and its place in a lent room (docs/RULES.md, section 2). The parser writes events here, the check and the
// resolution read them here.
#![tactic(auto)]

ghost use Rattle.std.specs.Prelude.{◌≡◌, true, ◌/◌, ◌<◌, length, get_or, set};
ghost use Rattle.event.specs.Event as spec;
ghost use Rattle.event.specs.Event.{event_words, events_of, stored};

// How many words an event has.
pub const EVENT_WORDS: usize = 2;

// The most events that a list may have.
pub const MOST_EVENTS: usize = 65536;

// The first word of a start, a finish, a token and an error is one of these and the kind or the code.
// Stays (C interface): these numbers stand in the words that C lends.
pub const START: u32 = 65536;

pub const FINISH: u32 = 131072;

pub const TOKEN: u32 = 196608;

pub const ERROR: u32 = 262144;

// Stays (C interface): 0 for no distance, here and below, as the words have it that C lends.
// An event: its kind and the distance to its forward parent, 0 for none; a kind and the raw count; a code, its argument and the kind found,
// which only "expected KIND" has: its code is 1.
#[derive(Clone, Copy)]
pub enum Event {
    Start(u16, u32),
    Finish,
    Token(u16, u8),
    Error(u16, u16, u16),
    // words that say no event
    NoEvent(u32, u32),
}

// The words of an event.
#[derive(Clone, Copy)]
pub struct Words {
    pub first: u32,
    pub second: u32,
}

// The words that say an event.
// Stays (plainer): `encode` and `decode` are a pair by the names of the definitions; `decode` takes two words, which no caller has as `Words`.
#[tactic(auto, unfolding(crate::specs::Event::encode))]
pub fn encode(e: Event) -> Words
    ensures { result ≡ spec.encode e }
{
    match e {
        Event::Start(k, d) => Words {
            first: START + u32::from(k),
            second: d,
        },
        Event::Finish => Words {
            first: FINISH,
            second: 0,
        },
        Event::Token(k, n) => Words {
            first: TOKEN + u32::from(k),
            second: u32::from(n),
        },
        Event::Error(c, x, f) => Words {
            first: ERROR + u32::from(c),
            second: u32::from(x) + 65536 * u32::from(f),
        },
        Event::NoEvent(a, b) => Words {
            first: a,
            second: b,
        },
    }
}

// The event that words say.
#[tactic(auto, unfolding(crate::specs::Event::decode, crate::specs::Event::error_of))]
pub fn decode(a: u32, b: u32) -> Event
    ensures { result ≡ spec.decode a b }
{
    let k = (a % 65536) as u16;
    match a / 65536 {
        1 => Event::Start(k, b),
        2 if k == 0 && b == 0 => Event::Finish,
        3 if 1 <= b && b <= 3 => Event::Token(k, b as u8),
        4 if k == 1 => Event::Error(k, (b % 65536) as u16, (b / 65536) as u16),
        4 if b < 65536 => Event::Error(k, b as u16, 0),
        _ => Event::NoEvent(a, b),
    }
}

// The distance to the forward parent, 0 for none.
pub fn distance(e: Event) -> u32
    ensures { result ≡ spec.distance e }
{
    match e {
        Event::Start(_, d) => d,
        _ => 0,
    }
}

// How many events a room of words holds.
pub fn holds(words: usize) -> usize
    ensures { result ≡ spec.holds (words / event_words) }
{
    (words / EVENT_WORDS).min(MOST_EVENTS)
}

// Event i of a list.
// Stays (plainer): that i is below the number of events is what any index asks; a struct of words and i would be made for each call.
pub fn event_at(words: &[u32], i: usize) -> Event
    requires { i < length words.now / event_words }
    ensures { result ≡ get_or (events_of words.now) i spec.none }
{
    let at = EVENT_WORDS * i;
    decode(words[at], words[at + 1])
}

// Writes event i of a list.
pub fn store(words: &mut [u32], i: usize, e: Event)
    requires { i < length words.old / event_words }
    ensures { words.new ≡ stored words.old i e }
{
    let at = EVENT_WORDS * i;
    let w = encode(e);
    words[at] = w.first;
    words[at + 1] = w.second;
}

// Whether event i of a list is a start: its first word tells.
pub fn start_at(words: &[u32], i: usize) -> bool
    requires { i < length words.now / event_words }
    ensures { result ≡ spec.is_start (get_or (events_of words.now) i spec.none) }
{
    words[EVENT_WORDS * i] / START == 1
}

// Whether it is a start with neither kind nor distance: `Event::tombstone()`.
pub fn bare_at(words: &[u32], i: usize) -> bool
    requires { i < length words.now / event_words }
    ensures { result ≡ spec.is_bare (get_or (events_of words.now) i spec.none) }
{
    words[EVENT_WORDS * i] == START && words[EVENT_WORDS * i + 1] == 0
}

// Gives the start that stands at i another kind.
pub fn set_kind(words: &mut [u32], i: usize, kind: u16)
    requires i_in_bounds { i < length words.old / event_words }
    requires none_value { spec.is_start (get_or (events_of words.old) i spec.none) ≡ true }
    ensures { words.new ≡ stored words.old i (spec.with_kind kind (get_or (events_of words.old) i spec.none)) }
{
    words[EVENT_WORDS * i] = START + u32::from(kind);
}

// Gives it another distance.
pub fn set_distance(words: &mut [u32], i: usize, distance: u32)
    requires i_in_bounds { i < length words.old / event_words }
    requires none_value { spec.is_start (get_or (events_of words.old) i spec.none) ≡ true }
    ensures { words.new ≡ stored words.old i (spec.with_distance distance (get_or (events_of words.old) i spec.none)) }
{
    words[EVENT_WORDS * i + 1] = distance;
}

// Makes event i a bare tombstone.
pub fn clear(words: &mut [u32], i: usize)
    requires { i < length words.old / event_words }
    ensures { events_of words.new ≡ set (events_of words.old) i spec.tombstone }
{
    store(words, i, Event::Start(0, 0))
}
