// The check of event lists (docs/RULES.md, section 6), and what its answers say. The resolution, a crate above, makes it first: `measure` is
// public for that alone.
#![tactic(auto)]

ghost use Rattle.std.specs.Prelude.{◌≡◌, false, suc, ◌/◌, ◌<◌, ◌≤◌, length, get_or, drop};
ghost use Rattle.event.specs.Event.{event_words, events_of, none, is_start};
ghost use Rattle.lists.specs.Answer.{numbers, refused};
ghost use Rattle.lists.specs.Check.{lands, checked};
ghost use Rattle.lists.specs.Inside.{Traits, Passed, PassedAnyway, Measures};

use event::{ERROR, EVENT_WORDS, Event, MOST_EVENTS, START, decode};
use own::{cost, leads};

// Why a list is refused; `numbers` in specs/Answer has the number and place of docs/RULES.md, section 3, for each.
#[derive(Clone, Copy, PartialEq, Eq, Debug)]
pub enum Refusal {
    // more than 65,536 events
    TooLong,
    // not well formed: the first faulty event
    Faulty(usize),
    // the step room is too small: the bytes needed
    NoRoom(usize),
}

// Stays (plainer): the numbers of this crate's refusals; a trait over the four would say each case twice, in its definition and here.
impl Refusal {
    // The number of docs/RULES.md.
    pub fn code(self) -> u32
        ensures { result ≡ (refused self).code }
    {
        match self {
            Refusal::TooLong => 2,
            Refusal::Faulty(_) => 9,
            Refusal::NoRoom(_) => 10,
        }
    }

    // Its place.
    pub fn place(self) -> usize
        ensures { result ≡ (refused self).place }
    {
        match self {
            Refusal::TooLong => 0,
            Refusal::Faulty(i) => i,
            Refusal::NoRoom(n) => n,
        }
    }
}

// The number of a check or a resolution, 0 where it is done.
// Stays (C interface): C has a number and a place for either outcome.
pub fn code(a: Result<usize, Refusal>) -> u32
    ensures { result ≡ (numbers a).code }
{
    match a {
        Ok(_) => 0,
        Err(e) => e.code(),
    }
}

// Its place: the events or the bytes where it is done.
pub fn place(a: Result<usize, Refusal>) -> usize
    ensures { result ≡ (numbers a).place }
{
    match a {
        Ok(n) => n,
        Err(e) => e.place(),
    }
}

// What an event that is not faulty comes to: the nodes open past it, and the bytes of what it asks for itself.
#[derive(Clone, Copy)]
pub struct Past {
    pub held: usize,
    pub bytes: usize,
}

// The traits of events by their class: twice the tag, and one more where there is a kind. A table, so that the check has no branch by the
// sort of these.
static TRAITS: [usize; 8] = [0, 0, 63, 863, 513, 0, 942, 942];

// What the first word of a start, a finish or a token says of its event: a bit for each second word that it may have (the last for 4 and
// more), 32 times one more than the nodes it opens, and 128 times the bytes of what it asks for itself. An error, which is rare, goes by
// `decode`.
fn traits(a: u32) -> usize
    requires le_a { 65536 ≤ a }
    requires a_bound { a < 262144 }
    ensures { Traits a result }
{
    let tag = 2 * (a / 65536);
    let class = if a % 65536 == 0 { tag } else { tag + 1 };
    TRAITS[(class % 8) as usize]
}

// Whether distance d from event i is none, or lands on a start in the list.
fn lands_on(words: &[u32], i: usize, d: u32) -> bool
    requires i_in_bounds { i < length words.now / event_words }
    requires d_bound { d ≤ 65535 }
    ensures { result ≡ lands (drop (suc i) (events_of words.now)) d }
{
    let j = i + d as usize;
    if j >= words.len() / EVENT_WORDS {
        return false;
    }
    // 0 where a start stands: its tag is 1
    let astray = (words[EVENT_WORDS * j] / 65536 + 65535) % 65536;
    d * astray == 0
}

// What an event that is no start comes to, with `held` nodes open before it.
fn pass_plain(e: Event, held: usize) -> Option<Past>
    requires { is_start e ≡ false }
    ensures { PassedAnyway e held result }
{
    match e {
        Event::Finish => if held == 0 {
            None
        } else {
            Some(Past {
                held: held - 1,
                bytes: cost(e),
            })
        },
        Event::Token(..) | Event::Error(..) => Some(Past {
            held,
            bytes: cost(e),
        }),
        Event::Start(..) | Event::NoEvent(..) => None,
    }
}

// What event i comes to, with `held` nodes open before it; none where it is faulty.
fn pass(words: &[u32], i: usize, held: usize) -> Option<Past>
    requires i_in_bounds { i < length words.now / event_words }
    requires event_words_len_bound { length words.now / event_words ≤ 65536 }
    requires held_le_i { held ≤ i }
    ensures { Passed (get_or (events_of words.now) i none) held (drop (suc i) (events_of words.now)) result }
{
    let a = words[EVENT_WORDS * i];
    let b = words[EVENT_WORDS * i + 1];
    if a < START {
        return None;
    }
    if a >= ERROR {
        return pass_plain(decode(a, b), held);
    }
    // no distance so far lands in a list, and no other event has such a word
    if b > 65535 {
        return None;
    }
    let all = traits(a);
    if (all >> b.min(4)) % 2 == 0 {
        return None;
    }
    if !lands_on(words, i, leads(a, b)) {
        return None;
    }
    let h = held + all / 32 % 4;
    // 0 at a finish with no node open
    if h == 0 {
        return None;
    }
    Some(Past {
        held: h - 1,
        bytes: all / 128,
    })
}

// The check of a list, and the bytes of its steps: each event's own, since each is asked for once.
pub fn measure(words: &[u32]) -> Result<usize, Refusal>
    ensures { Measures words.now result }
{
    let n = words.len() / EVENT_WORDS;
    if n > MOST_EVENTS {
        return Err(Refusal::TooLong);
    }
    if words.len() % EVENT_WORDS != 0 {
        return Err(Refusal::Faulty(n));
    }
    let mut held = 0;
    let mut bytes = 0;
    for i in 0..n {
        let Some(past) = pass(words, i, held) else {
            return Err(Refusal::Faulty(i));
        };
        held = past.held;
        bytes += past.bytes;
    }
    if held == 0 {
        Ok(bytes)
    } else {
        Err(Refusal::Faulty(n))
    }
}

// Whether a list is well formed. It changes nothing.
pub fn check(words: &[u32]) -> Result<usize, Refusal>
    ensures { numbers result ≡ checked words.now }
{
    measure(words)?;
    Ok(words.len() / EVENT_WORDS)
}
