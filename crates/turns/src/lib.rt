// A turn of the loop in `process` of event.rs: the chain that an event's distance leads to, and the event's own step.
#![tactic(auto)]

ghost use Rattle.std.specs.Prelude.{◌≡◌, false, ◌∷◌, ◌++◌, suc, ◌+◌, ◌/◌, ◌<◌, ◌≤◌, length, get_or, take};
ghost use Rattle.event.specs.Event.{event_words, events_of, none, distance, tombstone};
ghost use Rattle.records.specs.Record.{over};
ghost use Rattle.own.specs.Inside.{Laid};
ghost use Rattle.turns.specs.Process.{chain, entered, turn_at, file};

use event::{ERROR, EVENT_WORDS, Event, clear, decode, distance, event_at};
use own::{cost, leads, put_own, put_wide};

// The bytes of the enters that distance d from event i leads to.
// Stays (C interface): a chain is distances in words that C lends; the loop here and the one below follow them, and count no index.
fn chain_size(words: &[u32], i: usize, d: u32) -> usize
    requires i_in_bounds { i < length words.now / event_words }
    requires d_value { (chain (events_of words.now) i d).panics ≡ false }
    ensures { result ≡ length (file (entered (chain (events_of words.now) i d).parents)) }
{
    let mut p = i;
    let mut q = d;
    let mut size = 0;
    while q != 0 {
        p += q as usize;
        let e = event_at(words, p);
        size += cost(e);
        q = distance(e);
    }
    size
}

// Writes those enters, the first met last: from the end of their bytes to the front. Each visited start becomes a tombstone.
fn put_chain(words: &mut [u32], out: &mut [u8], i: usize, d: u32, at: usize, size: usize)
    requires i_in_bounds { i < length words.old / event_words }
    requires d_value { (chain (events_of words.old) i d).panics ≡ false }
    requires size_value { size ≡ length (file (entered (chain (events_of words.old) i d).parents)) }
    requires size_in_bounds { at + size ≤ length out.old }
    ensures words_after { events_of words.new ≡ take (suc i) (events_of words.old) ++ (chain (events_of words.old) i d).left }
    ensures out_after { out.new ≡ over out.old at (file (entered (chain (events_of words.old) i d).parents)) }
{
    let mut p = i;
    let mut q = d;
    let mut end = at + size;
    while q != 0 {
        p += q as usize;
        let e = event_at(words, p);
        clear(words, p);
        end -= cost(e);
        put_own(out, end, e);
        q = distance(e);
    }
}

// The turn at event i, which has a distance. Most chains are one start: its record and the event's are then a wide write each.
fn turn_led(words: &mut [u32], out: &mut [u8], size: usize, i: usize, at: usize) -> usize
    requires i_in_bounds { i < length words.old / event_words }
    requires i_value { (turn_at (events_of words.old) i).panics ≡ false }
    requires i_bound { at + length (file (turn_at (events_of words.old) i).steps) ≤ size }
    requires size_in_bounds { size ≤ length out.old }
    requires fact { distance (get_or (events_of words.old) i none) ≡ 0 → ⊥ }
    ensures laid { Laid out.old at (file (turn_at (events_of words.old) i).steps) size result out.new }
    ensures words_after { events_of words.new ≡ take i (events_of words.old) ++ tombstone ∷ (turn_at (events_of words.old) i).left }
{
    let a = words[EVENT_WORDS * i];
    let d = words[EVENT_WORDS * i + 1];
    clear(words, i);
    let j = i + d as usize;
    let c = words[EVENT_WORDS * j];
    if words[EVENT_WORDS * j + 1] == 0 && at + 16 <= size {
        clear(words, j);
        let past = put_wide(out, at, c, 0);
        return put_wide(out, past, a, 0);
    }
    let chain = chain_size(words, i, d);
    put_chain(words, out, i, d, at, chain);
    put_own(out, at + chain, decode(a, d))
}

// The turn at event i: its steps at a place, and the place past them. The file ends at `size`, and nothing past it is written.
// Stays (promise): `turn` says what stands past `size` in a longer room, so `out` has its length beside it.
pub fn turn(words: &mut [u32], out: &mut [u8], size: usize, i: usize, at: usize) -> usize
    requires i_in_bounds { i < length words.old / event_words }
    requires i_value { (turn_at (events_of words.old) i).panics ≡ false }
    requires i_bound { at + length (file (turn_at (events_of words.old) i).steps) ≤ size }
    requires size_in_bounds { size ≤ length out.old }
    ensures laid { Laid out.old at (file (turn_at (events_of words.old) i).steps) size result out.new }
    ensures words_after { events_of words.new ≡ take i (events_of words.old) ++ tombstone ∷ (turn_at (events_of words.old) i).left }
{
    let a = words[EVENT_WORDS * i];
    let b = words[EVENT_WORDS * i + 1];
    if leads(a, b) != 0 {
        return turn_led(words, out, size, i, at);
    }
    clear(words, i);
    if a < ERROR && at + 8 <= size {
        return put_wide(out, at, a, b);
    }
    put_own(out, at, decode(a, b))
}
