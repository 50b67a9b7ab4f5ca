// The reader of step files (docs/RULES.md, section 7): what stands at the front of a file, with the rest of it, and whether a whole file is
// good. It writes nothing and takes files of any length.
#![tactic(auto)]

ghost use Rattle.std.specs.Prelude.{◌≡◌, ◌+◌, ◌^◌, ◌≤◌, ◌<◌, length, drop, Err};
ghost use Rattle.records.specs.Record.{record_of};
ghost use Rattle.stepfile.specs.Front.{two, step_of, front, taken, behind};
ghost use Rattle.stepfile.specs.Answer.{refuses, refused, numbers, number_of};
ghost use Rattle.stepfile.specs.Nesting.{after, nest};
ghost use Rattle.stepfile.specs.File.{ended, file_read};
ghost use Rattle.stepfile.specs.Inside.{Head, passed};

use records::{ENTER, ERROR, EXPECTED, LEAVE, Step, TOKEN, size};

// Why no step and no end stands at a place.
#[derive(Clone, Copy, PartialEq, Eq, Debug)]
pub enum Fault {
    // a record that runs past the end
    Cut,
    // an unknown kind, a length that is not the kind's, a raw count that is none of 1 to 3, or a code that is not 1 in record kind 5
    Unsound,
}

impl Fault {
    // The number of docs/RULES.md.
    pub fn code(self) -> u32
        ensures { result ≡ number_of (Err self) }
    {
        match self {
            Fault::Cut => 11,
            Fault::Unsound => 12,
        }
    }

    // The refusal of a file that has it in the record at a place.
    fn refusal(self, at: usize) -> Refusal
        ensures { refused result ≡ refuses (number_of (Err self)) at }
    {
        match self {
            Fault::Cut => Refusal::Cut(at),
            Fault::Unsound => Refusal::Unsound(at),
        }
    }
}

// A good file's bytes and records.
#[derive(Clone, Copy, PartialEq, Eq, Debug)]
pub struct Counts {
    pub bytes: usize,
    pub records: usize,
}

// Why a whole file is refused; `numbers` in specs/Answer has the number and place of docs/RULES.md, section 3, for each.
#[derive(Clone, Copy, PartialEq, Eq, Debug)]
pub enum Refusal {
    // a record that runs past the end: where it begins
    Cut(usize),
    // an unsound record: where it begins
    Unsound(usize),
    // bad nesting or no record: where the first such record begins, or the file's length
    Unnested(usize),
}

// Stays (plainer): the numbers of this crate's refusals; a trait over the four would say each case twice, in its definition and here.
impl Refusal {
    // The number of docs/RULES.md.
    pub fn code(self) -> u32
        ensures { result ≡ (refused self).code }
    {
        match self {
            Refusal::Cut(_) => 11,
            Refusal::Unsound(_) => 12,
            Refusal::Unnested(_) => 13,
        }
    }

    // Its place.
    pub fn place(self) -> usize
        ensures { result ≡ (refused self).place }
    {
        match self {
            Refusal::Cut(p) | Refusal::Unsound(p) | Refusal::Unnested(p) => p,
        }
    }
}

// Stays (plainer): a number for each of two results; a step is no number of bytes and records.
// The number of what stands at the front of a file: a step and the end are none of its refusals.
pub fn step_code(found: Result<Option<Step>, Fault>) -> u32
    ensures { result ≡ number_of found }
{
    match found {
        Ok(_) => 0,
        Err(fault) => fault.code(),
    }
}

// The number, the place and the records that are said of a whole file, good or refused.
pub fn code(a: Result<Counts, Refusal>) -> u32
    ensures { result ≡ (numbers a).code }
{
    match a {
        Ok(_) => 0,
        Err(e) => e.code(),
    }
}

pub fn place(a: Result<Counts, Refusal>) -> usize
    ensures { result ≡ (numbers a).place }
{
    match a {
        Ok(good) => good.bytes,
        Err(e) => e.place(),
    }
}

// A refused file has none.
pub fn records(a: Result<Counts, Refusal>) -> usize
    ensures { result ≡ (numbers a).records }
{
    match a {
        Ok(good) => good.records,
        Err(_) => 0,
    }
}

// Where a walk over a file is: the place, the records before it, the nodes open there.
#[derive(Clone, Copy)]
pub struct Walk {
    pub at: usize,
    pub records: usize,
    pub held: usize,
}

// The number in two bytes at a place.
fn two_at(file: &[u8], at: usize) -> u16
    requires { at + 2 ≤ length file.now }
    ensures { result ≡ two file.now at }
{
    u16::from_le_bytes([file[at], file[at + 1]])
}

// The first four bytes of the record at a place as one number: the payload's length, and 65,536 times the record kind.
fn head_at(file: &[u8], at: usize) -> u32
    requires { at + 4 ≤ length file.now }
    ensures { Head file.now at result }
{
    u32::from_le_bytes([file[at], file[at + 1], file[at + 2], file[at + 3]])
}

// The token record at a place, by its raw count.
fn token_at(file: &[u8], at: usize) -> Result<Option<Step>, Fault>
    requires { at + 7 ≤ length file.now }
    ensures { result ≡ step_of 3 3 (drop at file.now) }
{
    let count = file[at + 6];
    match count {
        1..=3 => Ok(Some(Step::Token(two_at(file, at + 4), count))),
        _ => Err(Fault::Unsound),
    }
}

// The record of an error with what was found, by its code.
fn expected_at(file: &[u8], at: usize) -> Result<Option<Step>, Fault>
    requires { at + 10 ≤ length file.now }
    ensures { result ≡ step_of 5 6 (drop at file.now) }
{
    if two_at(file, at + 4) != 1 {
        return Err(Fault::Unsound);
    }
    Ok(Some(Step::Expected(two_at(file, at + 6), two_at(file, at + 8))))
}

// The whole record at a place, by its head: of each record kind one payload length is sound.
fn record_at(file: &[u8], at: usize, head: u32) -> Result<Option<Step>, Fault>
    requires head { Head file.now at head }
    requires at_in_bounds { at + (4 + two file.now at) ≤ length file.now }
    ensures { result ≡ step_of (two file.now (at + 2)) (two file.now at) (drop at file.now) }
{
    match head {
        ENTER => Ok(Some(Step::Enter(two_at(file, at + 4)))),
        LEAVE => Ok(Some(Step::Leave)),
        TOKEN => token_at(file, at),
        ERROR => Ok(Some(Step::Error(two_at(file, at + 4), two_at(file, at + 6)))),
        EXPECTED => expected_at(file, at),
        _ => Err(Fault::Unsound),
    }
}

// What stands at a place of a file: a step or, past its last byte, none.
// Stays (promise): `step_at` takes a place in the file, by which programs walk.
pub fn step_at(file: &[u8], at: usize) -> Result<Option<Step>, Fault>
    ensures { result ≡ front (drop at file.now) }
{
    if at >= file.len() {
        return Ok(None);
    }
    let left = file.len() - at;
    if left < 4 {
        return Err(Fault::Cut);
    }
    let head = head_at(file, at);
    if left - 4 < (head % 65536) as usize {
        return Err(Fault::Cut);
    }
    record_at(file, at, head)
}

// What stands at the front of a file.
pub fn front(file: &[u8]) -> Result<Option<Step>, Fault>
    ensures { result ≡ front file.now }
{
    step_at(file, 0)
}

// The bytes that a step takes: without one nothing is taken.
pub fn width(f: Result<Option<Step>, Fault>) -> usize
    ensures { result ≡ taken f }
{
    match f {
        Ok(Some(s)) => size(s),
        Ok(None) | Err(_) => 0,
    }
}

// The part of a file behind its first step.
pub fn rest(file: &[u8]) -> &[u8]
    ensures { result.now ≡ behind file.now }
{
    let n = width(front(file));
    &file[n..]
}

// One step: what stands at the front of a file, and the rest of it.
#[derive(Clone, Copy)]
pub struct Taken<'a> {
    pub found: Result<Option<Step>, Fault>,
    pub rest: &'a [u8],
}

pub fn read_step(file: &[u8]) -> Taken<'_>
    ensures { (result.found ≡ front file.now) × (result.rest.now ≡ behind file.now) }
{
    Taken {
        found: front(file),
        rest: rest(file),
    }
}

// The nodes open past a step, of `held` open before it: none can be left where none is open.
fn after(held: usize, s: Step) -> Option<usize>
    requires { held + 1 < 2 ^ 64 }
    ensures { result ≡ after held s }
{
    match s {
        Step::Enter(_) => Some(held + 1),
        Step::Leave => held.checked_sub(1),
        Step::Token(..) | Step::Error(..) | Step::Expected(..) => Some(held),
    }
}

// The same for a record with so many before it: only the first may begin where no node is open.
fn nest(records: usize, held: usize, s: Step) -> Option<usize>
    requires { held + 1 < 2 ^ 64 }
    ensures { result ≡ nest records held s }
{
    if held == 0 && records != 0 {
        return None;
    }
    after(held, s)
}

// What a walk that has come to the end of its file says: good with a record at least, and no node open.
fn ended(w: Walk) -> Result<Counts, Refusal>
    ensures { numbers result ≡ ended w.at w.records w.held }
{
    if w.records == 0 || w.held != 0 {
        return Err(Refusal::Unnested(w.at));
    }
    Ok(Counts {
        bytes: w.at,
        records: w.records,
    })
}

// A walk past a step; or a refusal where the step breaks the nesting.
fn passed(w: Walk, s: Step) -> Result<Walk, Refusal>
    requires held_bound { w.held + 1 < 2 ^ 64 }
    requires records_bound { w.records + 1 < 2 ^ 64 }
    requires s_bound { w.at + length (record_of s) < 2 ^ 64 }
    ensures { result ≡ passed w s }
{
    let Some(held) = nest(w.records, w.held, s) else {
        return Err(Refusal::Unnested(w.at));
    };
    Ok(Walk {
        at: w.at + size(s),
        records: w.records + 1,
        held,
    })
}

// Whether a whole file is good: record by record, the first faulty one wins, and at a record 11, then 12, then 13.
pub fn read_file(file: &[u8]) -> Result<Counts, Refusal>
    ensures { numbers result ≡ file_read file.now }
{
    let mut w = Walk {
        at: 0,
        records: 0,
        held: 0,
    };
    loop {
        match step_at(file, w.at) {
            Ok(Some(s)) => {
                w = passed(w, s)?;
            }
            Ok(None) => {
                return ended(w);
            }
            Err(e) => {
                return Err(e.refusal(w.at));
            }
        }
    }
}
