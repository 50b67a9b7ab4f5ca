// The reader's calls, as `oq3_read_c` exports them for C. A call returns the number of docs/RULES.md and writes its words to the front of a
// lent answer room. Where that room is too short it returns 100, and reads and writes nothing.
#![tactic(auto)]

ghost use Rattle.std.specs.Prelude.{◌≡◌, [], ◌∷◌, ◌++◌, ◌≤◌, length, drop};
ghost use Rattle.oq3_read.specs.Calls.{returns, reads_file, fields_of, fields, reads_step};

use records::Step;
use stepfile::Fault;

// The record kind of a step, and its payload's numbers; 0 for those that it lacks.
fn of_step(s: Step) -> [u64; 4]
    ensures { result ≡ fields_of s }
{
    match s {
        Step::Enter(kind) => [1, u64::from(kind), 0, 0],
        Step::Leave => [2, 0, 0, 0],
        Step::Token(kind, count) => [3, u64::from(kind), u64::from(count), 0],
        Step::Error(code, argument) => [4, u64::from(code), u64::from(argument), 0],
        Step::Expected(kind, found) => [5, 1, u64::from(kind), u64::from(found)],
    }
}

// The same of what stands at the front of a file: without a step all are 0.
fn of_front(f: Result<Option<Step>, Fault>) -> [u64; 4]
    ensures { result ≡ fields f }
{
    match f {
        Ok(Some(s)) => of_step(s),
        Ok(None) | Err(_) => [0; 4],
    }
}

// Writes where the rest begins, the record kind and the numbers.
fn tell(answer: &mut [u64], rest: usize, fields: [u64; 4])
    requires { 6 ≤ length answer.old }
    ensures { answer.new ≡ (rest ∷ (fields ++ (0 ∷ []))) ++ drop 6 answer.old }
{
    let [kind, first, second, third] = fields;
    // Stays (speed): word by word, since one copy of an array of six takes 27 instructions more.
    answer[0] = rest as u64;
    answer[1] = kind;
    answer[2] = first;
    answer[3] = second;
    answer[4] = third;
    answer[5] = 0;
}

// One step: where the rest begins, the record kind, 0 at the end, and the payload's numbers.
// Stays (C interface): a number is returned, and 0 stands for what is not there.
pub fn oq3_read_step(file: &[u8], answer: &mut [u64]) -> u32
    ensures { reads_step file.now answer.old ≡ returns result answer.new }
{
    if answer.len() < 6 {
        return 100;
    }
    let f = stepfile::front(file);
    tell(answer, stepfile::width(f), of_front(f));
    match f {
        Ok(_) => 0,
        Err(e) => e.code(),
    }
}

// The whole file: its place and its records.
pub fn oq3_read_file(file: &[u8], answer: &mut [u64]) -> u32
    ensures { reads_file file.now answer.old ≡ returns result answer.new }
{
    if answer.len() < 2 {
        return 100;
    }
    match stepfile::read_file(file) {
        Ok(good) => {
            answer[0] = good.bytes as u64;
            answer[1] = good.records as u64;
            0
        }
        Err(e) => {
            answer[0] = e.place() as u64;
            answer[1] = 0;
            e.code()
        }
    }
}
