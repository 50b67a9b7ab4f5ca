// Standard input in a room: the whole of it, or its lines, of which the room holds the longest one.
ghost use Rattle.std.specs.Prelude.{◌≡◌, ◌≤◌, ◌<◌, length, IfOk};

use std::io;
use std::io::Read;

// A room, whose elements are all the same. By a call, so that a proof knows its length and does not count it.
pub fn room<T: Copy, const N: usize>(each: T) -> [T; N]
    ensures { N ≡ length result }
{
    [each; N]
}

// Reads until the room is full or the input ends, and answers how many bytes were read.
// Stays (rule): no heap, which `read_to_end` asks for; `read_exact` does not tell how many bytes there were.
pub fn read_full<R: Read>(input: &mut R, room: &mut [u8]) -> io::Result<usize>
    ensures { IfOk result (λ n. n ≤ length room.new) }
{
    let mut done = 0;
    while done < room.len() {
        let n = input.read(&mut room[done..])?;
        if n == 0 {
            break;
        }
        done += n;
    }
    Ok(done)
}

// Keeps the bytes of a range, the line that has not ended, and answers how many they are. One that fills the text is too long:
// it goes on as a line that begins with `?`.
pub fn keep(text: &mut [u8], from: usize, to: usize) -> usize
    requires from_le_to { from ≤ to }
    requires to_in_bounds { to ≤ length text.old }
    requires in_bounds { 1 < length text.old }
    ensures { result < length text.old }
{
    text.copy_within(from..to, 0);
    if to - from < text.len() {
        return to - from;
    }
    text[0] = b'?';
    1
}

// Reads behind the first bytes, and answers how many there are then.
pub fn read_behind<R: Read>(input: &mut R, text: &mut [u8], held: usize) -> io::Result<usize>
    requires { held ≤ length text.old }
    ensures lower_bound { IfOk result (λ to. held ≤ to) }
    ensures upper_bound { IfOk result (λ to. to ≤ length text.old) }
{
    let got = input.read(&mut text[held..])?;
    Ok(held + got)
}
