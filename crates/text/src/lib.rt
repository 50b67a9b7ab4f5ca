// Text: its lines, the numbers in a line, and standard input in a room.
#![tactic(auto)]

pub mod number;
pub mod stream;

ghost use Rattle.std.specs.Prelude.{◌≡◌, ◌+◌, ◌≤◌, ◌<◌, min, length, take, drop};

// The first line of a text, without the line feed that ends it, and what stands behind that.
pub fn split_line(text: &[u8]) -> (&[u8], &[u8])
    ensures line { result.0.now ≡ take (length result.0.now) text.now }
    ensures rest { result.1.now ≡ drop (min (length result.0.now + 1) (length text.now)) text.now }
    ensures within { length result.0.now + length result.1.now ≤ length text.now }
    ensures shorter { 0 < length text.now → length result.1.now < length text.now }
{
    match text.iter().position(|&b| b == b'\n') {
        Some(end) => (&text[..end], &text[end + 1..]),
        None => (text, &[]),
    }
}
