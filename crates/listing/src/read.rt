// Events from text, a line each.
ghost use Rattle.std.specs.Prelude.{◌≡◌, ◌+◌, ◌*◌, ◌≤◌, ◌<◌, ℕ, length, drop, IfSome};

use text::number::field;
use text::split_line;

// The number of words of the list that a text begins with, and what follows the line `---` behind it, where another list follows.
#[derive(Clone, Copy)]
pub struct List<'a> {
    pub count: usize,
    pub next: Option<&'a [u8]>,
}

// The kind behind a space, and what stands behind it in the line; `-` is 0.
fn kind(line: &[u8]) -> Option<(u16, &[u8])>
    ensures { IfSome result (λ k. (n : ℕ) × (k.1.now ≡ drop n line.now)) }
{
    if let Some(rest) = line.strip_prefix(b" -") {
        return Some((0, rest));
    }
    let (kind, rest) = field(line)?;
    Some((u16::try_from(kind).ok()?, rest))
}

// The words of an event with a tag, a kind and a number.
fn numbered(tag: u32, line: &[u8]) -> Option<[u32; 2]>
    requires { tag ≤ 4 }
{
    let (kind, rest) = kind(line)?;
    let (number, rest) = field(rest)?;
    if !rest.is_empty() {
        return None;
    }
    Some([tag * 65536 + u32::from(kind), number])
}

// The words of an event.
fn event(line: &[u8]) -> Option<[u32; 2]> {
    match line {
        [b'S', rest @ ..] => numbered(1, rest),
        [b'F'] => Some([131072, 0]),
        [b'T', rest @ ..] => numbered(3, rest),
        [b'E', rest @ ..] => numbered(4, rest),
        _ => None,
    }
}

// Reads the words of the list that a text begins with, up to a line `---` or the end. An empty line has none; one that is no event becomes
// 0, 0, which is none either, so that the check refuses it.
pub fn list_at<'a>(text: &'a [u8], words: &mut [u32]) -> List<'a>
    requires { 2 * length text.now ≤ length words.old }
    ensures count { result.count ≤ length words.new }
    ensures next { IfSome result.next (λ t. length t.now < length text.entry.now) }
    ensures behind { IfSome result.next (λ t. (n : ℕ) × (t.now ≡ drop n text.entry.now)) }
{
    let mut rest = text;
    // Stays (plainer): the words that have been read; each event is two, and a line may have none.
    let mut count = 0;
    while !rest.is_empty() {
        let (line, behind) = split_line(rest);
        rest = behind;
        if line == b"---".as_slice() {
            return List {
                count,
                next: Some(rest),
            };
        }
        if !line.is_empty() {
            let [first, second] = event(line).unwrap_or([0, 0]);
            words[count] = first;
            words[count + 1] = second;
            count += 2;
        }
    }
    List { count, next: None }
}
