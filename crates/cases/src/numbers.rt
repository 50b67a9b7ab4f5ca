// Fields with several numbers: commas between them, `-` for none.
ghost use Rattle.std.specs.Prelude.{◌≡◌, ◌≤◌, ℕ, length, drop, IfSome};

use text::number::number_at;

// Reads the numbers of a base in the field at the front of a line into a room, of which each must fit; tells how many there are, and what
// stands behind the field.
pub fn numbers<'a, T: TryFrom<u64> + Drop>(
    line: &'a [u8],
    base: u64,
    room: &mut [T],
) -> Option<(usize, &'a [u8])>
where
    T::Error: Drop,
    requires { (1 ≤ base) × (base ≤ 16) }
    ensures count { IfSome result (λ n. n.0 ≤ length room.new) }
    ensures rest { IfSome result (λ n. (k : ℕ) × (n.1.now ≡ drop k line.entry.now)) }
{
    if let Some(rest) = line.strip_prefix(b" -") {
        return Some((0, rest));
    }
    let mut rest = line;
    let mut mark = b' ';
    for (i, place) in room.iter_mut().enumerate() {
        let (value, behind) = number_at(rest, mark, base, u64::MAX)?;
        *place = T::try_from(value).ok()?;
        rest = behind;
        if rest.first() != Some(&b',') {
            return Some((i + 1, rest));
        }
        mark = b',';
    }
    None
}
