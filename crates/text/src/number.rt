// Numbers at the front of a line, each with what stands behind it.
ghost use Rattle.std.specs.Prelude.{◌≡◌, ◌≤◌, ◌<◌, ℕ, drop, IfSome};

// What a byte is worth as a digit of a base up to 16.
// Stays (speed): by a `match`; std's `to_digit` takes five instructions a digit more, and `replay` reads millions.
fn digit(b: u8, base: u64) -> Option<u64>
    ensures { IfSome result (λ d. d < base) }
{
    let worth = match b {
        b'0'..=b'9' => b - b'0',
        b'a'..=b'f' => b - b'a' + 10,
        b'A'..=b'F' => b - b'A' + 10,
        _ => return None,
    };
    Some(u64::from(worth)).filter(|&d| d < base)
}

// The number of a base that is at most the given one.
pub fn digits(line: &[u8], base: u64, most: u64) -> Option<(u64, &[u8])>
    requires { (1 ≤ base) × (base ≤ 16) × (16 ≤ most) }
    ensures value { IfSome result (λ n. n.0 ≤ most) }
    ensures rest { IfSome result (λ n. (k : ℕ) × (n.1.now ≡ drop k line.now)) }
{
    let mut value: u64 = 0;
    let mut rest = line;
    while let [b, others @ ..] = rest {
        let Some(d) = digit(*b, base) else {
            break;
        };
        value = value.checked_mul(base)?.checked_add(d)?;
        if value > most {
            return None;
        }
        rest = others;
    }
    if rest.len() == line.len() {
        return None;
    }
    Some((value, rest))
}

// The number behind a mark.
pub fn number_at(line: &[u8], mark: u8, base: u64, most: u64) -> Option<(u64, &[u8])>
    requires { (1 ≤ base) × (base ≤ 16) × (16 ≤ most) }
    ensures value { IfSome result (λ n. n.0 ≤ most) }
    ensures rest { IfSome result (λ n. (k : ℕ) × (n.1.now ≡ drop k line.now)) }
{
    digits(line.strip_prefix(&[mark])?, base, most)
}

// The decimal number of 32 bits behind a space.
pub fn field(line: &[u8]) -> Option<(u32, &[u8])>
    ensures { IfSome result (λ n. (k : ℕ) × (n.1.now ≡ drop k line.now)) }
{
    let (value, rest) = number_at(line, b' ', 10, u64::from(u32::MAX))?;
    Some((value as u32, rest))
}
