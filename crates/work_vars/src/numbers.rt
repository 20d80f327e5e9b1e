ghost use Rattle.std.specs.Prelude.{◌≡◌, ◌≢◌, ℕ, ◌<◌, ◌^◌, ◌↔◌, IsTrue, IfSome, MatchOption, decimal};

use itoa::Buffer;
use std::str;

fn is_decimal(digits: &[u8], number: u64) -> bool
    ensures { IsTrue result ↔ (digits.now ≡ decimal number) }
{
    let mut buffer = Buffer::new();
    digits == buffer.format(number).as_bytes()
}

/// The number below 2^64 that is written in decimal by these bytes, with no leading zero. None where they write none.
/// It takes no memory.
pub fn read_number(digits: &[u8]) -> Option<u64>
    ensures below { IfSome result (λ n. n < 2 ^ 64) }
    ensures written { MatchOption result ((n : ℕ) → n < 2 ^ 64 → digits.now ≢ decimal n) (λ n. digits.now ≡ decimal n) }
{
    let Ok(text) = str::from_utf8(digits) else {
        return None;
    };
    let Ok(number) = text.parse::<u64>() else {
        return None;
    };
    if is_decimal(digits, number) {
        Some(number)
    } else {
        None
    }
}
