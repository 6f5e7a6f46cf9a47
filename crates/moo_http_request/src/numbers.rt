//! Numbers in texts of a request.

ghost use Rattle.std.specs.Prelude.{◌≡◌, ◌<◌, ◌≤◌, ◌^◌, ◌+◌, ◌*◌, drop, pos, neg_ℤ, IfSome};
ghost use Rattle.moo_http_request.specs.Numbers.{bounded_of, number_of};

use moo_text::digit_value;

/// The number with one more digit at its end. A number that is over the limit already stays, so that it can't overflow.
fn with_digit(number: u64, digit: u64, most: u64) -> u64
    // So ten times the limit can't overflow.
    requires limit { most < 2 ^ 59 }
    requires digit { digit ≤ 9 }
    ensures low { number ≤ most → result ≡ 10 * number + digit }
    ensures over { most < number → result ≡ number }
{
    if number <= most {
        10 * number + digit
    } else {
        number
    }
}

/// The number that one or more digits write. None if a byte isn't a digit, there is no byte, or the number is over `most`.
pub(crate) fn number_at_most(text: &[u8], most: u64) -> Option<u64>
    // So ten times the limit can't overflow.
    requires { most < 2 ^ 59 }
    ensures value { result ≡ bounded_of most text.now }
    ensures bound { IfSome result (λ number. number ≤ most) }
{
    if text.is_empty() {
        return None;
    }
    let mut number = 0;
    for byte in text {
        number = with_digit(number, digit_value(*byte)?, most);
    }
    (number <= most).then_some(number)
}

/// The negative of a size, which fits 32 bits: the size is at most 2,147,483,648.
fn negate(size: u64) -> i32
    requires { size ≤ 2147483648 }
    ensures { result ≡ neg_ℤ (pos size) }
{
    (0 - size as i64) as i32
}

/// A size as a number of 32 bits: it is at most 2,147,483,647.
fn to_signed(number: u64) -> i32
    requires { number ≤ 2147483647 }
    ensures { result ≡ pos number }
{
    number as i32
}

/// The number that an optional minus and one or more digits write, -2,147,483,648 to 2,147,483,647. None if a text writes no such number.
pub(crate) fn number_of(text: &[u8]) -> Option<i32>
    ensures { result ≡ number_of text.now }
{
    match text {
        [b'-', digits @ ..] => number_at_most(digits, 2_147_483_648).map(negate),
        _ => number_at_most(text, 2_147_483_647).map(to_signed),
    }
}
