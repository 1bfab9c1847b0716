//! Decimal numbers.
ghost use Rattle.std.specs.Prelude.{◌≡◌, ◌<◌, ◌≤◌, ◌^◌, ◌-◌, ◌+◌, ◌*◌, ◌&&◌, ◌||◌, ◌==◌, Some, None, nat_lt, if◌then◌else◌, length, true};
ghost use Rattle.std.specs.List.{list_all};
ghost use Rattle.ucm_text.specs.Decimal.{below_u64, is_decimal, is_digit, number_of_word, value_of};

fn is_digit_byte(b: u8) -> bool
    ensures { result ≡ is_digit b }
{
    b >= b'0' && b <= b'9'
}

fn are_digits(word: &[u8]) -> bool
    ensures { result ≡ list_all is_digit word.now }
{
    word.iter().all(|b| is_digit_byte(*b))
}

fn is_decimal_word(word: &[u8]) -> bool
    ensures { result ≡ is_decimal word.now }
{
    match word {
        [] => false,
        [_] => are_digits(word),
        [first, ..] => *first != b'0' && are_digits(word),
    }
}

/// The value with one digit more, if it is below 2^64.
fn with_digit(value: u64, digit: u8) -> Option<u64>
    requires { is_digit digit ≡ true }
    ensures { result ≡ below_u64 (value * 10 + (digit - 48)) }
{
    value.checked_mul(10)?.checked_add(u64::from(digit - b'0'))
}

/// The value of digits, if it is below 2^64.
fn value(digits: &[u8]) -> Option<u64>
    requires { list_all is_digit digits.now ≡ true }
    ensures { result ≡ below_u64 (value_of digits.now) }
{
    let mut value = 0u64;
    for digit in digits {
        value = with_digit(value, *digit)?;
    }
    Some(value)
}

/// The number of a word of decimal digits without leading zeros, if it is one and is below 2^64. It takes no memory.
pub fn number_of(word: &[u8]) -> Option<u64>
    ensures { result ≡ number_of_word word.now }
{
    if is_decimal_word(word) {
        value(word)
    } else {
        None
    }
}
