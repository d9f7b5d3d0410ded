//! Numbers of the command line.
ghost use Rattle.std.specs.Prelude.{◌≡◌, ◌≤◌, length};
ghost use Rattle.std.specs.List.{list_all};
ghost use Rattle.mirdrop_program.specs.Words as words;

fn is_digit(byte: u8) -> bool
    ensures { result ≡ words.is_digit byte }
{
    48 <= byte && byte <= 57
}

fn are_digits(text: &[u8]) -> bool
    ensures { result ≡ list_all words.is_digit text.now }
{
    text.iter().all(|byte| is_digit(*byte))
}

/// The value of decimal digits, of which there are at most ten.
pub fn digits_value(digits: &[u8]) -> u64
    requires { length digits.now ≤ 10 }
    ensures { result ≡ words.digits_value digits.now }
{
    let mut value = 0;
    for digit in digits {
        value = 10 * value + u64::from(digit.saturating_sub(48));
    }
    value
}

fn is_number(text: &[u8]) -> bool
    ensures { result ≡ words.is_number text.now }
{
    1 <= text.len() && text.len() <= 10 && are_digits(text)
}

/// Whether a text is one to ten decimal digits of a number that is not greater than `most`.
pub fn is_up_to(most: u64, text: &[u8]) -> bool
    ensures { result ≡ words.is_up_to most text.now }
{
    if !is_number(text) {
        return false;
    }
    digits_value(text) <= most
}
