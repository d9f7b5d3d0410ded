ghost use Rattle.std.specs.Prelude.{◌≡◌, ◌<◌, ◌^◌, IfSome, IsTrue};
ghost use Rattle.std.specs.Char.{is_ascii_digit};
ghost use Rattle.std.specs.List.{prefix_len};
ghost use Rattle.src_token.specs.Numbers.{is_numeral, number_reading, limited, numeral_value, suffix_of, with_digit};

use crate::characters::spells;
use crate::{Reading, Token, TokenFault};
use mir_base::IntKind;

/// What a run that begins by a digit is.
#[tactic(auto, unfolding(crate::specs::Numbers::number_reading))]
pub fn number(run: &[char]) -> Reading
    ensures { result ≡ number_reading run.now }
{
    let length = numeral_length(run);
    match (value(&run[..length]), suffix(&run[length..])) {
        (Some(value), Some(suffix)) => Reading::Reads(Token::Number { value, suffix }),
        _ => Reading::Fails(TokenFault::BadNumber, 0),
    }
}

/// How many digits and `_` there are at the beginning.
fn numeral_length(run: &[char]) -> usize
    ensures { result ≡ prefix_len is_numeral run.now }
{
    for (i, c) in run.iter().enumerate() {
        if !(c.is_ascii_digit() || *c == '_') {
            return i;
        }
    }
    run.len()
}

/// The value of decimal digits, if it is below 2^64; what is no digit is passed over.
fn value(digits: &[char]) -> Option<u64>
    ensures { result ≡ limited (numeral_value digits.now) }
{
    let mut value: u64 = 0;
    for c in digits {
        if c.is_ascii_digit() {
            match with_one_more(value, *c) {
                Some(more) => value = more,
                None => return None,
            }
        }
    }
    Some(value)
}

fn with_one_more(value: u64, digit: char) -> Option<u64>
    requires { IsTrue (is_ascii_digit digit) }
    ensures value { result ≡ limited (with_digit value digit) }
    ensures fits { IfSome result (λ more. more < 2 ^ 64) }
{
    let unit = u64::from(u32::from(digit) - 48);
    value.checked_mul(10)?.checked_add(unit)
}

/// The integer type that is written behind the digits, if the characters are nothing or a type.
fn suffix(behind: &[char]) -> Option<Option<IntKind>>
    ensures { result ≡ suffix_of behind.now }
{
    if spells("", behind) {
        Some(None)
    } else if spells("i32", behind) {
        Some(Some(IntKind::I32))
    } else if spells("i64", behind) {
        Some(Some(IntKind::I64))
    } else if spells("u32", behind) {
        Some(Some(IntKind::U32))
    } else if spells("u64", behind) {
        Some(Some(IntKind::U64))
    } else if spells("usize", behind) {
        Some(Some(IntKind::Usize))
    } else {
        None
    }
}
