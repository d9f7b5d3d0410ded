//! Words, numbers and names at the front of a text.
ghost use Rattle.std.specs.Prelude.{◌≡◌, ◌<◌, ◌≤◌, ◌+◌, ◌*◌, ◌^◌, ◌==◌, true, IfSome};
ghost use Rattle.std.specs.Option.{option_copied};
ghost use Rattle.std.specs.Char.{digit_value};
ghost use Rattle.std.specs.List.{list_any, list_all, prefix_len};
ghost use Rattle.std.specs.Str.Parse.{digits_value};
ghost use Rattle.cfg_graph.specs.WellFormed.NameFaults.{stands_in_names as byte_stands, marks};
ghost use Rattle.listing_write.specs.Reading.Words as reading;
ghost use Rattle.listing_parts.specs.Found.{seen};

/// The marks that end a name.
const MARKS: [u8; 12] = [
    b'(', b')', b'[', b']', b'{', b'}', b'<', b'>', b',', b';', b'&', b'!',
];

/// One more than the greatest number of 32 bits.
const NUMBERS: u128 = 4294967296;

/// One more than the greatest number that a sign and 127 bits hold.
const CONSTANTS: u128 = 170141183460469231731687303715884105728;

/// What stands behind some bytes, where the text begins with them.
pub fn strip_bytes<'a>(text: &'a [u8], word: &[u8]) -> Option<&'a [u8]>
    ensures { option_copied result ≡ reading.strip word.now text.now }
{
    text.strip_prefix(word)
}

/// What stands behind a word, where the text begins with it.
pub fn strip<'a>(text: &'a [u8], word: &str) -> Option<&'a [u8]>
    ensures { option_copied result ≡ reading.strip word.now text.now }
{
    strip_bytes(text, word.as_bytes())
}

fn is_digit(byte: u8) -> bool
    ensures { result ≡ reading.is_digit byte }
{
    47 < byte && byte < 58
}

fn digit_count(text: &[u8]) -> usize
    ensures { result ≡ prefix_len reading.is_digit text.now }
{
    for (i, byte) in text.iter().enumerate() {
        if !is_digit(*byte) {
            return i;
        }
    }
    text.len()
}

/// The digits at the front, and what stands behind them.
fn digits(text: &[u8]) -> (&[u8], &[u8])
    ensures { (result.0.now, result.1.now) ≡ reading.span reading.is_digit text.now }
{
    text.split_at(digit_count(text))
}

/// The value with one digit more, if it is below the limit.
fn with_digit(value: u128, digit: u8, limit: u128) -> Option<u128>
    requires { reading.is_digit digit ≡ true }
    ensures value { result ≡ reading.limited limit (value * 10 + digit_value digit) }
    ensures fits { IfSome result (λ more. more < limit) }
{
    let more = value.checked_mul(10)?.checked_add(u128::from(digit - 48))?;
    if more < limit { Some(more) } else { None }
}

/// The value of decimal digits, if it is below the limit.
fn value(digits: &[u8], limit: u128) -> Option<u128>
    requires all { list_all reading.is_digit digits.now ≡ true }
    requires some { 0 < limit }
    ensures value { result ≡ reading.limited limit (digits_value 10 digits.now) }
    ensures fits { IfSome result (λ value. value < limit) }
{
    let mut value: u128 = 0;
    for digit in digits {
        match with_digit(value, *digit, limit) {
            Some(more) => value = more,
            None => return None,
        }
    }
    Some(value)
}

/// A number below a limit.
fn number_below(text: &[u8], limit: u128) -> Option<(u128, &[u8])>
    requires { 0 < limit }
    ensures value { seen result ≡ reading.valued limit (reading.span reading.is_digit text.now) }
    ensures fits { IfSome result (λ found. found.0 < limit) }
{
    let (digits, rest) = digits(text);
    if digits.is_empty() {
        return None;
    }
    Some((value(digits, limit)?, rest))
}

/// A number of 32 bits at the front of a text, and what stands behind it.
pub fn number(text: &[u8]) -> Option<(u32, &[u8])>
    ensures { seen result ≡ reading.number text.now }
{
    let (value, rest) = number_below(text, NUMBERS)?;
    Some((value as u32, rest))
}

fn negative(value: u128) -> i128
    requires { value ≤ 2 ^ 127 }
    ensures { result ≡ reading.negative value }
{
    if value == 0 {
        return 0;
    }
    -1 - (value - 1) as i128
}

/// A number of 128 bits with its sign, and what stands behind it.
pub fn read_signed(text: &[u8]) -> Option<(i128, &[u8])>
    ensures { seen result ≡ reading.signed text.now }
{
    match strip(text, "-") {
        Some(text) => {
            let (value, rest) = number_below(text, CONSTANTS + 1)?;
            Some((negative(value), rest))
        }
        None => {
            let (value, rest) = number_below(text, CONSTANTS)?;
            Some((value as i128, rest))
        }
    }
}

fn is_mark(byte: u8) -> bool
    ensures { result ≡ list_any (λ mark. byte == mark) marks }
{
    MARKS.iter().any(|mark| byte == *mark)
}

fn stands_in_names(byte: u8) -> bool
    ensures { result ≡ byte_stands byte }
{
    byte > 32 && !is_mark(byte)
}

fn name_length(text: &[u8]) -> usize
    ensures { result ≡ prefix_len byte_stands text.now }
{
    for (i, byte) in text.iter().enumerate() {
        if !stands_in_names(*byte) {
            return i;
        }
    }
    text.len()
}

/// The longest beginning that can be a name, maybe none, and what stands behind it.
pub fn name(text: &[u8]) -> (&[u8], &[u8])
    ensures { (result.0.now, result.1.now) ≡ reading.span byte_stands text.now }
{
    text.split_at(name_length(text))
}
