//! Numbers and addresses, from words.
ghost use Rattle.std.specs.Prelude.{◌≡◌, ◌<◌, ◌^◌, ◌&&◌, nat_lt, if◌then◌else◌, Some, None, IfSome, length};
ghost use Rattle.pas_trace.specs.Numbers.{number_of, address_of_word, all_digits, value_from, all_hex, hex_from, is_hex, hex_value};

/// The value of decimal digits. None where a byte is no digit, or the value is 2^64 or more.
#[inline]
fn value_of_digits(word: &[u8]) -> Option<u64>
    ensures { result ≡ (if all_digits word.now && nat_lt (value_from 0 word.now) (2 ^ 64) then Some (value_from 0 word.now) else None) }
{
    let mut value: u64 = 0;
    for byte in word {
        if *byte < b'0' || *byte > b'9' {
            return None;
        }
        let digit = (*byte - b'0') as u64;
        if value > (u64::MAX - digit) / 10 {
            return None;
        }
        value = 10 * value + digit;
    }
    Some(value)
}

/// The number that a word is: decimal, below 2^64, with no leading zero. None for any other word.
#[inline]
pub fn number(word: &[u8]) -> Option<u64>
    ensures { result ≡ number_of word.now }
{
    if word.is_empty() || (word[0] == b'0' && word.len() > 1) {
        return None;
    }
    value_of_digits(word)
}

/// The value of a lower-case hexadecimal digit.
#[inline]
fn digit_value(byte: u8) -> Option<u64>
    ensures { result ≡ (if is_hex byte then Some (hex_value byte) else None) }
{
    match byte {
        b'0'..=b'9' => Some((byte - b'0') as u64),
        b'a'..=b'f' => Some((byte - 87) as u64),
        _ => None,
    }
}

/// The value of eight hexadecimal digits. None where a byte is no such digit.
fn value_of_hex(digits: &[u8]) -> Option<u64>
    requires { length digits.now ≡ 8 }
    ensures small { IfSome result (λ n. n < 2 ^ 32) }
    ensures value { result ≡ (if all_hex digits.now then Some (hex_from 0 digits.now) else None) }
{
    let mut value: u64 = 0;
    for byte in digits {
        let Some(digit) = digit_value(*byte) else {
            return None;
        };
        value = 16 * value + digit;
    }
    Some(value)
}

/// The address that a word is: `0x` and eight lower-case hexadecimal digits. None for any other word.
pub(crate) fn address(word: &[u8]) -> Option<u64>
    ensures value { result ≡ address_of_word word.now }
    ensures small { IfSome result (λ n. n < 2 ^ 32) }
{
    if word.len() != 10 || word[0] != b'0' || word[1] != b'x' {
        return None;
    }
    value_of_hex(&word[2..])
}
