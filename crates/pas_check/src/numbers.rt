//! Numbers at their places in a line.
ghost use Rattle.std.specs.Prelude.{◌≡◌, ◌≤◌, ◌<◌, ◌%◌, ◌^◌, drop};
ghost use Rattle.pas_trace.specs.Numbers.{hex_value};
ghost use Rattle.pas_check.specs.Readings.{byte_at, number_at, past_digits as after_digits, hex_after, of_u8, of_u32};

/// The byte at this place, or 0 where the text ends before it.
#[inline]
pub(crate) fn byte(text: &[u8], place: usize) -> u8
    ensures { result ≡ byte_at place text.now }
{
    if place < text.len() { text[place] } else { 0 }
}

/// What stands from this place on.
#[inline]
pub(crate) fn skip(text: &[u8], count: usize) -> &[u8]
    ensures { result.now ≡ drop count text.now }
{
    if count < text.len() {
        &text[count..]
    } else {
        &text[text.len()..]
    }
}

/// The number whose digits stand in front. One of more than 64 bits is read as 0.
pub(crate) fn number(text: &[u8]) -> u64
    ensures { result ≡ number_at text.now }
{
    let mut value: u64 = 0;
    for byte in text {
        if *byte < b'0' || *byte > b'9' {
            return value;
        }
        let digit = (*byte - b'0') as u64;
        if value > (u64::MAX - digit) / 10 {
            return 0;
        }
        value = 10 * value + digit;
    }
    value
}

/// .. which is read as 0 where it has more than 8 bits.
#[inline]
pub(crate) fn number8(text: &[u8]) -> u8
    ensures { result ≡ of_u8 text.now }
{
    let n = number(text);
    if n < 256 { n as u8 } else { 0 }
}

/// .. which is read as 0 where it has more than 32 bits.
#[inline]
pub(crate) fn number32(text: &[u8]) -> u32
    ensures { result ≡ of_u32 text.now }
{
    let n = number(text);
    if n < 4294967296 { n as u32 } else { 0 }
}

/// What stands behind the digits in front.
pub(crate) fn past_digits(text: &[u8]) -> &[u8]
    ensures { result.now ≡ after_digits text.now }
{
    for place in 0..text.len() {
        if text[place] < b'0' || text[place] > b'9' {
            return &text[place..];
        }
    }
    &text[text.len()..]
}

/// The value of a hexadecimal digit, and some number below 16 for any other byte.
#[inline]
fn nibble(byte: u8) -> u64
    ensures { result ≡ hex_value byte % 16 }
{
    let value = match byte {
        b'0'..=b'9' => byte - b'0',
        _ => byte.saturating_sub(87),
    };
    (value % 16) as u64
}

/// The value of so many hexadecimal digits, at most 16.
fn hex(text: &[u8], digits: usize) -> u64
    requires { digits ≤ 16 }
    ensures value { result ≡ hex_after digits 0 text.now }
    ensures small { result < 16 ^ digits }
{
    let mut value: u64 = 0;
    for place in 0..digits {
        if place >= text.len() {
            return value;
        }
        value = 16 * value + nibble(text[place]);
    }
    value
}

/// The value of eight hexadecimal digits.
pub(crate) fn hex8(text: &[u8]) -> u32
    ensures { result ≡ hex_after 8 0 text.now }
{
    hex(text, 8) as u32
}

/// The value of sixteen hexadecimal digits.
pub(crate) fn hex16(text: &[u8]) -> u64
    ensures { result ≡ hex_after 16 0 text.now }
{
    hex(text, 16)
}
