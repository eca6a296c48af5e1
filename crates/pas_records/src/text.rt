//! Numbers, names and kinds at the end of a text that is being written, of whatever capacity.
ghost use Rattle.std.specs.{Prelude.{◌≡◌, ◌+◌, ◌/◌, ◌%◌, ◌≤◌, ◌<◌, ◌∷◌, [], ◌++◌, length}, Fmt.decimal};
ghost use Rattle.arrayvec.specs.ArrayString.{array_string_len};
ghost use Rattle.pas_profile.specs.Directories.{IsKind};
ghost use Rattle.pas_records.specs.Lines.{hex_digit as digit_of, hex_digits, kind_text, name_text};

use arrayvec::ArrayString;
use itoa::{Buffer, Integer};
use pas_profile::{Kind, Name};

/// The most bytes of a line, with its newline. The longest, of a report, have at most 121.
pub const LINE_BYTES: usize = 128;

/// A line, with its newline.
pub type Line = ArrayString<LINE_BYTES>;

/// Lines that wait to be written together.
pub type Lines = ArrayString<65536>;

/// A number that lines show: of at most 64 bits, and without a sign.
pub trait Number: Integer {
    /// The same number in 64 bits.
    fn wide(self) -> u64
        ensures same { Self.text self ≡ decimal result }
        ensures fits { length (decimal result) ≤ Self.MAX_STR_LEN };
}

impl Number for u8 {
    #[inline(always)]
    fn wide(self) -> u64 {
        self as u64
    }
}

impl Number for u16 {
    #[inline(always)]
    fn wide(self) -> u64 {
        self as u64
    }
}

impl Number for u32 {
    #[inline(always)]
    fn wide(self) -> u64 {
        self as u64
    }
}

impl Number for u64 {
    #[inline(always)]
    fn wide(self) -> u64 {
        self
    }
}

/// The digits of numbers to base 16.
const DIGITS: &str = "0123456789abcdef";

/// A number below 16 as a digit.
#[inline(always)]
fn digit(n: usize) -> &'static str
    requires { n < 16 }
    ensures { result.now ≡ digit_of n ∷ [] }
{
    &DIGITS[n..n + 1]
}

/// Adds a number below 100 as two decimal digits.
#[inline(always)]
fn push_two<const C: usize>(text: &mut ArrayString<C>, n: u64)
    requires small { n < 100 }
    requires room { array_string_len text.old + 2 ≤ C }
    ensures bytes { text.new.bytes ≡ text.old.bytes ++ digit_of (n / 10) ∷ digit_of (n % 10) ∷ [] }
    ensures len { array_string_len text.new ≡ array_string_len text.old + 2 }
{
    text.push_str(digit((n / 10) as usize));
    text.push_str(digit((n % 10) as usize));
}

/// Adds a number of many digits, in decimal.
#[inline(never)]
fn push_long<const C: usize>(text: &mut ArrayString<C>, n: u64)
    requires { array_string_len text.old + length (decimal n) ≤ C }
    ensures { text.new.bytes ≡ text.old.bytes ++ decimal n }
{
    text.push_str(Buffer::new().format(n));
}

/// Adds a number in 64 bits, in decimal. Most have up to three digits, which are written one by one.
#[inline(always)]
fn push_decimal<const C: usize>(text: &mut ArrayString<C>, n: u64)
    requires { array_string_len text.old + length (decimal n) ≤ C }
    ensures { text.new.bytes ≡ text.old.bytes ++ decimal n }
{
    if n < 10 {
        text.push_str(digit(n as usize));
    } else if n < 100 {
        push_two(text, n);
    } else if n < 1000 {
        text.push_str(digit((n / 100) as usize));
        push_two(text, n % 100);
    } else {
        push_long(text, n);
    }
}

/// Adds a number, in decimal.
#[inline(always)]
pub(crate) fn push_number<I: Number, const C: usize>(text: &mut ArrayString<C>, n: I)
    requires { array_string_len text.old + I.MAX_STR_LEN ≤ C }
    ensures bytes { text.new.bytes ≡ text.old.bytes ++ I.text n }
    ensures len { array_string_len text.new ≤ array_string_len text.old + I.MAX_STR_LEN }
{
    push_decimal(text, n.wide());
}

/// Adds these words and a number.
#[inline(always)]
pub fn push_field<I: Number, const C: usize>(text: &mut ArrayString<C>, words: &str, n: I)
    requires { array_string_len text.old + length words.now + I.MAX_STR_LEN ≤ C }
    ensures bytes { text.new.bytes ≡ text.old.bytes ++ (words.now ++ I.text n) }
    ensures len { array_string_len text.new ≤ array_string_len text.old + length words.now + I.MAX_STR_LEN }
{
    text.push_str(words);
    push_number(text, n);
}

/// Adds the last so many hexadecimal digits of a number, at most 16.
#[inline(always)]
pub(crate) fn push_hex<const C: usize>(text: &mut ArrayString<C>, n: u64, digits: u8)
    requires digits { digits ≤ 16 }
    requires room { array_string_len text.old + digits ≤ C }
    ensures bytes { text.new.bytes ≡ text.old.bytes ++ hex_digits digits n }
    ensures len { array_string_len text.new ≡ array_string_len text.old + digits }
{
    for place in (0..digits).rev() {
        text.push_str(digit(((n >> (4 * place)) % 16) as usize));
    }
}

/// Adds an address and a turn, with a space before them.
#[inline(always)]
pub(crate) fn push_name<const C: usize>(text: &mut ArrayString<C>, name: Name)
    requires { array_string_len text.old + 37 ≤ C }
    ensures bytes { text.new.bytes ≡ text.old.bytes ++ name_text name }
    ensures len { array_string_len text.new ≤ array_string_len text.old + 37 }
{
    text.push_str(" 0x");
    push_hex(text, name.address.0 as u64, 8);
    push_field(text, " turn ", name.turn);
}

/// Adds the text of a kind.
#[inline]
pub fn push_kind<const C: usize>(text: &mut ArrayString<C>, kind: Kind)
    requires kind { IsKind kind }
    requires room { array_string_len text.old + 16 ≤ C }
    ensures bytes { text.new.bytes ≡ text.old.bytes ++ kind_text kind }
    ensures len { array_string_len text.new ≤ array_string_len text.old + 16 }
{
    match kind {
        Kind::Class(class) => push_field(text, "class ", pas_profile::classes::class_size(class)),
        Kind::Bitfit => text.push_str("bitfit"),
        Kind::Shared => text.push_str("shared"),
        Kind::Large => text.push_str("large"),
    }
}
