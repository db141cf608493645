//! Numbers written with digits, for the readers and printers of codes, numbers and days.

ghost use Rattle.std.specs.Prelude.{◌≡◌, ◌^◌, ◌<◌, ◌≤◌, length};
ghost use Rattle.std.specs.Option.{SomeIff};
ghost use Rattle.keycard_rules.specs.{Numerals.digit_value, Numerals.digit_byte, Numerals.number_of, Numerals.numeral};
ghost use Rattle.keycard_rules.specs.{Numerals.fixed_text, Numerals.IsNumeral};

/// What a digit of either case stands for, and 255 at any other byte.
#[tactic(auto, unfolding(crate::specs::Numerals::digit_value))]
const fn value_of_digit(byte: u8) -> u8
    ensures { result ≡ digit_value byte }
{
    match byte {
        b'0'..=b'9' => byte - b'0',
        b'A'..=b'F' => byte - 55,
        b'a'..=b'f' => byte - 87,
        _ => 255,
    }
}

/// The number that the text writes in the base, or `None` where it isn't one to `most` digits of it. Letters may be of
/// either case.
pub fn read_numeral(text: &[u8], base: u64, most: usize) -> Option<u64>
    requires least { 2 ≤ base }
    requires known { base ≤ 16 }
    requires fits { base ^ most < 2 ^ 63 }
    ensures { result ≡ numeral base most text.now }
{
    read_digits(text, base, most)
}

fn read_digits(text: &[u8], base: u64, most: usize) -> Option<u64>
    requires least { 2 ≤ base }
    requires known { base ≤ 16 }
    requires fits { base ^ most < 2 ^ 63 }
    ensures { SomeIff result (IsNumeral base most text.now) (number_of base text.now) }
{
    if text.is_empty() || text.len() > most {
        return None;
    }
    let mut number = 0;
    for byte in text {
        let digit = u64::from(value_of_digit(*byte));
        if digit >= base {
            return None;
        }
        number = number * base + digit;
    }
    Some(number)
}

#[tactic(auto, unfolding(crate::specs::Numerals::digit_byte))]
const fn byte_of_digit(digit: u8) -> u8
    requires { digit < 16 }
    ensures { result ≡ digit_byte digit }
{
    if digit <= 9 { digit + b'0' } else { digit + 87 }
}

/// Writes the last digits of the number, as many as there is room for, with small letters and leading zeros.
pub fn write_fixed(number: u64, base: u64, into: &mut [u8])
    requires least { 2 ≤ base }
    requires known { base ≤ 16 }
    ensures { into.new ≡ fixed_text base (length into.old) number }
{
    let mut rest = number;
    let mut place = into.len();
    while place > 0 {
        place -= 1;
        into[place] = byte_of_digit((rest % base) as u8);
        rest /= base;
    }
}
