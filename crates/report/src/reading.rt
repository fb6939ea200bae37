// Hexadecimal digits, and the bits that they say.
ghost use Rattle.std.specs.Prelude.{◌≡◌, true};
ghost use Rattle.report.specs.Reading.{is_digit, digit_value, are_digits};
ghost use Rattle.report.specs.Inner.{line_bits};

use ground::Refusal;

// Whether a character is one of 0-9 and a-f.
#[tactic(auto, unfolding(crate::specs::Reading::is_digit))]
fn is_digit(c: u8) -> bool
    ensures { result ≡ is_digit c }
{
    matches!(c, b'0'..=b'9' | b'a'..=b'f')
}

// Whether each character is a digit.
fn all_digits(line: &[u8]) -> bool
    ensures { result ≡ are_digits line.now }
{
    line.iter().all(|c| is_digit(*c))
}

// The number that a digit stands for.
#[tactic(auto, unfolding(crate::specs::Reading::is_digit, crate::specs::Reading::digit_value))]
fn digit_value(c: u8) -> u8
    requires { is_digit c ≡ true }
    ensures { result ≡ digit_value c }
{
    if c <= b'9' { c - b'0' } else { 10 + (c - b'a') }
}

// The bits of a line of 17 digits, each digit's high bit first.
pub(crate) fn bits_of(line: &[u8]) -> Result<[u8; 68], Refusal>
    ensures { result ≡ line_bits line.now }
{
    // The digits are tested before the loop: with an Option for each in it, and `?`, a line takes 1.4 times the time.
    if line.len() != 17 || !all_digits(line) {
        return Err(Refusal::BadLine);
    }
    let mut bits = [0u8; 68];
    for (i, c) in line.iter().enumerate() {
        let digit = digit_value(*c);
        bits[4 * i] = digit / 8 % 2;
        bits[4 * i + 1] = digit / 4 % 2;
        bits[4 * i + 2] = digit / 2 % 2;
        bits[4 * i + 3] = digit % 2;
    }
    Ok(bits)
}
