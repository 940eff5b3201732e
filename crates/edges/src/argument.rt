// The argument: how many commands it asks for.
ghost use Rattle.std.specs.Prelude.{◌≡◌, ◌-◌};
ghost use Rattle.edges.specs.Page.{is_number, asked_in};

use fixed::least;

// The most commands that are told apart, more than any script has.
pub(crate) const MOST_COMMANDS: usize = 4294967295;

// Whether some text is a whole number.
pub(crate) fn is_number(text: &[u8]) -> bool
    ensures { result ≡ is_number text.now }
{
    !text.is_empty() && text.iter().all(u8::is_ascii_digit)
}

// What a digit is worth.
fn worth(digit: u8) -> usize
    ensures { result ≡ digit - 48 }
{
    digit.saturating_sub(b'0') as usize
}

// The number that digits say, or the most that is told apart.
pub(crate) fn number_in(text: &[u8]) -> usize
    ensures { result ≡ asked_in text.now }
{
    let mut number = 0;
    for digit in text {
        number = least(10 * number + worth(*digit), MOST_COMMANDS);
    }
    number
}
