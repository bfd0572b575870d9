// The words of a plan's text.

ghost use Rattle.std.specs.Prelude.{◌≡◌, ◌==◌, Some, position};
ghost use Rattle.adf_plans.specs.PlanTexts.{before_byte, behind_byte, behind_line, decimal_number, ends_in_space, first_line};
ghost use Rattle.adf_plans.specs.PlanTexts.{priority_down, priority_of, priority_up};

/// The largest number of a text.
pub const MOST_NUMBER: u32 = 1_048_576;

// The index of the first byte of this value.
fn place_of(text: &[u8], byte: u8) -> Option<usize>
    ensures { result ≡ position (λ c. c == byte) text.now }
{
    text.iter().position(|c| *c == byte)
}

/// The bytes before and behind the first byte of this value; all bytes and none, if there is none.
#[tactic(auto, using(crate::proofs::Cuts::cuts), unfolding(crate::specs::PlanTexts::before_byte, crate::specs::PlanTexts::behind_byte))]
pub fn cut(text: &[u8], byte: u8) -> (&[u8], &[u8])
    ensures front { result.0.now ≡ before_byte byte text.now }
    ensures rest { result.1.now ≡ behind_byte byte text.now }
{
    match place_of(text, byte) {
        Some(i) => (&text[..i], &text[i + 1..]),
        None => (text, &text[text.len()..]),
    }
}

/// The first line of a text, no bytes if no line feed ends it, and the text behind its line feed.
pub fn cut_line(text: &[u8]) -> (&[u8], &[u8])
    ensures line { result.0.now ≡ first_line text.now }
    ensures rest { result.1.now ≡ behind_line text.now }
{
    let (line, rest) = cut(text, b'\n');
    if line.len() < text.len() {
        (line, rest)
    } else {
        (&text[..0], rest)
    }
}

/// Whether a line ends in a space.
pub fn ends_in_space(line: &[u8]) -> bool
    ensures { result ≡ ends_in_space line.now }
{
    !line.is_empty() && line[line.len() - 1] == b' '
}

/// The number of decimal digits, at most `MOST_NUMBER`.
#[tactic(auto, using(crate::proofs::Cuts::no_room, crate::proofs::Cuts::digit_read, crate::proofs::Cuts::number_done))]
pub fn read_number(text: &[u8]) -> Option<u32>
    ensures { result ≡ decimal_number text.now }
{
    if text.is_empty() {
        return None;
    }
    let mut number = 0u32;
    for i in 0..text.len() {
        let digit = text[i];
        if digit < b'0' {
            return None;
        }
        if b'9' < digit {
            return None;
        }
        number = 10 * number + u32::from(digit - b'0');
        if MOST_NUMBER < number {
            return None;
        }
    }
    Some(number)
}

// A boot priority that is not negative.
fn priority_up(number: u32) -> Option<i8>
    ensures { result ≡ priority_up (Some number) }
{
    if number <= 127 {
        Some(number as i8)
    } else {
        None
    }
}

// A boot priority that is not positive.
fn priority_down(number: u32) -> Option<i8>
    ensures { result ≡ priority_down (Some number) }
{
    if number <= 128 {
        Some((0 - number as i32) as i8)
    } else {
        None
    }
}

/// The boot priority of a word.
pub fn read_priority(text: &[u8]) -> Option<i8>
    ensures { result ≡ priority_of text.now }
{
    if text.is_empty() {
        return None;
    }
    if text[0] == b'-' {
        priority_down(read_number(&text[1..])?)
    } else {
        priority_up(read_number(text)?)
    }
}
