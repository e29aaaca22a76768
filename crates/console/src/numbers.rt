// Members' numbers on the command line.
ghost use Rattle.std.specs.Prelude.{◌≡◌};
ghost use Rattle.console.specs.Numbers.{digit_of, number_in};

fn digit_value(byte: u8) -> Option<u32>
    ensures { result ≡ digit_of byte }
{
    (byte as char).to_digit(10)
}

// A member's number in decimal digits, or none if the word is anything else. Whatever is a thousand or more is told as
// a thousand: no circle has so many members.
pub fn member_number(word: &[u8]) -> Option<u32>
    ensures { result ≡ number_in word.now }
{
    if word.is_empty() {
        return None;
    }
    let mut number = 0;
    for byte in word {
        let digit = digit_value(*byte)?;
        number = 1000u32.min(number * 10 + digit);
    }
    Some(number)
}
