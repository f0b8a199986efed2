// Numbers in text.
ghost use Rattle.std.specs.Prelude.{◌≡◌};
ghost use Rattle.console.specs.Numbers.{decimal_up_to};

// The number that one decimal digit or more name, where it is at most this. No `parse`, which takes a sign.
pub fn read_decimal(text: &[u8], most: u16) -> Option<u16>
    ensures { result ≡ decimal_up_to most text.now }
{
    if text.is_empty() {
        return None;
    }
    let mut number = 0u32;
    for code in text {
        if *code < b'0' || *code > b'9' {
            return None;
        }
        number = number * 10 + u32::from(*code - b'0');
        if number > u32::from(most) {
            return None;
        }
    }
    Some(number as u16)
}
