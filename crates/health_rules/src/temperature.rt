ghost use Rattle.std.specs.Prelude.{◌≡◌};
ghost use Rattle.health_rules.specs.Temperature.{code_of};

// The temperature code of a reading in kelvins, 0 for no reading: degrees Celsius as a two's complement byte, held between -60 and 127.
pub fn temperature_code(kelvins: u16) -> u8
    ensures { result ≡ code_of kelvins }
{
    if kelvins == 0 {
        return 0x80;
    }
    // No `clamp`: it took twice the time.
    let celsius = i32::from(kelvins) - 273;
    if celsius >= 127 {
        0x7f
    } else if celsius <= -60 {
        0xc4
    } else {
        (celsius as i8).cast_unsigned()
    }
}
