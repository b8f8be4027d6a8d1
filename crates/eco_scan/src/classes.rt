//! The bytes of tokens.
ghost use Rattle.std.specs.Prelude.{◌≡◌, ◌-◌, true, Option, None, Some, if◌then◌else◌};
ghost use Rattle.eco_ids.specs.Names.{may_begin, may_follow};
ghost use Rattle.eco_scan.specs.Tokens.{is_white, is_digit};
ghost use Rattle.eco_scan.specs.Reader.Machine.{with_digit};

/// A space, a tab or the end of a line.
pub fn is_white_space(byte: u8) -> bool
    ensures { result ≡ is_white byte }
{
    matches!(byte, b' ' | b'\t' | b'\n' | b'\r')
}

/// A letter or an underscore, which may begin a name.
pub fn is_name_start(byte: u8) -> bool
    ensures { result ≡ may_begin byte }
{
    matches!(byte, b'A'..=b'Z' | b'a'..=b'z' | b'_')
}

/// What may follow in a name: a letter, a digit or an underscore.
pub fn is_name_byte(byte: u8) -> bool
    ensures { result ≡ may_follow byte }
{
    is_name_start(byte) || is_decimal_digit(byte)
}

/// One of 0 to 9.
pub fn is_decimal_digit(byte: u8) -> bool
    ensures { result ≡ is_digit byte }
{
    byte.is_ascii_digit()
}

/// What a decimal digit counts.
pub fn digit(byte: u8) -> Option<u8>
    ensures { result ≡ if is_digit byte then Some (byte - 48) else None }
{
    if is_decimal_digit(byte) {
        Some(byte - b'0')
    } else {
        None
    }
}

/// A number with one more digit, if that is no digit behind a lone 0 and the number stays within a bound.
pub fn grow(most: u32, number: u32, digit: u8) -> Option<u32>
    requires { is_digit digit ≡ true }
    ensures { result ≡ with_digit most number digit }
{
    let next = u64::from(number) * 10 + u64::from(digit - b'0');
    if number > 0 && next <= u64::from(most) {
        Some(next as u32)
    } else {
        None
    }
}
