//! The numbers that hex digits write in a string.
ghost use Rattle.std.specs.Prelude.{◌≡◌, ◌≤◌, ◌<◌, ◌^◌, length, if◌then◌else◌, Some, None, IfSome};
ghost use Rattle.std.specs.Char.{is_digit};
ghost use Rattle.std.specs.List.{list_all};
ghost use Rattle.std.specs.Str.Parse.{digits_value};

/// The number that at most six hex digits of either case write, if they are hex digits.
pub fn hex_number(digits: &[u8]) -> Option<u32>
    requires { length digits.now ≤ 6 }
    ensures value { result ≡ if list_all (λ d. is_digit d 16) digits.now
        then Some (digits_value 16 digits.now) else None }
    ensures bound { IfSome result (λ number. number < 16 ^ length digits.now) }
{
    let mut number = 0;
    for digit in digits {
        let value = (*digit as char).to_digit(16)?;
        number = number * 16 + value;
    }
    Some(number)
}
