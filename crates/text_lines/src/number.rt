ghost use Rattle.std.specs.Prelude.{◌≡◌, ◌+◌, ◌-◌, ◌*◌, ◌≤◌, nat_le, true, if◌then◌else◌, Some, None};
ghost use Rattle.std.specs.List.{list_all};
ghost use Rattle.text_lines.specs.Numbers.{is_digit, value_of, number_of, within, small};

/// Why a field isn't a number up to a limit.
#[derive(Clone, Copy, Debug, PartialEq, Eq)]
pub enum NumberFault {
    /// It is empty, or has a byte that is no ASCII digit.
    NoNumber,
    /// It is a number, and over the limit.
    TooGreat,
}

fn are_digits(field: &[u8]) -> bool
    ensures { result ≡ list_all is_digit field.now }
{
    field.iter().all(|b| *b >= b'0' && *b <= b'9')
}

// The value after one digit more, unless it passes the limit.
fn with_digit(value: u64, byte: u8, limit: u64) -> Option<u64>
    requires { 48 ≤ byte }
    ensures { let next = 10 * value + (byte - 48) in
        result ≡ (if nat_le next limit then Some next else None) }
{
    let digit = u64::from(byte - b'0');
    if value > (u64::MAX - digit) / 10 {
        return None;
    }
    let next = 10 * value + digit;
    if next <= limit { Some(next) } else { None }
}

// The value of these digits, unless it passes the limit.
fn value_up_to(digits: &[u8], limit: u64) -> Option<u64>
    requires { list_all is_digit digits.now ≡ true }
    ensures { let value = value_of digits.now in
        result ≡ (if nat_le value limit then Some value else None) }
{
    let mut value = 0;
    for byte in digits {
        value = with_digit(value, *byte, limit)?;
    }
    Some(value)
}

/// The number that a field is, up to a limit. It may have any count of digits, and leading zeros.
pub fn read_number(field: &[u8], limit: u64) -> Result<u64, NumberFault>
    ensures { result ≡ within limit (number_of field.now) }
{
    if field.is_empty() || !are_digits(field) {
        return Err(NumberFault::NoNumber);
    }
    value_up_to(field, limit).ok_or(NumberFault::TooGreat)
}

/// The number that a field is, if it is one of at most 4,294,967,295.
pub fn read_small_number(field: &[u8]) -> Option<u32>
    ensures { result ≡ small (number_of field.now) }
{
    match read_number(field, u64::from(u32::MAX)) {
        Ok(number) => Some(number as u32),
        Err(_) => None,
    }
}
