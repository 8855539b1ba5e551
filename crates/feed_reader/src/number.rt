ghost use Rattle.std.specs.Prelude.{◌≡◌, ◌≤◌, ◌-◌, true, IfSome, Some, None, length, if◌then◌else◌};
ghost use Rattle.std.specs.List.{list_all};
ghost use Rattle.std.specs.Str.Parse.{digits_value};
ghost use Rattle.uni_base.specs.Numbers.{number_between};
ghost use Rattle.uni_base.specs.Words.{is_digit};
ghost use Rattle.feed_reader.specs.Digits.{AreLeading};

/// The most digits that are read in 64 bits: no number of so many comes to 2^64.
pub(crate) const SHORT: usize = 19;

/// Digits at the front of a text, and the number that they write.
#[derive(Clone, Copy)]
pub(crate) struct Digits {
    pub(crate) count: usize,
    pub(crate) value: u64,
}

/// All digits at the front of a text, or the first 19.
#[inline(always)]
pub(crate) fn leading_digits(text: &[u8]) -> Digits
    ensures { AreLeading text.now result }
{
    let mut value: u64 = 0;
    for (count, byte) in text.iter().enumerate() {
        if count == SHORT {
            return Digits { count, value };
        }
        match digit(*byte) {
            Some(digit) => value = value * 10 + digit as u64,
            None => return Digits { count, value },
        }
    }
    Digits {
        count: text.len(),
        value,
    }
}

/// The number from `low` to `high` that a field of digits writes, by its value.
#[inline(always)]
pub(crate) fn number_written(field: &[u8], value: u64, low: u64, high: u64) -> Option<u64>
    requires few { length field.now ≤ 19 }
    requires digits { list_all is_digit field.now ≡ true }
    requires value { value ≡ digits_value 10 field.now }
    ensures number { result ≡ number_between low high field.now }
    ensures within { IfSome result (λ n. (low ≤ n) × (n ≤ high)) }
{
    if field.is_empty() || (field[0] == b'0' && field.len() > 1) {
        return None;
    }
    if low <= value && value <= high {
        Some(value)
    } else {
        None
    }
}

fn digit(byte: u8) -> Option<u8>
    ensures { result ≡ (if is_digit byte then Some (byte - 48) else None) }
{
    match byte {
        b'0'..=b'9' => Some(byte - b'0'),
        _ => None,
    }
}
