ghost use Rattle.std.specs.Prelude.{◌≡◌, ◌≤◌, IfSome, ◌-◌, Some, None, if◌then◌else◌};
ghost use Rattle.uni_base.specs.Words.{is_digit};
ghost use Rattle.uni_base.specs.Numbers.{id_of, number_between, number_of};

use crate::EntityId;

/// Reads a number as scripts write it: `0`, or 1 to 20 digits whose first is not `0`.
pub fn read_number(text: &[u8]) -> Option<u128>
    ensures { result ≡ number_of text.now }
{
    if text.is_empty() || text.len() > 20 || (text[0] == b'0' && text.len() > 1) {
        return None;
    }
    let mut value: u128 = 0;
    for byte in text {
        value = value * 10 + digit(*byte)? as u128;
    }
    Some(value)
}

/// Reads a number from `low` to `high`.
pub fn read_between(text: &[u8], low: u64, high: u64) -> Option<u64>
    ensures number { result ≡ number_between low high text.now }
    ensures within { IfSome result (λ n. (low ≤ n) × (n ≤ high)) }
{
    let number = read_number(text)?;
    if low as u128 <= number && number <= high as u128 {
        Some(number as u64)
    } else {
        None
    }
}

/// Reads the id of an entity.
pub fn read_id(text: &[u8]) -> Option<EntityId>
    ensures { result ≡ id_of text.now }
{
    EntityId::new(read_between(text, 1, u64::MAX)?)
}

fn digit(byte: u8) -> Option<u8>
    ensures { result ≡ (if is_digit byte then Some (byte - 48) else None) }
{
    match byte {
        b'0'..=b'9' => Some(byte - b'0'),
        _ => None,
    }
}
