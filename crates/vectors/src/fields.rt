// The single words of a line.

/// A number of any type, decimal or hexadecimal behind `0x`.
pub fn number<N: TryFrom<u64>>(word: &str) -> Option<N>
where
    N::Error: Drop,
{
    let number = match word.strip_prefix("0x") {
        Some(digits) => u64::from_str_radix(digits, 16),
        None => word.parse(),
    };
    N::try_from(number.ok()?).ok()
}

/// `0` or `1`.
pub fn flag(word: &str) -> Option<bool> {
    match word {
        "0" => Some(false),
        "1" => Some(true),
        _ => None,
    }
}
