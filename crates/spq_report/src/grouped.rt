//! Numbers with separators of thousands.

use std::alloc::{AllocError, Global};

/// Returns a number in decimal, with a comma after each three digits from the right, as in `48,116`.
pub(crate) fn grouped(alloc: Global, number: u128) -> Result<String, AllocError> {
    let digits = format!(in alloc; "{number}")?;
    let count = digits.len();
    let mut text = String::new(alloc);
    for (i, digit) in digits.chars().enumerate() {
        if i > 0 && count.saturating_sub(i) % 3 == 0 {
            text.push(',')?;
        }
        text.push(digit)?;
    }
    Ok(text)
}
