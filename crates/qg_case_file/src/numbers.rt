// Numbers of a line.
use crate::{Complaint, Number};
use std::alloc::Global;

/// A decimal.
pub(crate) fn number_of(text: &str) -> Result<u64, Complaint> {
    text.parse::<u64>().map_err(|_| Complaint::Number)
}

/// A decimal of at most 255.
pub(crate) fn small_number_of(text: &str) -> Result<u8, Complaint> {
    text.parse::<u8>().map_err(|_| Complaint::Number)
}

/// Two decimals, parted by a space.
pub(crate) fn two_numbers_of(text: &str) -> Result<(u64, u64), Complaint> {
    let Some((first, second)) = text.split_once(' ') else {
        return Err(Complaint::Number);
    };
    Ok((number_of(first)?, number_of(second)?))
}

/// A decimal, or the word `each`.
pub(crate) fn choice_of(text: &str) -> Result<Number, Complaint> {
    match text {
        "each" => Ok(Number::Each),
        _ => Ok(Number::Given(number_of(text)?)),
    }
}

/// Some of these, parted by spaces.
pub(crate) fn choices_of(alloc: Global, text: &str) -> Result<Vec<Number>, Complaint> {
    let mut numbers = Vec::new(alloc);
    for word in text.split(' ') {
        numbers.push(choice_of(word)?)?;
    }
    Ok(numbers)
}
