// Words of calls and of answers.
use crate::Fault;
use qg_num::GroupId;
use std::alloc::{AllocError, Global};

/// A line without its comment.
pub(crate) fn without_comment(line: &str) -> &str {
    match line.split_once('#') {
        Some((front, _)) => front.trim_end(),
        None => line.trim_end(),
    }
}

/// What is before the first space, and what behind it.
pub fn first_word(text: &str) -> (&str, &str) {
    match text.split_once(' ') {
        Some((word, rest)) => (word, rest),
        None => (text, ""),
    }
}

fn decimal_of(word: &str) -> Result<u64, Fault> {
    word.parse::<u64>().map_err(|_| Fault::Number)
}

/// A decimal, or the number of the group LEVEL/ID.
fn number_of(word: &str) -> Result<u64, Fault> {
    let Some((level, id)) = word.split_once('/') else {
        return decimal_of(word);
    };
    match GroupId::new(decimal_of(level)?, decimal_of(id)?) {
        Some(group) => Ok(group.number()),
        None => Err(Fault::Number),
    }
}

/// The numbers of a text. What stands alone as `/` only parts them.
pub fn numbers_of(alloc: Global, text: &str) -> Result<Vec<u64>, Fault> {
    let mut numbers = Vec::new(alloc);
    for word in text.split(' ') {
        if !word.is_empty() && word != "/" {
            numbers.push(number_of(word)?)?;
        }
    }
    Ok(numbers)
}

/// The bytes of a text in hex.
pub fn bytes_of(alloc: Global, text: &str) -> Result<Vec<u8>, Fault> {
    hex::decode(alloc, text).map_err(|_| Fault::Number)
}

/// An answer of one word.
pub fn told(alloc: Global, word: &str) -> Result<String, Fault> {
    Ok(String::from_str(alloc, word)?)
}

/// The answer `yes` or `no`.
pub fn told_if(alloc: Global, is_so: bool) -> Result<String, Fault> {
    told(alloc, if is_so { "yes" } else { "no" })
}

/// A number, or `none`.
pub fn told_number(alloc: Global, number: Option<u64>) -> Result<String, Fault> {
    match number {
        Some(number) => Ok(format!(in alloc; "{number}")?),
        None => told(alloc, "none"),
    }
}

/// Adds a word to an answer.
pub fn add_word(answer: &mut String, word: &str) -> Result<(), AllocError> {
    if !answer.is_empty() {
        answer.push(' ')?;
    }
    answer.push_str(word)
}

/// Adds a group to an answer.
pub fn add_group(alloc: Global, answer: &mut String, group: GroupId) -> Result<(), Fault> {
    let word = format!(in alloc; "{}/{}", group.level(), group.id())?;
    Ok(add_word(answer, word.as_str())?)
}
