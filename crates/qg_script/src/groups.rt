// Quota groups and their limits, read from the front of a text.
ghost use Rattle.std.specs.Prelude.{◌≡◌, ◌<◌, ◌^◌, ◌∷◌, [], ℕ, List, Option, IfOk, IfSome, IfNone};
ghost use Rattle.qg_num.specs.declared.counters.Which.{Which};
ghost use Rattle.qg_grammar.specs.ScriptText.{group_text};
ghost use Rattle.qg_script.specs.Reading.{IsNextGroup, AreGroupWords, IsInherited, IsNextWhich, IsLimit};

use crate::numbers::{first_word, numbers};
use qg_num::{GroupId, GroupList, NoMemory, Which};
use qg_words::decimal_of;
use std::alloc::Global;
use std::str::from_utf8;

// The group whose level and id a word has, parted by a slash.
fn group_of_word(word: &[u8]) -> Option<GroupId>
    ensures found { IfSome result (λ group. word.now ≡ group_text group) }
    ensures fits { IfSome result (λ group. group < 2 ^ 64) }
    ensures none { IfNone result ((group : ℕ) → group < 2 ^ 64 → word.now ≡ group_text group → ⊥) }
{
    let Ok(word) = from_utf8(word) else {
        return None;
    };
    let (level, id) = word.split_once('/')?;
    let level = decimal_of(level)?;
    let id = decimal_of(id)?;
    GroupId::new(level, id)
}

/// The group behind a space, and what is behind it.
pub(crate) fn next_group(text: &[u8]) -> Option<(GroupId, &[u8])>
    ensures found { IfSome result (λ found. IsNextGroup text.now found.0 found.1.now) }
    ensures none { IfNone result ((group : ℕ) (rest : List ℕ) → IsNextGroup text.now group rest → ⊥) }
{
    let text = text.strip_prefix(b" ")?;
    let (word, rest) = first_word(text);
    let group = group_of_word(word)?;
    Some((group, rest))
}

/// The group of a text, behind a space; `None` exactly where it isn't that of one.
pub(crate) fn one_group(text: &[u8]) -> Option<GroupId>
    ensures found { IfSome result (λ group. AreGroupWords text.now (group ∷ [])) }
    ensures none { IfNone result ((group : ℕ) → AreGroupWords text.now (group ∷ []) → ⊥) }
{
    let Some(next) = next_group(text) else {
        return None;
    };
    if next.1.is_empty() {
        Some(next.0)
    } else {
        None
    }
}

/// The groups of a text, each behind a space; `None` exactly where it isn't that of two.
pub(crate) fn two_groups(text: &[u8]) -> Option<(GroupId, GroupId)>
    ensures found { IfSome result (λ found. AreGroupWords text.now (found.0 ∷ found.1 ∷ [])) }
    ensures none { IfNone result ((first second : ℕ) → AreGroupWords text.now (first ∷ second ∷ []) → ⊥) }
{
    let Some(next) = next_group(text) else {
        return None;
    };
    let second = one_group(next.1)?;
    Some((next.0, second))
}

// The groups of a text, each behind a space; `None` exactly where it isn't that of some groups.
fn groups_of(alloc: Global, text: &[u8]) -> Result<Option<GroupList>, NoMemory>
    ensures found { IfOk result (λ found. IfSome found (AreGroupWords text.now)) }
    ensures none { IfOk result (λ found. IfNone found ((groups : List ℕ) → AreGroupWords text.now groups → ⊥)) }
{
    let mut groups = GroupList::new(alloc);
    let mut rest = text;
    'words: while !rest.is_empty() {
        let Some(next) = next_group(rest) else {
            return Ok(None);
        };
        groups.push(next.0)?;
        rest = next.1;
    }
    Ok(Some(groups))
}

/// The groups that a snapshot's group is put into: those behind the word `inherit`, of which there is one at least, or
/// none where the text is empty; `None` for any other text.
pub(crate) fn inherited(alloc: Global, text: &[u8]) -> Result<Option<GroupList>, NoMemory>
    ensures found { IfOk result (λ found. IfSome found (IsInherited text.now)) }
    ensures none { IfOk result (λ found. IfNone found ((groups : List ℕ) → IsInherited text.now groups → ⊥)) }
{
    if text.is_empty() {
        return Ok(Some(GroupList::new(alloc)));
    }
    let Some(text) = text.strip_prefix(b" inherit") else {
        return Ok(None);
    };
    if text.is_empty() {
        return Ok(None);
    }
    groups_of(alloc, text)
}

/// The counter whose word stands behind a space, and what is behind it.
pub(crate) fn next_which(text: &[u8]) -> Option<(Which, &[u8])>
    ensures found { IfSome result (λ found. IsNextWhich text.now found.0 found.1.now) }
    ensures none { IfNone result ((which : Which) (rest : List ℕ) → IsNextWhich text.now which rest → ⊥) }
{
    if let Some(rest) = text.strip_prefix(b" rfer") {
        return Some((Which::Rfer, rest));
    }
    let rest = text.strip_prefix(b" excl")?;
    Some((Which::Excl, rest))
}

/// The limit behind a space, where `none` is that there is no limit; `None` for any other text.
pub(crate) fn limit_of(text: &[u8]) -> Option<Option<u64>>
    ensures found { IfSome result (IsLimit text.now) }
    ensures none { IfNone result ((max : Option ℕ) → IsLimit text.now max → ⊥) }
{
    if text == b" none".as_slice() {
        return Some(None);
    }
    let [max] = numbers::<1>(text)?;
    Some(Some(max))
}
