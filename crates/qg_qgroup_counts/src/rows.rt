// Rows of words: which indices are members of a set.
ghost use Rattle.std.specs.Prelude.{◌≡◌, ◌≤◌, ◌+◌, ◌↔◌, ◌⊎◌, ℕ, length, IfOk, OnOk, IsTrue, slice_index};
ghost use Rattle.qg_qgroup_counts.specs.Sets.{HasMember, AreMembers, AreMembersBefore};

use qg_num::Sequence;
use std::alloc::{AllocError, Global};

/// Whether an index is a member.
pub(crate) fn has_member(row: &[u64], member: usize) -> bool
    ensures { IsTrue result ↔ HasMember row.now member }
{
    let word = member / 64;
    word < row.len() && (row[word] >> (member % 64)) & 1 == 1
}

/// The members below a bound, ascending. Words without members are passed by.
pub(crate) fn members_of(
    alloc: Global,
    row: &[u64],
    bound: usize,
) -> Result<Sequence<usize>, AllocError>
    ensures { IfOk result (λ members. AreMembers row.now bound members) }
{
    let mut members = Sequence::new(alloc);
    for (word, bits) in row.iter().enumerate() {
        if *bits > 0 {
            push_members(&mut members, row, word, bound)?;
        }
    }
    Ok(members)
}

/// Puts the members that a word tells, those below a bound, behind those that words before it tell.
fn push_members(
    members: &mut Sequence<usize>,
    row: &[u64],
    word: usize,
    bound: usize,
) -> Result<(), AllocError>
    requires { AreMembersBefore row.now word bound members.old }
    ensures { OnOk result (AreMembersBefore row.now (word + 1) bound members.new) }
{
    if word <= bound / 64 {
        let first = word * 64;
        let end = first + (bound - first).min(64);
        for member in first..end {
            if has_member(row, member) {
                members.push(member)?;
            }
        }
    }
    Ok(())
}

/// Makes an index a member.
pub(crate) fn put_member(row: &mut Sequence<u64>, member: usize) -> Result<(), AllocError>
    ensures { OnOk result ((other : ℕ) → HasMember row.new other ↔ (HasMember row.old other ⊎ (member ≡ other))) }
{
    let word = member / 64;
    pad(row, word + 1)?;
    let members = row.as_slice()[word];
    row.set(word, members | (1 << (member % 64)));
    Ok(())
}

/// Makes all members of another row members.
pub(crate) fn add_members(row: &mut Sequence<u64>, more: &[u64]) -> Result<(), AllocError>
    ensures { OnOk result ((member : ℕ) →
        HasMember row.new member ↔ (HasMember row.old member ⊎ HasMember more.now member)) }
{
    pad(row, more.len())?;
    for (word, members) in more.iter().enumerate() {
        let old = row.as_slice()[word];
        row.set(word, old | *members);
    }
    Ok(())
}

/// Puts empty words at the end, so that there are as many as this.
fn pad(row: &mut Sequence<u64>, words: usize) -> Result<(), AllocError>
    ensures long { OnOk result (words ≤ length row.new) }
    ensures same { OnOk result ((word : ℕ) → slice_index row.new word ≡ slice_index row.old word) }
{
    for _word in row.len()..words {
        row.push(0)?;
    }
    Ok(())
}
