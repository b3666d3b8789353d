// The command of a line.
ghost use Rattle.std.specs.Prelude.{◌≡◌, ◌≢◌, ◌++◌, codes, IfOk, IfSome, IfNone, OnErr};
ghost use Rattle.qg_num.specs.declared.command.Command.{Command};
ghost use Rattle.qg_grammar.specs.ScriptText.{IsLineOf};
ghost use Rattle.qg_script.specs.Reading.{IsParted, IsSnapshot, Reads};

use crate::groups::{inherited, limit_of, next_group, next_which, one_group, two_groups};
use crate::numbers::{file_of, first_word, next_number, numbers, sub_of};
use qg_num::{Command, NoMemory};
use std::alloc::Global;

/// The most bytes that a line may have.
const LONGEST_LINE: usize = 256;

// The command of `write` and what is behind it.
fn read_write(rest: &[u8]) -> Option<Command>
    ensures { Reads (codes "write" ++ rest.now) result }
{
    let [sub, ino, off, len] = numbers::<4>(rest)?;
    let (sub, ino) = file_of(sub, ino)?;
    Some(Command::Write { sub, ino, off, len })
}

// The command of `clone` and what is behind it.
fn read_clone(rest: &[u8]) -> Option<Command>
    ensures { Reads (codes "clone" ++ rest.now) result }
{
    let [sub, ino, off, len, to_sub, to_ino, to_off] = numbers::<7>(rest)?;
    let (sub, ino) = file_of(sub, ino)?;
    let (to_sub, to_ino) = file_of(to_sub, to_ino)?;
    Some(Command::Clone {
        sub,
        ino,
        off,
        len,
        to_sub,
        to_ino,
        to_off,
    })
}

// The command of `truncate` and what is behind it.
fn read_truncate(rest: &[u8]) -> Option<Command>
    ensures { Reads (codes "truncate" ++ rest.now) result }
{
    let [sub, ino, size] = numbers::<3>(rest)?;
    let (sub, ino) = file_of(sub, ino)?;
    Some(Command::Truncate { sub, ino, size })
}

// The command of `unlink` and what is behind it.
fn read_unlink(rest: &[u8]) -> Option<Command>
    ensures { Reads (codes "unlink" ++ rest.now) result }
{
    let [sub, ino] = numbers::<2>(rest)?;
    let (sub, ino) = file_of(sub, ino)?;
    Some(Command::Unlink { sub, ino })
}

// The command of `ls` and what is behind it.
fn read_ls(rest: &[u8]) -> Option<Command>
    ensures { Reads (codes "ls" ++ rest.now) result }
{
    let [sub, ino] = numbers::<2>(rest)?;
    let (sub, ino) = file_of(sub, ino)?;
    Some(Command::Ls { sub, ino })
}

// The command of `snap` and what is behind it.
fn read_snap(alloc: Global, rest: &[u8]) -> Result<Option<Command>, NoMemory>
    ensures { IfOk result (Reads (codes "snap" ++ rest.now)) }
{
    let Some((sub, rest)) = next_number(rest) else {
        return Ok(None);
    };
    let Some(sub) = sub_of(sub) else {
        return Ok(None);
    };
    let Some(groups) = inherited(alloc, rest)? else {
        return Ok(None);
    };
    Ok(Some(Command::Snap { sub, groups }))
}

// The command of `delete` and what is behind it.
fn read_delete(rest: &[u8]) -> Option<Command>
    ensures { Reads (codes "delete" ++ rest.now) result }
{
    let [sub] = numbers::<1>(rest)?;
    let sub = sub_of(sub)?;
    Some(Command::Delete { sub })
}

// The command of `owners` and what is behind it.
fn read_owners(rest: &[u8]) -> Option<Command>
    ensures { Reads (codes "owners" ++ rest.now) result }
{
    let [address] = numbers::<1>(rest)?;
    Some(Command::Owners { address })
}

// The command of `qgroup create` and what is behind it.
fn read_create(rest: &[u8]) -> Option<Command>
    ensures { Reads (codes "qgroup create" ++ rest.now) result }
{
    let group = one_group(rest)?;
    Some(Command::GroupCreate { group })
}

// The command of `qgroup destroy` and what is behind it.
fn read_destroy(rest: &[u8]) -> Option<Command>
    ensures { Reads (codes "qgroup destroy" ++ rest.now) result }
{
    let group = one_group(rest)?;
    Some(Command::GroupDestroy { group })
}

// The command of `qgroup` and what is behind it.
fn read_qgroup(rest: &[u8]) -> Option<Command>
    ensures { Reads (codes "qgroup" ++ rest.now) result }
{
    if let Some(rest) = rest.strip_prefix(b" create") {
        return read_create(rest);
    }
    let rest = rest.strip_prefix(b" destroy")?;
    read_destroy(rest)
}

// The command of `assign` and what is behind it.
fn read_assign(rest: &[u8]) -> Option<Command>
    ensures { Reads (codes "assign" ++ rest.now) result }
{
    let (member, parent) = two_groups(rest)?;
    Some(Command::Assign { member, parent })
}

// The command of `remove` and what is behind it.
fn read_remove(rest: &[u8]) -> Option<Command>
    ensures { Reads (codes "remove" ++ rest.now) result }
{
    let (member, parent) = two_groups(rest)?;
    Some(Command::Remove { member, parent })
}

// The command of `limit` and what is behind it.
fn read_limit(rest: &[u8]) -> Option<Command>
    ensures { Reads (codes "limit" ++ rest.now) result }
{
    let Some((which, rest)) = next_which(rest) else {
        return None;
    };
    let Some(next) = next_group(rest) else {
        return None;
    };
    let max = limit_of(next.1)?;
    Some(Command::Limit {
        group: next.0,
        which,
        max,
    })
}

// The command of a text by its first word, which isn't `snap`, and what is behind that.
fn other_command(text: &[u8], word: &[u8], rest: &[u8]) -> Option<Command>
    requires parted { IsParted text.now word.now rest.now }
    requires other { word.now ≢ codes "snap" }
    ensures { Reads text.now result }
{
    if text == b"commit".as_slice() {
        Some(Command::Commit)
    } else if text == b"show".as_slice() {
        Some(Command::Show)
    } else if text == b"sub create".as_slice() {
        Some(Command::SubCreate)
    } else if text == b"quota on".as_slice() {
        Some(Command::QuotaOn)
    } else if text == b"quota off".as_slice() {
        Some(Command::QuotaOff)
    } else if word == b"write".as_slice() {
        read_write(rest)
    } else if word == b"clone".as_slice() {
        read_clone(rest)
    } else if word == b"truncate".as_slice() {
        read_truncate(rest)
    } else if word == b"unlink".as_slice() {
        read_unlink(rest)
    } else if word == b"ls".as_slice() {
        read_ls(rest)
    } else if word == b"delete".as_slice() {
        read_delete(rest)
    } else if word == b"owners".as_slice() {
        read_owners(rest)
    } else if word == b"qgroup".as_slice() {
        read_qgroup(rest)
    } else if word == b"assign".as_slice() {
        read_assign(rest)
    } else if word == b"remove".as_slice() {
        read_remove(rest)
    } else if word == b"limit".as_slice() {
        read_limit(rest)
    } else {
        None
    }
}

// The command of a text.
fn command_of(alloc: Global, text: &[u8]) -> Result<Option<Command>, NoMemory>
    ensures read { IfOk result (Reads text.now) }
    ensures no_memory { OnErr result (IsSnapshot text.now) }
{
    let (word, rest) = first_word(text);
    if word == b"snap".as_slice() {
        read_snap(alloc, rest)
    } else {
        Ok(other_command(text, word, rest))
    }
}

/// The command that has this line, and `None` exactly where there is none (this project's own). Only a line that begins
/// with the word of a snapshot, whose list of groups it keeps, takes memory.
pub fn parse_line(alloc: Global, line: &[u8]) -> Result<Option<Command>, NoMemory>
    ensures found { IfOk result (λ found. IfSome found (IsLineOf line.now)) }
    ensures none { IfOk result (λ found. IfNone found ((command : Command) → IsLineOf line.now command → ⊥)) }
    ensures no_memory { OnErr result (IsSnapshot line.now) }
{
    if line.len() > LONGEST_LINE {
        return Ok(None);
    }
    command_of(alloc, line)
}
