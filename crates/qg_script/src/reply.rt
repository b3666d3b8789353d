// The reply to a line.
ghost use Rattle.std.specs.Prelude.{◌≡◌, ◌++◌, codes};
ghost use Rattle.std.specs.List.{flat_map};
ghost use Rattle.qg_num.specs.declared.answer.Answer.TheVariants.{Shown, File, Owners};
ghost use Rattle.qg_grammar.specs.ScriptText.{then_number, then_word, then_group, which_text};
ghost use Rattle.qg_grammar.specs.ReplyText.{line, no_line, refusal_text, row_text, piece_text, reply_text};
ghost use Rattle.qg_script.specs.Added.{Adds};

use crate::Text;
use crate::words::{
    which_word, write_decimal, write_group, write_limit, write_next_group, write_number, write_word,
};
use qg_num::{Answer, GroupId, NoMemory, Piece, Refusal, RootId, Row, Which};

/// Adds the reply to a line that is no command's (this project's own).
pub fn write_no_line(text: &mut Text) -> Result<(), NoMemory>
    ensures { Adds result text.old text.new no_line }
{
    text.add(b"no line\n")
}

/// Adds the reply that tells an answer (this project's own). After an `Err` a front of it is added.
#[tactic(auto, unfolding(qg_grammar::specs::ReplyText::reply_text))]
pub fn write_reply(answer: &Answer, text: &mut Text) -> Result<(), NoMemory>
    ensures { Adds result text.old text.new (reply_text answer.now) }
{
    match answer {
        Answer::Done => text.add(b"ok\n"),
        Answer::Commit(generation) => write_number_line(b"ok commit", generation.value(), text),
        Answer::Sub(sub) => write_number_line(b"ok sub", sub.value(), text),
        Answer::Extent(address) => write_number_line(b"ok extent", address.value(), text),
        Answer::Shown(rows) => write_shown(rows.as_slice(), text),
        Answer::File { size, pieces } => write_file(*size, pieces.as_slice(), text),
        Answer::Owners(owners) => write_owners(owners.as_slice(), text),
        Answer::Refused(why) => write_refused(*why, text),
    }
}

// Adds a line of some words and a number.
fn write_number_line(words: &[u8], number: u64, text: &mut Text) -> Result<(), NoMemory>
    ensures { Adds result text.old text.new (line (words.now ++ then_number number)) }
{
    text.add(words)?;
    write_number(number, text)?;
    text.add(b"\n")
}

// Adds a line for each group.
fn write_shown(rows: &[Row], text: &mut Text) -> Result<(), NoMemory>
    ensures { Adds result text.old text.new (flat_map (λ row. line (row_text row)) rows.now ++ line (codes "ok")) }
{
    for row in rows {
        write_row(row, text)?;
    }
    text.add(b"ok\n")
}

// Adds the line of a group.
#[tactic(auto, unfolding(qg_grammar::specs::ReplyText::row_text))]
fn write_row(row: &Row, text: &mut Text) -> Result<(), NoMemory>
    ensures { Adds result text.old text.new (line (row_text row.now)) }
{
    write_group(row.group, text)?;
    write_number(row.counters.rfer, text)?;
    write_number(row.counters.excl, text)?;
    write_limit(row.max_rfer, text)?;
    write_limit(row.max_excl, text)?;
    text.add(b"\n")
}

// Adds a line for each piece of a file, and its size.
fn write_file(size: u64, pieces: &[Piece], text: &mut Text) -> Result<(), NoMemory>
    ensures { Adds result text.old text.new
        (flat_map (λ piece. line (piece_text piece)) pieces.now ++ line (codes "ok file" ++ then_number size)) }
{
    for piece in pieces {
        write_piece(piece, text)?;
    }
    write_number_line(b"ok file", size, text)
}

// Adds the line of a piece.
#[tactic(auto, unfolding(qg_grammar::specs::ReplyText::piece_text))]
fn write_piece(piece: &Piece, text: &mut Text) -> Result<(), NoMemory>
    ensures { Adds result text.old text.new (line (piece_text piece.now)) }
{
    write_decimal(piece.position, text)?;
    write_number(piece.len, text)?;
    write_number(piece.extent.value(), text)?;
    write_number(piece.offset, text)?;
    text.add(b"\n")
}

// Adds a line with each subvolume.
fn write_owners(owners: &[RootId], text: &mut Text) -> Result<(), NoMemory>
    ensures { Adds result text.old text.new (line (codes "ok owners" ++ flat_map then_number owners.now)) }
{
    text.add(b"ok owners")?;
    for owner in owners {
        write_number(owner.value(), text)?;
    }
    text.add(b"\n")
}

// Adds the line of a refusal.
fn write_refused(why: Refusal, text: &mut Text) -> Result<(), NoMemory>
    ensures { Adds result text.old text.new (line (refusal_text why)) }
{
    write_refusal(why, text)?;
    text.add(b"\n")
}

// Adds why a command is refused.
#[tactic(auto, unfolding(qg_grammar::specs::ReplyText::refusal_text))]
fn write_refusal(why: Refusal, text: &mut Text) -> Result<(), NoMemory>
    ensures { Adds result text.old text.new (refusal_text why) }
{
    match why {
        Refusal::NoSub => text.add(b"no sub"),
        Refusal::NoFile => text.add(b"no file"),
        Refusal::Align => text.add(b"no align"),
        Refusal::Far => text.add(b"no far"),
        Refusal::Source => text.add(b"no source"),
        Refusal::Overlap => text.add(b"no overlap"),
        Refusal::Quota { group, which } => write_quota(group, which, text),
        Refusal::NoRun => text.add(b"no run"),
        Refusal::NoNodes { free, need } => write_need(free, need, text),
        Refusal::NoQuota => text.add(b"no off"),
        Refusal::QuotaOn => text.add(b"no on"),
        Refusal::NoGroup => text.add(b"no group"),
        Refusal::GroupThere => text.add(b"no there"),
        Refusal::Level => text.add(b"no level"),
        Refusal::Related => text.add(b"no related"),
        Refusal::NotRelated => text.add(b"no unrelated"),
        Refusal::Busy => text.add(b"no busy"),
        Refusal::TopLevel => text.add(b"no top"),
        Refusal::TooMany => text.add(b"no many"),
        Refusal::NoGeneration => text.add(b"no generation"),
    }
}

// Adds that a limit of a group would be passed.
fn write_quota(group: GroupId, which: Which, text: &mut Text) -> Result<(), NoMemory>
    ensures { Adds result text.old text.new
        (codes "no quota" ++ then_group group ++ then_word (which_text which)) }
{
    text.add(b"no quota")?;
    write_next_group(group, text)?;
    write_word(which_word(which), text)
}

// Adds how many slots are free and how many are needed.
fn write_need(free: u64, need: u64, text: &mut Text) -> Result<(), NoMemory>
    ensures { Adds result text.old text.new (codes "no nodes" ++ then_number free ++ then_number need) }
{
    text.add(b"no nodes")?;
    write_number(free, text)?;
    write_number(need, text)
}
