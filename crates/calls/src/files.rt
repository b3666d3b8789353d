// Calls on the pieces of a file.
ghost use Rattle.std.specs.Prelude.{◌≡◌, ◌≤◌, IfOk, IsTrue};
ghost use Rattle.std.specs.List.{All};
ghost use Rattle.qg_image.specs.FilesOf.{piece_end};
ghost use Rattle.qg_files.specs.Apart.{AreApart, AreApartFrom, IsWithinSizes};

use call_lines::{Fault, add_word, told};
use qg_files::{cut_range, put_piece, replace_range, split_range, take_range, truncate};
use qg_num::{Address, Generation, Piece, Pieces};
use std::alloc::Global;

/// The largest size of a file, in bytes.
const LARGEST_SIZE: u64 = 1 << 40;

/// A piece of an extent of 65536 bytes, by its position, its length and where it begins in the extent.
fn piece_of(position: u64, len: u64, offset: u64) -> Piece {
    Piece {
        position,
        len,
        extent: Address::new(67108864),
        offset,
        stamp: Generation::new(7),
        extent_bytes: 65536,
    }
}

/// Whether a piece has bytes, and ends by the largest size.
fn is_within(piece: &Piece) -> bool
    ensures { IsTrue result → IsWithinSizes piece.now }
{
    let is_before = piece.position <= LARGEST_SIZE && piece.len <= LARGEST_SIZE - piece.position;
    piece.len > 0 && is_before && piece.offset <= u64::MAX - piece.len
}

/// Whether pieces ascend from a position on, and overlap nowhere.
#[tactic(auto, unfolding(qg_files::specs::Apart::AreApartFrom))]
fn are_apart(from: u64, pieces: &[Piece]) -> bool
    ensures { IsTrue result → AreApartFrom from pieces.now }
{
    let mut end = from;
    for piece in pieces {
        if piece.position < end || !is_within(piece) {
            return false;
        }
        end = piece.position + piece.len;
    }
    true
}

/// Whether pieces end by a position.
fn do_end_by(to: u64, pieces: &[Piece]) -> bool
    ensures { IsTrue result → All (λ piece. piece_end piece ≤ to) pieces.now }
{
    pieces.iter().all(|piece| piece.position <= to && piece.len <= to - piece.position)
}

/// The pieces of some numbers, three each, if they lie apart between two positions.
fn pieces_of(alloc: Global, from: u64, to: u64, numbers: &[u64]) -> Result<Pieces, Fault>
    ensures apart { IfOk result (λ pieces. AreApartFrom from pieces) }
    ensures ends { IfOk result (λ pieces. All (λ piece. piece_end piece ≤ to) pieces) }
{
    let mut pieces = Pieces::new(alloc);
    for numbers in numbers.chunks(3) {
        let [position, len, offset] = numbers else {
            return Err(Fault::Call);
        };
        pieces.push(piece_of(*position, *len, *offset))?;
    }
    if !are_apart(from, pieces.as_slice()) || !do_end_by(to, pieces.as_slice()) {
        return Err(Fault::Unmet);
    }
    Ok(pieces)
}

/// Each of some pieces, as it was told.
fn told_pieces(alloc: Global, pieces: &[Piece]) -> Result<String, Fault> {
    let mut answer = String::new(alloc);
    for piece in pieces {
        if !answer.is_empty() {
            add_word(&mut answer, "/")?;
        }
        let (position, len, offset) = (piece.position, piece.len, piece.offset);
        add_word(
            &mut answer,
            format!(in alloc; "{position} {len} {offset}")?.as_str(),
        )?;
    }
    if answer.is_empty() {
        return told(alloc, "none");
    }
    Ok(answer)
}

/// What a range takes out of a file, and what rests of that.
fn parted(alloc: Global, pieces: &Pieces, from: u64, to: u64) -> Result<String, Fault>
    requires apart { AreApart pieces.now }
    requires order { from ≤ to }
{
    let split = split_range(alloc, pieces, from, to)?;
    let gone = told_pieces(alloc, split.gone.as_slice())?;
    let rests = told_pieces(alloc, split.rests.as_slice())?;
    Ok(format!(in alloc; "{gone} : {rests}")?)
}

/// Writes a piece over what is there.
fn write_over(pieces: &mut Pieces, piece: Piece) -> Result<(), Fault>
    requires { AreApart pieces.old }
{
    if !is_within(&piece) {
        return Err(Fault::Unmet);
    }
    cut_range(pieces, piece.position, piece.position + piece.len)?;
    Ok(put_piece(pieces, piece)?)
}

/// Makes a call on a file, which stays as `file` told it.
pub(crate) fn answer(
    alloc: Global,
    file: &mut Vec<u64>,
    verb: &str,
    numbers: &[u64],
) -> Result<String, Fault> {
    if verb == "file" {
        *file = numbers.to_vec(alloc)?;
        return told(alloc, "done");
    }
    let mut pieces = pieces_of(alloc, 0, LARGEST_SIZE, file)?;
    match (verb, numbers) {
        ("part", [from, to]) if *from <= *to => return parted(alloc, &pieces, *from, *to),
        ("take", [from, to]) if *from <= *to => {
            pieces = take_range(alloc, &pieces, *from, *to)?;
        }
        ("cut", [from, to]) if *from <= *to => cut_range(&mut pieces, *from, *to)?,
        ("put", [from, to, given @ ..]) if *from <= *to => {
            let given = pieces_of(alloc, *from, *to, given)?;
            replace_range(&mut pieces, *from, *to, given.as_slice())?;
        }
        ("truncate", [size]) => truncate(&mut pieces, *size)?,
        ("write", [position, len, offset]) => {
            write_over(&mut pieces, piece_of(*position, *len, *offset))?;
        }
        _ => return Err(Fault::Call),
    }
    told_pieces(alloc, pieces.as_slice())
}
