// What each file command exchanges.
ghost use Rattle.std.specs.Prelude.{◌≡◌, ◌+◌, ◌-◌, ◌^◌, ◌<◌, ◌≤◌, ◌∷◌, [], ℕ, map, IfOk};
ghost use Rattle.std.specs.List.{All};
ghost use Rattle.qg_image.specs.FilesOf.{largest_size, piece_end, pieces_bytes};
ghost use Rattle.qg_machine.specs.FileChange.{moved, new_piece, with_range, within};
ghost use Rattle.qg_files.specs.Apart.{AreApart, AreApartFrom};
ghost use Rattle.qg_file_edits.specs.Changes.{IsCut, IsRangeChange, IsUnlinked, inode_cut, inode_put, nbytes_of};

use crate::Found;
use crate::exchange::Exchange;
use crate::inode::InodeEdit;
use qg_files::{cut_range, replace_range, take_range, truncate};
use qg_items::InodeItem;
use qg_num::{Address, Generation, NoMemory, Piece, Pieces};
use std::alloc::Global;

/// A piece for the whole of a new extent.
fn new_piece(generation: Generation, position: u64, len: u64, run: Address) -> Piece
    ensures { result ≡ new_piece generation position len run }
{
    Piece {
        position,
        len,
        extent: run,
        offset: 0,
        stamp: generation,
        extent_bytes: len,
    }
}

/// Pieces with others in the place of what they have in a range.
fn with_range(pieces: &Pieces, from: u64, to: u64, given: &[Piece]) -> Result<Pieces, NoMemory>
    requires apart { AreApart pieces.now }
    requires order { from ≤ to }
    requires given { AreApartFrom from given.now }
    requires ends { All (λ piece. piece_end piece ≤ to) given.now }
    ensures put { IfOk result (λ put. put ≡ with_range from to given.now pieces.now) }
    ensures apart { IfOk result (λ put. AreApart put) }
{
    let mut put = Pieces::from_slice(pieces.allocator(), pieces.as_slice())?;
    replace_range(&mut put, from, to, given)?;
    Ok(put)
}

/// What rests of pieces beside a range.
fn without_range(pieces: &Pieces, from: u64, to: u64) -> Result<Pieces, NoMemory>
    requires apart { AreApart pieces.now }
    requires order { from ≤ to }
    ensures { IfOk result (λ rests. rests ≡ with_range from to [] pieces.now) }
{
    let mut rests = Pieces::from_slice(pieces.allocator(), pieces.as_slice())?;
    cut_range(&mut rests, from, to)?;
    Ok(rests)
}

/// A file gets other pieces in a range; those that name extents already are named so.
fn range_change(
    generation: Generation,
    from: u64,
    to: u64,
    given: &[Piece],
    named: Pieces,
    new: Option<Piece>,
    found: Found,
) -> Result<Exchange, NoMemory>
    requires apart { AreApart found.met }
    requires order { from ≤ to }
    requires given { AreApartFrom from given.now }
    requires ends { All (λ piece. piece_end piece ≤ to) given.now }
    ensures { IfOk result (λ change. IsRangeChange generation from to given.now named new found change) }
{
    let Found { inode, met } = found;
    let put = with_range(&met, from, to, given)?;
    let gone = met.as_slice();
    let inode = inode_put(generation, to, inode, gone, put.as_slice());
    Ok(Exchange {
        gone: met,
        put,
        named,
        new,
        inode,
    })
}

/// A write puts a piece for the whole of a new extent in a range; what rests beside it names extents already.
pub(crate) fn write_change(
    generation: Generation,
    off: u64,
    len: u64,
    run: Address,
    found: Found,
) -> Result<Exchange, NoMemory>
    requires some { 0 < len }
    requires near { off + len ≤ largest_size }
    requires apart { AreApart found.met }
    ensures { IfOk result (λ change. IsRangeChange generation off (off + len) (new_piece generation off len run ∷ [])
        (with_range off (off + len) [] found.met) (Some (new_piece generation off len run)) found change) }
{
    let end = off + len;
    let named = without_range(&found.met, off, end)?;
    let piece = new_piece(generation, off, len, run);
    let new = Some(new_piece(generation, off, len, run));
    range_change(generation, off, end, &[piece], named, new, found)
}

/// A clone puts what a source has in a range in a range of the file; all of it names extents already.
pub(crate) fn clone_change(
    alloc: Global,
    generation: Generation,
    source: &Pieces,
    from: u64,
    len: u64,
    off: u64,
    found: Found,
) -> Result<Exchange, NoMemory>
    requires source_apart { AreApart source.now }
    requires source_near { from + len ≤ largest_size }
    requires near { off + len ≤ largest_size }
    requires apart { AreApart found.met }
    ensures { IfOk result (λ change.
        IsRangeChange generation off (off + len) (map (moved from off) (within from (from + len) source.now))
        (with_range off (off + len) (map (moved from off) (within from (from + len) source.now)) found.met) None found
        change) }
{
    let end = off + len;
    let taken = take_range(alloc, source, from, from + len)?;
    let given = moved_pieces(&taken, from, off)?;
    let named = with_range(&found.met, off, end, given.as_slice())?;
    range_change(generation, off, end, given.as_slice(), named, None, found)
}

/// A file is cut to a size.
pub(crate) fn cut_change(
    generation: Generation,
    size: u64,
    inode: InodeItem,
    met: Pieces,
) -> Result<Exchange, NoMemory>
    requires { AreApart met }
    ensures { IfOk result (λ change. IsCut generation size inode met change) }
{
    let mut put = Pieces::from_slice(met.allocator(), met.as_slice())?;
    truncate(&mut put, size)?;
    let named = Pieces::from_slice(met.allocator(), put.as_slice())?;
    let gone = met.as_slice();
    let inode = inode_cut(generation, size, inode, gone, put.as_slice());
    Ok(Exchange {
        gone: met,
        put,
        named,
        new: None,
        inode,
    })
}

/// A file goes.
pub(crate) fn unlink_change(met: Pieces) -> Exchange
    ensures { IsUnlinked met result }
{
    let alloc = met.allocator();
    let put = Pieces::new(alloc);
    let named = Pieces::new(alloc);
    Exchange {
        gone: met,
        put,
        named,
        new: None,
        inode: InodeEdit::Remove,
    }
}

/// The INODE_ITEM of a file that gets other pieces up to a position, or of one that is made.
fn inode_put(
    generation: Generation,
    to: u64,
    inode: Option<InodeItem>,
    gone: &[Piece],
    put: &[Piece],
) -> InodeEdit
    ensures { (sum : ℕ) → sum < 2 ^ 64 → pieces_bytes gone.now ≤ nbytes_of inode
        → sum + pieces_bytes gone.now ≡ nbytes_of inode + pieces_bytes put.now
        → result ≡ inode_put generation to inode sum }
{
    match inode {
        None => InodeEdit::Insert(InodeItem {
            generation,
            transid: generation,
            size: to,
            nbytes: exchanged_bytes(0, gone, put),
        }),
        Some(inode) => InodeEdit::Replace(InodeItem {
            generation: inode.generation,
            transid: generation,
            size: inode.size.max(to),
            nbytes: exchanged_bytes(inode.nbytes, gone, put),
        }),
    }
}

/// The INODE_ITEM of a file that is cut to a size.
fn inode_cut(
    generation: Generation,
    size: u64,
    inode: InodeItem,
    gone: &[Piece],
    put: &[Piece],
) -> InodeEdit
    ensures { (sum : ℕ) → sum < 2 ^ 64 → pieces_bytes gone.now ≤ inode.nbytes
        → sum + pieces_bytes gone.now ≡ inode.nbytes + pieces_bytes put.now
        → result ≡ inode_cut generation size inode sum }
{
    InodeEdit::Replace(InodeItem {
        generation: inode.generation,
        transid: generation,
        size,
        nbytes: exchanged_bytes(inode.nbytes, gone, put),
    })
}

/// The bytes of a file's pieces, once some are exchanged for others. Over any disk they may be any number.
fn exchanged_bytes(bytes: u64, gone: &[Piece], put: &[Piece]) -> u64
    ensures { (sum : ℕ) → sum < 2 ^ 64 → pieces_bytes gone.now ≤ bytes
        → sum + pieces_bytes gone.now ≡ bytes + pieces_bytes put.now → result ≡ sum }
{
    let left = bytes.saturating_sub(bytes_of(gone));
    left.saturating_add(bytes_of(put))
}

/// The bytes of pieces, where they fit their type.
fn bytes_of(pieces: &[Piece]) -> u64
    ensures { pieces_bytes pieces.now < 2 ^ 64 → result ≡ pieces_bytes pieces.now }
{
    let mut sum: u64 = 0;
    for piece in pieces {
        sum = sum.saturating_add(piece.len);
    }
    sum
}

/// Pieces as far from a place as they are from the start of the range that they lie in.
fn moved_pieces(taken: &Pieces, from: u64, off: u64) -> Result<Pieces, NoMemory>
    requires begins { All (λ piece. from ≤ piece.position) taken.now }
    requires near { All (λ piece. piece.position - from + off < 2 ^ 64) taken.now }
    ensures { IfOk result (λ given. given ≡ map (moved from off) taken.now) }
{
    let mut given = Pieces::with_capacity(taken.allocator(), taken.len())?;
    for piece in taken.as_slice() {
        let position = piece.position - from + off;
        given.push(Piece { position, ..*piece })?;
    }
    Ok(given)
}
