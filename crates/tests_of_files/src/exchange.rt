// What no clause says: that the call succeeds with ample memory. What is expected was worked out by hand.
ghost use Rattle.std.specs.Prelude.{◌≡◌, IfOk};
ghost use Rattle.qg_files.specs.Apart.{AreApart};

use qg_file_edits::{Step, steps_between};
use qg_num::{Address, Generation, NoMemory, Piece, Pieces};
use std::alloc::Global;
use std::test::Fail;

// A piece of an extent of 65536 bytes, by its position, its length and where it begins in the extent.
fn piece(position: u64, len: u64, offset: u64) -> Piece
    ensures { result ≡ record {
      position = position;
      len = len;
      extent = 67108864;
      offset = offset;
      stamp = 7;
      extent_bytes = 65536;
    } }
{
    Piece {
        position,
        len,
        extent: Address::new(67108864),
        offset,
        stamp: Generation::new(7),
        extent_bytes: 65536,
    }
}

// A piece that gets shorter, one that goes, and one that stays in its place.
#[tactic(auto, unfolding(qg_files::specs::Apart::AreApartFrom))]
fn old_pieces(alloc: Global) -> Result<Pieces, NoMemory>
    ensures { IfOk result (λ pieces. AreApart pieces) }
{
    let mut pieces = Pieces::new(alloc);
    pieces.push(piece(0, 8192, 0))?;
    pieces.push(piece(16384, 4096, 8192))?;
    pieces.push(piece(20480, 4096, 12288))?;
    Ok(pieces)
}

// The first one shorter, a new one behind it, and the last one.
#[tactic(auto, unfolding(qg_files::specs::Apart::AreApartFrom))]
fn new_pieces(alloc: Global) -> Result<Pieces, NoMemory>
    ensures { IfOk result (λ pieces. AreApart pieces) }
{
    let mut pieces = Pieces::new(alloc);
    pieces.push(piece(0, 4096, 0))?;
    pieces.push(piece(8192, 4096, 4096))?;
    pieces.push(piece(20480, 4096, 12288))?;
    Ok(pieces)
}

#[tactic(auto, unfolding(qg_files::specs::Apart::AreApartFrom))]
fn no_pieces(alloc: Global) -> Pieces
    ensures { AreApart result }
{
    Pieces::new(alloc)
}

// Whether those are the steps between two lists of pieces.
fn are_between(gone: &Pieces, put: &Pieces, wanted: &[Step]) -> Result<bool, NoMemory>
    requires gone { AreApart gone.now }
    requires put { AreApart put.now }
{
    let steps = steps_between(gone, put)?;
    Ok(steps.as_slice() == wanted)
}

#[test]
fn steps_by_hand(rt: HostRuntime) -> Result<(), Fail> {
    let alloc = rt.alloc();
    let old = old_pieces(alloc)?;
    let new = new_pieces(alloc)?;
    let none = no_pieces(alloc);
    let first = piece(0, 4096, 0);
    let second = piece(8192, 4096, 4096);
    let last = piece(20480, 4096, 12288);
    assert!(rt;
        are_between(
            &old,
            &new,
            &[
                Step::Replace(first),
                Step::Insert(second),
                Step::Remove(16384),
                Step::Replace(last)
            ]
        )?
    );
    assert!(rt;
        are_between(
            &old,
            &none,
            &[Step::Remove(0), Step::Remove(16384), Step::Remove(20480)]
        )?
    );
    assert!(rt;
        are_between(
            &none,
            &new,
            &[
                Step::Insert(first),
                Step::Insert(second),
                Step::Insert(last)
            ]
        )?
    );
    assert!(rt; are_between(&none, &none, &[])?);
    Ok(())
}
