// A subvolume's tree comes to hand.
ghost use Rattle.std.specs.Prelude.{◌≡◌, ℕ, List, IsTrue};
ghost use Rattle.qg_device.specs.History.{History};
ghost use Rattle.qg_image.specs.Table.{has_key};
ghost use Rattle.qg_image.specs.Record.{Record};
ghost use Rattle.qg_image.specs.State.{State};
ghost use Rattle.qg_open_image.specs.Keeping.{IsFitted, IsKept, IsKeptWith, SameButClean};

use crate::open_image::OpenImage;
use qg_num::RootId;

/// The tree of a subvolume comes to hand, of which what is kept stays that of the same state. The answer is whether
/// there is such a subvolume; where there is none, nothing changes.
pub fn turn_to(kept: &mut OpenImage, sub: RootId) -> bool
    requires fitted { IsFitted kept.old }
    ensures there { result ≡ has_key sub kept.old.snapshots }
    ensures hand { IsTrue result → kept.new.fs.tree.owner ≡ sub }
    ensures same { SameButClean kept.old kept.new }
    ensures superblock { kept.new.superblock ≡ kept.old.superblock }
    ensures kept { (history : History) (bytes : ℕ) → IsKept kept.old history bytes
        → IsKept kept.new history bytes }
    ensures keeps { (state : State) (history : History) (bytes : ℕ) (names : List Record)
        → IsKept kept.old history bytes → IsKeptWith kept.old state history names
        → IsKeptWith kept.new state history names }
{
    kept.fs.turn_to(sub)
}
