// Which of the two superblocks an image is opened by.
ghost use Rattle.std.specs.Prelude.{◌≡◌};
ghost use Rattle.qg_super.specs.SuperText.{choose};

use crate::superblock::Super;

/// Of two superblocks the one with the greater generation, the first where they are equal, and none of none (on-disk
/// format, "superblock").
pub fn choose(first: Option<Super>, second: Option<Super>) -> Option<Super>
    ensures { result ≡ choose first second }
{
    match (first, second) {
        (Some(a), Some(b)) => Some(if a.generation < b.generation { b } else { a }),
        (Some(a), None) => Some(a),
        (None, second) => second,
    }
}
