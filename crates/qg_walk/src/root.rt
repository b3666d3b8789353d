// What is expected of a root.
ghost use Rattle.std.specs.Prelude.{◌≡◌};
ghost use Rattle.qg_image.specs.Walk.{root_told};

use qg_image::Expected;
use qg_image::items::RootItem;

/// What is expected of the root of a tree by its ROOT_ITEM: the level and the generation, and no bound on its keys
/// (on-disk format, ROOT_ITEM).
pub fn root_told(root: &RootItem) -> Expected
    ensures { result ≡ root_told root.now }
{
    Expected {
        level: Some(root.level),
        generation: Some(root.generation),
        from: None,
        to: None,
    }
}
