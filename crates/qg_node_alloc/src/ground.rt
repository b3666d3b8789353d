// Nodes and space.
ghost use Rattle.std.specs.Prelude.{◌≡◌, ℕ, List, IfOk, IsTrue};
ghost use Rattle.qg_device.specs.History.{History};
ghost use Rattle.qg_super.specs.Places.{is_served};
ghost use Rattle.qg_blocks.specs.NodesInMemory.{nothing_fresh, slots_of};
ghost use Rattle.qg_blocks.specs.NodesFound.{IsBacked};
ghost use Rattle.qg_space.specs.Holding.{nothing_held};
ghost use Rattle.qg_node_alloc.specs.Land.{IsDrafted};

use qg_blocks::Blocks;
use qg_num::NoMemory;
use qg_space::Space;
use qg_super::Sizes;
use std::alloc::Global;

/// The nodes of an image, and what is free of it (this project's own). Both are of one image.
#[derive(Drop)]
pub struct Ground {
    /// The nodes by address: fresh ones, and some clean ones.
    pub blocks: Blocks,
    /// What is free of slots and of sectors.
    pub space: Space,
}

impl Ground {
    /// Of an image of these sizes no node is in memory yet, and nothing is held.
    #[tactic(auto, unfolding(qg_super::specs::Places::is_served))]
    pub fn new(alloc: Global, sizes: Sizes) -> Result<Ground, NoMemory>
        requires { IsTrue (is_served sizes) }
        ensures draft { IfOk result (λ land. land.blocks.draft ≡ nothing_fresh (slots_of sizes.nodesize sizes.slots)) }
        ensures space { IfOk result (λ land. land.space ≡ nothing_held sizes) }
        ensures backed { IfOk result (λ land. (history : History) → IsBacked land.blocks history) }
        ensures drafted { IfOk result (λ land. (generation : ℕ) → IsDrafted land generation) }
    {
        let nodesize = sizes.nodesize as u32;
        Ok(Ground {
            blocks: Blocks::new(alloc, nodesize, sizes.slots)?,
            space: Space::new(alloc, sizes.slots, nodesize, sizes.sectors)?,
        })
    }
}
