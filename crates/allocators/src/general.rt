// SPDX-License-Identifier: Apache-2.0
// Stands for the static allocator under src/allocation.rs of vortex-buffer 0.90.0.
ghost use Rattle.allocators.specs.Placings.{lowest};
ghost use Rattle.allocators.specs.Laws.{lowest_fair};

use crate::arena::Arena;
use crate::placement::Placement;
use crate::table_allocator::TableAllocator;
use allocation::block::Block;
use allocation::layout::Layout;

// Takes the lowest place that fits; a growth always moves.
pub type General = TableAllocator<Lowest>;

// The lowest place that fits; a growth always moves.
pub struct Lowest;

impl Placement for Lowest {
    ghost placing = { lowest };

    ghost fair = { lowest_fair };

    fn copies() -> bool {
        true
    }

    fn start(_arena: &Arena) -> usize {
        0
    }

    fn stays(_arena: &Arena, _block: Block, _layout: Layout) -> bool {
        false
    }
}
