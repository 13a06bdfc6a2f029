// SPDX-License-Identifier: Apache-2.0
// Stands for a host's allocator under src/allocation.rs of vortex-buffer 0.90.0.
ghost use Rattle.allocators.specs.Placings.{above_highest};
ghost use Rattle.allocators.specs.Laws.{above_highest_fair};

use crate::arena::Arena;
use crate::placement::Placement;
use crate::table_allocator::TableAllocator;
use allocation::block::Block;
use allocation::layout::Layout;

// Takes places at or above the end of its highest block alone; that block grows where it is.
pub type Shelf = TableAllocator<AboveHighest>;

// Places at or above the end of the highest block alone; that block grows where it is.
pub struct AboveHighest;

impl Placement for AboveHighest {
    ghost placing = { above_highest };

    ghost fair = { above_highest_fair };

    fn copies() -> bool {
        false
    }

    fn start(arena: &Arena) -> usize {
        arena.highest_end()
    }

    fn stays(arena: &Arena, block: Block, layout: Layout) -> bool {
        block.place + block.size == arena.highest_end()
            && layout.size() > 0
            && layout.size() <= arena.extent - block.place
            && (arena.base + block.place).is_multiple_of(layout.align().as_usize())
    }
}
