// SPDX-License-Identifier: Apache-2.0
// What an allocator with a table leaves open: where a new block is placed.
ghost use Rattle.std.specs.Prelude.{◌≡◌, ◌+◌, ◌≤◌};
ghost use Rattle.allocation.specs.Asked.{asked};
ghost use Rattle.allocators.specs.Placings.{Placing, Fair};

use crate::arena::Arena;
use allocation::block::Block;
use allocation::layout::Layout;

// A way to choose where in an arena a new block stands, and whether a growing block stays.
pub trait Placement {
    ghost placing: { Placing };

    // The copying mark: whether a buffer takes a new block and copies, and does not call `grow`.
    fn copies() -> bool
        ensures { result ≡ placing.copying };

    // The lowest place that may be taken.
    fn start(arena: &Arena) -> usize
        ensures at { result ≡ placing.start arena.now.live.items }
        ensures within { result ≤ arena.now.extent };

    // Whether a live block can have the layout where it stands.
    fn stays(arena: &Arena, block: Block, layout: Layout) -> bool
        requires { block.place + block.size ≤ arena.now.extent }
        ensures { result ≡ placing.staying arena.now.base arena.now.extent arena.now.live.items block (asked layout) };

    ghost fair: { Fair placing };
}
