// SPDX-License-Identifier: Apache-2.0
// Blocks of the region and what is asked of an allocator, as plain numbers.
ghost use Rattle.std.specs.Prelude.{◌≡◌};
ghost use Rattle.allocation.specs.Asked.{asked};
ghost use Rattle.allocation.specs.Faults.{block_at, request_of, same_block};

use crate::layout::Layout;

// A size and an alignment in bytes.
#[derive(Clone, Copy, PartialEq, Eq, Debug)]
pub struct Request {
    pub size: usize,
    pub align: usize,
}

// A block of the region: where it starts, how long it is, and what its address is a multiple of.
#[derive(Clone, Copy, PartialEq, Eq, Debug, Default)]
pub struct Block {
    pub place: usize,
    pub size: usize,
    pub align: usize,
}

impl Block {
    // The block of a layout at a place.
    pub fn at(place: usize, layout: Layout) -> Block
        ensures { result ≡ block_at place (asked layout) }
    {
        let Request { size, align } = layout.into();
        Block { place, size, align }
    }

    // Whether two blocks are one.
    pub fn is(self, other: Block) -> bool
        ensures { result ≡ same_block self other }
    {
        self == other
    }
}

// The block's size and alignment.
impl From<Block> for Request {
    ghost from_gives = { λ b r. r ≡ request_of b };

    fn from(block: Block) -> Request {
        Request {
            size: block.size,
            align: block.align,
        }
    }
}

// What a layout asks for.
impl From<Layout> for Request {
    ghost from_gives = { λ l r. r ≡ asked l };

    fn from(layout: Layout) -> Request {
        Request {
            size: layout.size(),
            align: layout.align().as_usize(),
        }
    }
}
