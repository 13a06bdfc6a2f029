// SPDX-License-Identifier: Apache-2.0
// The region that an allocator serves: its address and length, and the live blocks in it.
ghost use Rattle.std.specs.Prelude.{◌≡◌, ◌^◌, ◌≤◌, true};
ghost use Rattle.allocators.specs.Fitting.{sound};

use allocation::block::Block;
use arrayvec::ArrayVec;

pub mod ops;

// How many blocks may be live at once.
pub(crate) const LINES: usize = 64;

// The live blocks of a region, in the order in which they came.
#[derive(Drop)]
pub struct Arena {
    pub(crate) base: usize,
    pub(crate) extent: usize,
    pub(crate) live: ArrayVec<Block, LINES>,
    ghost low: { base ≤ 2 ^ 47 },
    ghost long: { 1024 ≤ extent },
    ghost short: { extent ≤ 2 ^ 32 },
    ghost kept: { sound base extent live.items ≡ true },
}
