// SPDX-License-Identifier: Apache-2.0
// Stands for a host's allocator under src/allocation.rs of vortex-buffer 0.90.0.
ghost use Rattle.std.specs.Prelude.{◌≡◌, ◌^◌, ◌≤◌, true};
ghost use Rattle.lone_block.specs.Blocks.{sits};

use allocation::block::Block;

pub mod ops;

// Hands out one block at a time, at the lowest place that is aligned; it grows where it stands.
#[derive(Drop)]
pub struct LoneBlock {
    base: usize,
    extent: usize,
    live: Option<Block>,
    ghost low: { base ≤ 2 ^ 47 },
    ghost long: { 1024 ≤ extent },
    ghost short: { extent ≤ 2 ^ 32 },
    ghost kept: { sits base extent live ≡ true },
}
