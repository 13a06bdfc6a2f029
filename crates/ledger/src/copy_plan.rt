// SPDX-License-Identifier: Apache-2.0
// What a copy asks for.
use allocation::block::Block;
use allocation::layout::Layout;

// The alignment that the elements start at, the region's address, the block's layout, and the block that goes back.
#[derive(Clone, Copy)]
pub struct CopyPlan {
    pub m: usize,
    pub base: usize,
    pub layout: Layout,
    pub left: Option<Block>,
}
