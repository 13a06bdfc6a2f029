// SPDX-License-Identifier: Apache-2.0
// What a making asks for.
use allocation::layout::Layout;

// The serial of the new handle, the alignment that its elements start at, the region's address, and the block's layout.
#[derive(Clone, Copy)]
pub struct Plan {
    pub serial: u32,
    pub m: usize,
    pub base: usize,
    pub layout: Layout,
}
