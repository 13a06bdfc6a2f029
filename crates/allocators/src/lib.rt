// SPDX-License-Identifier: Apache-2.0
// Two allocators of a region's blocks: General takes the lowest place that fits, Shelf stacks blocks above the highest.
// They stand for the host's allocators under src/allocation.rs of vortex-buffer 0.90.0.
#![tactic(auto)]

pub mod arena;
pub mod general;
pub mod placement;
pub mod places;
pub mod shelf;
pub mod table_allocator;
pub mod theorems;
