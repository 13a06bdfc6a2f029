// SPDX-License-Identifier: Apache-2.0
// Alignments, layouts, refusals, and the trait of every allocator of blocks, with its meaning and laws.
// Beside src/alignment.rs and src/allocation.rs of vortex-buffer 0.90.0.
#![tactic(auto)]

pub mod alignment;
pub mod allocation;
pub mod block;
pub mod fault;
pub mod layout;
