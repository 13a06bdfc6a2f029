// SPDX-License-Identifier: Apache-2.0
// A store over plain handles: every call of the buffers, as a change of the book, of the allocator's blocks and of the region's bytes.
// Works over src/buffer_mut.rs and src/buffer.rs of vortex-buffer 0.90.0.
#![tactic(auto)]

pub mod admitting;
pub mod appending;
pub mod claim;
pub mod copy_plan;
pub mod copying;
pub mod editing;
pub mod getting;
pub mod giving;
pub mod handing;
pub mod handles;
pub mod ledger;
pub mod making;
pub mod moving;
pub mod opening;
pub mod plan;
pub mod reading;
pub mod refused;
pub mod register;
pub mod releasing;
pub mod reserving;
pub mod slicing;
pub mod spot;
pub mod terms;
