// SPDX-License-Identifier: Apache-2.0
// Cases of General and Shelf, worked out by hand from their rules, and replayed.
// They stand beside the tests of src/allocation.rs of vortex-buffer 0.90.0.
#![tactic(auto)]

pub mod general;
pub mod replay;
pub mod shelf;
