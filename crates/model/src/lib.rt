// SPDX-License-Identifier: Apache-2.0
// What a store is, what every call answers, and what holds over every run of calls: definitions in specs/, proofs in proofs/.
// Beside src/buffer_mut.rs and src/buffer.rs of vortex-buffer 0.90.0.
#![tactic(auto)]

pub mod line;
pub mod theorems;
