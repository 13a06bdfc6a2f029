// SPDX-License-Identifier: Apache-2.0
// A store's book of live handles.
// Beside src/buffer_mut.rs and src/buffer.rs of vortex-buffer 0.90.0.
#![tactic(auto)]

pub mod book;
