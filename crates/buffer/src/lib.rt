// SPDX-License-Identifier: Apache-2.0
// The buffer store: typed handles and every public call.
// Works over src/buffer_mut.rs, src/buffer.rs and the byte aliases of src/lib.rs of vortex-buffer 0.90.0.
#![tactic(auto)]

pub mod buffer;
pub mod buffer_mut;
pub mod comparing;
pub mod kinds;
pub mod refused;
pub mod state;
pub mod store;
pub mod typed_handle;
