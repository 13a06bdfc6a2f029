// SPDX-License-Identifier: Apache-2.0
// Handles in a known state, for the calls that only one state has.
// Stands for `BufferMut` (src/buffer_mut.rs) and `Buffer` (src/buffer.rs) of vortex-buffer 0.90.0, where a call is of one of the two alone.
ghost use Rattle.std.specs.Prelude.{◌≡◌, true, false};

use model::line::Handle;

// A handle whose elements may change.
#[derive(Clone, Copy)]
pub struct MutableHandle {
    pub handle: Handle,
    pub ghost mutable: { handle.mutable ≡ true },
}

// A handle whose elements no longer change.
#[derive(Clone, Copy)]
pub struct SharedHandle {
    pub handle: Handle,
    pub ghost shared: { handle.mutable ≡ false },
}
