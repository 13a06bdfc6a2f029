// SPDX-License-Identifier: Apache-2.0
// The two states of a handle, as types: what one state lacks, a program that is built does not call.
ghost use Rattle.std.specs.Prelude.{Bool, true, false};

mod sealed {
    pub trait Sealed {}
}

// A state of a handle.
pub trait HandleState: sealed::Sealed {
    // Whether the elements may change.
    const MUTABLE: bool;

    ghost MUTABLE: { Bool };
}

// The elements may change: the handle is alone on its backing.
pub struct Mutable;

// The elements no longer change, and other handles may be on the backing.
pub struct Shared;

impl sealed::Sealed for Mutable {}

impl sealed::Sealed for Shared {}

impl HandleState for Mutable {
    const MUTABLE: bool = true;

    ghost MUTABLE = { true };
}

impl HandleState for Shared {
    const MUTABLE: bool = false;

    ghost MUTABLE = { false };
}
