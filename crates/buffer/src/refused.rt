// SPDX-License-Identifier: Apache-2.0
// A refused call that would have used up a handle gives it back.
ghost use Rattle.std.specs.Prelude.{◌≡◌};

use crate::typed_handle::TypedHandle;
use allocation::fault::Fault;
pub use ledger::refused::Refused;

// Why a handle was not released, and the handle: a program tries again with it, or abandons it.
// It is no `Refused`, which cannot be abandoned: what any other refused call gives back is still to be released.
// The calls keep to that, and the type does not: its fields are public, so a program can put any handle into one and abandon that.
pub struct Unreleased<H> {
    pub fault: Fault,
    pub handle: H,
}

impl<S, K> Unreleased<TypedHandle<S, K>> {
    // Gives up the handle; a line that it stands for stays in the book of the store that made it.
    pub fn abandon(self) -> Fault
        ensures { result ≡ self.fault }
    {
        let Unreleased { fault, handle } = self;
        handle.end();
        fault
    }
}
