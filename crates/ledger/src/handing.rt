// SPDX-License-Identifier: Apache-2.0
// Calls that make a second handle out of one.
// Works over `std::mem::take` of a `BufferMut` (src/buffer_mut.rs) and `clone` of a `Buffer` (src/buffer.rs) of vortex-buffer 0.90.0.
ghost use Rattle.ledger.specs.Changes.{AsksBoth, KeepsBoth, OpenedBeside};
ghost use Rattle.ledger.specs.Results.{Opens};
ghost use Rattle.ledger.specs.View.{state};
ghost use Rattle.model.specs.Calls.{Take, Share};

use crate::handles::{MutableHandle, SharedHandle};
use crate::ledger::Ledger;
use allocation::allocation::Allocator;
use allocation::fault::Fault;
use model::line::{Handle, Line};

impl<B: Allocator> Ledger<B> {
    // Opens a second handle out of one: the change gives the lines of both, from the line and the new serial.
    #[tactic(auto, unfolding(crate::specs::Changes::OpenedBeside))]
    fn open_beside<F: FnOnce(Line, u32) -> (Line, Line)>(
        &mut self,
        region: &[u8],
        h: Handle,
        change: F,
    ) -> Result<u32, Fault>
        requires asks { AsksBoth (state B.Allocator.meaning self.old region.now) h (F.pre change) }
        requires keeps { KeepsBoth (state B.Allocator.meaning self.old region.now) h (F.post change) }
        ensures { OpenedBeside (state B.Allocator.meaning self.old region.now) h (F.post change) result (state B.Allocator.meaning self.new region.now) }
    {
        let spot = self.admits(region, h)?;
        let serial = self.next_serial(region)?;
        let (first, second) = change(spot.line, serial);
        self.register.book.put(spot.place, first);
        self.register.add(second);
        Ok(serial)
    }

    // A new handle gets everything that the mutable handle has, which is left empty.
    pub fn take(&mut self, region: &[u8], h: MutableHandle) -> Result<u32, Fault>
        ensures { Opens (state B.Allocator.meaning self.old region.now) (Take h.handle) result (state B.Allocator.meaning self.new region.now) }
    {
        self.open_beside(region, h.handle, |line, serial| {
            let left = Line::empty(h.handle.serial, line.kind, line.claim);
            (left, line.with_serial(serial))
        })
    }

    // A new shared handle on the backing of a shared one, with the same elements.
    pub fn share(&mut self, region: &[u8], h: SharedHandle) -> Result<u32, Fault>
        ensures { Opens (state B.Allocator.meaning self.old region.now) (Share h.handle) result (state B.Allocator.meaning self.new region.now) }
    {
        self.open_beside(region, h.handle, |line, serial| {
            let first = line.with_backing(line.backing.shared_with(serial));
            (first, first.with_serial(serial))
        })
    }
}
