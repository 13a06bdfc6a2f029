// SPDX-License-Identifier: Apache-2.0
// Ending a handle.
// Works over the drop of `BufferMut` (src/buffer_mut.rs) and `Buffer` (src/buffer.rs) of vortex-buffer 0.90.0.
ghost use Rattle.ledger.specs.Results.{Done};
ghost use Rattle.ledger.specs.View.{state};
ghost use Rattle.model.specs.Calls.{Release};

use crate::giving::give_back;
use crate::ledger::Ledger;
use allocation::allocation::Allocator;
use allocation::fault::Fault;
use model::line::Handle;

impl<B: Allocator> Ledger<B> {
    // Ends a handle; the last one on a block gives it back.
    pub fn release(&mut self, region: &[u8], h: Handle) -> Result<(), Fault>
        ensures { Done (state B.Allocator.meaning self.old region.now) (Release h) result (state B.Allocator.meaning self.new region.now) }
    {
        let spot = self.admits(region, h)?;
        let shared = self.register.shares(spot.line);
        give_back(&mut self.allocator, region, spot.line.block_left(shared))?;
        self.register.book.end(spot.place);
        Ok(())
    }
}
