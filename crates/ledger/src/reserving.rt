// SPDX-License-Identifier: Apache-2.0
// Room for more elements.
// Works over `reserve` of src/buffer_mut.rs of vortex-buffer 0.90.0.
ghost use Rattle.ledger.specs.Moving.{Reserved};
ghost use Rattle.ledger.specs.Results.{Done};
ghost use Rattle.ledger.specs.View.{state};
ghost use Rattle.model.specs.Calls.{Reserve};

use crate::handles::MutableHandle;
use crate::ledger::Ledger;
use crate::moving::relocate;
use crate::spot::Spot;
use allocation::allocation::Allocator;
use allocation::fault::Fault;
use checks::room_for;
use sizes::has_room;

impl<B: Allocator> Ledger<B> {
    // Makes room for more elements; then the handle's line as it is now.
    pub fn make_room(
        &mut self,
        region: &mut [u8],
        h: MutableHandle,
        more: usize,
    ) -> Result<Spot, Fault>
        ensures { Reserved (state B.Allocator.meaning self.old region.old) h.handle more result (state B.Allocator.meaning self.new region.new) }
    {
        let spot = self.admits(region, h.handle)?;
        if has_room(spot.line, more) {
            return Ok(spot);
        }
        let room = room_for(spot.line, more)?;
        let base = self.allocator.base();
        let block = relocate(&mut self.allocator, region, spot.line, room.layout)?;
        let start = (base + block.place).next_multiple_of(spot.line.claim);
        let capacity = room.bytes / spot.line.kind.width;
        let line = spot.line.relocated(block, start, capacity);
        self.register.book.put(spot.place, line);
        Ok(Spot {
            place: spot.place,
            line,
        })
    }

    // Makes room for more elements.
    pub fn reserve(&mut self, region: &mut [u8], h: MutableHandle, more: usize) -> Result<(), Fault>
        ensures { Done (state B.Allocator.meaning self.old region.old) (Reserve h.handle more) result (state B.Allocator.meaning self.new region.new) }
    {
        self.make_room(region, h, more)?;
        Ok(())
    }
}
