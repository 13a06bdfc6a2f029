// SPDX-License-Identifier: Apache-2.0
// A line in its region.
// Works over `as_slice` and `into_mut` of src/buffer.rs of vortex-buffer 0.90.0.
ghost use Rattle.std.specs.Prelude.{◌≡◌, ◌≤◌};
ghost use Rattle.sizes.specs.Numbers.{Sits-prop, state_with};
ghost use Rattle.model.specs.Book.{block_of};
ghost use Rattle.model.specs.Effects.{unfrozen};
ghost use Rattle.model.specs.Invariant.{Sits};
ghost use Rattle.model.specs.Reads.{shown_place};

use model::line::{Backing, Line};

// A line beside the address of its region: its elements, and its room for more, stand inside its block.
#[derive(Clone, Copy)]
pub struct Placed {
    pub base: usize,
    pub line: Line,
    pub ghost sits: { Sits base line (block_of line.backing) } by { Sits-prop base line (block_of line.backing) },
}

impl Placed {
    // Where the part that the line shows starts in the region.
    pub fn shown_place(self) -> usize
        ensures { result ≡ shown_place self.base self.line }
    {
        if self.line.backing.block().is_some() {
            self.line.start - self.base
        } else {
            0
        }
    }

    // A shared line that becomes mutable where it stands, with all the room behind its start.
    pub fn unfrozen(self) -> Line
        requires { 1 ≤ self.line.kind.width }
        ensures { result ≡ unfrozen (state_with 0 self.base) self.line self.line.backing }
    {
        let line = self.line;
        match line.backing {
            Backing::Unbacked => Line::empty(line.serial, line.kind, line.claim),
            Backing::Empty(_) => line.with_state(true, 0),
            Backing::Owned(block) => {
                let offset = line.start - (self.base + block.place);
                line.with_state(true, (block.size - offset) / line.kind.width)
            }
        }
    }
}
