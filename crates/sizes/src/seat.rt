// SPDX-License-Identifier: Apache-2.0
// Where elements stand in what was got for them.
// Works over `with_capacity_preferred_aligned_in` of src/buffer_mut.rs of vortex-buffer 0.90.0.
ghost use Rattle.std.specs.Prelude.{◌≡◌, ◌≤◌};
ghost use Rattle.sizes.specs.Numbers.{Spaced, Spaced-prop, place_in};
ghost use Rattle.model.specs.Effects.{start_in, capacity_in};

use allocation::block::Block;

// The region's address, the alignment of the start, and the block that was got, if any: it has room to round its own start up to the alignment.
#[derive(Clone, Copy)]
pub struct Seat {
    pub base: usize,
    pub m: usize,
    pub got: Option<Block>,
    pub ghost spaced: { Spaced base m got } by { Spaced-prop base m got },
}

impl Seat {
    // Where elements start: at the first multiple of m in the block, and at m without one.
    pub fn start(self) -> usize
        ensures { result ≡ start_in self.base self.m self.got }
    {
        match self.got {
            Some(block) => (self.base + block.place).next_multiple_of(self.m),
            None => self.m,
        }
    }

    // The same as a place in the region; none without a block.
    pub fn place(self) -> Option<usize>
        ensures { result ≡ place_in self.base self.m self.got }
    {
        // A closure of `map` would have to show once more that the subtraction stays above 0.
        match self.got {
            Some(_) => Some(self.start() - self.base),
            None => None,
        }
    }

    // How many elements of a width the block holds from there on; none without one.
    pub fn capacity(self, width: usize) -> usize
        requires { 1 ≤ width }
        ensures { result ≡ capacity_in self.base self.m width self.got }
    {
        match self.got {
            Some(block) => {
                let offset = self.start() - (self.base + block.place);
                (block.size - offset) / width
            }
            None => 0,
        }
    }
}
