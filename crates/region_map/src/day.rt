// SPDX-License-Identifier: Apache-2.0
// A host's day with one allocator: what it takes, grows and gives back on a region of its own, and what it counts of that.
use allocation::alignment::Alignment;
use allocation::allocation::{Allocation, Allocator};
use allocation::block::{Block, Request};
use allocation::fault::{Fault, Refusal};
use allocation::layout::Layout;
use std::alloc::{AllocError, Global};
use std::collections::BTreeMap;
use std::ops::Range;
use thiserror::Error;

// What the host can ask for. Blocks are named by the number that they were given when they were taken.
#[derive(Clone, Copy)]
pub enum Call {
    Take(Request),
    Zero(Request),
    Grow { number: usize, size: usize },
    Give { number: usize },
}

// A block that the host holds: its number, where it is, and the byte that the host has written all over it.
#[derive(Clone, Copy)]
pub struct Held {
    pub number: usize,
    pub block: Block,
    pub address: usize,
    pub mark: u8,
}

impl Held {
    // The place behind the block's last byte.
    pub fn end(&self) -> usize {
        places(self.block).end
    }
}

// What was done, and what a look at the block's bytes showed.
#[derive(Clone, Copy)]
pub enum Outcome {
    Taken {
        held: Held,
    },
    Zeroed {
        held: Held,
        all_zero: bool,
    },
    Grown {
        held: Held,
        moved: bool,
        came_along: bool,
    },
    Given {
        held: Held,
        untouched: bool,
    },
}

// Why nothing was done.
#[derive(Debug, Drop, Error)]
pub enum Trouble {
    #[error(transparent)]
    Refused(#[from] Fault),
    #[error("an alignment is a power of two")]
    NotAPower,
    #[error("the host holds no block of that number")]
    NotHeld,
    #[error("this machine has no memory left")]
    Memory,
}

// By way of a fault, which a derived `From` cannot take.
impl From<Refusal> for Trouble {
    fn from(refusal: Refusal) -> Trouble {
        Trouble::Refused(refusal.into())
    }
}

// What the host counts.
#[derive(Clone, Copy, Default)]
pub struct Tally {
    pub taken: usize,
    pub grown: usize,
    pub given: usize,
    pub refused: usize,
    pub fullest: usize,
}

// What is left to say at a day's end.
#[derive(Clone, Copy)]
pub struct Closing {
    pub tally: Tally,
    pub extent: usize,
    pub blocks_left: usize,
    pub bytes_left: usize,
}

// The byte that stands everywhere before the day begins.
const UNTOUCHED: u8 = 165;

// The region of a day, and the blocks that the host holds there, by their numbers.
#[derive(Drop)]
pub struct Day {
    base: usize,
    region: Vec<u8>,
    held: BTreeMap<usize, Held>,
    tally: Tally,
}

impl Day {
    // A day on a new region of that base and length.
    pub fn begin(heap: Global, base: usize, extent: usize) -> Result<Day, AllocError> {
        let region = vec![in heap; UNTOUCHED; extent]?;
        Ok(Day {
            base,
            region,
            held: BTreeMap::new(heap),
            tally: Tally::default(),
        })
    }

    pub fn extent(&self) -> usize {
        self.region.len()
    }

    pub fn held(&self) -> &BTreeMap<usize, Held> {
        &self.held
    }

    pub fn closing(&self) -> Closing {
        Closing {
            tally: self.tally,
            extent: self.extent(),
            blocks_left: self.held.len(),
            bytes_left: self.bytes_held(),
        }
    }

    // How many bytes the host holds.
    fn bytes_held(&self) -> usize {
        self.held.values().fold(0usize, |bytes, held| bytes.saturating_add(held.block.size))
    }

    // Makes a call of the allocator, and counts what came of it.
    pub fn call<B: Allocator>(
        &mut self,
        allocator: &mut B,
        call: Call,
    ) -> Result<Outcome, Trouble> {
        let outcome = match call {
            Call::Take(request) => self.take(allocator, request),
            Call::Zero(request) => self.zero(allocator, request),
            Call::Grow { number, size } => self.grow(allocator, number, size),
            Call::Give { number } => self.give(allocator, number),
        };
        self.count(&outcome);
        outcome
    }

    fn count(&mut self, outcome: &Result<Outcome, Trouble>) {
        let counter = match outcome {
            Ok(Outcome::Taken { .. } | Outcome::Zeroed { .. }) => &mut self.tally.taken,
            Ok(Outcome::Grown { .. }) => &mut self.tally.grown,
            Ok(Outcome::Given { .. }) => &mut self.tally.given,
            Err(_) => &mut self.tally.refused,
        };
        *counter = counter.saturating_add(1);
        self.tally.fullest = self.tally.fullest.max(self.bytes_held());
    }

    // Takes a block and writes the host's mark all over it.
    fn take<B: Allocator>(
        &mut self,
        allocator: &mut B,
        request: Request,
    ) -> Result<Outcome, Trouble> {
        let layout = layout_of(request)?;
        let allocation = Allocation::allocate(allocator, self.region.as_slice(), layout)?;
        let held = self.keep(allocator, allocation, mark_of(self.next_number()))?;
        fill(self.region.as_mut_slice(), held.block, held.mark);
        Ok(Outcome::Taken { held })
    }

    // Takes a block of zeros.
    fn zero<B: Allocator>(
        &mut self,
        allocator: &mut B,
        request: Request,
    ) -> Result<Outcome, Trouble> {
        let layout = layout_of(request)?;
        let allocation = Allocation::allocate_zeroed(
            allocator,
            self.region.as_mut_slice(),
            layout,
        )?;
        let held = self.keep(allocator, allocation, 0)?;
        let all_zero = is_filled(self.region.as_slice(), held.block, 0);
        Ok(Outcome::Zeroed { held, all_zero })
    }

    // Grows a block of the host's, and looks whether its bytes came along.
    fn grow<B: Allocator>(
        &mut self,
        allocator: &mut B,
        number: usize,
        size: usize,
    ) -> Result<Outcome, Trouble> {
        let held = self.held.get_mut(&number).ok_or(Trouble::NotHeld)?;
        let old = held.block;
        let align = old.align;
        let layout = layout_of(Request { size, align })?;
        let mut allocation = Allocation { block: old };
        allocation.grow(allocator, self.region.as_mut_slice(), layout)?;
        let new = allocation.block;
        held.block = new;
        held.address = self.base.saturating_add(new.place);
        let brought = Block {
            size: old.size,
            ..new
        };
        let came_along = is_filled(self.region.as_slice(), brought, held.mark);
        fill(self.region.as_mut_slice(), new, held.mark);
        Ok(Outcome::Grown {
            held: *held,
            moved: new.place != old.place,
            came_along,
        })
    }

    // Gives a block back, after a last look at its bytes.
    fn give<B: Allocator>(&mut self, allocator: &mut B, number: usize) -> Result<Outcome, Trouble> {
        let held = *self.held.get(&number).ok_or(Trouble::NotHeld)?;
        let untouched = is_filled(self.region.as_slice(), held.block, held.mark);
        let allocation = Allocation { block: held.block };
        allocation.release(allocator, self.region.as_slice())?;
        self.held.remove(&number);
        Ok(Outcome::Given { held, untouched })
    }

    // Notes a block under the next number; where that finds no memory, the block goes back.
    fn keep<B: Allocator>(
        &mut self,
        allocator: &mut B,
        allocation: Allocation,
        mark: u8,
    ) -> Result<Held, Trouble> {
        let number = self.next_number();
        let held = Held {
            number,
            block: allocation.block,
            address: self.base.saturating_add(allocation.place()),
            mark,
        };
        if self.held.insert(number, held).is_err() {
            allocation.release(allocator, self.region.as_slice())?;
            return Err(Trouble::Memory);
        }
        Ok(held)
    }

    // The number of the next block that is taken.
    fn next_number(&self) -> usize {
        self.tally.taken.saturating_add(1)
    }
}

// The layout of a size and an alignment in bytes.
fn layout_of(request: Request) -> Result<Layout, Trouble> {
    if !request.align.is_power_of_two() {
        return Err(Trouble::NotAPower);
    }
    let exponent = request.align.trailing_zeros() as u8;
    let align = Alignment::try_from_untrusted_exponent(exponent)?;
    Ok(Layout::from_size_align(request.size, align)?)
}

// The mark of the block of that number: never 0, and never what stood there before the day.
fn mark_of(number: usize) -> u8 {
    (number % 100) as u8 + 1
}

// The places of a block's bytes.
fn places(block: Block) -> Range<usize> {
    block.place..block.place.saturating_add(block.size)
}

// Whether every byte of a block is this one.
fn is_filled(region: &[u8], block: Block, mark: u8) -> bool {
    region
        .get(places(block))
        .is_some_and(|bytes| bytes.iter().all(|byte| *byte == mark))
}

fn fill(region: &mut [u8], block: Block, mark: u8) {
    if let Some(bytes) = region.get_mut(places(block)) {
        bytes.fill(mark);
    }
}
