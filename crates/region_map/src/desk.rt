// SPDX-License-Identifier: Apache-2.0
// A day that goes on, with the allocator that the host chose for it.
use crate::command::Kind;
use crate::day::{Call, Day, Outcome, Trouble};
use crate::picture;
use allocation::fault::Refusal;
use allocators::general::General;
use allocators::shelf::Shelf;
use std::io;

// An allocator of the kind that a line of the input names: only the run knows which, and a boxed one may not leave the function that makes it.
#[derive(Drop)]
enum Chosen {
    General(General),
    Shelf(Shelf),
}

impl Chosen {
    fn new(kind: Kind, base: usize, extent: usize) -> Result<Chosen, Refusal> {
        match kind {
            Kind::General => General::new(base, extent).map(Chosen::General),
            Kind::Shelf => Shelf::new(base, extent).map(Chosen::Shelf),
        }
    }
}

#[derive(Drop)]
pub struct Desk {
    allocator: Chosen,
    day: Day,
}

impl Desk {
    // Begins a day with a new allocator; none where its region is beyond the limits.
    // Not inlined, nor is `outcome`: the stack that each needs would lie in the frame of `obey` all day.
    #[inline(never)]
    pub fn open(
        rt: &(impl Print + AllocGlobal),
        kind: Kind,
        extent: usize,
        base: usize,
    ) -> io::Result<Option<Desk>> {
        match Chosen::new(kind, base, extent) {
            Ok(allocator) => {
                println!(rt; "   a {kind} allocator over {extent} bytes at address {base}")?;
                let day = Day::begin(rt.alloc(), base, extent)?;
                Ok(Some(Desk { allocator, day }))
            }
            Err(refusal) => {
                println!(rt; "   {refusal}")?;
                println!(rt;
                    "   a region has 1024 to 4294967296 bytes, and its base is 1 to 140737488355328"
                )?;
                Ok(None)
            }
        }
    }

    // Makes a call and prints what came of it.
    pub fn call(&mut self, rt: &impl Print, call: Call) -> io::Result<()> {
        match self.outcome(call) {
            Ok(outcome) => println!(rt; "   {outcome}"),
            Err(trouble) => println!(rt; "   {trouble}"),
        }
    }

    #[inline(never)]
    fn outcome(&mut self, call: Call) -> Result<Outcome, Trouble> {
        match &mut self.allocator {
            Chosen::General(general) => self.day.call(general, call),
            Chosen::Shelf(shelf) => self.day.call(shelf, call),
        }
    }

    // Prints a picture of the region.
    pub fn draw(&self, rt: &impl Print) -> io::Result<()> {
        picture::draw(rt, &self.day)
    }

    // Prints the sentences at the day's end, and a picture where blocks are left.
    pub fn close(&self, rt: &impl Print) -> io::Result<()> {
        let closing = self.day.closing();
        println!(rt; "{closing}")?;
        if closing.blocks_left == 0 {
            return Ok(());
        }
        self.draw(rt)
    }
}
