// SPDX-License-Identifier: Apache-2.0
// Reading what a handle's line says.
// Works over `len`, `capacity` and `alignment` of src/buffer_mut.rs and src/buffer.rs of vortex-buffer 0.90.0.
ghost use Rattle.std.specs.Prelude.{◌≡◌, ◌+◌, ◌*◌, ◌^◌, ◌<◌, ◌≤◌, length, Some, None, IfOk, MatchResult};
ghost use Rattle.ledger.specs.Results.{Shown, Tells};
ghost use Rattle.ledger.specs.View.{state};
ghost use Rattle.model.specs.Book.{line};
ghost use Rattle.model.specs.Calls.{Read};
ghost use Rattle.model.specs.Checks.{refusal, checks};
ghost use Rattle.model.specs.Reads.{alignment_of, capacity_of, is_aligned_to, is_empty, len_of, slice_bytes, shown_place};
ghost use Rattle.region.specs.Bytes.{part};

use crate::ledger::Ledger;
use allocation::allocation::Allocator;
use allocation::fault::Fault;
use model::line::{Handle, Line};
use sizes::is_aligned;
use sizes::placed::Placed;

// The part of the region that a line shows.
pub fn shown_in(region: &[u8], placed: Placed) -> &[u8]
    requires { (placed.line.len * placed.line.kind.width < 2 ^ 64) × (shown_place placed.base placed.line + placed.line.len * placed.line.kind.width ≤ length region.now) }
    ensures { result.now ≡ part (shown_place placed.base placed.line) (placed.line.len * placed.line.kind.width) region.now }
{
    let from = placed.shown_place();
    &region[from..from + placed.line.len * placed.line.kind.width]
}

impl<B: Allocator> Ledger<B> {
    // The line of a handle: its length, capacity, claim and start.
    pub fn read(&self, region: &[u8], h: Handle) -> Result<Line, Fault>
        ensures { Tells (state B.Allocator.meaning self.now region.now) h (line (state B.Allocator.meaning self.now region.now) h) result }
    {
        let spot = self.admits(region, h)?;
        Ok(spot.line)
    }

    // How many elements a handle has.
    pub fn len(&self, region: &[u8], h: Handle) -> Result<usize, Fault>
        ensures { Tells (state B.Allocator.meaning self.now region.now) h (len_of (state B.Allocator.meaning self.now region.now) h) result }
    {
        self.read(region, h).map(|line| line.len)
    }

    // Whether a handle has no element.
    pub fn is_empty(&self, region: &[u8], h: Handle) -> Result<bool, Fault>
        ensures { Tells (state B.Allocator.meaning self.now region.now) h (is_empty (state B.Allocator.meaning self.now region.now) h) result }
    {
        self.read(region, h).map(|line| line.len == 0)
    }

    // How many elements a handle has room for; 0 of a shared one.
    pub fn capacity(&self, region: &[u8], h: Handle) -> Result<usize, Fault>
        ensures { Tells (state B.Allocator.meaning self.now region.now) h (capacity_of (state B.Allocator.meaning self.now region.now) h) result }
    {
        self.read(region, h).map(|line| line.capacity)
    }

    // The claim of a handle.
    pub fn alignment(&self, region: &[u8], h: Handle) -> Result<usize, Fault>
        ensures { Tells (state B.Allocator.meaning self.now region.now) h (alignment_of (state B.Allocator.meaning self.now region.now) h) result }
    {
        self.read(region, h).map(|line| line.claim)
    }

    // Whether the start of a handle is a multiple of an alignment.
    pub fn is_aligned(&self, region: &[u8], h: Handle, claim: usize) -> Result<bool, Fault>
        ensures { Tells (state B.Allocator.meaning self.now region.now) h (is_aligned_to (state B.Allocator.meaning self.now region.now) h claim) result }
    {
        self.read(region, h).map(|line| is_aligned(line, claim))
    }

    // The bytes of a handle's elements: the part of the region that it shows.
    pub fn as_slice<'a>(&self, region: &'a [u8], h: Handle) -> Result<&'a [u8], Fault>
        ensures outcome { MatchResult result
            (λ s. (refusal (checks (state B.Allocator.meaning self.now region.now) (length region.now) (Read h)) ≡ None)
            × (s.now ≡ slice_bytes (state B.Allocator.meaning self.now region.now) h))
            (λ f. refusal (checks (state B.Allocator.meaning self.now region.now) (length region.now) (Read h)) ≡ Some f) }
        ensures place { IfOk result (λ s. Shown (state B.Allocator.meaning self.now region.now) h s.now) }
    {
        let spot = self.admits(region, h)?;
        let placed = Placed {
            base: self.allocator.base(),
            line: spot.line,
        };
        Ok(shown_in(region, placed))
    }
}
