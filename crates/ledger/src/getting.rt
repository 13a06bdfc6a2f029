// SPDX-License-Identifier: Apache-2.0
// Getting a block for elements, and writing into it.
// Works over `Allocation::allocate` and `allocate_zeroed` in src/allocation.rs of vortex-buffer 0.90.0.
ghost use Rattle.std.specs.Prelude.{◌≡◌, ◌*◌, ◌≤◌, length, Some, None, MatchResult, nat_lt};
ghost use Rattle.allocation.specs.Asked.{asked};
ghost use Rattle.ledger.specs.Making.{asking, Writable};
ghost use Rattle.model.specs.Checks.{refusal};
ghost use Rattle.model.specs.Effects.{Obtains, zeros_in, written_in};

use allocation::allocation::{Allocation, Allocator};
use allocation::block::Block;
use allocation::fault::Fault;
use allocation::layout::Layout;
use element::values::Values;
use sizes::seat::Seat;

// Gets a block for so many elements; none for no elements.
pub fn obtain<B: Allocator>(
    allocator: &mut B,
    region: &[u8],
    count: usize,
    layout: Layout,
) -> Result<Option<Block>, Fault>
    requires long { length region.now ≡ (B.Allocator.meaning allocator.old).extent }
    requires some { 1 ≤ layout.size }
    ensures { MatchResult result
        (λ got. (refusal (asking (B.Allocator.meaning allocator.old) count (asked layout)) ≡ None)
        × Obtains (nat_lt 0 count) (B.Allocator.meaning allocator.old) (asked layout) got (B.Allocator.meaning allocator.new))
        (λ f. (refusal (asking (B.Allocator.meaning allocator.old) count (asked layout)) ≡ Some f)
        × (B.Allocator.meaning allocator.new ≡ B.Allocator.meaning allocator.old)) }
{
    if count == 0 {
        return Ok(None);
    }
    let allocation = Allocation::allocate(allocator, region, layout)?;
    Ok(Some(allocation.block))
}

// The same, and sets just the block to zero. It stands beside `obtain`, since it borrows the region to write: a closure for the two calls would be longer than they are.
pub fn obtain_zeroed<B: Allocator>(
    allocator: &mut B,
    region: &mut [u8],
    count: usize,
    layout: Layout,
) -> Result<Option<Block>, Fault>
    requires long { length region.old ≡ (B.Allocator.meaning allocator.old).extent }
    requires some { 1 ≤ layout.size }
    ensures { MatchResult result
        (λ got. (refusal (asking (B.Allocator.meaning allocator.old) count (asked layout)) ≡ None)
        × Obtains (nat_lt 0 count) (B.Allocator.meaning allocator.old) (asked layout) got (B.Allocator.meaning allocator.new)
        × (region.new ≡ zeros_in got region.old))
        (λ f. (refusal (asking (B.Allocator.meaning allocator.old) count (asked layout)) ≡ Some f)
        × (B.Allocator.meaning allocator.new ≡ B.Allocator.meaning allocator.old)
        × (region.new ≡ region.old)) }
{
    if count == 0 {
        return Ok(None);
    }
    let allocation = Allocation::allocate_zeroed(allocator, region, layout)?;
    Ok(Some(allocation.block))
}

// Writes the values at a seat; nothing where there is no block.
pub fn write_in<V: Values>(region: &mut [u8], seat: Seat, values: &V)
    requires { Writable seat.base seat.m seat.got (length (V.Values.patterns values.now) * V.Values.width) (length region.old) }
    ensures { region.new ≡ written_in seat.base seat.m seat.got (V.Values.bytes values.now) region.old }
{
    if let Some(place) = seat.place() {
        values.write(region, place);
    }
}
