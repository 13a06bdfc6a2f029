// SPDX-License-Identifier: Apache-2.0
// Moving a line's elements into a block that was taken or that grew.
// Works over `reserve_allocate` of src/buffer_mut.rs and `Allocation::grow` of src/allocation.rs of vortex-buffer 0.90.0.
ghost use Rattle.std.specs.Prelude.{◌≡◌, ◌≤◌, true, false, length, Some, MatchResult};
ghost use Rattle.allocation.specs.Asked.{asked};
ghost use Rattle.ledger.specs.Copying.{Fitting};
ghost use Rattle.ledger.specs.Moving.{Copyable, Movable, Moved, place_at, moving_granted};
ghost use Rattle.model.specs.Book.{block_of, shown};
ghost use Rattle.model.specs.Checks.{not_granted};
ghost use Rattle.model.specs.Effects.{TakesNew, Grown, written_in};
ghost use Rattle.region.specs.Bytes.{overwrite};

use crate::giving::give_back;
use allocation::allocation::{Allocation, Allocator};
use allocation::block::Block;
use allocation::fault::Fault;
use allocation::layout::Layout;
use model::line::Line;
use region::move_within;
use sizes::seat::Seat;
use sizes::{grown_place, grows_from};

// Copies what the line shows to a place of the region.
pub fn copy_shown(region: &mut [u8], base: usize, line: Line, place: usize)
    requires { Copyable base line (length region.old) place (block_of line.backing) }
    ensures { region.new ≡ overwrite place (shown base line region.old) region.old }
{
    if let Some(_) = line.backing.block() {
        move_within(region, line.start - base, place, line.len * line.kind.width);
    }
}

// Copies what the line shows to a seat; nothing where there is no block.
pub fn copy_in(region: &mut [u8], line: Line, seat: Seat)
    requires { Fitting seat.base line (length region.old) seat.m seat.got }
    ensures { region.new ≡ written_in seat.base seat.m seat.got (shown seat.base line region.old) region.old }
{
    if let Some(place) = seat.place() {
        copy_shown(region, seat.base, line, place);
    }
}

// Takes a new block, copies the elements, and gives the old block back. What it requires of the line is what `relocate`, which calls it, does.
pub fn take_new<B: Allocator>(
    allocator: &mut B,
    region: &mut [u8],
    line: Line,
    layout: Layout,
) -> Result<Block, Fault>
    requires { Movable (B.Allocator.meaning allocator.old) (length region.old) line (asked layout) }
    ensures { MatchResult result
        (λ b. ((B.Allocator.meaning allocator.old).grants (asked layout) ≡ true)
        × TakesNew (B.Allocator.meaning allocator.old) region.old line (asked layout) (place_at (B.Allocator.meaning allocator.old) line b) b (B.Allocator.meaning allocator.new) region.new)
        (λ f. ((B.Allocator.meaning allocator.old).grants (asked layout) ≡ false) × (f ≡ not_granted (asked layout))
        × (B.Allocator.meaning allocator.new ≡ B.Allocator.meaning allocator.old) × (region.new ≡ region.old)) }
{
    let base = allocator.base();
    let allocation = Allocation::allocate(allocator, region, layout)?;
    let seat = Seat {
        base,
        m: line.claim,
        got: Some(allocation.block),
    };
    copy_in(region, line, seat);
    give_back(allocator, region, line.backing.block())?;
    Ok(allocation.block)
}

// Grows the block, and moves the elements to their new start.
pub fn grow_into<B: Allocator>(
    allocator: &mut B,
    region: &mut [u8],
    line: Line,
    block: Block,
    layout: Layout,
) -> Result<Block, Fault>
    requires movable { Movable (B.Allocator.meaning allocator.old) (length region.old) line (asked layout) }
    requires on { block_of line.backing ≡ Some block }
    requires larger { block.size ≤ layout.size }
    ensures { MatchResult result
        (λ b. ((B.Allocator.meaning allocator.old).grows block (asked layout) ≡ true)
        × Grown (B.Allocator.meaning allocator.old) region.old line (asked layout) (place_at (B.Allocator.meaning allocator.old) line b) b (B.Allocator.meaning allocator.new) region.new)
        (λ f. ((B.Allocator.meaning allocator.old).grows block (asked layout) ≡ false) × (f ≡ not_granted (asked layout))
        × (B.Allocator.meaning allocator.new ≡ B.Allocator.meaning allocator.old) × (region.new ≡ region.old)) }
{
    let base = allocator.base();
    let mut allocation = Allocation { block };
    allocation.grow(allocator, region, layout)?;
    let seat = Seat {
        base,
        m: line.claim,
        got: Some(allocation.block),
    };
    let place = seat.start() - base;
    let from = grown_place(allocation.block.place, base, line.start, block);
    move_within(region, from, place, line.len * line.kind.width);
    Ok(allocation.block)
}

// Moves the elements into a block of the layout: a new one where the allocator copies or the old one is larger, else the old one, grown.
pub fn relocate<B: Allocator>(
    allocator: &mut B,
    region: &mut [u8],
    line: Line,
    layout: Layout,
) -> Result<Block, Fault>
    requires movable { Movable (B.Allocator.meaning allocator.old) (length region.old) line (asked layout) }
    ensures { MatchResult result
        (λ b. Moved (B.Allocator.meaning allocator.old) region.old line (asked layout) b (B.Allocator.meaning allocator.new) region.new)
        (λ f. (moving_granted (B.Allocator.meaning allocator.old) (asked layout) (block_of line.backing) ≡ false) × (f ≡ not_granted (asked layout))
        × (B.Allocator.meaning allocator.new ≡ B.Allocator.meaning allocator.old) × (region.new ≡ region.old)) }
{
    match grows_from(allocator.copies(), layout.size(), line.backing.block()) {
        Some(block) => grow_into(allocator, region, line, block, layout),
        None => take_new(allocator, region, line, layout),
    }
}
