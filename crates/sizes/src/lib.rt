// SPDX-License-Identifier: Apache-2.0
// Sizes, starts and capacities, and the lines that are made from them: every function equals a definition.
// What is asked of a line alone is a free function here, since a method of a type stands in the crate of the type.
// Works over src/buffer_mut.rs and src/buffer.rs of vortex-buffer 0.90.0.
#![tactic(auto)]

ghost use Rattle.std.specs.Prelude.{◌≡◌, ◌+◌, ◌-◌, ◌*◌, ◌/◌, ◌^◌, ◌<◌, ◌≤◌, max, true, false, ◌||◌, Some, MatchOption, nat_lt};
ghost use Rattle.sizes.specs.Numbers.{state_with};
ghost use Rattle.model.specs.Checks.{enough, smaller, is_aligned};
ghost use Rattle.model.specs.Effects.{made, copied_into, regrouped, slice_line};
ghost use Rattle.model.specs.Kinds.{byte};

pub mod placed;
pub mod seat;

use crate::seat::Seat;
use allocation::alignment::DEFAULT_ALIGNMENT;
use allocation::block::Block;
use model::line::{Backing, Kind, Line};
use std::ops::Range;

// A new mutable line with n elements at a seat.
pub fn made(serial: u32, kind: Kind, claim: usize, n: usize, seat: Seat) -> Line
    requires { 1 ≤ kind.width }
    ensures { result ≡ made (state_with serial seat.base) kind claim seat.m n seat.got }
{
    Line {
        serial,
        mutable: true,
        kind,
        backing: Backing::new(seat.got),
        start: seat.start(),
        len: n,
        capacity: seat.capacity(kind.width),
        claim,
    }
}

// The line with its elements copied to a seat.
pub fn copied_into(line: Line, mutable: bool, claim: usize, capacity: usize, seat: Seat) -> Line
    ensures { result ≡ copied_into seat.base line mutable claim seat.m capacity seat.got }
{
    Line {
        mutable,
        backing: Backing::new(seat.got),
        start: seat.start(),
        capacity,
        claim,
        ..line
    }
}

// Whether there is room for more elements behind the last.
pub fn has_room(line: Line, more: usize) -> bool
    ensures { result ≡ enough line more }
{
    more <= line.capacity.saturating_sub(line.len)
}

// The growth rule: the bytes for elements that a line gets which needs so many and has so many.
pub fn grown(needed: usize, had: usize) -> usize
    requires { 2 * had < 2 ^ 64 }
    ensures { result ≡ max (max needed (2 * had)) 256 }
{
    needed.max(2 * had).max(DEFAULT_ALIGNMENT)
}

// The block that grows to a size; none where a new one is taken.
pub fn grows_from(copies: bool, size: usize, held: Option<Block>) -> Option<Block>
    ensures { MatchOption result
        ((copies || smaller size held) ≡ true)
        (λ b. ((copies || smaller size held) ≡ false) × (held ≡ Some b) × (b.size ≤ size)) }
{
    if copies {
        return None;
    }
    held.filter(|block| block.size <= size)
}

// Where elements stand in a block that grew and now starts at a place: at their old offset.
pub fn grown_place(place: usize, base: usize, start: usize, block: Block) -> usize
    requires { (base + block.place ≤ start) × (place + (start - (base + block.place)) < 2 ^ 64) }
    ensures { result ≡ place + (start - (base + block.place)) }
{
    place + (start - (base + block.place))
}

// The place of an element in the region, or of the one behind the last.
pub fn element_place(base: usize, line: Line, i: usize) -> usize
    requires { (base ≤ line.start) × (line.start + i * line.kind.width < 2 ^ 64) }
    ensures { result ≡ line.start - base + i * line.kind.width }
{
    line.start - base + i * line.kind.width
}

// Whether the start is a multiple of an alignment.
pub fn is_aligned(line: Line, align: usize) -> bool
    ensures { result ≡ is_aligned line align }
{
    line.start.is_multiple_of(align)
}

// The same bytes as bytes.
pub fn into_bytes(line: Line) -> Line
    requires { (line.len * line.kind.width < 2 ^ 64) × (line.capacity * line.kind.width < 2 ^ 64) }
    ensures { result ≡ regrouped line byte (line.len * line.kind.width) (line.capacity * line.kind.width) line.claim }
{
    let width = line.kind.width;
    line.regrouped(
        Kind { width: 1, align: 1 },
        line.len * width,
        line.capacity * width,
        line.claim,
    )
}

// The bytes of a shared line as elements of a kind.
pub fn from_bytes(line: Line, kind: Kind, claim: usize) -> Line
    requires { (line.len * line.kind.width < 2 ^ 64) × (1 ≤ kind.width) }
    ensures { result ≡ regrouped line kind ((line.len * line.kind.width) / kind.width) 0 claim }
{
    line.regrouped(kind, line.len * line.kind.width / kind.width, 0, claim)
}

// The line of a slice on a range of the elements; an empty one has no backing.
pub fn slice_line(serial: u32, line: Line, range: Range<usize>, claim: usize) -> Line
    requires { line.start + range.start * line.kind.width < 2 ^ 64 }
    ensures { result ≡ slice_line (nat_lt range.start range.end) (state_with serial 0) line range.start (range.end - range.start) claim }
{
    if range.is_empty() {
        return Line::unbacked(serial, line.kind, claim);
    }
    Line {
        serial,
        mutable: false,
        start: line.start + range.start * line.kind.width,
        len: range.len(),
        capacity: 0,
        claim,
        ..line
    }
}
