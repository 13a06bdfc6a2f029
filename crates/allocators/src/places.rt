// SPDX-License-Identifier: Apache-2.0
// The search for a place between the live blocks of a region.
ghost use Rattle.std.specs.Prelude.{◌≡◌, ℕ, ◌+◌, ◌%◌, ◌^◌, ◌<◌, ◌≤◌, true, false, MatchOption};
ghost use Rattle.std.specs.List.{All};
ghost use Rattle.allocation.specs.Alignments.{greatest_exponent};
ghost use Rattle.allocators.specs.Fitting.{clear, fits, sound, highest_end};

use allocation::block::{Block, Request};

// The first place at or above `from` whose address is a multiple of `align`.
pub(crate) fn align_up(base: usize, from: usize, align: usize) -> usize
    requires base { base ≤ 2 ^ 47 }
    requires from { from ≤ 2 ^ 32 }
    requires align { 0 < align }
    requires small { align ≤ 2 ^ greatest_exponent }
    ensures above { from ≤ result }
    ensures near { result < from + align }
    ensures aligned { (base + result) % align ≡ 0 }
    ensures first { (q : ℕ) → from ≤ q → (base + q) % align ≡ 0 → result ≤ q }
{
    (base + from).next_multiple_of(align) - base
}

// Whether two blocks share no byte.
pub(crate) fn apart(one: Block, other: Block) -> bool
    requires one { one.place + one.size < 2 ^ 64 }
    requires other { other.place + other.size < 2 ^ 64 }
    ensures { result ≡ clear one other }
{
    one.place + one.size <= other.place || other.place + other.size <= one.place
}

// The lowest place at or above `start` where a block of the request fits between the live ones.
// A candidate that a live block is in the way of gives way to the next one behind that block: a search left by its label at the first overlap.
pub(crate) fn lowest_place(
    base: usize,
    extent: usize,
    live: &[Block],
    start: usize,
    request: Request,
) -> Option<usize>
    requires base { base ≤ 2 ^ 47 }
    requires extent { extent ≤ 2 ^ 32 }
    requires sound { sound base extent live.now ≡ true }
    requires start { start ≤ extent }
    requires align { 0 < request.align }
    requires small { request.align ≤ 2 ^ greatest_exponent }
    ensures { MatchOption result
        ((q : ℕ) → start ≤ q → fits base extent live.now request q ≡ false)
        (λ p. (start ≤ p) × (fits base extent live.now request p ≡ true)
        × ((q : ℕ) → start ≤ q → q < p → fits base extent live.now request q ≡ false)) }
{
    if request.size == 0 || request.size > extent {
        return None;
    }
    let last = extent - request.size;
    let mut place = align_up(base, start, request.align);
    'candidates: loop {
        if place > last {
            break 'candidates None;
        }
        let candidate = Block {
            place,
            size: request.size,
            align: request.align,
        };
        for b in live {
            if !apart(candidate, *b) {
                place = align_up(base, b.place + b.size, request.align);
                continue 'candidates;
            }
        }
        break 'candidates Some(place);
    }
}

// The end of the highest block, or 0.
pub(crate) fn highest(live: &[Block]) -> usize
    requires { All (λ b. b.place + b.size < 2 ^ 64) live.now }
    ensures { result ≡ highest_end live.now }
{
    live.iter()
        .fold(0, |end: usize, b| end.max(b.place + b.size))
}
