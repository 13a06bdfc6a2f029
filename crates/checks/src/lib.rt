// SPDX-License-Identifier: Apache-2.0
// The checks of the calls, a function for each group: the first check that holds is the refusal.
// The checks of a line are free functions here, since a method of a type stands in the crate of the type.
// Works over src/buffer_mut.rs and src/buffer.rs of vortex-buffer 0.90.0.
#![tactic(auto)]

ghost use Rattle.std.specs.Prelude.{◌≡◌, ◌+◌, ◌*◌, ◌^◌, ◌<◌, ◌≤◌, true, false, [], ◌∷◌, ◌++◌, Some, None, MatchOption, MatchResult};
ghost use Rattle.allocation.specs.Asked.{asked};
ghost use Rattle.allocation.specs.declared.fault.Fault.TheVariants.{Alone};
ghost use Rattle.allocation.specs.declared.fault.Refusal.TheVariants.{BoundOverflow};
ghost use Rattle.checks.specs.Groups.{below_kind, too_large, size_checks, growth_checks, range_checks, misplaced, placing_checks, start_check, aligned_checks, regroup_checks, index_check, shared_check};
ghost use Rattle.model.specs.Checks.{refusal, overflows, request_for, wanted_bytes, wanted_request, begin, finish, begin_overflows, finish_overflows, slice_checks};

use allocation::alignment::Alignment;
use allocation::fault::{Fault, Refusal};
use allocation::layout::Layout;
use model::line::{Kind, Line};
use sizes::{grown, is_aligned};
use std::ops::Bound;

// The alignment is at least that of the kind.
pub fn fits_kind(kind: Kind, claim: usize) -> Result<(), Fault>
    ensures { MatchResult result
        (λ _. refusal (below_kind kind claim) ≡ None)
        (λ f. refusal (below_kind kind claim) ≡ Some f) }
{
    if claim < kind.align {
        return Err(Refusal::BelowKindAlignment.into());
    }
    Ok(())
}

// The layout of a block of so many bytes, at alignment 1.
pub fn layout_of(size: usize) -> Result<Layout, Fault>
    ensures { MatchResult result
        (λ l. (asked l ≡ request_for size) × (refusal (too_large size) ≡ None))
        (λ f. refusal (too_large size) ≡ Some f) }
{
    Ok(Layout::from_size_align(size, Alignment::none())?)
}

// The layout of a block for elements of a width and an alignment of m.
pub fn block_layout(width: usize, count: usize, m: usize) -> Result<Layout, Fault>
    ensures { MatchResult result
        (λ l. (asked l ≡ request_for (count * width + m)) × (refusal (size_checks (count * width + m)) ≡ None))
        (λ f. refusal (size_checks (count * width + m)) ≡ Some f) }
{
    let bytes = count.checked_mul(width).ok_or(Refusal::Overflow)?;
    let size = bytes.checked_add(m).ok_or(Refusal::Overflow)?;
    layout_of(size)
}

// A making: the layout of its block, where the alignment fits the kind.
pub fn making(kind: Kind, count: usize, claim: usize, m: usize) -> Result<Layout, Fault>
    ensures { MatchResult result
        (λ l. (asked l ≡ request_for (count * kind.width + m)) × (refusal (below_kind kind claim ++ size_checks (count * kind.width + m)) ≡ None))
        (λ f. refusal (below_kind kind claim ++ size_checks (count * kind.width + m)) ≡ Some f) }
{
    fits_kind(kind, claim)?;
    block_layout(kind.width, count, m)
}

// The bytes of a line's elements and of more behind them, if they fit 64 bits.
fn bytes_with(line: Line, more: usize) -> Option<usize>
    requires { 1 ≤ line.kind.width }
    ensures { MatchOption result
        (overflows ((line.len + more) * line.kind.width) ≡ true)
        (λ n. (n ≡ (line.len + more) * line.kind.width) × (overflows ((line.len + more) * line.kind.width) ≡ false)) }
{
    let count = line.len.checked_add(more)?;
    count.checked_mul(line.kind.width)
}

// What a line that needs more room asks for: the bytes for its elements, and the layout of a block for them and its claim.
#[derive(Clone, Copy)]
pub struct Room {
    pub bytes: usize,
    pub layout: Layout,
}

// The room to ask for where there is not enough for more elements.
pub fn room_for(line: Line, more: usize) -> Result<Room, Fault>
    requires { (1 ≤ line.kind.width) × (2 * (line.capacity * line.kind.width) < 2 ^ 64) }
    ensures { MatchResult result
        (λ w. (w.bytes ≡ wanted_bytes line more) × (asked w.layout ≡ wanted_request line more) × (refusal (growth_checks line more) ≡ None))
        (λ f. refusal (growth_checks line more) ≡ Some f) }
{
    let needed = bytes_with(line, more).ok_or(Refusal::Overflow)?;
    let bytes = grown(needed, line.capacity * line.kind.width);
    let size = bytes.checked_add(line.claim).ok_or(Refusal::Overflow)?;
    let layout = layout_of(size)?;
    Ok(Room { bytes, layout })
}

// A range of elements: its first, and the one behind its last. The library's `Range` is not `Copy`.
#[derive(Clone, Copy)]
pub struct Range {
    pub begin: usize,
    pub end: usize,
}

// The first element of a range.
fn begin_of(first: Bound<usize>) -> Result<usize, Fault>
    ensures { MatchResult result
        (λ n. (n ≡ begin first) × (begin_overflows first ≡ false))
        (λ f. (f ≡ Alone BoundOverflow) × (begin_overflows first ≡ true)) }
{
    match first {
        Bound::Included(n) => Ok(n),
        Bound::Excluded(n) => n.checked_add(1).ok_or(Refusal::BoundOverflow.into()),
        Bound::Unbounded => Ok(0),
    }
}

// The element behind the last of a range, among so many.
fn end_of(last: Bound<usize>, len: usize) -> Result<usize, Fault>
    ensures { MatchResult result
        (λ n. (n ≡ finish last len) × (finish_overflows last ≡ false))
        (λ f. (f ≡ Alone BoundOverflow) × (finish_overflows last ≡ true)) }
{
    match last {
        Bound::Included(n) => n.checked_add(1).ok_or(Refusal::BoundOverflow.into()),
        Bound::Excluded(n) => Ok(n),
        Bound::Unbounded => Ok(len),
    }
}

// The range between two bounds, among so many elements.
// The bounds come one by one, since `RangeBounds` would ask of every caller that the range's ends are known.
pub fn range_of(first: Bound<usize>, last: Bound<usize>, len: usize) -> Result<Range, Fault>
    ensures { MatchResult result
        (λ e. (e.begin ≡ begin first) × (e.end ≡ finish last len) × (e.begin ≤ e.end) × (e.end ≤ len) × (refusal (range_checks first last len) ≡ None))
        (λ f. refusal (range_checks first last len) ≡ Some f) }
{
    let begin = begin_of(first)?;
    let end = end_of(last, len)?;
    if end < begin {
        return Err(Refusal::RangeReversed.into());
    }
    if len < end {
        return Err(Refusal::RangeBeyondLength.into());
    }
    Ok(Range { begin, end })
}

// Whether a range that holds an element starts at a place that is no multiple of the alignment.
fn misplaced(range: Range, place: usize, align: usize) -> bool
    ensures { result ≡ misplaced range.begin range.end place align }
{
    range.begin < range.end && !place.is_multiple_of(align)
}

// A slice may claim the alignment.
pub fn slice_claims(line: Line, range: Range, claim: usize) -> Result<(), Fault>
    requires { line.start + range.begin * line.kind.width < 2 ^ 64 }
    ensures { MatchResult result
        (λ _. refusal (placing_checks line range.begin range.end claim) ≡ None)
        (λ f. refusal (placing_checks line range.begin range.end claim) ≡ Some f) }
{
    let offset = range.begin * line.kind.width;
    if misplaced(range, offset, claim) {
        return Err(Refusal::OffsetUnaligned.into());
    }
    if claim < line.kind.align {
        return Err(Refusal::BelowKindAlignment.into());
    }
    if misplaced(range, line.start + offset, claim) {
        return Err(Refusal::StartUnaligned.into());
    }
    Ok(())
}

// A slice between two bounds may be made, with the alignment that it claims; then its range.
pub fn slices(
    line: Line,
    first: Bound<usize>,
    last: Bound<usize>,
    claim: usize,
) -> Result<Range, Fault>
    requires { line.start + line.len * line.kind.width < 2 ^ 64 }
    ensures { MatchResult result
        (λ e. (e.begin ≡ begin first) × (e.end ≡ finish last line.len) × (line.start + e.begin * line.kind.width < 2 ^ 64) × (refusal (slice_checks line first last claim) ≡ None))
        (λ f. refusal (slice_checks line first last claim) ≡ Some f) }
{
    let range = range_of(first, last, line.len)?;
    slice_claims(line, range, claim)?;
    Ok(range)
}

// The start is a multiple of the alignment.
pub fn starts_aligned(line: Line, claim: usize) -> Result<(), Fault>
    ensures { MatchResult result
        (λ _. refusal (start_check line claim) ≡ None)
        (λ f. refusal (start_check line claim) ≡ Some f) }
{
    if !is_aligned(line, claim) {
        return Err(Refusal::StartUnaligned.into());
    }
    Ok(())
}

// Elements of a kind may claim the alignment where they stand.
pub fn stays_aligned(kind: Kind, line: Line, claim: usize) -> Result<(), Fault>
    ensures { MatchResult result
        (λ _. refusal (aligned_checks kind line claim) ≡ None)
        (λ f. refusal (aligned_checks kind line claim) ≡ Some f) }
{
    fits_kind(kind, claim)?;
    starts_aligned(line, claim)
}

// The bytes of a line are elements of the kind, and may claim the alignment.
pub fn regroups(line: Line, kind: Kind, claim: usize) -> Result<(), Fault>
    requires { line.len * line.kind.width < 2 ^ 64 }
    ensures { MatchResult result
        (λ _. refusal (regroup_checks line kind claim) ≡ None)
        (λ f. refusal (regroup_checks line kind claim) ≡ Some f) }
{
    stays_aligned(kind, line, claim)?;
    let bytes = line.len * line.kind.width;
    if !bytes.is_multiple_of(kind.width) {
        return Err(Refusal::PartialElement.into());
    }
    Ok(())
}

// The index is below the length.
pub fn index_within(line: Line, i: usize) -> Result<(), Fault>
    ensures { MatchResult result
        (λ _. (refusal (index_check line i) ≡ None) × (i < line.len))
        (λ f. refusal (index_check line i) ≡ Some f) }
{
    if i >= line.len {
        return Err(Refusal::IndexBeyondLength.into());
    }
    Ok(())
}

// No other handle is on the backing.
pub fn unshared(shared: bool) -> Result<(), Fault>
    ensures { MatchResult result
        (λ _. (refusal (shared_check shared) ≡ None) × (shared ≡ false))
        (λ f. refusal (shared_check shared) ≡ Some f) }
{
    if shared {
        return Err(Refusal::BackingShared.into());
    }
    Ok(())
}
