// SPDX-License-Identifier: Apache-2.0
// Giving a block back.
// Works over the drop of `Allocation` in src/allocation.rs of vortex-buffer 0.90.0.
ghost use Rattle.std.specs.Prelude.{◌≡◌, length, Some, MatchResult};
ghost use Rattle.ledger.specs.Giving.{give_fault};
ghost use Rattle.model.specs.Effects.{GivesBack};

use allocation::allocation::{Allocation, Allocator};
use allocation::block::Block;
use allocation::fault::Fault;

// Gives a block back, if there is one.
pub fn give_back<B: Allocator>(
    allocator: &mut B,
    region: &[u8],
    block: Option<Block>,
) -> Result<(), Fault>
    ensures { MatchResult result
        (λ _. GivesBack (B.Allocator.meaning allocator.old) block (B.Allocator.meaning allocator.new))
        (λ f. (give_fault (B.Allocator.meaning allocator.old) (length region.now) block ≡ Some f)
        × (B.Allocator.meaning allocator.new ≡ B.Allocator.meaning allocator.old)) }
{
    match block {
        Some(block) => Allocation { block }.release(allocator, region),
        None => Ok(()),
    }
}
