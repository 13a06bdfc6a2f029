// SPDX-License-Identifier: Apache-2.0
// The claim that a slice makes.
// Stands for what tells `slice`, `slice_unaligned` and `slice_with_alignment` of src/buffer.rs of vortex-buffer 0.90.0 apart.
ghost use Rattle.std.specs.Prelude.{◌≡◌};
ghost use Rattle.ledger.specs.Claims.{claim_of};
ghost use Rattle.model.specs.Checks.{claimed};

use allocation::alignment::Alignment;
use model::line::Line;

// One that is given, its parent's, or its kind's alignment.
#[derive(Clone, Copy)]
pub enum Claim {
    Given(Alignment),
    Inherited,
    OfKind,
}

impl Claim {
    // The claim of a slice of the line, in bytes.
    pub fn of(self, line: Line) -> usize
        ensures { result ≡ claimed (claim_of self) line }
    {
        match self {
            Claim::Given(alignment) => alignment.as_usize(),
            Claim::Inherited => line.claim,
            Claim::OfKind => line.kind.align,
        }
    }
}
