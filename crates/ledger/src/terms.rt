// SPDX-License-Identifier: Apache-2.0
// What a making is told of its elements.
// Stands for the type parameter and the two alignments of `with_capacity_preferred_aligned_in` in src/buffer_mut.rs of vortex-buffer 0.90.0.
ghost use Rattle.ledger.specs.Making.{Fair};

use model::line::Kind;

// The kind of the elements, the alignment that their start claims, and one that it has besides.
// The alignments are numbers of bytes, since a claim may be the alignment of a kind, which is such a number.
#[derive(Clone, Copy)]
pub struct Terms {
    pub kind: Kind,
    pub claim: usize,
    pub preferred: usize,
    pub ghost fair: { ∥ Fair kind claim preferred ∥₁ },
}
