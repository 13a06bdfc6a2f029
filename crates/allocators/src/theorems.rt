// SPDX-License-Identifier: Apache-2.0
// Theorems about what General and Shelf mean: a function's contract names each, and its body is empty.
ghost use Rattle.std.specs.Prelude.{◌≡◌, ℕ};
ghost use Rattle.allocation.specs.declared.block.Block.{Block};
ghost use Rattle.allocation.specs.declared.block.Request.{Request};
ghost use Rattle.allocators.specs.Models.{general, GeneralPlaces, shelf, ShelfPlaces, ShelfRegrows, Placed, Replaced};
ghost use Rattle.allocators.specs.Rules.{GeneralRule, ShelfRule};

use crate::general::{General, Lowest};
use crate::placement::Placement;
use crate::shelf::{AboveHighest, Shelf};
use allocation::allocation::Allocator;

// General grants exactly where a line is free and some place fits, and grows exactly where it would grant.
pub fn general_rule()
    ensures { GeneralRule }
{}

// Shelf grants exactly where a line is free and some place at or above its highest block fits, and its highest block grows where it is.
pub fn shelf_rule()
    ensures { ShelfRule }
{}

// What a General means, and that its new blocks and its grown ones are at the lowest place that fits.
pub fn general_places(allocator: &General)
    ensures means { ⟦<General as Allocator>⟧.meaning allocator.now ≡ general allocator.now.arena }
    ensures allocated { (r : Request) (p : ℕ) → Placed ⟦<Lowest as Placement>⟧.placing allocator.now.arena r p → GeneralPlaces allocator.now.arena r p }
    ensures grown { (b : Block) (r : Request) (p : ℕ) → Replaced ⟦<Lowest as Placement>⟧.placing allocator.now.arena b r p → GeneralPlaces allocator.now.arena r p }
{}

// What a Shelf means, and that its new blocks are at the lowest place at or above its highest one, and so are its grown ones, unless they stay.
pub fn shelf_places(allocator: &Shelf)
    ensures means { ⟦<Shelf as Allocator>⟧.meaning allocator.now ≡ shelf allocator.now.arena }
    ensures allocated { (r : Request) (p : ℕ) → Placed ⟦<AboveHighest as Placement>⟧.placing allocator.now.arena r p → ShelfPlaces allocator.now.arena r p }
    ensures grown { (b : Block) (r : Request) (p : ℕ) → Replaced ⟦<AboveHighest as Placement>⟧.placing allocator.now.arena b r p → ShelfRegrows allocator.now.arena b r p }
{}
