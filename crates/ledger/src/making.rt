// SPDX-License-Identifier: Apache-2.0
// The makings of new handles.
// Works over `with_capacity_preferred_aligned_in`, `zeroed_preferred_aligned_in`, `copy_from_preferred_aligned_in` and `full_in` of src/buffer_mut.rs,
// and `empty_aligned` of src/buffer.rs of vortex-buffer 0.90.0.
ghost use Rattle.std.specs.Prelude.{◌≡◌, ◌≤◌, max, ◌++◌, map, replicate, Some, MatchResult};
ghost use Rattle.allocation.specs.Asked.{bytes_of};
ghost use Rattle.sizes.specs.Numbers.{state_with};
ghost use Rattle.ledger.specs.Entry.{opening};
ghost use Rattle.ledger.specs.Making.{Planned, plan_checks};
ghost use Rattle.ledger.specs.Results.{Opens};
ghost use Rattle.ledger.specs.View.{state};
ghost use Rattle.model.specs.Calls.{WithCapacity, Zeroed, CopyFrom, EmptyShared};
ghost use Rattle.model.specs.Checks.{refusal};
ghost use Rattle.model.specs.Effects.{made, made_as};
ghost use Rattle.model.specs.Kinds.{SoundKind};

use crate::getting::{obtain, obtain_zeroed, write_in};
use crate::ledger::Ledger;
use crate::plan::Plan;
use crate::terms::Terms;
use allocation::alignment::Alignment;
use allocation::allocation::Allocator;
use allocation::fault::Fault;
use checks::{fits_kind, making};
use element::Element;
use element::values::{Repeated, Values};
use model::line::{Kind, Line};
use sizes::made;
use sizes::seat::Seat;

// The line of a making with n elements at a seat.
pub fn planned_line(
    serial: u32,
    kind: Kind,
    mutable: bool,
    claim: usize,
    n: usize,
    seat: Seat,
) -> Line
    requires { 1 ≤ kind.width }
    ensures { result ≡ made_as mutable (made (state_with serial seat.base) kind claim seat.m n seat.got) }
{
    made(serial, kind, claim, n, seat).made_as(mutable)
}

impl<B: Allocator> Ledger<B> {
    // What the makings share stands in `plans`, `obtain` and `planned_line`; they differ in how the region is lent, and in what is written there.

    // All checks of a making but the grant; then what it asks for.
    pub fn plans(
        &self,
        region: &[u8],
        kind: Kind,
        count: usize,
        claim: usize,
        preferred: usize,
    ) -> Result<Plan, Fault>
        ensures { MatchResult result
            (λ plan. Planned (state B.Allocator.meaning self.now region.now) kind count claim preferred plan)
            (λ f. refusal (opening (state B.Allocator.meaning self.now region.now) ++ plan_checks kind count claim (max claim preferred)) ≡ Some f) }
    {
        let serial = self.opens(region)?;
        let m = claim.max(preferred);
        let layout = making(kind, count, claim, m)?;
        let base = self.allocator.base();
        Ok(Plan {
            serial,
            m,
            base,
            layout,
        })
    }

    // A new mutable handle with room for so many elements.
    pub fn with_capacity(
        &mut self,
        region: &[u8],
        terms: Terms,
        capacity: usize,
    ) -> Result<u32, Fault>
        ensures { Opens (state B.Allocator.meaning self.old region.now) (WithCapacity terms.kind capacity terms.claim terms.preferred) result (state B.Allocator.meaning self.new region.now) }
    {
        let plan = self.plans(region, terms.kind, capacity, terms.claim, terms.preferred)?;
        let got = obtain(&mut self.allocator, region, capacity, plan.layout)?;
        let seat = Seat {
            base: plan.base,
            m: plan.m,
            got,
        };
        self.register.add(planned_line(plan.serial, terms.kind, true, terms.claim, 0, seat));
        Ok(plan.serial)
    }

    // A new handle, mutable or frozen at once, with so many elements that are zero in all bytes.
    pub fn zeroed(
        &mut self,
        region: &mut [u8],
        terms: Terms,
        mutable: bool,
        len: usize,
    ) -> Result<u32, Fault>
        ensures { Opens (state B.Allocator.meaning self.old region.old) (Zeroed terms.kind mutable len terms.claim terms.preferred) result (state B.Allocator.meaning self.new region.new) }
    {
        let plan = self.plans(region, terms.kind, len, terms.claim, terms.preferred)?;
        let got = obtain_zeroed(&mut self.allocator, region, len, plan.layout)?;
        let seat = Seat {
            base: plan.base,
            m: plan.m,
            got,
        };
        self.register.add(planned_line(plan.serial, terms.kind, mutable, terms.claim, len, seat));
        Ok(plan.serial)
    }

    // A new handle, mutable or frozen at once, with the values.
    pub fn make_of<V: Values>(
        &mut self,
        region: &mut [u8],
        terms: Terms,
        mutable: bool,
        values: &V,
    ) -> Result<u32, Fault>
        requires wide { terms.kind.width ≡ V.Values.width }
        ensures { Opens (state B.Allocator.meaning self.old region.old) (CopyFrom terms.kind mutable (V.Values.patterns values.now) terms.claim terms.preferred) result (state B.Allocator.meaning self.new region.new) }
    {
        let n = values.count();
        let plan = self.plans(region, terms.kind, n, terms.claim, terms.preferred)?;
        let got = obtain(&mut self.allocator, region, n, plan.layout)?;
        let seat = Seat {
            base: plan.base,
            m: plan.m,
            got,
        };
        let line = planned_line(plan.serial, terms.kind, mutable, terms.claim, n, seat);
        write_in(region, seat, values);
        self.register.add(line);
        Ok(plan.serial)
    }

    // The same with the values of a slice.
    pub fn copy_from<K: Element>(
        &mut self,
        region: &mut [u8],
        terms: Terms,
        mutable: bool,
        values: &[K],
    ) -> Result<u32, Fault>
        requires wide { terms.kind.width ≡ K.Element.width }
        ensures { Opens (state B.Allocator.meaning self.old region.old) (CopyFrom terms.kind mutable (map K.Element.pattern values.now) terms.claim terms.preferred) result (state B.Allocator.meaning self.new region.new) }
    {
        self.make_of(region, terms, mutable, &values)
    }

    // The same with one value, n times.
    pub fn full<K: Element>(
        &mut self,
        region: &mut [u8],
        terms: Terms,
        mutable: bool,
        value: &K,
        n: usize,
    ) -> Result<u32, Fault>
        requires wide { terms.kind.width ≡ K.Element.width }
        ensures { Opens (state B.Allocator.meaning self.old region.old) (CopyFrom terms.kind mutable (replicate n (K.Element.pattern value.now)) terms.claim terms.preferred) result (state B.Allocator.meaning self.new region.new) }
    {
        let values = Repeated { value, times: n };
        self.make_of(region, terms, mutable, &values)
    }

    // A new shared handle without elements and without a backing.
    pub fn empty_shared(
        &mut self,
        region: &[u8],
        kind: Kind,
        claim: Alignment,
    ) -> Result<u32, Fault>
        requires sound { SoundKind kind }
        ensures { Opens (state B.Allocator.meaning self.old region.now) (EmptyShared kind (bytes_of claim)) result (state B.Allocator.meaning self.new region.now) }
    {
        let claim = claim.as_usize();
        let serial = self.opens(region)?;
        fits_kind(kind, claim)?;
        self.register.add(Line::unbacked(serial, kind, claim));
        Ok(serial)
    }
}
