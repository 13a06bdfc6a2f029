// SPDX-License-Identifier: Apache-2.0
// Elements behind the last.
// Works over `extend_from_slice`, `push` and `push_n` of src/buffer_mut.rs of vortex-buffer 0.90.0.
ghost use Rattle.std.specs.Prelude.{◌≡◌, ◌+◌, ◌-◌, ◌*◌, [], ◌∷◌, map, length, replicate};
ghost use Rattle.ledger.specs.Moving.{Behind};
ghost use Rattle.ledger.specs.Results.{Done};
ghost use Rattle.ledger.specs.View.{state};
ghost use Rattle.model.specs.Calls.{Append};
ghost use Rattle.region.specs.Bytes.{overwrite};

use crate::handles::MutableHandle;
use crate::ledger::Ledger;
use allocation::allocation::Allocator;
use allocation::fault::Fault;
use element::Element;
use element::values::{Repeated, Values};
use model::line::Line;
use sizes::element_place;

// Writes values behind the last element of a line.
pub fn write_behind<V: Values>(region: &mut [u8], base: usize, line: Line, values: &V)
    requires inside { Behind base line (length (V.Values.patterns values.now)) (length region.old) }
    requires wide { line.kind.width ≡ V.Values.width }
    ensures { region.new ≡ overwrite (line.start - base + line.len * line.kind.width) (V.Values.bytes values.now) region.old }
{
    if values.count() == 0 {
        return;
    }
    values.write(region, element_place(base, line, line.len));
}

impl<B: Allocator> Ledger<B> {
    // Makes room, then writes the values behind the last element.
    pub fn append<V: Values>(
        &mut self,
        region: &mut [u8],
        h: MutableHandle,
        values: &V,
    ) -> Result<(), Fault>
        requires wide { h.handle.kind.width ≡ V.Values.width }
        ensures { Done (state B.Allocator.meaning self.old region.old) (Append h.handle (V.Values.patterns values.now)) result (state B.Allocator.meaning self.new region.new) }
    {
        let count = values.count();
        let spot = self.make_room(region, h, count)?;
        write_behind(region, self.allocator.base(), spot.line, values);
        self.register
            .book
            .put(spot.place, spot.line.with_len(spot.line.len + count));
        Ok(())
    }

    // The values of a slice, one behind another.
    pub fn extend_from_slice<K: Element>(
        &mut self,
        region: &mut [u8],
        h: MutableHandle,
        values: &[K],
    ) -> Result<(), Fault>
        requires wide { h.handle.kind.width ≡ K.Element.width }
        ensures { Done (state B.Allocator.meaning self.old region.old) (Append h.handle (map K.Element.pattern values.now)) result (state B.Allocator.meaning self.new region.new) }
    {
        self.append(region, h, &values)
    }

    // One value.
    pub fn push<K: Element>(
        &mut self,
        region: &mut [u8],
        h: MutableHandle,
        value: &K,
    ) -> Result<(), Fault>
        requires wide { h.handle.kind.width ≡ K.Element.width }
        ensures { Done (state B.Allocator.meaning self.old region.old) (Append h.handle (K.Element.pattern value.now ∷ [])) result (state B.Allocator.meaning self.new region.new) }
    {
        self.append(region, h, &Repeated { value, times: 1 })
    }

    // One value, n times.
    pub fn push_n<K: Element>(
        &mut self,
        region: &mut [u8],
        h: MutableHandle,
        value: &K,
        n: usize,
    ) -> Result<(), Fault>
        requires wide { h.handle.kind.width ≡ K.Element.width }
        ensures { Done (state B.Allocator.meaning self.old region.old) (Append h.handle (replicate n (K.Element.pattern value.now))) result (state B.Allocator.meaning self.new region.new) }
    {
        self.append(region, h, &Repeated { value, times: n })
    }
}
