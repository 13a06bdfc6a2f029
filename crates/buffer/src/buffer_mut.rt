// SPDX-License-Identifier: Apache-2.0
// What only mutable handles have.
// Works over src/buffer_mut.rs of vortex-buffer 0.90.0.
ghost use Rattle.std.specs.Prelude.{◌≡◌, map};
ghost use Rattle.buffer.specs.Answered.{Makes, Reads, Turns};
ghost use Rattle.buffer.specs.Handles.{bytes_if, bytes_of, kind, mutable_handle};
ghost use Rattle.buffer.specs.View.{state};
ghost use Rattle.ledger.specs.Results.{Done};
ghost use Rattle.model.specs.Calls.{aligned_mut, copy_from_aligned_in, copy_from_preferred_aligned_in, empty_aligned_in, extend_from_slice, freeze, push, push_n, reserve, set, take, truncate, with_capacity_aligned_in, with_capacity_in, with_capacity_preferred_aligned_in, zeroed_aligned_in, zeroed_preferred_aligned_in};
ghost use Rattle.model.specs.Reads.{capacity_of};

use crate::buffer::Buffer;
use crate::kinds::{terms_at, terms_of_kind};
use crate::refused::Refused;
use crate::state::Mutable;
use crate::store::Store;
use crate::typed_handle::TypedHandle;
use allocation::alignment::Alignment;
use allocation::allocation::Allocator;
use allocation::fault::Fault;
use element::Element;
use ledger::handles::MutableHandle;

// A handle whose elements may change: it is alone on its backing.
pub type BufferMut<K> = TypedHandle<Mutable, K>;

// Bytes that may change.
pub type ByteBufferMut = BufferMut<u8>;

impl<K: Element> BufferMut<K> {
    // The handle as the calls of a mutable handle take it.
    fn mutable_handle(&self) -> MutableHandle
        ensures { result.handle ≡ mutable_handle K.Element self.now }
    {
        MutableHandle {
            handle: self.handle(),
        }
    }

    // The makings below have the names of the Rust crate; each is one call of the store, or of the next one.

    // A handle with room for so many elements, at the alignment of the kind.
    pub fn with_capacity_in<B: Allocator>(
        store: &mut Store<B>,
        region: &[u8],
        capacity: usize,
    ) -> Result<BufferMut<K>, Fault>
        ensures { Makes (state B.Allocator store.old region.now) (with_capacity_in (kind K.Element) capacity) result (state B.Allocator store.new region.now) }
    {
        let number = store.number();
        let made = store
            .ledger
            .with_capacity(region, terms_of_kind::<K>(), capacity);
        Ok(Self::given(number, made?))
    }

    // The same at a claimed alignment.
    pub fn with_capacity_aligned_in<B: Allocator>(
        store: &mut Store<B>,
        region: &[u8],
        capacity: usize,
        alignment: Alignment,
    ) -> Result<BufferMut<K>, Fault>
        ensures { Makes (state B.Allocator store.old region.now) (with_capacity_aligned_in (kind K.Element) capacity (bytes_of alignment)) result (state B.Allocator store.new region.now) }
    {
        let preferred = Some(Alignment::default_alignment());
        Self::with_capacity_preferred_aligned_in(store, region, capacity, alignment, preferred)
    }

    // The same with a preferred alignment, which the start has too; 1 where there is none.
    pub fn with_capacity_preferred_aligned_in<B: Allocator>(
        store: &mut Store<B>,
        region: &[u8],
        capacity: usize,
        alignment: Alignment,
        preferred: Option<Alignment>,
    ) -> Result<BufferMut<K>, Fault>
        ensures { Makes (state B.Allocator store.old region.now) (with_capacity_preferred_aligned_in (kind K.Element) capacity (bytes_of alignment) (bytes_if preferred)) result (state B.Allocator store.new region.now) }
    {
        let number = store.number();
        let terms = terms_at::<K>(alignment, preferred);
        let made = store.ledger.with_capacity(region, terms, capacity);
        Ok(Self::given(number, made?))
    }

    // A handle on so many elements that are zero in all bytes, at a claimed alignment.
    pub fn zeroed_aligned_in<B: Allocator>(
        store: &mut Store<B>,
        region: &mut [u8],
        len: usize,
        alignment: Alignment,
    ) -> Result<BufferMut<K>, Fault>
        ensures { Makes (state B.Allocator store.old region.old) (zeroed_aligned_in (kind K.Element) len (bytes_of alignment)) result (state B.Allocator store.new region.new) }
    {
        let preferred = Some(Alignment::default_alignment());
        Self::zeroed_preferred_aligned_in(store, region, len, alignment, preferred)
    }

    // The same with a preferred alignment.
    pub fn zeroed_preferred_aligned_in<B: Allocator>(
        store: &mut Store<B>,
        region: &mut [u8],
        len: usize,
        alignment: Alignment,
        preferred: Option<Alignment>,
    ) -> Result<BufferMut<K>, Fault>
        ensures { Makes (state B.Allocator store.old region.old) (zeroed_preferred_aligned_in (kind K.Element) len (bytes_of alignment) (bytes_if preferred)) result (state B.Allocator store.new region.new) }
    {
        let number = store.number();
        let terms = terms_at::<K>(alignment, preferred);
        let made = store.ledger.zeroed(region, terms, true, len);
        Ok(Self::given(number, made?))
    }

    // A handle without elements and without a block.
    pub fn empty_aligned_in<B: Allocator>(
        store: &mut Store<B>,
        region: &[u8],
        alignment: Alignment,
    ) -> Result<BufferMut<K>, Fault>
        ensures { Makes (state B.Allocator store.old region.now) (empty_aligned_in (kind K.Element) (bytes_of alignment)) result (state B.Allocator store.new region.now) }
    {
        Self::with_capacity_aligned_in(store, region, 0, alignment)
    }

    // A handle on the values, at a claimed alignment.
    pub fn copy_from_aligned_in<B: Allocator>(
        store: &mut Store<B>,
        region: &mut [u8],
        values: &[K],
        alignment: Alignment,
    ) -> Result<BufferMut<K>, Fault>
        ensures { Makes (state B.Allocator store.old region.old) (copy_from_aligned_in (kind K.Element) (map K.pattern values.now) (bytes_of alignment)) result (state B.Allocator store.new region.new) }
    {
        let preferred = Some(Alignment::default_alignment());
        Self::copy_from_preferred_aligned_in(store, region, values, alignment, preferred)
    }

    // The same with a preferred alignment.
    pub fn copy_from_preferred_aligned_in<B: Allocator>(
        store: &mut Store<B>,
        region: &mut [u8],
        values: &[K],
        alignment: Alignment,
        preferred: Option<Alignment>,
    ) -> Result<BufferMut<K>, Fault>
        ensures { Makes (state B.Allocator store.old region.old) (copy_from_preferred_aligned_in (kind K.Element) (map K.pattern values.now) (bytes_of alignment) (bytes_if preferred)) result (state B.Allocator store.new region.new) }
    {
        let number = store.number();
        let terms = terms_at::<K>(alignment, preferred);
        let made = store.ledger.copy_from(region, terms, true, values);
        Ok(Self::given(number, made?))
    }

    // How many elements there is room for.
    pub fn capacity<B: Allocator>(&self, store: &Store<B>, region: &[u8]) -> Result<usize, Fault>
        ensures { Reads (state B.Allocator store.now region.now) (mutable_handle K.Element self.now) capacity_of result }
    {
        store.ledger.capacity(region, self.handle())
    }

    // Makes room for more elements.
    pub fn reserve<B: Allocator>(
        &self,
        store: &mut Store<B>,
        region: &mut [u8],
        additional: usize,
    ) -> Result<(), Fault>
        ensures { Done (state B.Allocator store.old region.old) (reserve (mutable_handle K.Element self.now) additional) result (state B.Allocator store.new region.new) }
    {
        store
            .ledger
            .reserve(region, self.mutable_handle(), additional)
    }

    // Makes room, then writes the value behind the last.
    pub fn push<B: Allocator>(
        &self,
        store: &mut Store<B>,
        region: &mut [u8],
        value: &K,
    ) -> Result<(), Fault>
        ensures { Done (state B.Allocator store.old region.old) (push (mutable_handle K.Element self.now) (K.pattern value.now)) result (state B.Allocator store.new region.new) }
    {
        store.ledger.push(region, self.mutable_handle(), value)
    }

    // Makes room, then writes the value n times behind the last.
    pub fn push_n<B: Allocator>(
        &self,
        store: &mut Store<B>,
        region: &mut [u8],
        value: &K,
        n: usize,
    ) -> Result<(), Fault>
        ensures { Done (state B.Allocator store.old region.old) (push_n (mutable_handle K.Element self.now) (K.pattern value.now) n) result (state B.Allocator store.new region.new) }
    {
        store.ledger.push_n(region, self.mutable_handle(), value, n)
    }

    // Makes room, then writes the values one behind another.
    pub fn extend_from_slice<B: Allocator>(
        &self,
        store: &mut Store<B>,
        region: &mut [u8],
        values: &[K],
    ) -> Result<(), Fault>
        ensures { Done (state B.Allocator store.old region.old) (extend_from_slice (mutable_handle K.Element self.now) (map K.pattern values.now)) result (state B.Allocator store.new region.new) }
    {
        store
            .ledger
            .extend_from_slice(region, self.mutable_handle(), values)
    }

    // Keeps the first n elements; a greater number does nothing.
    pub fn truncate<B: Allocator>(
        &self,
        store: &mut Store<B>,
        region: &[u8],
        n: usize,
    ) -> Result<(), Fault>
        ensures { Done (state B.Allocator store.old region.now) (truncate (mutable_handle K.Element self.now) n) result (state B.Allocator store.new region.now) }
    {
        store.ledger.truncate(region, self.mutable_handle(), n)
    }

    // Writes a value in place of the element at an index.
    pub fn set<B: Allocator>(
        &self,
        store: &Store<B>,
        region: &mut [u8],
        index: usize,
        value: &K,
    ) -> Result<(), Fault>
        ensures { Done (state B.Allocator store.now region.old) (set (mutable_handle K.Element self.now) index (K.pattern value.now)) result (state B.Allocator store.now region.new) }
    {
        store
            .ledger
            .set(region, self.mutable_handle(), index, value)
    }

    // A new handle gets everything that this one has, which is left empty.
    pub fn take<B: Allocator>(
        &self,
        store: &mut Store<B>,
        region: &[u8],
    ) -> Result<BufferMut<K>, Fault>
        ensures { Makes (state B.Allocator store.old region.now) (take (mutable_handle K.Element self.now)) result (state B.Allocator store.new region.now) }
    {
        let number = store.number();
        let made = store.ledger.take(region, self.mutable_handle());
        Ok(Self::given(number, made?))
    }

    // Gives the handle another claim; its elements are copied, with as much room as before, where the start does not allow it.
    pub fn aligned<B: Allocator>(
        self,
        store: &mut Store<B>,
        region: &mut [u8],
        alignment: Alignment,
    ) -> Result<BufferMut<K>, Refused<BufferMut<K>>>
        ensures { Turns (state B.Allocator store.old region.old) (aligned_mut (mutable_handle K.Element self) (bytes_of alignment)) self result (state B.Allocator store.new region.new) }
    {
        let done = store
            .ledger
            .aligned_mut(region, self.mutable_handle(), alignment);
        self.turned(done)
    }

    // Makes the handle a shared one.
    pub fn freeze<B: Allocator>(
        self,
        store: &mut Store<B>,
        region: &[u8],
    ) -> Result<Buffer<K>, Refused<BufferMut<K>>>
        ensures { Turns (state B.Allocator store.old region.now) (freeze (mutable_handle K.Element self)) self result (state B.Allocator store.new region.now) }
    {
        let done = store.ledger.freeze(region, self.mutable_handle());
        self.turned(done)
    }
}
