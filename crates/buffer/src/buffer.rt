// SPDX-License-Identifier: Apache-2.0
// What only shared handles have.
// Works over src/buffer.rs of vortex-buffer 0.90.0.
ghost use Rattle.std.specs.Prelude.{◌≡◌, false};
ghost use Rattle.buffer.specs.Answered.{Makes, Reads, Turns};
ghost use Rattle.buffer.specs.Handles.{bytes_of, handle, kind, shared_handle};
ghost use Rattle.buffer.specs.View.{state};
ghost use Rattle.model.specs.Calls.{aligned, empty_aligned, ensure_aligned, from_byte_buffer, from_byte_buffer_aligned, into_mut, share, slice, slice_unaligned, slice_with_alignment, try_into_mut};
ghost use Rattle.model.specs.Kinds.{byte};
ghost use Rattle.model.specs.Reads.{is_aligned_to};

use crate::buffer_mut::BufferMut;
use crate::kinds::{in_bytes, kind_of};
use crate::refused::Refused;
use crate::state::Shared;
use crate::store::Store;
use crate::typed_handle::TypedHandle;
use allocation::alignment::Alignment;
use allocation::allocation::Allocator;
use allocation::fault::Fault;
use element::Element;
use ledger::handles::SharedHandle;
use std::ops::Bound;

// A handle whose elements may be shared and no longer change.
pub type Buffer<K> = TypedHandle<Shared, K>;

// Bytes that no longer change.
pub type ByteBuffer = Buffer<u8>;

impl<K: Element> Buffer<K> {
    // The handle as the calls of a shared handle take it.
    fn shared_handle(&self) -> SharedHandle
        ensures { result.handle ≡ shared_handle K.Element self.now }
    {
        SharedHandle {
            handle: self.handle(),
        }
    }

    // A handle without elements and without a backing.
    pub fn empty_aligned<B: Allocator>(
        store: &mut Store<B>,
        region: &[u8],
        alignment: Alignment,
    ) -> Result<Buffer<K>, Fault>
        ensures { Makes (state B.Allocator store.old region.now) (empty_aligned (kind K.Element) (bytes_of alignment)) result (state B.Allocator store.new region.now) }
    {
        let number = store.number();
        let made = store.ledger.empty_shared(region, kind_of::<K>(), alignment);
        Ok(Self::given(number, made?))
    }

    // Bytes as elements of the kind, at its alignment.
    pub fn from_byte_buffer<B: Allocator>(
        store: &mut Store<B>,
        region: &[u8],
        bytes: Buffer<u8>,
    ) -> Result<Buffer<K>, Refused<Buffer<u8>>>
        ensures { Turns (state B.Allocator store.old region.now) (from_byte_buffer (handle false byte bytes) (kind K.Element)) bytes result (state B.Allocator store.new region.now) }
    {
        let kind = kind_of::<K>();
        let done = store
            .ledger
            .from_byte_buffer_aligned(region, bytes.handle(), kind, kind.align);
        bytes.turned(done)
    }

    // Bytes as elements of the kind, at a claimed alignment.
    pub fn from_byte_buffer_aligned<B: Allocator>(
        store: &mut Store<B>,
        region: &[u8],
        bytes: Buffer<u8>,
        alignment: Alignment,
    ) -> Result<Buffer<K>, Refused<Buffer<u8>>>
        ensures { Turns (state B.Allocator store.old region.now) (from_byte_buffer_aligned (handle false byte bytes) (kind K.Element) (bytes_of alignment)) bytes result (state B.Allocator store.new region.now) }
    {
        let kind = kind_of::<K>();
        let done = store
            .ledger
            .from_byte_buffer_aligned(region, bytes.handle(), kind, in_bytes(alignment));
        bytes.turned(done)
    }

    // Whether the start is a multiple of an alignment.
    pub fn is_aligned<B: Allocator>(
        &self,
        store: &Store<B>,
        region: &[u8],
        alignment: Alignment,
    ) -> Result<bool, Fault>
        ensures { Reads (state B.Allocator store.now region.now) (shared_handle K.Element self.now) (λ st h. is_aligned_to st h (bytes_of alignment)) result }
    {
        store
            .ledger
            .is_aligned(region, self.handle(), in_bytes(alignment))
    }

    // The calls below have the names of the Rust crate; each is one call of the store.

    // A second handle on the same elements.
    pub fn share<B: Allocator>(
        &self,
        store: &mut Store<B>,
        region: &[u8],
    ) -> Result<Buffer<K>, Fault>
        ensures { Makes (state B.Allocator store.old region.now) (share (shared_handle K.Element self.now)) result (state B.Allocator store.new region.now) }
    {
        let number = store.number();
        let made = store.ledger.share(region, self.shared_handle());
        Ok(Self::given(number, made?))
    }

    // A handle on a range of the elements, with the claim of this one.
    pub fn slice<B: Allocator>(
        &self,
        store: &mut Store<B>,
        region: &[u8],
        first: Bound<usize>,
        last: Bound<usize>,
    ) -> Result<Buffer<K>, Fault>
        ensures { Makes (state B.Allocator store.old region.now) (slice (shared_handle K.Element self.now) first last) result (state B.Allocator store.new region.now) }
    {
        let number = store.number();
        let made = store
            .ledger
            .slice(region, self.shared_handle(), first, last);
        Ok(Self::given(number, made?))
    }

    // The same with the alignment of the kind as its claim.
    pub fn slice_unaligned<B: Allocator>(
        &self,
        store: &mut Store<B>,
        region: &[u8],
        first: Bound<usize>,
        last: Bound<usize>,
    ) -> Result<Buffer<K>, Fault>
        ensures { Makes (state B.Allocator store.old region.now) (slice_unaligned (shared_handle K.Element self.now) first last) result (state B.Allocator store.new region.now) }
    {
        let number = store.number();
        let made = store
            .ledger
            .slice_unaligned(region, self.shared_handle(), first, last);
        Ok(Self::given(number, made?))
    }

    // The same with another claim.
    pub fn slice_with_alignment<B: Allocator>(
        &self,
        store: &mut Store<B>,
        region: &[u8],
        first: Bound<usize>,
        last: Bound<usize>,
        alignment: Alignment,
    ) -> Result<Buffer<K>, Fault>
        ensures { Makes (state B.Allocator store.old region.now) (slice_with_alignment (shared_handle K.Element self.now) first last (bytes_of alignment)) result (state B.Allocator store.new region.now) }
    {
        let number = store.number();
        let made = store
            .ledger
            .slice_with_alignment(region, self.shared_handle(), first, last, alignment);
        Ok(Self::given(number, made?))
    }

    // Makes the handle a mutable one, where it is alone on its backing.
    pub fn try_into_mut<B: Allocator>(
        self,
        store: &mut Store<B>,
        region: &[u8],
    ) -> Result<BufferMut<K>, Refused<Buffer<K>>>
        ensures { Turns (state B.Allocator store.old region.now) (try_into_mut (shared_handle K.Element self)) self result (state B.Allocator store.new region.now) }
    {
        let done = store.ledger.try_into_mut(region, self.shared_handle());
        self.turned(done)
    }

    // Makes the handle a mutable one; its elements are copied where another handle is on its backing.
    pub fn into_mut<B: Allocator>(
        self,
        store: &mut Store<B>,
        region: &mut [u8],
    ) -> Result<BufferMut<K>, Refused<Buffer<K>>>
        ensures { Turns (state B.Allocator store.old region.old) (into_mut (shared_handle K.Element self)) self result (state B.Allocator store.new region.new) }
    {
        let done = store.ledger.into_mut(region, self.shared_handle());
        self.turned(done)
    }

    // Gives the handle another claim; its elements are copied, with no room beyond them, where the start does not allow it.
    pub fn aligned<B: Allocator>(
        self,
        store: &mut Store<B>,
        region: &mut [u8],
        alignment: Alignment,
    ) -> Result<Buffer<K>, Refused<Buffer<K>>>
        ensures { Turns (state B.Allocator store.old region.old) (aligned (shared_handle K.Element self) (bytes_of alignment)) self result (state B.Allocator store.new region.new) }
    {
        let done = store
            .ledger
            .aligned(region, self.shared_handle(), alignment);
        self.turned(done)
    }

    // Gives the handle another claim, where its start allows it.
    pub fn ensure_aligned<B: Allocator>(
        self,
        store: &mut Store<B>,
        region: &[u8],
        alignment: Alignment,
    ) -> Result<Buffer<K>, Refused<Buffer<K>>>
        ensures { Turns (state B.Allocator store.old region.now) (ensure_aligned (shared_handle K.Element self) (bytes_of alignment)) self result (state B.Allocator store.new region.now) }
    {
        let done = store
            .ledger
            .ensure_aligned(region, self.shared_handle(), alignment);
        self.turned(done)
    }
}
