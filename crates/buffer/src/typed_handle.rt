// SPDX-License-Identifier: Apache-2.0
// What handles have in either state.
// Works over src/buffer_mut.rs and src/buffer.rs of vortex-buffer 0.90.0.
ghost use Rattle.std.specs.Prelude.{◌≡◌, map, MatchResult};
ghost use Rattle.buffer.specs.Answered.{Ends, Makes, Named, Reads, Turns, outcome};
ghost use Rattle.buffer.specs.Handles.{handle, kind};
ghost use Rattle.buffer.specs.Makings.{copy_from_of, full_of, zeroed_of};
ghost use Rattle.buffer.specs.View.{state};
ghost use Rattle.ledger.specs.Results.{Done, Refuses, Shown};
ghost use Rattle.model.specs.Calls.{clear, into_byte_buffer, read, release};
ghost use Rattle.model.specs.Reads.{alignment_of, is_empty, len_of};

use crate::kinds::{kind_of, terms_of_kind};
use crate::refused::{Refused, Unreleased};
use crate::state::HandleState;
use crate::store::Store;
use allocation::allocation::Allocator;
use allocation::fault::Fault;
use element::Element;
use model::line::Handle;
use std::marker::PhantomData;

// A handle in the state S on elements of the kind K. It stands for one line of a store's book: no program copies it, makes it by hand or forgets it,
// but for `abandon` of `Unreleased`, which gives it up by name.
pub struct TypedHandle<S, K> {
    store: u32,
    serial: u32,
    of: PhantomData<(S, K)>,
}

impl<S, K> TypedHandle<S, K> {
    // The handle of a serial that a store of that number gave out.
    pub(crate) fn given(store: u32, serial: u32) -> Self
        ensures store { result.store ≡ store }
        ensures serial { result.serial ≡ serial }
    {
        TypedHandle {
            store,
            serial,
            of: PhantomData,
        }
    }

    // The serial: the handle's number in its store.
    pub fn serial(&self) -> u32
        ensures { result ≡ self.now.serial }
    {
        self.serial
    }

    // The same handle, in another state or of another kind, where the call was granted; else the handle.
    // A `match`, since the handle goes into one of the two results: a closure of `map` and one of `map_err` cannot both hold it.
    pub(crate) fn turned<T, J>(
        self,
        done: Result<(), Fault>,
    ) -> Result<TypedHandle<T, J>, Refused<Self>>
        ensures outcome { outcome result ≡ done }
        ensures named { Named self result }
    {
        match done {
            Ok(()) => {
                let TypedHandle {
                    store,
                    serial,
                    of: _,
                } = self;
                Ok(TypedHandle::given(store, serial))
            }
            Err(fault) => Err(Refused {
                fault,
                returned: self,
            }),
        }
    }

    // Lets go of a handle whose line has ended or is given up.
    pub(crate) fn end(self) {
        let TypedHandle {
            store: _,
            serial: _,
            of: _,
        } = self;
    }
}

impl<S: HandleState, K: Element> TypedHandle<S, K> {
    // The handle as the book knows it.
    pub(crate) fn handle(&self) -> Handle
        ensures { result ≡ handle S.MUTABLE (kind K.Element) self.now }
    {
        Handle {
            store: self.store,
            serial: self.serial,
            mutable: S::MUTABLE,
            kind: kind_of::<K>(),
        }
    }

    // A handle on so many elements that are zero in all bytes, at the alignment of the kind.
    #[tactic(auto, using(crate::proofs::Makings::zeroed_is))]
    pub fn zeroed_in<B: Allocator>(
        store: &mut Store<B>,
        region: &mut [u8],
        len: usize,
    ) -> Result<Self, Fault>
        ensures { Makes (state B.Allocator store.old region.old) (zeroed_of S.MUTABLE (kind K.Element) len) result (state B.Allocator store.new region.new) }
    {
        let number = store.number();
        let made = store
            .ledger
            .zeroed(region, terms_of_kind::<K>(), S::MUTABLE, len);
        Ok(Self::given(number, made?))
    }

    // A handle on one value, n times, at the alignment of the kind.
    #[tactic(auto, using(crate::proofs::Makings::full_is))]
    pub fn full_in<B: Allocator>(
        store: &mut Store<B>,
        region: &mut [u8],
        value: &K,
        n: usize,
    ) -> Result<Self, Fault>
        ensures { Makes (state B.Allocator store.old region.old) (full_of S.MUTABLE (kind K.Element) (K.pattern value.now) n) result (state B.Allocator store.new region.new) }
    {
        let number = store.number();
        let made = store
            .ledger
            .full(region, terms_of_kind::<K>(), S::MUTABLE, value, n);
        Ok(Self::given(number, made?))
    }

    // A handle on the values, at the alignment of the kind.
    #[tactic(auto, using(crate::proofs::Makings::copy_from_is))]
    pub fn copy_from_in<B: Allocator>(
        store: &mut Store<B>,
        region: &mut [u8],
        values: &[K],
    ) -> Result<Self, Fault>
        ensures { Makes (state B.Allocator store.old region.old) (copy_from_of S.MUTABLE (kind K.Element) (map K.pattern values.now)) result (state B.Allocator store.new region.new) }
    {
        let number = store.number();
        let made = store
            .ledger
            .copy_from(region, terms_of_kind::<K>(), S::MUTABLE, values);
        Ok(Self::given(number, made?))
    }

    // How many elements there are.
    pub fn len<B: Allocator>(&self, store: &Store<B>, region: &[u8]) -> Result<usize, Fault>
        ensures { Reads (state B.Allocator store.now region.now) (handle S.MUTABLE (kind K.Element) self.now) len_of result }
    {
        store.ledger.len(region, self.handle())
    }

    // Whether there is no element.
    pub fn is_empty<B: Allocator>(&self, store: &Store<B>, region: &[u8]) -> Result<bool, Fault>
        ensures { Reads (state B.Allocator store.now region.now) (handle S.MUTABLE (kind K.Element) self.now) is_empty result }
    {
        store.ledger.is_empty(region, self.handle())
    }

    // The claimed alignment, in bytes.
    pub fn alignment<B: Allocator>(&self, store: &Store<B>, region: &[u8]) -> Result<usize, Fault>
        ensures { Reads (state B.Allocator store.now region.now) (handle S.MUTABLE (kind K.Element) self.now) alignment_of result }
    {
        store.ledger.alignment(region, self.handle())
    }

    // The bytes of the elements: a part of the region, which is lent for reading.
    pub fn as_slice<'a, B: Allocator>(
        &self,
        store: &Store<B>,
        region: &'a [u8],
    ) -> Result<&'a [u8], Fault>
        ensures { let st = state B.Allocator store.now region.now in
            let h = handle S.MUTABLE (kind K.Element) self.now in
            MatchResult result (λ s. Shown st h s.now) (λ f. Refuses st (read h) f st) }
    {
        store.ledger.as_slice(region, self.handle())
    }

    // Takes all elements away; the room and the backing stay.
    pub fn clear<B: Allocator>(&self, store: &mut Store<B>, region: &[u8]) -> Result<(), Fault>
        ensures { Done (state B.Allocator store.old region.now) (clear (handle S.MUTABLE (kind K.Element) self.now)) result (state B.Allocator store.new region.now) }
    {
        store.ledger.clear(region, self.handle())
    }

    // The same bytes as elements of one byte.
    pub fn into_byte_buffer<B: Allocator>(
        self,
        store: &mut Store<B>,
        region: &[u8],
    ) -> Result<TypedHandle<S, u8>, Refused<Self>>
        ensures { Turns (state B.Allocator store.old region.now) (into_byte_buffer (handle S.MUTABLE (kind K.Element) self)) self result (state B.Allocator store.new region.now) }
    {
        let done = store.ledger.into_byte_buffer(region, self.handle());
        self.turned(done)
    }

    // Ends the handle; the last one on a block gives it back.
    // A `match`, since the handle ends where the call was granted and comes back where it was not.
    pub fn release<B: Allocator>(
        self,
        store: &mut Store<B>,
        region: &[u8],
    ) -> Result<(), Unreleased<Self>>
        ensures { Ends (state B.Allocator store.old region.now) (release (handle S.MUTABLE (kind K.Element) self)) self result (state B.Allocator store.new region.now) }
    {
        match store.ledger.release(region, self.handle()) {
            Ok(()) => {
                self.end();
                Ok(())
            }
            Err(fault) => Err(Unreleased {
                fault,
                handle: self,
            }),
        }
    }
}
