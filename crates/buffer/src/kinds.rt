// SPDX-License-Identifier: Apache-2.0
// Kinds and alignments as the numbers that a store keeps, and the terms that they make.
ghost use Rattle.std.specs.Prelude.{◌≡◌};
ghost use Rattle.allocation.specs.Alignments.{IsAlignment};
ghost use Rattle.buffer.specs.Handles.{bytes_if, bytes_of, kind};
ghost use Rattle.model.specs.Calls.{preferred as bytes-preferred, preferred_alignment};
ghost use Rattle.model.specs.Kinds.{SoundKind};

use allocation::alignment::Alignment;
use element::Element;
use ledger::terms::Terms;
use model::line::Kind;

// An element kind by its width and alignment.
pub(crate) fn kind_of<K: Element>() -> Kind
    ensures is { result ≡ kind K.Element }
    ensures sound { SoundKind result }
    ensures fair { IsAlignment result.align }
{
    Kind {
        width: K::width(),
        align: K::align(),
    }
}

// An alignment in bytes. Its contract says that the number is an alignment, which that of `as_usize` does not.
pub(crate) fn in_bytes(alignment: Alignment) -> usize
    ensures is { result ≡ bytes_of alignment }
    ensures fair { IsAlignment result }
{
    alignment.as_usize()
}

// The alignment in bytes that a making prefers where its caller names none.
pub(crate) fn default_bytes() -> usize
    ensures is { result ≡ preferred_alignment }
    ensures fair { IsAlignment result }
{
    in_bytes(Alignment::default_alignment())
}

// A preferred alignment in bytes: 1 where there is none.
pub(crate) fn preferred_bytes(preferred: Option<Alignment>) -> usize
    ensures is { result ≡ bytes-preferred (bytes_if preferred) }
    ensures fair { IsAlignment result }
{
    in_bytes(preferred.unwrap_or(Alignment::none()))
}

// The terms of a making at the alignment of the kind.
pub(crate) fn terms_of_kind<K: Element>() -> Terms
    ensures kind { result.kind ≡ kind K.Element }
    ensures claim { result.claim ≡ K.align }
    ensures preferred { result.preferred ≡ preferred_alignment }
{
    let kind = kind_of::<K>();
    Terms {
        kind,
        claim: kind.align,
        preferred: default_bytes(),
    }
}

// The terms of a making at a claimed alignment, and at a preferred one: 1 where there is none.
pub(crate) fn terms_at<K: Element>(claim: Alignment, preferred: Option<Alignment>) -> Terms
    ensures kind { result.kind ≡ kind K.Element }
    ensures claim { result.claim ≡ bytes_of claim }
    ensures preferred { result.preferred ≡ bytes-preferred (bytes_if preferred) }
{
    Terms {
        kind: kind_of::<K>(),
        claim: in_bytes(claim),
        preferred: preferred_bytes(preferred),
    }
}
