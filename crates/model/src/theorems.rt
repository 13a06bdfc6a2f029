// SPDX-License-Identifier: Apache-2.0
// What holds of the definitions in specs/: a function's contract names each theorem, and to call the function is to have it.
// The private functions stand on the proofs alone; a public one is proved from the one that it calls, so that calling another leaves its theorem unproved.
ghost use Rattle.std.specs.Prelude.{ℕ, List};
ghost use Rattle.allocation.specs.Meaning.{Meaning};
ghost use Rattle.model.specs.Laws.{StoreLaw, InvariantLaw};
ghost use Rattle.model.specs.Outcomes.{AnsweredLaw, SettledLaw};
ghost use Rattle.model.specs.Values.{ValuesLaw};

fn store_law()
    ensures { StoreLaw }
{}

fn invariant_law()
    ensures { InvariantLaw }
{}

fn values_law<V>()
    ensures { (pattern : V → List ℕ) → ValuesLaw pattern }
{}

fn answered_law<B>()
    ensures { (meaning : B → Meaning) → AnsweredLaw meaning }
{}

fn settled_law()
    ensures { SettledLaw }
{}

// The law over every run of calls on any number of stores.
pub fn store_law_holds()
    ensures { StoreLaw }
{
    store_law();
}

// The invariant of a store between calls.
pub fn invariant_is_kept()
    ensures { InvariantLaw }
{
    invariant_law();
}

// Lists of values and lists of patterns are equal together, for every kind of element.
pub fn patterns_are_values<V>()
    ensures { (pattern : V → List ℕ) → ValuesLaw pattern }
{
    values_law::<V>();
}

// Every call has an answer, with any allocator that does what its rules grant.
pub fn every_call_is_answered<B>()
    ensures { (meaning : B → Meaning) → AnsweredLaw meaning }
{
    answered_law::<B>();
}

// The blocks that a call got settle its answer and what it leaves.
pub fn answers_are_settled()
    ensures { SettledLaw }
{
    settled_law();
}
