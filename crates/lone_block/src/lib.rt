// SPDX-License-Identifier: Apache-2.0
// A third allocator, which keeps no table: it shows that the trait of allocators is open.
#![tactic(auto)]

pub mod lone;
