// SPDX-License-Identifier: Apache-2.0
// The book of a store: one line for each live handle.
// Stands for what the fields of `BufferMut` and `Buffer` and their `Arc` counts hold in vortex-buffer 0.90.0.
ghost use Rattle.std.specs.Prelude.{◌≡◌, ◌<◌, ◌≤◌, [], ◌∷◌, ◌++◌, length, None, MatchOption, nat_le, slice_set};
ghost use Rattle.book.specs.Held.{lines_of, line_at, At};
ghost use Rattle.model.specs.Book.{line_limit, serial_of, one_backing};
ghost use Rattle.model.specs.Keyed.{find, any_other};
ghost use Rattle.std.specs.List.{remove};

use arrayvec::ArrayVec;
use model::line::{Backing, Line};

// The greatest number of live handles.
pub const LINE_LIMIT: usize = 64;

// The lines of the live handles, oldest first.
#[derive(Drop)]
pub struct Book {
    pub lines: ArrayVec<Line, LINE_LIMIT>,
}

impl Book {
    // A book without lines.
    pub fn new() -> Book
        ensures { lines_of result ≡ [] }
    {
        Book {
            lines: ArrayVec::new(),
        }
    }

    // The lines, oldest first.
    pub fn as_slice(&self) -> &[Line]
        ensures lines { result.now ≡ lines_of self.now }
        ensures few { length result.now ≤ line_limit }
    {
        self.lines.as_slice()
    }

    // Whether there is no room for another line.
    pub fn is_full(&self) -> bool
        ensures { result ≡ nat_le line_limit (length (lines_of self.now)) }
    {
        self.lines.is_full()
    }

    // Where the line of a serial stands. The newest lines are looked at first, since most calls bring a new handle.
    pub fn position(&self, serial: u32) -> Option<usize>
        ensures { MatchOption result
            (find serial_of serial (lines_of self.now) ≡ None)
            (λ i. At (lines_of self.now) i serial) }
    {
        self.lines.iter().rposition(|line| line.serial == serial)
    }

    // The line at a place.
    pub fn line(&self, i: usize) -> Line
        requires { i < length (lines_of self.now) }
        ensures { result ≡ line_at (lines_of self.now) i }
    {
        self.lines[i]
    }

    // Whether a handle of another serial is on the backing.
    pub fn shares(&self, backing: Backing, serial: u32) -> bool
        ensures { result ≡ any_other serial_of (λ m. one_backing backing m.backing) serial (lines_of self.now) }
    {
        self.lines.iter().any(|line| line.serial != serial && backing.is_one_with(line.backing))
    }

    // Adds a line behind the others.
    pub fn add(&mut self, line: Line)
        requires { length (lines_of self.old) < line_limit }
        ensures { lines_of self.new ≡ lines_of self.old ++ line ∷ [] }
    {
        self.lines.push(line);
    }

    // Changes the line at a place, where it stands.
    pub fn put(&mut self, i: usize, new: Line)
        requires { i < length (lines_of self.old) }
        ensures { lines_of self.new ≡ slice_set (lines_of self.old) i new }
    {
        let line = &mut self.lines[i];
        *line = new;
    }

    // Removes the line at a place; those behind it move up.
    pub fn end(&mut self, i: usize)
        requires { i < length (lines_of self.old) }
        ensures { lines_of self.new ≡ remove (lines_of self.old) i }
    {
        self.lines.remove(i);
    }
}
