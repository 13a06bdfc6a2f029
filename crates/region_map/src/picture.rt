// SPDX-License-Identifier: Apache-2.0
// A picture of a region in text: which bytes are whose, and what is free.
ghost use Rattle.std.specs.Prelude.{◌<◌};

use crate::day::{Day, Held};
use allocation::block::Block;
use std::io;
use std::iter::successors;

// How many signs the picture is wide.
const CELLS: usize = 64;

// Prints a row of signs and then every stretch of the region, lowest first.
pub fn draw(rt: &impl Print, day: &Day) -> io::Result<()> {
    let width = day.extent() / CELLS;
    print!(rt; "   [")?;
    for sign in signs(day, width) {
        print!(rt; "{sign}")?;
    }
    println!(rt; "] {width} bytes a sign")?;
    stretches(rt, day)
}

// The signs of all cells: a point where a cell is free, a star where several blocks meet, else the block's own.
// Cell i starts at i times the width, and the last one goes on to the region's end. Each block is looked at once, since a step through the map costs more than one through a row.
fn signs(day: &Day, width: usize) -> [char; CELLS] {
    let mut signs = ['.'; CELLS];
    for held in day.held().values() {
        let own = sign_of(held.number);
        let first = cell_of(held.block.place, width);
        let last = cell_of(held.end().saturating_sub(1), width);
        if let Some(cells) = signs.get_mut(first..last + 1) {
            for sign in cells {
                *sign = if *sign == '.' { own } else { '*' };
            }
        }
    }
    signs
}

// The cell in which a place lies.
fn cell_of(place: usize, width: usize) -> usize
    ensures { result < 64 }
{
    (place / width.max(1)).min(CELLS - 1)
}

// Looks for each next block anew, since a sorted copy would need memory, which can run out.
fn stretches(rt: &impl Print, day: &Day) -> io::Result<()> {
    let by_place = successors(lowest_from(day, 0), |held| lowest_from(day, held.end()));
    let mut free_from = 0;
    for held in by_place.take(day.held().len()) {
        let Block { place, size, align } = held.block;
        free(rt, free_from, place)?;
        free_from = held.end();
        let number = held.number;
        println!(rt; "   {place}..{free_from} block {number}, {size} bytes at alignment {align}")?;
    }
    free(rt, free_from, day.extent())
}

fn free(rt: &impl Print, from: usize, end: usize) -> io::Result<()> {
    let size = end.saturating_sub(from);
    if size > 0 {
        println!(rt; "   {from}..{end} free, {size} bytes")?;
    }
    Ok(())
}

// The block that starts lowest at or above a place.
fn lowest_from(day: &Day, place: usize) -> Option<Held> {
    day.held()
        .values()
        .copied()
        .filter(|held| held.block.place >= place)
        .min_by_key(|held| held.block.place)
}

fn sign_of(number: usize) -> char {
    const SIGNS: [u8; 61] = *b"123456789abcdefghijklmnopqrstuvwxyzABCDEFGHIJKLMNOPQRSTUVWXYZ";
    match number.checked_sub(1) {
        Some(i) => SIGNS[i % SIGNS.len()] as char,
        None => '?',
    }
}
