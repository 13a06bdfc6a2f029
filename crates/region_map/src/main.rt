// SPDX-License-Identifier: Apache-2.0
// Reads a host's day from standard input, does it on a real region, and tells what happened.
#![tactic(auto)]

mod command;
mod day;
mod desk;
mod picture;
mod report;

use command::Command;
use desk::Desk;
use std::io;
use std::io::{BufRead, BufReader};

fn main(rt: HostRuntime) -> io::Result<()> {
    let mut desk: Option<Desk> = None;
    let mut senseless: usize = 0;
    let lines = BufReader::new(rt.alloc(), rt.stdin())?.lines(rt.alloc());
    for (number, line) in (1usize..).zip(lines) {
        let line = line?;
        let Some(command) = command::parse(line.as_str()).transpose() else {
            continue;
        };
        println!(rt; "{number}: {line}")?;
        match command {
            Ok(command) => obey(&rt, &mut desk, command)?,
            Err(complaint) => {
                senseless = senseless.saturating_add(1);
                println!(rt; "   not understood: {complaint}")?;
            }
        }
    }
    if let Some(desk) = &desk {
        desk.close(&rt)?;
    }
    if senseless > 0 {
        println!(rt; "Lines that were not understood and passed over: {senseless}.")?;
    }
    Ok(())
}

// Does one command.
fn obey(
    rt: &(impl Print + AllocGlobal),
    desk: &mut Option<Desk>,
    command: Command,
) -> io::Result<()> {
    match (command, desk.as_mut()) {
        (Command::Allocator { kind, extent, base }, before) => {
            if let Some(before) = before {
                before.close(rt)?;
            }
            *desk = Desk::open(rt, kind, extent, base)?;
            Ok(())
        }
        (_, None) => println!(rt;
            "   there is no allocator yet: write 'allocator shelf 4096 65536', say"
        ),
        (Command::Call(call), Some(desk)) => desk.call(rt, call),
        (Command::Map, Some(desk)) => desk.draw(rt),
    }
}
