// SPDX-License-Identifier: Apache-2.0
// Writes columns into a region. Without an argument it checks a few bytes; with `time` it times the writing of 2^20 values
// against a plain copy of as many bytes.
#![tactic(auto)]

ghost use Rattle.std.specs.Prelude.{◌+◌, ◌*◌, ◌≤◌, length};

use anyhow::anyhow;
use element::Element;
use element::glass_line::GlassLine;
use element::theorems::{columns_stand, patterns_are_bytes};
use element::values::Values;
use std::time::Instant;
use std::{env, io};

const COUNT: usize = 1 << 20;

const PLACE: usize = 64;

const ROUNDS: usize = 200;

// Nanoseconds that the writing of the values takes.
fn write_time<K: Element>(rt: &HostRuntime, region: &mut [u8], values: &[K]) -> io::Result<u128>
    requires { 64 + length values.now * K.Element.width ≤ length region.old }
{
    let start = Instant::now(rt)?;
    values.write(region, PLACE);
    Ok(start.elapsed(rt)?.as_nanos())
}

// Nanoseconds that a plain copy of the bytes takes.
fn copy_time(rt: &HostRuntime, region: &mut [u8], bytes: &[u8]) -> io::Result<u128>
    requires { 64 + length bytes.now ≤ length region.old }
{
    let start = Instant::now(rt)?;
    region[PLACE..PLACE + bytes.len()].copy_from_slice(bytes);
    Ok(start.elapsed(rt)?.as_nanos())
}

// Prints the best times of one kind and their ratio in hundredths.
fn report(rt: &HostRuntime, name: &str, copy: u128, write: u128) -> io::Result<()> {
    let hundredths = write.saturating_mul(100) / copy.max(1);
    let whole = hundredths / 100;
    let part = hundredths % 100;
    println!(rt; "{name}: copy {copy} ns, write {write} ns, ratio {whole}.{part:02}")
}

// The best of several rounds, for one kind.
fn compare<K: Element>(
    rt: &HostRuntime,
    name: &str,
    region: &mut [u8],
    bytes: &[u8],
    values: &[K],
) -> io::Result<()>
    requires { (64 + length values.now * K.Element.width ≤ length region.old) × (64 + length bytes.now ≤ length region.old) }
{
    let mut copy = u128::MAX;
    let mut write = u128::MAX;
    for _ in 0..ROUNDS {
        copy = copy.min(copy_time(rt, region, bytes)?);
        write = write.min(write_time(rt, region, values)?);
    }
    report(rt, name, copy, write)
}

// Times both kinds, on values that differ from one another.
fn time(rt: &HostRuntime) -> anyhow::Result<()> {
    let mut region = vec![in rt.alloc(); 0u8; PLACE + COUNT * 16]?;
    let mut bytes = vec![in rt.alloc(); 0u8; COUNT * 16]?;
    let mut longs = vec![in rt.alloc(); 0u64; COUNT]?;
    let none = GlassLine {
        catalogue: 0,
        glass: 0,
        thickness: 0,
    };
    let mut lines = vec![in rt.alloc(); none; COUNT]?;
    for (i, byte) in bytes.iter_mut().enumerate() {
        *byte = (i % 251) as u8;
    }
    let mut n = 1u64;
    for (long, line) in longs.iter_mut().zip(lines.iter_mut()) {
        n = n
            .wrapping_mul(6364136223846793005)
            .wrapping_add(1442695040888963407);
        *long = n;
        line.catalogue = (n >> 32) as u32;
        line.glass = (n & 0xffff_ffff) as u32;
        line.thickness = n.cast_signed();
    }
    compare(rt, "u64", &mut region, &bytes[0..COUNT * 8], &longs)?;
    compare(rt, "glass line", &mut region, &bytes, &lines)?;
    let sum = region.iter().fold(0u64, |sum, byte| {
        sum.wrapping_mul(31).wrapping_add(u64::from(*byte))
    });
    println!(rt; "checksum {sum}")?;
    Ok(())
}

// Writes two short columns, and compares every byte.
fn check(rt: &HostRuntime) -> anyhow::Result<()> {
    let longs = [0x0102030405060708u64, 9];
    let lines = [
        GlassLine {
            catalogue: 1,
            glass: 0x0a0b0c0d,
            thickness: -2,
        },
        GlassLine {
            catalogue: 256,
            glass: 3,
            thickness: 4,
        },
    ];
    columns_stand::<GlassLine>();
    patterns_are_bytes(&lines[0]);
    let mut region = [77u8; 56];
    longs.as_slice().write(&mut region, 4);
    lines.as_slice().write(&mut region, 24);
    let expected = [
        77, 77, 77, 77, 8, 7, 6, 5, 4, 3, 2, 1, 9, 0, 0, 0, 0, 0, 0, 0, 77, 77, 77, 77, 1, 0, 0, 0,
        13, 12, 11, 10, 254, 255, 255, 255, 255, 255, 255, 255, 0, 1, 0, 0, 3, 0, 0, 0, 4, 0, 0, 0,
        0, 0, 0, 0,
    ];
    if region != expected {
        return Err(anyhow!("a byte is not as expected"));
    }
    println!(rt; "two columns written, every byte as expected")?;
    Ok(())
}

fn main(rt: HostRuntime) -> anyhow::Result<()> {
    if env::args(&rt)?.count() > 1 {
        return time(&rt);
    }
    check(&rt)
}
