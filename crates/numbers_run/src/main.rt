// Runs `numbers` and `sizes` on vectors and on the edge figures that need no call. `stdout` has what the Rust's functions answer; for units
// and bytes, what plain arithmetic gives; for sizes, what document 01's rules give by plain arithmetic.
#![tactic(auto)]

ghost use Rattle.std.specs.Prelude.{◌≡◌, ◌*◌, ◌≤◌};

use std::io;

// Writes `X A DOWN UP`.
fn aligned(rt: &impl Print, x: u64, alignment: u64) -> io::Result<()> {
    if 0 < alignment {
        println!(rt;
            "{x} {alignment} {} {}",
            numbers::align_down(x, alignment),
            numbers::align_up(x, alignment)
        )?;
    }
    Ok(())
}

fn alignments(rt: &impl Print, x: u64) -> io::Result<()> {
    for alignment in [
        1,
        64,
        128,
        256,
        65536,
        131072,
        786432,
        33554432,
        9223372036854775808,
    ] {
        aligned(rt, x, alignment)?;
    }
    Ok(())
}

fn bytes_of(n: u32, unit: u64) -> u64
    requires { unit ≤ 1024 }
    ensures { result ≡ n * unit }
{
    numbers::byte_size_from_area_size(n, unit)
}

// Writes `bytes N UNIT SIZE`, if a unit has at most 1,024 bytes.
fn bytes(rt: &impl Print, n: u32, unit: u64) -> io::Result<()> {
    if unit <= 1024 {
        println!(rt; "bytes {n} {unit} {}", bytes_of(n, unit))?;
    }
    Ok(())
}

// Writes `units SIZE UNIT N` and those units' bytes, if a unit has at most 1,024 bytes and N fits 32 bits.
fn units(rt: &impl Print, size: u64, unit: u64) -> io::Result<()> {
    if 0 < unit && unit <= 1024 && size <= 4294967295 * unit {
        let n = numbers::area_size_from_byte_size(size, unit);
        println!(rt; "units {size} {unit} {n}")?;
        bytes(rt, n, unit)?;
    }
    Ok(())
}

fn units_of(rt: &impl Print, size: u64) -> io::Result<()> {
    for unit in [64, 128, 256, 512, 1024] {
        units(rt, size, unit)?;
    }
    Ok(())
}

// Writes `granularity ASKED G`.
fn granularity(rt: &impl Print, asked: u32) -> io::Result<()> {
    println!(rt;
        "granularity {asked} {}",
        sizes::limits::granularity_in_force(asked)
    )
}

// Writes `base ASKED SIZE`.
fn base(rt: &impl Print, asked: u32) -> io::Result<()> {
    println!(rt; "base {asked} {}", sizes::limits::base_size_in_force(asked))
}

// Writes `round SIZE G to ROUNDED`, or `round SIZE G refused N`.
fn round(rt: &impl Print, size: u64, granularity: u64) -> io::Result<()> {
    if granularity == 0 {
        return Ok(());
    }
    match sizes::round_size(size, granularity) {
        Ok(rounded) => println!(rt; "round {size} {granularity} to {rounded}"),
        Err(why) => println!(rt; "round {size} {granularity} refused {}", u64::from(why)),
    }
}

fn rounds(rt: &impl Print, size: u64) -> io::Result<()> {
    for granularity in [64, 128, 256] {
        round(rt, size, granularity)?;
    }
    Ok(())
}

// Writes `pool SIZE OF_THREE OF_ONE`: the size's pool at granularity 64, out of three and out of one.
#[tactic(auto, unfolding(sizes::specs::Limits::is_granularity))]
fn pool(rt: &impl Print, size: u64) -> io::Result<()> {
    if size < 4294967296 {
        println!(rt;
            "pool {size} {} {}",
            sizes::size_to_pool_id(size, 64, 3),
            sizes::size_to_pool_id(size, 64, 1)
        )?;
    }
    Ok(())
}

// Writes the pools of the sizes up to 2,048 bytes, in steps of 64.
fn every_pool(rt: &impl Print) -> io::Result<()> {
    for units in 1..=32 {
        pool(rt, units * 64)?;
    }
    Ok(())
}

// Writes `ideal NEWEST REQUEST SIZE`.
fn ideal(rt: &impl Print, newest: u64, size: u64) -> io::Result<()> {
    if 0 < newest && newest <= 134217728 && size < 4294967296 {
        println!(rt;
            "ideal {newest} {size} {}",
            sizes::calculate_ideal_block_size(newest, size)
        )?;
    }
    Ok(())
}

fn ideals(rt: &impl Print, newest: u64) -> io::Result<()> {
    for size in [64, 131072, 300032, 786496, 1000000, 1310784, 2147483584] {
        ideal(rt, newest, size)?;
    }
    Ok(())
}

fn numbers_given(rt: &impl Print) -> io::Result<()> {
    for x in [
        0,
        1,
        63,
        64,
        65,
        100,
        128,
        4095,
        65535,
        65536,
        65537,
        131071,
        300000,
        786432,
        786496,
        1000000,
        1310784,
        2147483583,
        2147483584,
        2147483585,
        4294967295,
        4294967296,
        18446744073709551488,
        18446744073709551551,
        18446744073709551552,
        18446744073709551553,
        18446744073709551614,
        18446744073709551615,
    ] {
        alignments(rt, x)?;
    }
    Ok(())
}

fn sizes_given(rt: &impl Print) -> io::Result<()> {
    for size in [
        0,
        1,
        63,
        64,
        65,
        100,
        192,
        1023,
        1024,
        65536,
        300032,
        2147483584,
        274877906880,
    ] {
        units_of(rt, size)?;
    }
    Ok(())
}

fn creations(rt: &impl Print) -> io::Result<()> {
    for asked in [32, 96, 512, 256, 64, 128, 0] {
        granularity(rt, asked)?;
    }
    for asked in [65536, 131072, 33554432, 67108864, 0, 65537, 98304] {
        base(rt, asked)?;
    }
    Ok(())
}

fn main(rt: HostRuntime) -> io::Result<()> {
    numbers_given(&rt)?;
    sizes_given(&rt)?;
    creations(&rt)?;
    for size in [
        2147483584,
        0,
        1,
        18446744073709551553,
        18446744073709551552,
        2147483585,
    ] {
        rounds(&rt, size)?;
    }
    every_pool(&rt)?;
    for newest in [65536, 131072, 393216, 786432, 16777216, 33554432, 67108864] {
        ideals(&rt, newest)?;
    }
    Ok(())
}
