//! How fast the code of a block and the bytes of recipes are: `qfs_bench_code measure` prints megabytes of data per
//! second.
//!
//! A slot has 64 KiB here. Encoding takes the six data slots of a block, and restoring gives slots 0, 1 and 2 of a block
//! back from the other six; both count the six data slots of each block. Filling writes as many bytes, a slot at a time.
#![tactic(auto)]

ghost use Rattle.std.specs.Prelude.{◌≡◌, ◌*◌, length, vec_len, IfOk};

use qfs_base::mask::Mask;
use qfs_base::sizes::{DATA_SLOTS, SLOTS};
use qfs_code::{encode, restore};
use qfs_recipe::{Form, Recipe, RecipeCalls};
use std::rt::Runtime;
use std::time::{Duration, Instant};
use std::{env, io};

/// The bytes of a slot.
const SIZE: usize = 65_536;

/// How many blocks are encoded and restored.
const BLOCKS: u32 = 400;

/// The data bytes of all these blocks.
const DATA: u32 = BLOCKS * DATA_SLOTS as u32 * 65_536;

fn main(rt: HostRuntime) -> io::Result<()> {
    let mut words = env::args(&rt)?;
    let _program = words.next();
    match words.next() {
        Some(_measure) => measure(&rt),
        None => println!(rt; "usage: qfs_bench_code measure"),
    }
}

/// Prints all rates.
fn measure<R: Runtime>(rt: &R) -> io::Result<()> {
    let mut nine = buffer(rt, SLOTS as usize * SIZE)?;
    let mut out = buffer(rt, SIZE)?;
    let encoding = time_encoding(rt, nine.as_mut_slice())?;
    let restoring = time_restoring(rt, nine.as_slice(), out.as_mut_slice())?;
    println!(rt;
        "encode {} MB/s, restore three {} MB/s",
        rate(encoding),
        rate(restoring)
    )?;

    let drawn = Recipe {
        form: Form::Pattern {
            start: 1,
            len: DATA,
        },
    };
    let same = Recipe {
        form: Form::Fill { byte: 7, len: DATA },
    };
    let filling_pattern = time_filling(rt, &drawn, out.as_mut_slice())?;
    let filling = time_filling(rt, &same, out.as_mut_slice())?;
    println!(rt;
        "fill pattern {} MB/s, fill one byte {} MB/s",
        rate(filling_pattern),
        rate(filling)
    )
}

/// So many bytes.
fn buffer<R: Runtime>(rt: &R, len: usize) -> io::Result<Vec<u8, R::A>>
    ensures { IfOk result (λ v. vec_len v ≡ len) }
{
    let bytes = vec![in rt.alloc(); 7u8; len]?;
    Ok(bytes)
}

/// How long the blocks take to encode.
fn time_encoding<R: Runtime>(rt: &R, nine: &mut [u8]) -> io::Result<Duration>
    requires { length nine.old ≡ SLOTS * 65536 }
{
    let (six, parity) = nine.split_at_mut(DATA_SLOTS as usize * SIZE);
    let start = Instant::now(rt)?;
    for _block in 0..BLOCKS {
        encode(six, SIZE, parity);
    }
    start.elapsed(rt)
}

/// How long slots 0, 1 and 2 of the blocks take to restore.
fn time_restoring<R: Runtime>(rt: &R, nine: &[u8], out: &mut [u8]) -> io::Result<Duration>
    requires nine { length nine.now ≡ SLOTS * 65536 }
    requires out { length out.old ≡ 65536 }
{
    let have = Mask::none().with(3).with(4).with(5).with(6).with(7).with(8);
    let start = Instant::now(rt)?;
    if have.count() >= DATA_SLOTS as usize {
        for _block in 0..BLOCKS {
            for want in 0..3u8 {
                restore(have, nine, SIZE, want, out);
            }
        }
    }
    start.elapsed(rt)
}

/// How long a recipe's bytes take to write, a slot at a time.
fn time_filling<R: Runtime>(rt: &R, recipe: &Recipe, out: &mut [u8]) -> io::Result<Duration>
    requires { length out.old ≡ 65536 }
{
    let slots = recipe.len() / 65_536;
    let start = Instant::now(rt)?;
    for slot in 0..slots {
        recipe.fill(slot * 65_536, out);
    }
    start.elapsed(rt)
}

/// Megabytes of data per second.
fn rate(elapsed: Duration) -> u64 {
    let micros = elapsed
        .as_secs()
        .saturating_mul(1_000_000)
        .saturating_add(u64::from(elapsed.subsec_micros()));
    if micros == 0 {
        0
    } else {
        u64::from(DATA) / micros
    }
}
