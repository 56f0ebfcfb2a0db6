// The trees of the generated text.

ghost use Rattle.std.specs.Prelude.{◌≡◌, [], IfErr, IfOk, None};
ghost use Rattle.bench_checks.specs.Bench.{bench_files, IsRead, IsRefused};

use bench_programs::bench_text;
use sc_base::{MemFiles, OutOfMemory};
use sc_input::{Input, Refusal, read_input};
use std::alloc::Global;

// The files in memory: one, with the generated text.
fn files(alloc: Global, count: u32, seed: u32) -> Result<MemFiles, OutOfMemory>
    ensures { IfOk result (λ f. f ≡ record {
      held = bench_files count seed;
      failing = [];
      calls = 0;
      faults = 0;
      left = None;
    }) }
{
    let text = bench_text(alloc, count, seed)?;
    let name = String::from_str(alloc, "bench.c")?;
    let mut files = Vec::new(alloc);
    files.push((name, text))?;
    Ok(MemFiles::new(files, Vec::new(alloc)))
}

/// The input of a check of that one file.
pub fn input(alloc: Global, count: u32, seed: u32) -> Result<Input, Refusal<'static>>
    ensures read { IfOk result (IsRead count seed) }
    ensures refused { IfErr result (IsRefused count seed) }
{
    let mut files = files(alloc, count, seed)?;
    read_input(alloc, &mut files, None, &["bench.c"])
}
