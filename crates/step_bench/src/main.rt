//! Runs a program of many instructions on the CPU over a plain memory, and prints the clock cycles that it took.
//!
//! Each line of the input names a program, a way and a number of steps, as `count step 1000000`. The way `step` calls
//! `step`; `parts` asks for the instruction, looks at its price and then executes it.
#![tactic(auto)]

ghost use Rattle.std.specs.Prelude.{◌≤◌, ℕ, length};

mod images;
mod memory;

use images::{COUNT, MIXED};
use memory::Memory;
use msp_cycles::cycles;
use msp_step::{Bus, Cpu, Stop, current_instruction, execute, step};
use std::alloc::{AllocError, Global};
use std::io;

/// Steps by `step`; the sum of their clock cycles modulo 2^64.
fn run_steps<B: Bus>(cpu: &mut Cpu, bus: &mut B, steps: u64) -> Result<u64, Stop> {
    let mut sum: u64 = 0;
    for _ in 0..steps {
        let stepped = step(cpu, bus)?;
        sum = sum.wrapping_add(u64::from(stepped.cycles));
    }
    Ok(sum)
}

/// Steps by the price and then the execution; the sum of the prices modulo 2^64.
fn run_parts<B: Bus>(cpu: &mut Cpu, bus: &mut B, steps: u64) -> Result<u64, Stop> {
    let mut sum: u64 = 0;
    for _ in 0..steps {
        let instruction = current_instruction(cpu, bus)?;
        sum = sum.wrapping_add(u64::from(cycles(&instruction)));
        let _stepped = execute(cpu, bus, &instruction)?;
    }
    Ok(sum)
}

/// The cycles of a program's first steps, or nothing where it stops before.
fn measured(
    alloc: Global,
    program: &[u16],
    by_parts: bool,
    steps: u64,
) -> Result<Option<u64>, AllocError>
    requires { length program.now ≤ 0x5DFF }
{
    let mut memory = Memory::holding(alloc, program)?;
    let mut cpu = Cpu::new(0x4400, 0);
    let outcome = if by_parts {
        run_parts(&mut cpu, &mut memory, steps)
    } else {
        run_steps(&mut cpu, &mut memory, steps)
    };
    Ok(outcome.ok())
}

fn main(rt: HostRuntime) -> io::Result<()> {
    for line in rt.lines(rt.alloc()) {
        let line = line?;
        let mut words = line.as_str().split_whitespace();
        let name = words.next().unwrap_or("");
        let way = words.next().unwrap_or("");
        let steps = words.next().unwrap_or("").parse::<u64>().unwrap_or(0);
        let program: &[u16] = if name == "mixed" { &MIXED } else { &COUNT };
        match measured(rt.alloc(), program, way == "parts", steps)? {
            Some(sum) => println!(rt; "{name} {way} {steps}: {sum} cycles")?,
            None => println!(rt; "{name} {way} {steps}: stopped")?,
        }
    }
    Ok(())
}
