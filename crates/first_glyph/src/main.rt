//! Prints the operations of a charstring, each with its number of operands.
#![tactic(auto)]

use anyhow::Result;
use postscript::type2::Program;

fn main(rt: HostRuntime) -> Result<()> {
    let code = [0xbd, 0xef, 0x01, 0x8b, 0xf7, 0x5c, 0x15, 0xef, 0x06, 0x0e];
    let mut limit = 1_000_000;
    if !Program::new(rt.alloc(), &code, &[], &[]).fits(&mut limit)? {
        println!(rt; "it takes too long")?;
        return Ok(());
    }
    let mut program = Program::new(rt.alloc(), &code, &[], &[]);
    for _ in 0..u64::MAX {
        match program.step()? {
            Some((operator, operands)) => println!(rt; "{} {}", operator.name(), operands.len())?,
            None => break,
        }
    }
    Ok(())
}
