//! How a test fails, and the scalars with which charstrings are read.
ghost use Rattle.std.specs.Prelude.{IsTrue};

use std::alloc::Global;
use std::process::Abort;

/// Fails the test if a fact does not hold, and names the fact.
pub fn holds<R: Abort>(rt: &R, is_so: bool, fact: &str)
    // If it returns, the fact holds.
    ensures { IsTrue is_so }
{
    if !is_so {
        rt.panic(fact)
    }
}

/// Fails the test if a fact does not hold, and names the row.
pub fn holds_at<R: Abort>(rt: &R, is_so: bool, fact: &str, row: usize)
    // If it returns, the fact holds.
    ensures { IsTrue is_so }
{
    if !is_so {
        panic!(rt; "{fact}, at row {row}")
    }
}

/// The scalars of two regions, 1/2 and 1/4, and of none.
pub fn tables<R: Abort>(rt: &R, alloc: Global) -> Vec<Vec<u32>> {
    let mut tables = Vec::new(alloc);
    let two = Vec::from_array(alloc, [32768, 16384]).expect(rt, "memory");
    tables.push(two).expect(rt, "memory");
    tables.push(Vec::new(alloc)).expect(rt, "memory");
    tables
}
