//! The error for running out of memory.
use fb_memory::Memory;
use std::alloc::Global;
use std::test::Fail;

fn words(alloc: Global) -> Result<String, Memory> {
    Ok(Memory.to_string(alloc)?)
}

#[test]
fn the_error_says_that_memory_is_out(rt: HostRuntime) -> Result<(), Fail> {
    let words = words(rt.alloc())?;
    assert_eq!(rt; words.as_str(), "out of memory");
    Ok(())
}
