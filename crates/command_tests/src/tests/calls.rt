//! The calls that a command is made of.

use super::running::words_of;
use cli_matches::read_words;
use demo_objects::demo;
use objtool_cli::{Status, summary};
use ot_base::NoMemory;
use ot_files::StdSink;
use std::alloc::Global;
use std::test::Fail;

/// The object of `n` functions, of which no contract is told.
fn made(alloc: Global, n: u32) -> Result<Vec<u8>, NoMemory> {
    if n > 100_000 {
        return Err(NoMemory);
    }
    demo(alloc, n)
}

/// The words are read, the object is made, and it is summed up: `demo 3` makes these three calls, and as many requests for memory
/// at least, which `tools/test/refused-memory.sh` counts by this test alone.
#[test]
fn demo_3_in_three_calls(rt: HostRuntime) -> Result<(), Fail> {
    let alloc = rt.alloc();
    let words = words_of(alloc, "demo 3")?;
    assert!(rt; read_words(alloc, &words).is_ok());
    let bytes = made(alloc, 3)?;
    assert!(rt; bytes.len() < 1000);
    let mut out = StdSink::new(&rt);
    let status = summary(alloc, "demo 3", bytes.as_slice(), &mut out);
    assert!(rt; status == Status::Done);
    Ok(())
}
