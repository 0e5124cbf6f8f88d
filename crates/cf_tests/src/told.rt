//! The program over objects that tell all their bytes, and over those that never fail: what the top call says of them is said of a call that is made.
use crate::objects::{REPLIES, ROUNDING, shelf_of, words};
use cf_io::{MemSink, MemSource, SureShelf, SureSink, SureSource};
use cf_top::{Status, comfusy};
use cf_tree::{Bytes, NoMemory};
use std::alloc::Global;
use std::test::Fail;

const INPUT: &str = "3 4\n3 3\n";

fn bytes_of(alloc: Global, text: &str) -> Result<Bytes, NoMemory> {
    Ok(Bytes {
        bytes: text.as_bytes().to_vec(alloc)?,
    })
}

#[test]
fn over_objects_that_tell_their_bytes_both_lines_are_answered(rt: HostRuntime) -> Result<(), Fail> {
    let alloc = rt.alloc();
    let words = words(alloc, "run", "program", &[])?;
    let mut shelf = shelf_of(alloc, ROUNDING.as_bytes(), &[])?;
    let mut input = MemSource::new(bytes_of(alloc, INPUT)?, Vec::new(alloc));
    let mut out = MemSink::new(alloc, 1000, Vec::new(alloc))?;
    let mut err = MemSink::new(alloc, 100, Vec::new(alloc))?;
    let status = comfusy(
        alloc,
        &words,
        &mut shelf,
        &mut input,
        &mut out,
        &mut err,
        Vec::new(alloc),
    );
    assert!(rt;
        status == Status::Done && out.held() == REPLIES.as_bytes() && err.held().is_empty()
    );
    Ok(())
}

#[test]
fn over_objects_that_never_fail_the_call_is_done(rt: HostRuntime) -> Result<(), Fail> {
    let alloc = rt.alloc();
    let words = words(alloc, "run", "program", &[])?;
    let mut shelf = SureShelf::new(bytes_of(alloc, ROUNDING)?);
    let mut input = SureSource::new(bytes_of(alloc, INPUT)?);
    let mut out = SureSink::new();
    let mut err = SureSink::new();
    let status = comfusy(
        alloc,
        &words,
        &mut shelf,
        &mut input,
        &mut out,
        &mut err,
        Vec::new(alloc),
    );
    assert!(rt; status == Status::Done);
    Ok(())
}
