//! Comfusy called from C. `include/comfusy.h` says the same in C's words.
#![tactic(auto)]

mod call;
mod code;
mod line;
mod opening;
mod put;
mod words;

ghost use Rattle.std.specs.Prelude.{◌≡◌, None};
ghost use Rattle.cf_c.specs.Answered.{Answered, bytes_of};
ghost use Rattle.cf_c.specs.Lines.{IsLineAnswered, IsOpened};

use call::call;
use cf_lines::{Held, reply_to};
use cf_memory::{File, Growing};
use cf_top::Status;
use code::{code_for, has_failed, number_of};
use line::hand_back;
use opening::{keep, open_words};
use put::{both_fit, fits, put};
use std::alloc::Global;
pub use words::Word;

/// Does all that the program does, on the words behind its name, with the files that they may name and the standard
/// input. `out` and `err` get as many first bytes as fit of what the program would write to its standard output and its
/// standard error, and the sizes say how many bytes that are in all.
///
/// It answers the status that the program would end with; `TOO_SMALL` where a buffer is too small, with nothing lost:
/// the same call with larger ones answers the rest; and `NO_MEMORY` where memory ran out, also while the bytes were
/// held for the caller.
///
/// In C each slice is a pointer to its first element and the number of them, and `alloc` is passed as nothing. A pointer is
/// to so many elements as are counted, also where they are none, and is null in no case; the two buffers and the two sizes
/// are the call's alone while it lasts.
#[unsafe(no_mangle)]
pub extern "C" fn comfusy(
    alloc: Global,
    words: &[Word<'_>],
    files: &[File<'_>],
    input: &[u8],
    out: &mut [u8],
    out_size: &mut usize,
    err: &mut [u8],
    err_size: &mut usize,
) -> u32
    ensures { Answered (bytes_of words.now) files.now input.now out.old out.new out_size.new err.old err.new err_size.new result }
{
    let mut said = Growing::new(alloc);
    let mut told = Growing::new(alloc);
    let ended = call(alloc, words, files, input, &mut said, &mut told);
    let is_lost = has_failed(&said, &told);
    let out_bytes = said.held();
    let err_bytes = told.held();
    let is_whole = both_fit(out_bytes, out, err_bytes, err);
    *out_size = put(out_bytes, out);
    *err_size = put(err_bytes, err);
    code_for(ended, is_lost, is_whole)
}

/// Reads the words of `run` or `exec` and their file once, and keeps what answers its lines in `program`. What was kept
/// there before is given back. `err` gets as many first bytes as fit of what the program would write to its standard error,
/// and the size says how many bytes that are in all.
///
/// It answers 0; or the status with which the program would end on these words and that file whatever its input, and
/// `program` keeps nothing; `Usage` also for other commands, and with `--stats`, whose tallies stand behind all replies.
/// `TOO_SMALL` and `NO_MEMORY` are as for `comfusy`.
///
/// In C `program` is a pointer to a struct that an earlier call left, or whose bytes are all 0.
#[unsafe(no_mangle)]
pub extern "C" fn comfusy_open(
    alloc: Global,
    words: &[Word<'_>],
    files: &[File<'_>],
    program: &mut Held,
    err: &mut [u8],
    err_size: &mut usize,
) -> u32
    ensures { IsOpened (bytes_of words.now) files.now program.new.kept err.old err.new err_size.new result }
{
    let mut told = Growing::new(alloc);
    let opened = open_words(alloc, words, files, &mut told);
    let ended = keep(alloc, program, opened);
    let is_lost = told.has_failed();
    let bytes = told.held();
    let is_whole = fits(bytes, err);
    *err_size = put(bytes, err);
    code_for(ended, is_lost, is_whole)
}

/// Answers one line, which stands here without its line feed. `out` gets as many first bytes as fit of the reply and its
/// line feed, as the program would write them, and the size says how many bytes that are in all.
///
/// It answers 0; `TOO_SMALL` where the buffer is too small, with nothing lost: the same call with a larger one answers
/// the same; `NO_MEMORY` where memory ran out, with nothing in `out`; and `Usage` where `program` keeps nothing. What is
/// kept stays as it is.
#[unsafe(no_mangle)]
pub extern "C" fn comfusy_line(
    alloc: Global,
    program: &mut Held,
    line: &[u8],
    out: &mut [u8],
    out_size: &mut usize,
) -> u32
    ensures { IsLineAnswered program.old.kept program.new.kept line.now out.old out.new out_size.new result }
{
    match program.take(alloc) {
        Some(replier) => {
            let replied = reply_to(alloc, &replier, line);
            program.keep(replier);
            hand_back(replied, out, out_size)
        }
        None => {
            *out_size = 0;
            number_of(Status::Usage)
        }
    }
}

/// Gives back what is kept. `program` may be opened again.
#[unsafe(no_mangle)]
pub extern "C" fn comfusy_close(alloc: Global, program: &mut Held)
    ensures { program.new.kept ≡ None }
{
    drop(program.take(alloc));
}
