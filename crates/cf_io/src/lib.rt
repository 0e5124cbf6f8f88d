//! What lies outside the program: a shelf of named texts, a source and a sink of bytes, and the lines of an input.
#![tactic(auto)]

mod cutter;
mod edge;
mod fails;
mod faults;
mod front;
mod limits;
mod line;
mod mem_shelf;
mod mem_sink;
mod mem_source;
mod read;
mod reads;
mod segments;
mod sure;
mod traits;
mod write;

pub use cutter::Cutter;
pub use edge::{FileShelf, ReadSource, WriteSink};
pub use faults::{Failed, FetchFault, ReadFault};
pub use limits::{INPUT_LIMIT, LINE_LIMIT, longest_input, longest_line};
pub use line::Line;
pub use mem_shelf::MemShelf;
pub use mem_sink::MemSink;
pub use mem_source::MemSource;
pub use read::{read_front, read_text};
pub use segments::first_line;
pub use sure::{SureShelf, SureSink, SureSource};
pub use traits::{Shelf, Sink, Source};
pub use write::write_all;
