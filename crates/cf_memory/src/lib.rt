//! Objects outside that lie in the caller's memory and tell all their bytes.
#![tactic(auto)]

mod file;
mod files;
mod growing;
mod text;

pub use file::File;
pub use files::Files;
pub use growing::Growing;
pub use text::TextSource;
