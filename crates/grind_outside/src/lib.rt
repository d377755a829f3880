//! What a program of this repository takes from the outside: memory, lists that may find none of it,
//! files to read and places to write to. A list is exact, a fault is answered only where a count rose.
#![tactic(auto)]

pub mod file_shelf;
pub mod list;
pub mod memory;
pub mod memory_shelf;
pub mod memory_sink;
pub mod named_file;
pub mod refusal;
pub mod shelf;
pub mod sink;
pub mod steady;
pub mod stream_sink;

pub use file_shelf::{FileShelf, read_opened};
pub use list::List;
pub use memory::Memory;
pub use memory_shelf::MemoryShelf;
pub use memory_sink::MemorySink;
pub use named_file::NamedFile;
pub use refusal::{ReadRefusal, SinkRefusal};
pub use shelf::Shelf;
pub use sink::{Sink, write_whole};
pub use steady::{SteadyShelf, SteadySink};
pub use stream_sink::StreamSink;
