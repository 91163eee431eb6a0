//! The file of a table of tenants.
ghost use Rattle.std.specs.Prelude.{None};
ghost use Rattle.judy_stream.specs.Streams.{any_pull};

use judy_stream::{Pull, Reads, Source};
use std::io::Read;

/// The file of a table. Nothing is known of the bytes that it gives.
#[derive(Drop)]
pub struct TableFile<R> {
    reads: Reads<R>,
}

impl<R: Read> TableFile<R> {
    /// A file of which nothing was read.
    pub fn new(file: R) -> Self {
        TableFile {
            reads: Reads::new(file),
        }
    }
}

impl<R: Read> Source for TableFile<R> {
    ghost source = { record {
      left = λ _. None;
      gave = λ f. ⟦<Reads<R> as Source>⟧.source.gave f.reads;
      ends = λ f. ⟦<Reads<R> as Source>⟧.source.ends f.reads;
      faults = λ f. ⟦<Reads<R> as Source>⟧.source.faults f.reads;
      can_pull = any_pull;
    } };

    fn pull(&mut self, buf: &mut [u8]) -> Pull {
        self.reads.pull(buf)
    }
}
