//! Any reader as the source of a script, and any writer as the sink of a transcript.

ghost use Rattle.std.specs.Prelude.{◌≡◌, false, []};
ghost use Rattle.sd_base.specs.Stream.{SourceState, SinkState};

use sd_base::{Put, Sink, Source, Took};
use std::io::{Read, Write};

/// A reader as a source. It tells no bytes, and counts what it gives and how often it fails.
#[derive(Drop)]
pub struct Input<R: Read + Drop> {
    reader: R,
    given: u64,
    faults: u64,
}

impl<R: Read + Drop> Input<R> {
    pub fn new(reader: R) -> Input<R>
        ensures { (⟦<Input<R> as Source>⟧.state result).given ≡ 0 }
    {
        Input {
            reader,
            given: 0,
            faults: 0,
        }
    }
}

impl<R: Read + Drop> Source for Input<R> {
    ghost told = { false };

    ghost state = { λ s. record { left = []; given = s.given; faults = s.faults } };

    fn read(&mut self, buf: &mut [u8]) -> Took {
        match self.reader.read(buf) {
            Ok(0) => Took::End,
            Ok(n) => {
                self.given = self.given.saturating_add(n as u64);
                Took::Got(n)
            }
            Err(_) => {
                self.faults = self.faults.saturating_add(1);
                Took::Failed
            }
        }
    }
}

/// A writer as a sink. It tells no bytes, and counts how often it fails.
#[derive(Drop)]
pub struct Output<W: Write + Drop> {
    writer: W,
    faults: u64,
}

impl<W: Write + Drop> Output<W> {
    pub fn new(writer: W) -> Output<W> {
        Output { writer, faults: 0 }
    }
}

impl<W: Write + Drop> Sink for Output<W> {
    ghost told = { false };

    ghost state = { λ s. record { taken = []; flushed = 0; faults = s.faults } };

    fn write(&mut self, piece: &[u8]) -> Put {
        match self.writer.write(piece) {
            Ok(n) if n > 0 || piece.is_empty() => Put::Took(n),
            _ => {
                self.faults = self.faults.saturating_add(1);
                Put::Failed
            }
        }
    }

    fn flush(&mut self) -> bool {
        match self.writer.flush() {
            Ok(()) => true,
            Err(_) => {
                self.faults = self.faults.saturating_add(1);
                false
            }
        }
    }
}
