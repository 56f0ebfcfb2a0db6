// The real files and the real streams. These few lines are the trusted edge: they tell contracts
// nothing of what a file holds or a stream took, only when a call may fail.

ghost use Rattle.std.specs.Prelude.{◌≡◌, ◌≤◌, [], None, false};
ghost use Rattle.sc_base.specs.Causes.{Rose};

use crate::{Failed, Files, Sink};
use std::fs;
use std::io::{Read, Write};
use std::marker::Model;

/// The files of the system, read one at a time. Contracts see whether one is started, and how
/// often a call failed.
#[derive(Drop)]
pub struct RealFiles<'a, R: fs::Files> {
    runtime: &'a R,
    file: Option<R::File>,
    faults: u64,
}

impl<'a, R: fs::Files> Model for RealFiles<'a, R> {
    ghost use Rattle.std.specs.Prelude.{is_some};
    ghost use Rattle.sc_base.specs.Real.{OpenFiles};

    ghost Value = { OpenFiles };

    ghost view = { λ f. record { started = is_some f.file; faults = f.faults } };
}

impl<'a, R: fs::Files> RealFiles<'a, R> {
    /// The files that this runtime opens. None is started, and none failed yet.
    pub fn new(runtime: &'a R) -> RealFiles<'a, R>
        ensures { result ≡ record { started = false; faults = 0 } }
    {
        RealFiles {
            runtime,
            file: None,
            faults: 0,
        }
    }

    // Notes a fault, after which no file is started.
    fn fail(&mut self) -> Failed
        ensures ended { self.new.started ≡ false }
        ensures later { self.old.faults ≤ self.new.faults }
        ensures rose { Rose self.old.faults self.new.faults }
    {
        self.file = None;
        self.faults = self.faults.saturating_add(1);
        Failed
    }
}

impl<'a, R: fs::Files> Files for RealFiles<'a, R> {
    ghost held = { λ _. None };

    ghost left = { λ _. None };

    ghost started = { λ f. f.started };

    ghost firmly = { λ _. false };

    ghost firm = { λ _. [] };

    ghost faults = { λ f. f.faults };

    fn start(&mut self, name: &str) -> Result<(), Failed> {
        match fs::open(self.runtime, name) {
            Ok(file) => {
                self.file = Some(file);
                Ok(())
            }
            Err(_) => Err(self.fail()),
        }
    }

    fn read(&mut self, buf: &mut [u8]) -> Result<usize, Failed> {
        match &mut self.file {
            None => Err(self.fail()),
            Some(file) => match file.read(buf) {
                Ok(count) => Ok(count),
                Err(_) => Err(self.fail()),
            },
        }
    }
}

/// A stream of the system. Contracts see how often a call failed.
#[derive(Drop)]
pub struct RealSink<W: Write> {
    stream: W,
    faults: u64,
}

impl<W: Write> Model for RealSink<W> {
    ghost use Rattle.std.specs.Prelude.{ℕ};

    ghost Value = { ℕ };

    ghost view = { λ s. s.faults };
}

impl<W: Write> RealSink<W> {
    /// A sink that writes to this stream. It did not fail yet.
    pub fn new(stream: W) -> RealSink<W>
        ensures { result ≡ 0 }
    {
        RealSink { stream, faults: 0 }
    }

    // Notes a fault.
    fn fail(&mut self) -> Failed
        ensures later { self.old ≤ self.new }
        ensures rose { Rose self.old self.new }
    {
        self.faults = self.faults.saturating_add(1);
        Failed
    }
}

impl<W: Write> Sink for RealSink<W> {
    ghost taken = { λ _. None };

    ghost faults = { λ s. s };

    /// Writes and flushes. A write that takes nothing, and a flush that fails, are faults too.
    fn write(&mut self, bytes: &[u8]) -> Result<usize, Failed> {
        match self.stream.write(bytes) {
            Ok(0) => Err(self.fail()),
            Ok(count) => match self.stream.flush() {
                Ok(()) => Ok(count),
                Err(_) => Err(self.fail()),
            },
            Err(_) => Err(self.fail()),
        }
    }
}
