// Sources and sinks over real files and standard output. They tell no bytes.
ghost use Rattle.std.specs.Prelude.{◌≡◌, [], false};

use crate::{Failed, Sink, Source};
use std::fs;
use std::io::{Read, Write};
use std::marker::Model;
use std::rt::Files;

/// A source over the files of the system, one open at a time. It tells no bytes.
///
/// A contract sees its two counts alone: of the calls that failed, and of its opens.
#[derive(Drop)]
pub struct FileSource<'a, R: Files> {
    rt: &'a R,
    file: Option<R::File>,
    faults: u64,
    opens: u64,
}

impl<'a, R: Files> Model for FileSource<'a, R> {
    ghost use Rattle.ap_base.specs.FileSource.{FileCounts};

    ghost Value = { FileCounts };

    ghost view = { λ s. record { faults = s.faults; opens = s.opens } };
}

impl<'a, R: Files> FileSource<'a, R> {
    /// A source with no file open, and no fault and no open so far.
    pub fn new(rt: &'a R) -> Self
        ensures { result ≡ record { faults = 0; opens = 0 } }
    {
        FileSource {
            rt,
            file: None,
            faults: 0,
            opens: 0,
        }
    }
}

impl<R: Files> Source for FileSource<'_, R> {
    ghost tells = { false };

    ghost held = { λ _. [] };

    ghost left = { λ _. [] };

    ghost faults = { λ s. s.faults };

    ghost opens = { λ s. s.opens };

    ghost absent = { λ _. 0 };

    /// Opens the file of this name. Fails where the system does, as where there is no such file.
    fn open(&mut self, name: &str) -> Result<(), Failed> {
        self.opens = self.opens.saturating_add(1);
        match fs::open(self.rt, name) {
            Ok(file) => {
                self.file = Some(file);
                Ok(())
            }
            Err(_) => {
                self.faults = self.faults.saturating_add(1);
                Err(Failed)
            }
        }
    }

    /// Reads from the open file. Fails where the system does, and where no file is open.
    fn read(&mut self, buf: &mut [u8]) -> Result<usize, Failed> {
        if let Some(file) = &mut self.file {
            if let Ok(count) = file.read(buf) {
                return Ok(count);
            }
        }
        self.faults = self.faults.saturating_add(1);
        Err(Failed)
    }
}

/// A sink over a file of the system. It tells no bytes.
///
/// A contract sees its count of faults alone.
#[derive(Drop)]
pub struct FileSink<'a, R: Files> {
    rt: &'a R,
    file: Option<R::File>,
    faults: u64,
}

impl<'a, R: Files> Model for FileSink<'a, R> {
    ghost use Rattle.std.specs.Prelude.{ℕ};

    ghost Value = { ℕ };

    ghost view = { λ s. s.faults };
}

impl<'a, R: Files> FileSink<'a, R> {
    /// A sink with no file open, and no fault so far.
    pub fn new(rt: &'a R) -> Self
        ensures { result ≡ 0 }
    {
        FileSink {
            rt,
            file: None,
            faults: 0,
        }
    }
}

impl<R: Files> Sink for FileSink<'_, R> {
    ghost tells = { false };

    ghost taken = { λ _. [] };

    ghost faults = { λ s. s };

    /// Makes the file of this name, or empties it where it is there. Fails where the system does.
    fn open(&mut self, name: &str) -> Result<(), Failed> {
        match fs::create(self.rt, name) {
            Ok(file) => {
                self.file = Some(file);
                Ok(())
            }
            Err(_) => {
                self.faults = self.faults.saturating_add(1);
                Err(Failed)
            }
        }
    }

    /// Writes to the open file. Fails where the system does or takes nothing, and where no file is open.
    fn write(&mut self, bytes: &[u8]) -> Result<usize, Failed> {
        if let Some(file) = &mut self.file {
            if let Ok(count) = file.write(bytes) {
                if count > 0 {
                    return Ok(count);
                }
            }
        }
        self.faults = self.faults.saturating_add(1);
        Err(Failed)
    }
}

/// A sink over any writer, as over standard output. It tells no bytes.
///
/// A contract sees its count of faults alone.
#[derive(Drop)]
pub struct OutSink<W: Write + Drop> {
    to: W,
    faults: u64,
}

impl<W: Write + Drop> Model for OutSink<W> {
    ghost use Rattle.std.specs.Prelude.{ℕ};

    ghost Value = { ℕ };

    ghost view = { λ s. s.faults };
}

impl<W: Write + Drop> OutSink<W> {
    /// A sink over this writer, with no fault so far.
    pub fn new(to: W) -> Self
        ensures { result ≡ 0 }
    {
        OutSink { to, faults: 0 }
    }
}

impl<W: Write + Drop> Sink for OutSink<W> {
    ghost tells = { false };

    ghost taken = { λ _. [] };

    ghost faults = { λ s. s };

    /// Does nothing: the writer is open.
    fn open(&mut self, _name: &str) -> Result<(), Failed> {
        Ok(())
    }

    /// Writes to the writer. Fails where it does or takes nothing.
    fn write(&mut self, bytes: &[u8]) -> Result<usize, Failed> {
        match self.to.write(bytes) {
            Ok(count) if count > 0 => Ok(count),
            _ => {
                self.faults = self.faults.saturating_add(1);
                Err(Failed)
            }
        }
    }
}
