//! A file that is read from one place to the next.
ghost use Rattle.std.specs.Prelude.{◌≡◌, ℕ, ◌+◌, ◌-◌, ◌^◌, ◌<◌, ◌≤◌, length, IfOk, min};
ghost use Rattle.std.specs.Io.KnownBytes.{ReadConsumes};

use crate::TRIES;
use std::fs::{self, FileType, OpenFile};
use std::io::{self, ErrorKind, Read, Seek, SeekFrom};
use std::rt::Files;

/// An open file, and the place up to which it was read.
#[derive(Drop)]
pub struct Opened<F> {
    pub file: F,
    pub place: u64,
    /// What the system says it is: a regular file, a pipe or a terminal, say.
    pub kind: FileType,
}

/// Opens the file at this place.
pub fn open_at<R: Files>(rt: &R, name: &str, place: u64) -> io::Result<Opened<R::File>>
    ensures { IfOk result (λ o. o.place ≡ place) }
{
    let mut file = fs::open(rt, name)?;
    if place > 0 {
        file.seek(SeekFrom::Start(place))?;
    }
    let kind = file.metadata()?.file_type();
    Ok(Opened { file, place, kind })
}

/// Reads from where the file stands.
pub fn read_once<F: Read>(file: &mut F, buf: &mut [u8]) -> io::Result<usize>
    ensures bound { IfOk result (λ k. k ≤ length buf.new) }
    ensures bytes { ReadConsumes (F.remaining file.old) (F.remaining file.new) result buf.new }
{
    for _ in 0..TRIES {
        match file.read(buf) {
            Err(e) if e.kind() == ErrorKind::Interrupted => {}
            answer => return answer,
        }
    }
    Err(io::Error::from(ErrorKind::Interrupted))
}

impl<F: Read> Opened<F> {
    /// Reads from its place on, and moves the place past what was read.
    pub fn read(&mut self, buf: &mut [u8]) -> io::Result<usize>
        ensures bound { IfOk result (λ k. k ≤ length buf.new) }
        ensures bytes { ReadConsumes (F.remaining self.old.file) (F.remaining self.new.file) result buf.new }
        ensures place { IfOk result (λ k. self.new.place ≡ min (self.old.place + k) (2 ^ 64 - 1)) }
        ensures kind { self.new.kind ≡ self.old.kind }
    {
        let count = read_once(&mut self.file, buf)?;
        self.place = self.place.saturating_add(count as u64);
        Ok(count)
    }
}
