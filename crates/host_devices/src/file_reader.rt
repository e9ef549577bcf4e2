//! A file that is read, some of it ahead.
ghost use Rattle.std.specs.Prelude.{◌≡◌, ◌≤◌, ◌<◌, ◌+◌, ◌^◌, IfOk, IfSome, length, vec_len};

use crate::file_stamp::FileStamp;
use std::alloc::Global;
use std::fs::OpenFile;
use std::io;
use std::io::{ErrorKind, Read, Seek, SeekFrom};

/// How many bytes of a file are read at once where reads go on from the last that were read: those
/// that are asked for next are mostly among them.
const READ_AHEAD: usize = 65_536;

/// How many are read at once where a read goes on from a far one, if fewer are asked for.
const FIRST_READ: usize = 16_384;

/// How many are read at once from another place, if fewer are asked for: mostly no more is asked
/// for there, as of a value that is looked up.
const FAR_READ: usize = 4096;

/// Reads go on where they leave out fewer bytes than so many: to read these too costs less than to
/// seek.
const GAP: u64 = 4096;

/// A file that is read, what it was when it was opened, and the last bytes that were read ahead,
/// from an offset on. The file is read from the next offset on.
#[derive(Drop)]
pub struct FileReader<F: Read + Drop> {
    file: F,
    opened: FileStamp,
    next: u64,
    start: u64,
    ahead: Vec<u8>,
    held: usize,
    ghost in_bounds: { held ≤ vec_len ahead },
    ghost capacity: { vec_len ahead ≡ 65536 },
}

impl<F: OpenFile + Read + Drop> FileReader<F> {
    /// Whether another length or another time of writing of the file is known than when it was
    /// opened.
    pub(crate) fn was_written(&self) -> io::Result<bool> {
        let now = FileStamp::of(&self.file.metadata()?);
        Ok(!now.is_as_written(&self.opened))
    }
}

impl<F: Read + Seek + Drop> FileReader<F> {
    /// A reader of a file that was opened just now.
    pub fn new(alloc: Global, file: F, opened: FileStamp) -> io::Result<Self> {
        Ok(FileReader {
            file,
            opened,
            next: 0,
            start: 0,
            ahead: vec![in alloc; 0u8; READ_AHEAD]?,
            held: 0,
        })
    }

    /// What the file was when it was opened.
    pub fn opened(&self) -> FileStamp {
        self.opened
    }

    /// Reads from an offset on.
    pub fn read_at(&mut self, offset: u64, into: &mut [u8]) -> io::Result<usize>
        ensures { IfOk result (λ n. n ≤ length into.old) }
    {
        match self.copy_ahead(offset, into) {
            Some(n) => Ok(n),
            None => self.read_on(offset, into),
        }
    }

    /// Copies bytes from an offset on, as many as fit, if all of them were read ahead.
    #[inline(always)]
    pub(crate) fn copy_ahead(&self, offset: u64, into: &mut [u8]) -> Option<usize>
        ensures { IfSome result (λ n. n ≤ length into.old) }
    {
        let size = into.len();
        if offset < self.start {
            return None;
        }
        let at = offset - self.start;
        let held = self.held as u64;
        if held < at || held - at < size as u64 {
            return None;
        }
        copy_front(&self.ahead[at as usize..self.held], into);
        Some(size)
    }

    // Copies bytes from an offset on that were read ahead, as many as there are and fit.
    fn copy_some(&self, offset: u64, into: &mut [u8]) -> usize
        ensures { result ≤ length into.old }
    {
        if offset < self.start || self.held as u64 <= offset - self.start {
            return 0;
        }
        let bytes = &self.ahead[(offset - self.start) as usize..self.held];
        let n = bytes.len().min(into.len());
        copy_front(bytes, &mut into[..n]);
        n
    }

    // Reads bytes that were not read ahead. No file is longer than a signed 64-bit number says.
    #[cold]
    fn read_on(&mut self, offset: u64, into: &mut [u8]) -> io::Result<usize>
        ensures { IfOk result (λ n. n ≤ length into.old) }
    {
        if offset > i64::MAX as u64 {
            return Ok(0);
        }
        if into.len() >= FIRST_READ {
            return self.read_past(offset, into);
        }
        self.read_ahead(offset, into.len())?;
        Ok(self.copy_some(offset, into))
    }

    // Reads from an offset on, with nothing read ahead.
    fn read_past(&mut self, offset: u64, into: &mut [u8]) -> io::Result<usize>
        requires { offset < 2 ^ 63 }
        ensures { IfOk result (λ n. n ≤ length into.old) }
    {
        self.held = 0;
        self.seek(offset)?;
        let n = read_again(&mut self.file, into)?;
        self.next = offset + n as u64;
        Ok(n)
    }

    // Reads bytes ahead so that those from an offset on are among them, if there are any: few from
    // another place, and more where reads go on.
    fn read_ahead(&mut self, offset: u64, wanted: usize) -> io::Result<()>
        requires { offset < 2 ^ 63 }
    {
        if self.next <= offset && offset - self.next < GAP {
            let size = if self.held > FAR_READ {
                READ_AHEAD
            } else {
                FIRST_READ
            };
            self.fill(self.next, size)?;
            if offset < self.next {
                return Ok(());
            }
        }
        self.seek(offset)?;
        let size = if wanted > FAR_READ {
            FIRST_READ
        } else {
            FAR_READ
        };
        self.fill(offset, size)
    }

    // Reads at most so many bytes ahead from an offset on, which the file is read from next.
    fn fill(&mut self, offset: u64, size: usize) -> io::Result<()>
        requires within { offset < 2 ^ 63 }
        requires room { size ≤ 65536 }
    {
        self.held = 0;
        let n = read_front(&mut self.file, &mut self.ahead, size)?;
        self.start = offset;
        self.next = offset + n as u64;
        self.held = n;
        Ok(())
    }

    // Has the file read from an offset on next.
    fn seek(&mut self, offset: u64) -> io::Result<()> {
        if offset != self.next {
            self.file.seek(SeekFrom::Start(offset))?;
        }
        Ok(())
    }
}

// Reads at most so many bytes to the front of others.
fn read_front<F: Read>(file: &mut F, into: &mut [u8], size: usize) -> io::Result<usize>
    requires { size ≤ length into.old }
    ensures { IfOk result (λ n. n ≤ length into.old) }
{
    read_again(file, &mut into[..size])
}

// Reads, and again where a signal interrupts the call.
fn read_again<F: Read>(file: &mut F, into: &mut [u8]) -> io::Result<usize>
    ensures { IfOk result (λ n. n ≤ length into.old) }
{
    'again: for _ in 0..u64::MAX {
        match file.read(into) {
            Err(e) if e.kind() == ErrorKind::Interrupted => {}
            answer => return answer,
        }
    }
    Err(io::Error::from(ErrorKind::TimedOut))
}

// Copies the first bytes to others, as many as these are. Those that an id takes are moved without
// a call: of one or two the first and the last, of three or four the first two and the last two.
#[inline(always)]
fn copy_front(bytes: &[u8], into: &mut [u8])
    requires { length into.old ≤ length bytes.now }
{
    let n = into.len();
    if n == 1 || n == 2 {
        into[0] = bytes[0];
        into[n - 1] = bytes[n - 1];
    } else if n == 3 || n == 4 {
        into[0] = bytes[0];
        into[1] = bytes[1];
        into[n - 2] = bytes[n - 2];
        into[n - 1] = bytes[n - 1];
    } else {
        into.copy_from_slice(&bytes[..n]);
    }
}
