//! Writes the last segment anew at a start, and keeps what is torn beside it.
ghost use Rattle.std.specs.Prelude.{◌≡◌, ◌<◌, ◌≤◌, ◌+◌, ◌^◌, ◌∷◌, [], length, IfOk};
ghost use Rattle.judy_disk.specs.Acts.{Asks, AsksAll};
ghost use Rattle.judy_disk.specs.Acts.Ask.{Rename, Secure};
ghost use Rattle.judy_disk.specs.Folders.{asked_of};
ghost use Rattle.judy_disk.specs.Growth.{acts_of, place_of, room_of};
ghost use Rattle.judy_disk.specs.Rewriting.{Copies, CopiesPiece, CutsAsItIs, FindsTorn, HasLength, HasSize, KeepsTorn, ReadsTorn, Resumes, TriesCopy, WritesAnew, WritesCopy};
ghost use Rattle.judy_disk.specs.Rewriting.{end_after, len_before_zeros};
ghost use Rattle.judy_disk.specs.Rooms.{room_at};
ghost use Rattle.judy_disk.specs.declared.names.Place.TheVariants.{Segment, Torn};

use crate::faults::DiskFault;
use crate::files::Growing;
use crate::folder::Folder;
use crate::locks::Locks;
use crate::names::Place;
use crate::record::Record;
use crate::system::{Written, read_at};
use bstr::ByteSlice;
use std::fs::Files;
use std::io::{Read, Seek};

/// The most bytes that are copied at once.
const PIECE: usize = 65536;

/// How many of the bytes come before the zeros at their end.
pub fn len_before_zeros(bytes: &[u8]) -> usize
    ensures value { result ≡ len_before_zeros bytes.now }
    ensures bound { result ≤ length bytes.now }
{
    match bytes.rfind_not_byteset(b"\0") {
        Some(at) => at + 1,
        None => 0,
    }
}

/// Where the bytes end that are not zeros, after a piece that begins here. They ended there before.
fn end_after(before: u64, from: u64, piece: &[u8]) -> u64
    requires { from + length piece.now < 2 ^ 64 }
    ensures { result ≡ end_after before from piece.now }
{
    match len_before_zeros(piece) {
        0 => before,
        len => from + len as u64,
    }
}

/// How many of the next `len` bytes of a file, from a place on, come before the zeros at their end.
fn read_before_zeros<R: Read + Seek>(
    log: &mut Record,
    file: &mut R,
    place: Place,
    from: u64,
    len: u64,
) -> Result<u64, DiskFault>
    requires { from + len < 2 ^ 64 }
    ensures { ReadsTorn place from len result log.old.acts log.new.acts }
{
    let mut piece = [0u8; PIECE];
    let mut end = 0;
    for i in 0..len / PIECE as u64 {
        let at = i * PIECE as u64;
        read_at(log, file, place, from + at, &mut piece)?;
        end = end_after(end, at, &piece);
    }
    let at = len - len % PIECE as u64;
    let (last, _) = piece.split_at_mut((len - at) as usize);
    read_at(log, file, place, from + at, last)?;
    Ok(end_after(end, at, last))
}

/// Which bytes of a segment are copied, and where to.
#[derive(Clone, Copy)]
pub(crate) struct Span {
    /// The segment.
    pub segment: u64,
    /// The place of the first byte in it.
    pub from: u64,
    /// The file that gets the bytes.
    pub to: Place,
}

/// Copies the bytes from a place of the span on, as many as the room has, to the same place of another file.
fn copy_piece<F: Files>(
    log: &mut Record,
    span: Span,
    source: &mut F::File,
    target: &mut Written<F>,
    at: u64,
    room: &mut [u8],
) -> Result<(), DiskFault>
    requires { span.from + at < 2 ^ 64 }
    ensures { CopiesPiece span at result room.new log.old.acts log.new.acts }
{
    let segment = Place::Segment(span.segment);
    read_at(log, source, segment, span.from + at, &mut *room)?;
    target.write(log, span.to, at, room)
}

/// Copies this number of bytes to another file. A segment that has fewer is at fault.
fn copy<F: Files>(
    log: &mut Record,
    span: Span,
    source: &mut F::File,
    target: &mut Written<F>,
    len: u64,
) -> Result<(), DiskFault>
    requires { span.from + len < 2 ^ 64 }
    ensures { Copies span len result log.old.acts log.new.acts }
{
    let mut piece = [0u8; PIECE];
    for i in 0..len / PIECE as u64 {
        copy_piece(log, span, source, target, i * PIECE as u64, &mut piece)?;
    }
    let at = len - len % PIECE as u64;
    let (last, _) = piece.split_at_mut((len - at) as usize);
    copy_piece(log, span, source, target, at, last)
}

impl<'a, F: Files> Folder<'a, F> {
    /// How many bytes of a segment follow its first `len`, but for zeros at the end. They are kept
    /// beside when it is gone on with.
    pub fn torn_len(&mut self, number: u64, len: u64) -> Result<u64, DiskFault>
        ensures torn { FindsTorn number len result (asked_of self.old) (asked_of self.new) }
        ensures fits { IfOk result (λ n. HasLength len n) }
    {
        let place = Place::Segment(number);
        let mut file = self.open_to_read(place)?;
        let rest = self.measure(place)?.saturating_sub(len);
        read_before_zeros(&mut self.log, &mut file, place, len, rest)
    }
}

impl<'a, F: Locks> Folder<'a, F> {
    /// Writes `len` bytes of a segment to a new file, and secures it.
    fn write_copy(&mut self, span: Span, len: u64) -> Result<Written<F>, DiskFault>
        requires { span.from + len < 2 ^ 64 }
        ensures { WritesCopy span len result (asked_of self.old) (asked_of self.new) }
    {
        let mut source = self.open_to_read(Place::Segment(span.segment))?;
        let mut target = self.make_written(span.to)?;
        copy(&mut self.log, span, &mut source, &mut target, len)?;
        target.secure(&mut self.log, span.to)?;
        Ok(target)
    }

    /// The same. If it cannot be written whole, there is no such file.
    fn try_copy(&mut self, span: Span, len: u64) -> Result<Written<F>, DiskFault>
        requires { span.from + len < 2 ^ 64 }
        ensures { TriesCopy span len result (asked_of self.old) (asked_of self.new) }
    {
        let copied = self.write_copy(span, len);
        if copied.is_err() {
            let _removed = self.remove(span.to);
        }
        copied
    }

    /// Gives a file that was secured its name. It has that after a crash too.
    fn secure_name(&mut self, from: Place, to: Place) -> Result<(), DiskFault>
        ensures { AsksAll (Rename from to ∷ Secure Place.Folder ∷ []) result
            (asked_of self.old) (asked_of self.new) }
    {
        match self.rename(from, to) {
            Ok(()) => self.sync(),
            Err(fault) => Err(fault),
        }
    }

    /// Keeps what follows the first `len` bytes of a segment beside it, but for zeros at the end. If there
    /// is nothing else, an older file stays as it is.
    fn keep_torn(&mut self, number: u64, len: u64) -> Result<(), DiskFault>
        ensures { KeepsTorn number len result (asked_of self.old) (asked_of self.new) }
    {
        let torn = self.torn_len(number, len)?;
        if torn == 0 {
            return Ok(());
        }
        let span = Span {
            segment: number,
            from: len,
            to: Place::NewTorn(number),
        };
        let _file = self.try_copy(span, torn)?;
        self.secure_name(Place::NewTorn(number), Place::Torn(number))
    }

    /// Writes the first `len` bytes of a segment anew, and keeps what follows them beside. A refusal leaves
    /// the segment as it was.
    fn write_anew(&mut self, number: u64, len: u64) -> Result<Written<F>, DiskFault>
        ensures { WritesAnew number len result (asked_of self.old) (asked_of self.new) }
    {
        let span = Span {
            segment: number,
            from: 0,
            to: Place::NewSegment(number),
        };
        let written = self.try_copy(span, len)?;
        if let Err(fault) = self.keep_torn(number, len) {
            let _removed = self.remove(Place::NewSegment(number));
            return Err(fault);
        }
        self.secure_name(Place::NewSegment(number), Place::Segment(number))?;
        Ok(written)
    }

    /// Cuts off what follows the first `len` bytes of a segment, and secures these as they are.
    fn cut(&mut self, number: u64, len: u64) -> Result<Written<F>, DiskFault>
        ensures { CutsAsItIs number len result (asked_of self.old) (asked_of self.new) }
    {
        let place = Place::Segment(number);
        let file = Written::new(self.open_to_write(place)?);
        file.cut_to(&mut self.log, place, len)?;
        self.sync()?;
        Ok(file)
    }

    /// The same as `resume`, without a log of the file's own.
    fn write_or_cut(&mut self, number: u64, len: u64) -> Result<Written<F>, DiskFault>
        ensures { Resumes number len result (asked_of self.old) (asked_of self.new) }
    {
        match self.write_anew(number, len) {
            Ok(written) => Ok(written),
            Err(fault) => {
                if fault.is_full() {
                    return self.cut(number, len);
                }
                Err(fault)
            }
        }
    }

    /// Goes on in a segment after its first `len` bytes, which are written anew, since nobody knows which
    /// of them a server before has secured. What follows them is kept beside. On a disk without room for
    /// that it is cut off, and the segment is gone on with as it is.
    ///
    /// The segment has its old bytes until the new ones are secured. Another refusal leaves it as it was.
    pub fn resume(&mut self, number: u64, len: u64) -> Result<Growing<F>, DiskFault>
        ensures acts { Resumes number len result (asked_of self.old) (asked_of self.new) }
        ensures place { IfOk result (λ file. place_of file ≡ Segment number) }
        ensures room { IfOk result (λ file. room_of file ≡ room_at len) }
        ensures new { IfOk result (λ file. acts_of file ≡ []) }
    {
        let file = self.write_or_cut(number, len)?;
        Ok(Growing::new(file, Place::Segment(number), len))
    }

    /// Writes the first `len` bytes of a segment anew, secures them, and keeps what follows them beside. A refusal
    /// leaves the segment as it was.
    pub fn cut_keeping(&mut self, number: u64, len: u64) -> Result<(), DiskFault>
        ensures { WritesAnew number len result (asked_of self.old) (asked_of self.new) }
    {
        self.write_anew(number, len)?;
        Ok(())
    }

    /// Keeps a segment whole as torn bytes: there is no such segment afterwards. That is secured by `sync`.
    pub fn set_aside(&mut self, number: u64) -> Result<(), DiskFault>
        ensures { Asks (Rename (Segment number) (Torn number)) result (asked_of self.old) (asked_of self.new) }
    {
        self.rename(Place::Segment(number), Place::Torn(number))
    }

    /// Whether this number of torn bytes of a segment is kept beside it.
    pub fn keeps_torn(&mut self, number: u64, len: u64) -> bool
        ensures { HasSize (Torn number) len result (asked_of self.old) (asked_of self.new) }
    {
        match self.measure(Place::Torn(number)) {
            Ok(size) => size == len,
            Err(_) => false,
        }
    }
}
