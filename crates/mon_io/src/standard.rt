// A source, a sink and a shelf over the readers, writers and files of std.
ghost use Rattle.std.specs.Prelude.{◌≡◌, ◌≢◌, ◌<◌, ◌≤◌, ℕ, List, None, Some, length, take, vec_len, IfOk, IfSome, IsNone, OnErr, IsErrOf, Ok, Err, MatchResult};
ghost use Rattle.std.specs.Io.{ReadsAtMost, WritesAtMost};
ghost use Rattle.std.specs.Io.KnownBytes.{ReadConsumes, WriteAppends, Appends};
ghost use Rattle.mon_io.specs.Faults.{Rose, one_more, CountsErr};

use crate::{Failed, Shelf, ShelfFault, Sink, SinkFault, Source};
use std::alloc::Global;
use std::fs::File;
use std::io::{self, ErrorKind, Read, Write};
use std::rt::Files;

/// A reader as a source. It tells what the reader tells.
#[derive(Drop)]
pub struct StdSource<R: Read> {
    inner: R,
    faults: u64,
}

impl<R: Read> StdSource<R> {
    pub fn new(inner: R) -> Self
        ensures told { ⟦<Self as Source>⟧.told result ≡ R.remaining inner }
        ensures faults { ⟦<Self as Source>⟧.faults result ≡ 0 }
    {
        StdSource { inner, faults: 0 }
    }
}

impl<R: Read> Source for StdSource<R> {
    ghost told = { λ s. R.remaining s.inner };

    ghost faults = { λ s. s.faults };

    fn read(&mut self, buf: &mut [u8]) -> Result<usize, Failed>
        ensures bound { ReadsAtMost result buf.new }
        ensures bytes { let told = ⟦<Self as Source>⟧.told in ReadConsumes (told self.old) (told self.new) result buf.new }
        ensures later { let faults = ⟦<Self as Source>⟧.faults in faults self.old ≤ faults self.new }
        ensures cause { let faults = ⟦<Self as Source>⟧.faults in OnErr result (Rose (faults self.old) (faults self.new)) }
        ensures counted { let faults = ⟦<Self as Source>⟧.faults in CountsErr (faults self.old) (faults self.new) result }
    {
        match self.inner.read(buf) {
            Ok(count) => Ok(count),
            Err(_) => {
                self.faults = self.faults.saturating_add(1);
                Err(Failed)
            }
        }
    }
}

/// A writer as a sink, flushed after each write. It tells nothing, since a write whose flush fails is told as failed.
#[derive(Drop)]
pub struct StdSink<W: Write> {
    inner: W,
    faults: u64,
}

impl<W: Write> StdSink<W> {
    pub fn new(inner: W) -> Self
        ensures taken { ⟦<Self as Sink>⟧.taken result ≡ None }
        ensures faults { ⟦<Self as Sink>⟧.faults result ≡ 0 }
    {
        StdSink { inner, faults: 0 }
    }
}

impl<W: Write> Sink for StdSink<W> {
    ghost taken = { λ _. None };

    ghost faults = { λ s. s.faults };

    fn write(&mut self, piece: &[u8]) -> Result<usize, SinkFault>
        ensures bound { WritesAtMost result piece.now }
        ensures some { IfOk result (λ n. 0 < length piece.now → 0 < n) }
        ensures bytes { let taken = ⟦<Self as Sink>⟧.taken in WriteAppends (taken self.old) (taken self.new) result piece.now }
        ensures later { let faults = ⟦<Self as Sink>⟧.faults in faults self.old ≤ faults self.new }
        ensures cause { let faults = ⟦<Self as Sink>⟧.faults in OnErr result (Rose (faults self.old) (faults self.new)) }
        ensures counted { let faults = ⟦<Self as Sink>⟧.faults in CountsErr (faults self.old) (faults self.new) result }
        ensures failed { OnErr result (result ≡ Err SinkFault.Failed) }
    {
        match write_through(&mut self.inner, piece) {
            Ok(count) => Ok(count),
            Err(_) => {
                self.faults = self.faults.saturating_add(1);
                Err(SinkFault::Failed)
            }
        }
    }
}

// A write that takes none of some bytes is an error.
fn write_through<W: Write>(inner: &mut W, piece: &[u8]) -> io::Result<usize>
    ensures bound { WritesAtMost result piece.now }
    ensures some { IfOk result (λ n. 0 < length piece.now → 0 < n) }
    ensures bytes { IfOk result (λ n. Appends (W.contents inner.old) (W.contents inner.new) (take n piece.now)) }
{
    let count = inner.write(piece)?;
    if count == 0 && !piece.is_empty() {
        return Err(io::Error::from(ErrorKind::WriteZero));
    }
    inner.flush()?;
    Ok(count)
}

/// The files of the system as a shelf, by their paths. It tells nothing.
#[derive(Drop)]
pub struct FileShelf<'a, R: Files> {
    rt: &'a R,
    faults: u64,
}

impl<'a, R: Files> FileShelf<'a, R> {
    pub fn new(rt: &'a R) -> Self
        ensures silent { (name : List ℕ) → ⟦<Self as Shelf>⟧.text result name ≡ None }
        ensures faults { ⟦<Self as Shelf>⟧.faults result ≡ 0 }
    {
        FileShelf { rt, faults: 0 }
    }
}

impl<'a, R: Files> Shelf for FileShelf<'a, R> {
    ghost text = { λ _ _. None };

    ghost faults = { λ s. s.faults };

    fn text(&mut self, alloc: Global, name: &str, most: usize) -> Result<Vec<u8>, ShelfFault>
        ensures told { IfOk result (λ text. IfSome (⟦<Self as Shelf>⟧.text self.old name.now) (λ t. text.items ≡ t)) }
        ensures most { IfOk result (λ text. vec_len text ≤ most) }
        ensures long { IsErrOf result ShelfFault.Long → IfSome (⟦<Self as Shelf>⟧.text self.old name.now) (λ t. most < length t) }
        ensures same { (other : List ℕ) → ⟦<Self as Shelf>⟧.text self.new other ≡ ⟦<Self as Shelf>⟧.text self.old other }
        ensures later { let faults = ⟦<Self as Shelf>⟧.faults in faults self.old ≤ faults self.new }
        ensures cause { let faults = ⟦<Self as Shelf>⟧.faults in IsErrOf result ShelfFault.Failed → Rose (faults self.old) (faults self.new) }
        ensures counted { let faults = ⟦<Self as Shelf>⟧.faults in IsErrOf result ShelfFault.Failed → faults self.new ≡ one_more (faults self.old) }
        ensures kept { let faults = ⟦<Self as Shelf>⟧.faults in ¬ IsErrOf result ShelfFault.Failed → faults self.new ≡ faults self.old }
    {
        let result = text_of(File::open(self.rt, name), alloc, most);
        if let Err(ShelfFault::Failed) = &result {
            self.faults = self.faults.saturating_add(1);
        }
        result
    }
}

// The whole text of a reader that was opened, if it gives no more than `most` bytes.
fn text_of<F: Read + Drop>(
    opened: io::Result<F>,
    alloc: Global,
    most: usize,
) -> Result<Vec<u8>, ShelfFault>
    ensures most { IfOk result (λ text. vec_len text ≤ most) }
    ensures whole { IfOk result (λ text. MatchResult opened (λ reader. IfSome (F.remaining reader) (λ all. text.items ≡ all)) (λ _. ⊥)) }
    ensures long { IsErrOf result ShelfFault.Long → MatchResult opened (λ reader. IfSome (F.remaining reader) (λ all. most < length all)) (λ _. ⊥) }
{
    match opened {
        Ok(reader) => text_read(read_whole(reader, alloc, most)),
        Err(error) => Err(fault_of(&error)),
    }
}

// The text that was read, or why there is none.
fn text_read(read: io::Result<Option<Vec<u8>>>) -> Result<Vec<u8>, ShelfFault>
    ensures ok { IfOk result (λ text. read ≡ Ok (Some text)) }
    ensures long { IsErrOf result ShelfFault.Long → read ≡ Ok None }
{
    match read {
        Ok(Some(bytes)) => Ok(bytes),
        Ok(None) => Err(ShelfFault::Long),
        Err(error) => Err(fault_of(&error)),
    }
}

// What an error of the system is: want of memory, or a failure.
fn fault_of(error: &io::Error) -> ShelfFault
    ensures { result ≢ ShelfFault.Long }
{
    match error.kind() {
        ErrorKind::OutOfMemory => ShelfFault::Memory,
        _ => ShelfFault::Failed,
    }
}

// All that the reader gives, or `None` where that is more than `most` bytes.
fn read_whole<F: Read + Drop>(reader: F, alloc: Global, most: usize) -> io::Result<Option<Vec<u8>>>
    ensures most { IfOk result (λ text. IfSome text (λ bytes. vec_len bytes ≤ most)) }
    ensures whole { IfOk result (λ text. IfSome text (λ bytes. IfSome (F.remaining reader) (λ all. bytes.items ≡ all))) }
    ensures long { IfOk result (λ text. IsNone text → IfSome (F.remaining reader) (λ all. most < length all)) }
{
    let limit = (most as u64).saturating_add(1);
    let mut bytes = Vec::new(alloc);
    reader.take(limit).read_to_end(&mut bytes)?;
    if bytes.len() > most {
        return Ok(None);
    }
    Ok(Some(bytes))
}
