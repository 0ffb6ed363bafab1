// Records in files: opened, and drawn out. `rt` and a path go in side by side, as std's own functions take them.
ghost use Rattle.std.specs.Prelude.{IfOk};
ghost use Rattle.stores.specs.Flats.{flat_meaning};
ghost use Rattle.book.specs.Books.{Sound};

use crate::failure::Failure;
use book::book::{Book, Memory};
use faults::fault::Fault;
use reports::excerpt::{around, spell};
use std::alloc::{AllocError, Global};
use std::fs::File;
use std::io::{ErrorKind, Read, Write};
use std::{fs, io};
use stores::flat::Flat;
use stores::store::{LONGEST, Store};

// The record in a file.
pub fn open(rt: &HostRuntime, path: &str) -> Result<Book<Flat>, Failure>
    ensures { IfOk result (λ book. Sound flat_meaning book) }
{
    let heap = rt.alloc();
    let bytes = load(rt, path).map_err(Failure::Unread)?;
    let length = bytes.len();
    Flat::check(&bytes, length)?;
    let memory = Memory::new(heap)?;
    let mut book = Book::new(Flat::new(bytes, length), memory);
    // No `?`: both ways out need the book, since its bytes show what is wrong.
    match book.open() {
        Ok(_) => Ok(book),
        Err(fault) => {
            let (store, _memory) = book.into_parts();
            let bytes = store.into_memory();
            Err(shown(heap, bytes.as_slice(), fault)?)
        }
    }
}

// The bytes of a file, in memory of their size. Of one that is too long for a record, enough to tell.
fn load(rt: &HostRuntime, path: &str) -> io::Result<Vec<u8>> {
    let mut file = File::open(rt, path)?;
    let found = file.metadata()?;
    if !found.is_file() {
        return fs::read(rt, path);
    }
    // `as`, both ways: there is no `From` between u64 and usize, and `try_from` would answer an error that never comes.
    let length = found.len().min(LONGEST as u64 + 1) as usize;
    let mut bytes = vec![in rt.alloc(); 0u8; length]?;
    file.read_exact(bytes.as_mut_slice())?;
    Ok(bytes)
}

// What is wrong with the bytes of a file, and where.
fn shown(heap: Global, bytes: &[u8], fault: Fault) -> Result<Failure, AllocError> {
    let part = around(bytes, fault.place);
    let mut text = Vec::new(heap);
    spell(&mut text, part.before)?;
    let mark = text.len();
    spell(&mut text, part.behind)?;
    Ok(Failure::NoRecord { fault, text, mark })
}

// Writes the file as it stood at revision k to a path where there is none, and answers its length.
pub fn extract(
    rt: &HostRuntime,
    book: &Book<Flat>,
    k: usize,
    path: &str,
) -> Result<usize, Failure> {
    let end = book.list(k)?.end;
    let mut drawn = Flat::new(vec![in rt.alloc(); 0u8; end]?, 0);
    book.draw(k, &mut drawn)?;
    let bytes = drawn.into_memory();
    save(rt, path, bytes.as_slice()).map_err(|error| match error.kind() {
        ErrorKind::AlreadyExists => Failure::Exists,
        _ => Failure::Unwritten(error),
    })?;
    Ok(end)
}

// Writes a new file. What could be written of it is taken away again where the system refuses the rest.
fn save(rt: &HostRuntime, path: &str, bytes: &[u8]) -> io::Result<()> {
    let mut file = File::create_new(rt, path)?;
    let done = file.write_all(bytes);
    if done.is_err() {
        let _ = fs::remove_file(rt, path);
    }
    done
}
