// Making a book, and taking it apart.
ghost use Rattle.std.specs.Prelude.{◌≡◌};
ghost use Rattle.format.specs.Book.{shut};
ghost use Rattle.book.specs.Books.{Sound, moment_of, store_in};

use super::{Book, Memory};
use crate::call::Phase;
use records::revision_tables::Tables;
use records::scratch::Scratch;
use std::alloc::{AllocError, Global};
use stores::store::Store;
use writer::held::Held;
use writer::update::Writer;

impl Memory {
    // Memory for any book: what it takes later is in it.
    pub fn new(heap: Global) -> Result<Memory, AllocError> {
        let tables = Tables::new(heap)?;
        let scratch = Scratch::new(heap)?;
        let held = Held::new(heap)?;
        let writer = Writer::new(heap)?;
        Ok(Memory {
            tables,
            scratch,
            held,
            writer,
        })
    }
}

impl<S: Store> Book<S> {
    // A shut book round a store. Store and memory are what a book is made of and gives back: a pair of them would be made only to be taken apart.
    pub fn new(store: S, memory: Memory) -> Book<S>
        ensures store { store_in result ≡ store }
        ensures shut { (moment_of S.Store.meaning result).phase ≡ shut }
        ensures sound { Sound S.Store.meaning result }
    {
        Book {
            store,
            phase: Phase::Shut,
            memory,
        }
    }

    // The store, to be looked at.
    pub fn store(&self) -> &S
        ensures { result.now ≡ store_in self.now }
    {
        &self.store
    }

    // The store and the memory back.
    pub fn into_parts(self) -> (S, Memory)
        ensures { result.0 ≡ store_in self }
    {
        let Book { store, memory, .. } = self;
        (store, memory)
    }
}
