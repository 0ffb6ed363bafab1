// What callers of a book owe of its slips, and lists of calls that are run.
#![tactic(auto)]

use book::book::Book;
use book::slip::Slip;
use stores::store::Store;

// Begins an update, and hands its slip on: whoever holds it ends the update.
pub fn begin_for_later<S: Store>(book: &mut Book<S>) -> Option<Slip> {
    book.begin().ok()
}

// The slip shown stays with its holder.
pub fn remove_for_now<S: Store>(book: &mut Book<S>, slip: Slip, number: usize) -> Slip {
    let _ = book.remove(&slip, number);
    slip
}

#[cfg(test)]
mod tests {
    use book::book::{Book, Memory};
    use book::call::Call;
    use faults::fault::Fault;
    use faults::reason::Reason;
    use runs::alone::{ExtractError, open_alone};
    use runs::close::close;
    use runs::outcome::{Stopped, Work};
    use runs::work::work;
    use std::alloc::Global;
    use std::test::Fail;
    use stores::flat::Flat;
    use stores::store::Store;

    const WORKED: &[u8] =
        b"%PDF-1.4\n1 0 obj\n<</A 2 0 R>>\nendobj\n2 0 obj\n(pump)\nendobj\nxref\n0 3\n0000000000 65535 f \n0000000009 00000 n \n0000000037 00000 n \ntrailer\n<<\n/Root 1 0 R\n/Size 3\n>>\nstartxref\n59\n%%EOF\n";

    // An empty store of that size.
    fn empty(heap: Global, size: usize) -> Result<Flat, Fail> {
        let memory = vec![in heap; 0u8; size]?;
        Flat::check(&memory, 0)?;
        Ok(Flat::new(memory, 0))
    }

    // A store that holds the worked file.
    fn worked(heap: Global, size: usize) -> Result<Flat, Fail> {
        let mut store = empty(heap, size)?;
        store.append(WORKED)?;
        Ok(store)
    }

    // The cause alone.
    fn cause<S: Drop, C>(stopped: Stopped<S, C>) -> C {
        // tried `..`: what is not `Drop` is taken apart whole; so is `Work` below
        let Stopped {
            store: _,
            memory: _,
            cause,
        } = stopped;
        cause
    }

    // What a list of calls on the worked file leaves, in a store of that size: the store, the answers, and whether an update was open.
    fn left(
        heap: Global,
        size: usize,
        calls: &[Call<'_>],
    ) -> Result<(Flat, Vec<Result<(), Fault>>, bool), Fail> {
        let store = worked(heap, size)?;
        let memory = Memory::new(heap)?;
        let Work {
            book,
            slip,
            answers,
        } = work(heap, store, memory, calls).map_err(cause)?;
        let owed = !slip.is_spent();
        let (store, _memory) = close(book, slip);
        Ok((store, answers, owed))
    }

    fn put(number: usize, body: &[u8]) -> Call<'_> {
        Call::Put {
            spent: false,
            number,
            body,
        }
    }

    fn refused(reason: Reason, object: usize) -> Result<(), Fault> {
        Err(Fault::refused(reason, object))
    }

    #[test]
    fn three_updates_and_back(rt: HostRuntime) -> Result<(), Fail> {
        let calls = [
            Call::Begin,
            put(2, b"(gate)"),
            put(3, b"7"),
            Call::Commit { spent: false },
            Call::Begin,
            Call::Remove {
                spent: false,
                number: 2,
            },
            Call::Commit { spent: false },
            Call::Begin,
            put(2, b"(weir)"),
            Call::Commit { spent: false },
        ];
        let (long, answers, owed) = left(rt.alloc(), 612, &calls)?;
        assert!(rt; long.len() == 612 && !owed);
        assert!(rt; answers.len() == 10);
        for answer in answers.as_slice() {
            assert_eq!(rt; *answer, Ok(()));
        }
        Ok(())
    }

    #[test]
    fn refusals_and_back(rt: HostRuntime) -> Result<(), Fail> {
        let calls = [
            Call::Open,
            Call::Abandon { spent: false },
            Call::Begin,
            put(2, b"(gate)"),
            Call::Put {
                spent: true,
                number: 3,
                body: b"7",
            },
            put(3, b"7"),
            Call::Commit { spent: true },
            Call::Commit { spent: false },
            Call::Begin,
            put(2, b"(weir)"),
            Call::Commit { spent: false },
            Call::Back { revision: 2 },
            Call::Back { revision: 3 },
            Call::Begin,
        ];
        let (store, answers, owed) = left(rt.alloc(), 600, &calls)?;
        // the update that was open at the end is abandoned
        assert!(rt; store.len() == 356 && owed);
        assert!(rt; answers.len() == 14);
        assert_eq!(rt; answers[0], refused(Reason::OpenAlready, 0));
        assert_eq!(rt; answers[1], refused(Reason::NoUpdate, 0));
        assert_eq!(rt; answers[4], refused(Reason::SlipSpent, 3));
        assert_eq!(rt; answers[6], refused(Reason::SlipSpent, 0));
        assert_eq!(rt; answers[12], refused(Reason::NoRevision, 0));
        assert_eq!(rt; answers[13], Ok(()));
        Ok(())
    }

    #[test]
    fn other_ways_to_the_same_file(rt: HostRuntime) -> Result<(), Fail> {
        let straight = [
            Call::Begin,
            put(2, b"(gate)"),
            put(3, b"7"),
            Call::Commit { spent: false },
        ];
        let around = [
            Call::Begin,
            put(1, b"(lost)"),
            Call::Abandon { spent: false },
            Call::Begin,
            put(3, b"7"),
            put(2, b"(gate)"),
            Call::Commit { spent: false },
            Call::Begin,
            put(4, b"(cut)"),
            Call::Commit { spent: false },
            Call::Back { revision: 2 },
        ];
        let (first, _answers, _owed) = left(rt.alloc(), 356, &straight)?;
        let (second, _more, _open) = left(rt.alloc(), 700, &around)?;
        assert!(rt; first.len() == 356 && second.len() == 356);
        let (one, other) = (first.into_memory(), second.into_memory());
        assert!(rt; one.as_slice() == &other.as_slice()[..356]);
        Ok(())
    }

    // How many revisions there are where revision k is drawn out and opened.
    fn count_alone(
        book: &Book<Flat>,
        k: usize,
        out: Flat,
        memory: Memory,
    ) -> Result<Result<usize, Fault>, Fail> {
        match open_alone(book, k, out, memory).map_err(cause) {
            Ok(alone) => {
                let count = alone.revisions();
                let (_out, _more) = alone.into_parts();
                Ok(count)
            }
            Err(ExtractError::Refused(fault)) => Ok(Err(fault)),
            Err(ExtractError::NotEmpty) => Err("not empty".into()),
        }
    }

    // The same of the worked file with one update.
    fn revisions_alone(heap: Global, k: usize) -> Result<Result<usize, Fault>, Fail> {
        let store = worked(heap, 400)?;
        let memory = Memory::new(heap)?;
        let out = empty(heap, 400)?;
        let more = Memory::new(heap)?;
        let calls = [Call::Begin, put(3, b"7"), Call::Commit { spent: false }];
        let Work {
            book,
            slip,
            answers: _,
        } = work(heap, store, memory, &calls).map_err(cause)?;
        let drawn = count_alone(&book, k, out, more);
        let (_store, _memory) = close(book, slip);
        drawn
    }

    #[test]
    fn revisions_open_alone(rt: HostRuntime) -> Result<(), Fail> {
        let heap = rt.alloc();
        assert_eq!(rt; revisions_alone(heap, 1)?, Ok(1));
        assert_eq!(rt; revisions_alone(heap, 2)?, Ok(2));
        assert_eq!(rt;
            revisions_alone(heap, 3)?,
            Err(Fault::refused(Reason::NoRevision, 0))
        );
        Ok(())
    }
}
