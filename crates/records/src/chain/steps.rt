// The walk along the chain.
ghost use Rattle.std.specs.Prelude.{◌≡◌};
ghost use Rattle.format.specs.Chain.{before};
ghost use Rattle.records.specs.Chained.{may_end};
ghost use Rattle.records.specs.declared.chain.Ending.TheVariants.{At};

use crate::chain::Ending;
use crate::revision_tables::MOST_REVISIONS;
use crate::rows::broken_rule;
use crate::scratch::Scratch;
use faults::fault::Fault;
use faults::layer::Layer;
use faults::reason::Reason;
use stores::store::Store;

fn may_end(ending: Ending, end: usize) -> bool
    ensures { result ≡ may_end ending end }
{
    match ending {
        Ending::At(place) => end == place,
        Ending::By(place) => end <= place,
    }
}

// The offset of the section before one at `offset`, if there is one: from 0 on, and below its own.
fn offset_before(offset: usize, prev: Option<i64>) -> Result<Option<usize>, Fault>
    ensures { result ≡ before offset prev }
{
    let Some(prev) = prev else {
        return Ok(None);
    };
    // a match is plainer than `.ok().filter(..).map(Some).ok_or(..)`
    match usize::try_from(prev) {
        Ok(place) if place < offset => Ok(Some(place)),
        _ => Err(broken_rule(offset, 0)),
    }
}

impl Scratch {
    ghost use Rattle.records.specs.Chained.{ReadsNext, Walked};
    ghost use Rattle.records.specs.Trailers.{offsets_in};

    // Checks the section at `offset`, and answers where the one before it starts.
    fn read_next<S: Store>(
        &mut self,
        store: &S,
        offset: usize,
        ending: Ending,
    ) -> Result<Option<usize>, Fault>
        ensures is { ReadsNext (S.Store.meaning store.now).bytes offset ending result }
        ensures kept { self.new.offsets ≡ self.old.offsets }
    {
        let link = self.read_link(store, offset)?;
        let before = offset_before(offset, link.told.prev)?;
        if !may_end(ending, link.end) {
            return Err(broken_rule(offset, 0));
        }
        Ok(before)
    }

    // Walks the chain back from the section at `newest`, whose revision ends at `length`, and holds the offsets of its sections.
    pub(crate) fn walk<S: Store>(
        &mut self,
        store: &S,
        newest: usize,
        length: usize,
    ) -> Result<(), Fault>
        ensures { Walked (S.Store.meaning store.now).bytes newest (At length) (offsets_in self.new) result }
    {
        self.offsets.clear();
        let mut offset = newest;
        let mut ending = Ending::At(length);
        // the range only ends the walk: each section's offset is known from the one before
        for _ in 0..MOST_REVISIONS {
            let before = self.read_next(store, offset, ending)?;
            self.offsets.push(offset);
            let Some(place) = before else {
                return Ok(());
            };
            ending = Ending::By(offset);
            offset = place;
        }
        Err(Fault::met(Reason::FileBound, Layer::Chain, 0))
    }
}
