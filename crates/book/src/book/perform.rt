// What each call does.
ghost use Rattle.std.specs.Prelude.{◌≡◌};
ghost use Rattle.book.specs.Books.{Performs};
ghost use Rattle.book.specs.Calls.{call_of};

use super::Book;
use crate::call::{Call, Phase};
use faults::fault::Fault;
use stores::store::Store;

impl<S: Store> Book<S> {
    // What a call does follows from the state and the call together, so both are matched here.
    pub(super) fn perform(&mut self, call: &Call<'_>) -> Result<(), Fault>
        ensures { Performs S.Store.meaning self.old (call_of call.now) result self.new }
    {
        match self.phase {
            Phase::Shut => match call {
                Call::Open => self.read_in(),
                _ => Err(call.refusal(Phase::Shut)),
            },
            Phase::Standing => match call {
                Call::Begin => Ok(self.start()),
                Call::Back { revision } => self.cut_back(*revision),
                _ => Err(call.refusal(Phase::Standing)),
            },
            Phase::Updating => {
                if call.is_spent() {
                    return Err(call.refusal(Phase::Updating));
                }
                match call {
                    Call::Put { number, body, .. } => self.hold_body(*number, body),
                    Call::Remove { number, .. } => self.hold_removal(*number),
                    Call::Commit { .. } => self.write(),
                    Call::Abandon { .. } => Ok(self.let_go()),
                    _ => Err(call.refusal(Phase::Updating)),
                }
            }
        }
    }
}
