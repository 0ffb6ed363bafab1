// The states of a book, and the calls that can change it.
ghost use Rattle.std.specs.Prelude.{◌≡◌};
ghost use Rattle.book.specs.Calls.{Refuses, number_of, obstacle, shows_spent};

use faults::fault::Fault;
use faults::reason::Reason;

// A book is shut until it has opened its store's bytes, then standing, and updating from begin to commit or abandon.
#[derive(Clone, Copy, Debug, PartialEq, Eq)]
pub enum Phase {
    Shut,
    Standing,
    Updating,
}

// A call; put, remove, commit and abandon say whether the slip that they are shown is spent.
#[derive(Clone, Copy, Debug)]
pub enum Call<'a> {
    Open,
    Begin,
    Put {
        spent: bool,
        number: usize,
        body: &'a [u8],
    },
    Remove {
        spent: bool,
        number: usize,
    },
    Commit {
        spent: bool,
    },
    Abandon {
        spent: bool,
    },
    Back {
        revision: usize,
    },
}

impl Call<'_> {
    // The number that the call names, 0 if none: the definitions and the printed fault have 0 there.
    pub fn number(&self) -> usize
        ensures { result ≡ number_of self.now }
    {
        match self {
            Call::Put { number, .. } | Call::Remove { number, .. } => *number,
            _ => 0,
        }
    }

    // Whether the call is shown a spent slip: false if it is shown none, as the definitions have it.
    pub fn is_spent(&self) -> bool
        ensures { result ≡ shows_spent self.now }
    {
        match self {
            Call::Put { spent, .. }
            | Call::Remove { spent, .. }
            | Call::Commit { spent }
            | Call::Abandon { spent } => *spent,
            _ => false,
        }
    }

    // The fault of the call in a state that does not allow it.
    pub(crate) fn refusal(&self, phase: Phase) -> Fault
        ensures { Refuses phase self.now result }
    {
        Fault::refused(self.obstacle(phase), self.number())
    }

    // Why a state does not allow the call.
    fn obstacle(&self, phase: Phase) -> Reason
        ensures { result ≡ obstacle phase self.now }
    {
        match phase {
            Phase::Shut => Reason::BookShut,
            Phase::Standing => match self {
                Call::Open => Reason::OpenAlready,
                _ => Reason::NoUpdate,
            },
            Phase::Updating => match self {
                Call::Open => Reason::OpenAlready,
                Call::Begin => Reason::UpdateOpen,
                Call::Back { .. } => Reason::UpdateOpen,
                _ => Reason::SlipSpent,
            },
        }
    }
}
