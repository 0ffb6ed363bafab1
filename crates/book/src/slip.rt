// Slips.
ghost use Rattle.std.specs.Prelude.{◌≡◌, true, false};
ghost use Rattle.book.specs.Slips.{is_spent};

// Begin hands one out, and put, remove, commit and abandon are shown it. It is owed until an accepted commit or abandon spends it:
// one that is not spent cannot be let go. It is neither copied nor cloned, and any unspent slip serves any book.
pub struct Slip {
    spent: bool,
}

impl Drop for Slip {
    fn drop(self)
        requires { self.spent ≡ true }
    {
        // tried `Slip { .. }`: that lets `self` go whole, and so would call `drop` again
        let Slip { spent: _ } = self;
    }
}

impl Slip {
    // A slip that is owed.
    pub(crate) fn owed() -> Slip
        ensures { is_spent result ≡ false }
    {
        Slip { spent: false }
    }

    // A slip that serves no update.
    pub fn spent() -> Slip
        ensures { is_spent result ≡ true }
    {
        Slip { spent: true }
    }

    pub fn is_spent(&self) -> bool
        ensures { result ≡ is_spent self.now }
    {
        self.spent
    }

    pub(crate) fn spend(&mut self)
        ensures { is_spent self.new ≡ true }
    {
        self.spent = true;
    }
}
