// Objects as an update has them.
ghost use Rattle.std.specs.Prelude.{length, codes};
ghost use Rattle.format.specs.Writing.{framed_bytes};
ghost use Rattle.writer.specs.Drafts.{Adds, Room};

use super::Draft;
use crate::ten_digits::TenDigits;

impl Draft {
    // An object: its number, its generation, and its body on lines of its own. Number and generation are given side by side, since no caller has them
    // as one value.
    #[tactic(auto, using(locality::proofs::Written::framed_length, crate::proofs::Lengths::spaced_length, crate::proofs::Lengths::opened_length))]
    pub fn object(&mut self, number: u32, generation: u32, body: &[u8])
        requires { Room self.old (length (framed_bytes number generation body.now)) }
        ensures { Adds self.old (framed_bytes number generation body.now) self.new }
    {
        self.number(b"", TenDigits::from(number), b" ");
        self.number(b"", TenDigits::from(generation), b" obj\n");
        self.text(body);
        self.object_end();
    }

    // What follows a body.
    fn object_end(&mut self)
        requires { Room self.old 8 }
        ensures { Adds self.old (codes "\nendobj\n") self.new }
    {
        self.text(b"\nendobj\n");
    }
}
