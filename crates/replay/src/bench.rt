// What stands on the bench, and what each command does to it.
ghost use Rattle.replay.specs.Benches.{Answered, Performed};

use crate::answer::{Answer, plain};
use crate::command::Command;
use crate::pile::Pile;
use crate::readings;
use crate::trouble::Trouble;
use std::alloc::Global;
use std::str;

#[derive(Drop)]
pub struct Bench {
    heap: Global,
    pile: Pile,
}

impl Bench {
    pub fn new(heap: Global) -> Bench {
        Bench {
            heap,
            pile: Pile::Empty,
        }
    }

    // Does what a line asks for.
    pub fn answer(&mut self, line: &[u8]) -> Answer
        ensures { Answered self.old.pile line.now result self.new.pile }
    {
        let text = str::from_utf8(line).map_err(|_| Trouble::NoText)?;
        let command = Command::parse(self.heap, text)?;
        self.perform(command)
    }

    // Every command is done here.
    fn perform(&mut self, command: Command) -> Answer
        ensures { Performed self.old.pile command result self.new.pile }
    {
        match command {
            Command::Flat { space, bytes } => plain(self.heap, self.pile.flat(space, bytes)),
            Command::Overlay => plain(self.heap, self.pile.overlay()),
            Command::Store(call) => self.pile.call(self.heap, &call),
            Command::Read(reading) => readings::answer(self.heap, &reading),
        }
    }
}
