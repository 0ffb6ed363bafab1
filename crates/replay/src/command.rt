// What a line asks for.
ghost use Rattle.std.specs.Prelude.{IfOk};
ghost use Rattle.replay.specs.Commands.{Spells, Written};
ghost use Rattle.replay.specs.Lines.{words_left};

use crate::trouble::Trouble;
use crate::words::Words;
use std::alloc::Global;

// What a line asks for.
#[derive(Drop)]
pub enum Command {
    Flat { space: usize, bytes: Vec<u8> },
    Overlay,
    Store(Call),
    Read(Reading),
}

// What is asked of the topmost store.
#[derive(Drop)]
pub enum Call {
    Append(Vec<u8>),
    Cut(usize),
    Byte(usize),
    Bytes,
}

// What is asked of given bytes.
#[derive(Drop)]
pub enum Reading {
    Tokens(Vec<u8>),
    Object(Vec<u8>),
    Body(Vec<u8>),
    Frame { place: usize, bytes: Vec<u8> },
}

impl Command {
    pub fn parse(heap: Global, line: &str) -> Result<Command, Trouble>
        ensures { IfOk result (λ command. Written command line.now) }
    {
        if line.is_empty() {
            return Err(Trouble::EmptyLine);
        }
        let mut words = Words::of(line);
        let command = Command::named(heap, words.word()?, &mut words)?;
        words.end()?;
        Ok(command)
    }

    // Every command stands here, with the words that it takes.
    fn named(heap: Global, name: &str, words: &mut Words<'_>) -> Result<Command, Trouble>
        ensures { IfOk result (λ command. Spells command name.now (words_left words.old.left) (words_left words.new.left)) }
    {
        match name {
            "flat" => {
                let space = words.number()?;
                let bytes = words.bytes(heap)?;
                Ok(Command::Flat { space, bytes })
            }
            "overlay" => Ok(Command::Overlay),
            "append" => Ok(Command::Store(Call::Append(words.bytes(heap)?))),
            "cut" => Ok(Command::Store(Call::Cut(words.number()?))),
            "byte" => Ok(Command::Store(Call::Byte(words.number()?))),
            "bytes" => Ok(Command::Store(Call::Bytes)),
            "token" => Ok(Command::Read(Reading::Tokens(words.bytes(heap)?))),
            "object" => Ok(Command::Read(Reading::Object(words.bytes(heap)?))),
            "body" => Ok(Command::Read(Reading::Body(words.bytes(heap)?))),
            "frame" => {
                let place = words.number()?;
                let bytes = words.bytes(heap)?;
                Ok(Command::Read(Reading::Frame { place, bytes }))
            }
            _ => Err(Trouble::NoCommand),
        }
    }
}
