// What a command line asks for.
ghost use Rattle.std.specs.Prelude.{◌≡◌, [], ◌∷◌, map, string_bytes, MatchResult};
ghost use Rattle.reports.specs.Commands.{Parsed};
ghost use Rattle.numerals.specs.Numbers.{Decimal, NumberIn};

use numerals::decimal;

#[derive(Clone, Copy)]
pub enum Command<'a> {
    Help,
    List {
        file: &'a str,
    },
    Check {
        file: &'a str,
    },
    Show {
        file: &'a str,
        revision: usize,
        number: usize,
    },
    Extract {
        file: &'a str,
        revision: usize,
        out: &'a str,
    },
    Diff {
        file: &'a str,
        earlier: usize,
        later: usize,
    },
}

// The words ask for nothing that there is.
#[derive(Clone, Copy, Debug, PartialEq, Eq)]
pub struct Usage;

// The command that the words behind the program's name ask for.
pub fn parse<'a>(words: &'a [String]) -> Result<Command<'a>, Usage>
    ensures { Parsed (map string_bytes words.now) result }
{
    match words {
        [name] => alone(name.as_str()),
        [name, file] => of_file(name.as_str(), file.as_str()),
        [name, file, first, second] => of_two(
            name.as_str(),
            file.as_str(),
            first.as_str(),
            second.as_str(),
        ),
        _ => Err(Usage),
    }
}

// A command of one word.
fn alone<'a>(name: &'a str) -> Result<Command<'a>, Usage>
    ensures { Parsed (name.now ∷ []) result }
{
    match name {
        "help" => Ok(Command::Help),
        _ => Err(Usage),
    }
}

// A command that names a file alone.
fn of_file<'a>(name: &'a str, file: &'a str) -> Result<Command<'a>, Usage>
    ensures { Parsed (name.now ∷ (file.now ∷ [])) result }
{
    match name {
        "list" => Ok(Command::List { file }),
        "check" => Ok(Command::Check { file }),
        _ => Err(Usage),
    }
}

// A command that names a file and two things more.
fn of_two<'a>(
    name: &'a str,
    file: &'a str,
    first: &'a str,
    second: &'a str,
) -> Result<Command<'a>, Usage>
    ensures { Parsed (name.now ∷ (file.now ∷ (first.now ∷ (second.now ∷ [])))) result }
{
    match name {
        "show" => Ok(Command::Show {
            file,
            revision: number(first)?,
            number: number(second)?,
        }),
        "extract" => Ok(Command::Extract {
            file,
            revision: number(first)?,
            out: second,
        }),
        "diff" => Ok(Command::Diff {
            file,
            earlier: number(first)?,
            later: number(second)?,
        }),
        _ => Err(Usage),
    }
}

// The number that a word writes.
fn number(word: &str) -> Result<usize, Usage>
    ensures { MatchResult result (λ n. NumberIn n word.now) (λ _. Decimal word.now → ⊥) }
{
    decimal(word).ok_or(Usage)
}
