//! The words of the command line.

ghost use Rattle.std.specs.Prelude.{◌≡◌, map};
ghost use Rattle.std.specs.String.{string_bytes};
ghost use Rattle.top_call.specs.CommandWords.{command_of};

use fs_script::read_number;

/// What the program is asked to do.
#[derive(Clone, Copy, Debug, PartialEq, Eq)]
pub enum Command {
    /// Simulate the job of the input, in the order that the seed picks.
    Sim { seed: u64 },
}

/// The command that the words after the program's name say, if they say one. There are no options.
pub fn read_command(words: &[String]) -> Option<Command>
    ensures { result ≡ command_of (map (λ w. string_bytes w) words.now) }
{
    match words {
        [name, seed] if name.as_str() == "sim" => Some(Command::Sim {
            seed: read_number(seed.as_bytes())?,
        }),
        _ => None,
    }
}
