//! The commands that never wait, by their words.
ghost use Rattle.std.specs.Prelude.{◌≡◌, map, string_bytes};
ghost use Rattle.ucm_prog.specs.Commands.{command_of, kind_of, plain_command};

use recipe::Kind;

/// A command that never waits.
#[derive(Clone, Copy, Debug, PartialEq, Eq)]
pub enum Command {
    Replay,
    Inspect,
    Pack(Kind),
}

/// The command of the words, if they are those of one that is served.
pub fn command_in(words: &[String]) -> Option<Command>
    ensures { result ≡ command_of (map string_bytes words.now) }
{
    match words {
        [word] => plain(word.as_str()),
        [word, kind] if word.as_str() == "pack" => Some(Command::Pack(packed_kind(kind.as_str())?)),
        _ => None,
    }
}

fn plain(word: &str) -> Option<Command>
    ensures { result ≡ plain_command word.now }
{
    if word == "replay" {
        Some(Command::Replay)
    } else if word == "inspect" {
        Some(Command::Inspect)
    } else {
        None
    }
}

fn packed_kind(word: &str) -> Option<Kind>
    ensures { result ≡ kind_of word.now }
{
    if word == "package" {
        Some(Kind::Package)
    } else if word == "vehicle" {
        Some(Kind::Vehicle)
    } else if word == "script" {
        Some(Kind::Script)
    } else {
        None
    }
}
