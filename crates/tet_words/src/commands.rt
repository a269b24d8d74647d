//! The commands and their options.

ghost use Rattle.std.specs.Prelude.{◌≡◌};
ghost use Rattle.tet_words.specs.Commands.{command_of, key_of, option_of, takes};

#[derive(Clone, Copy, Debug, PartialEq, Eq)]
pub enum Command {
    Mesh,
    Check,
    Demo,
}

/// An option, which has a value.
#[derive(Clone, Copy, Debug, PartialEq, Eq)]
pub enum Key {
    Epsilon,
    Cells,
    Budget,
    Digits,
    Kept,
}

/// The command of that name.
pub fn command_of(word: &str) -> Option<Command>
    ensures { result ≡ command_of word.now }
{
    match word {
        "mesh" => Some(Command::Mesh),
        "check" => Some(Command::Check),
        "demo" => Some(Command::Demo),
        _ => None,
    }
}

fn key_of(word: &str) -> Option<Key>
    ensures { result ≡ key_of word.now }
{
    match word {
        "--epsilon" => Some(Key::Epsilon),
        "--cells" => Some(Key::Cells),
        "--budget" => Some(Key::Budget),
        "--digits" => Some(Key::Digits),
        "--kept" => Some(Key::Kept),
        _ => None,
    }
}

fn takes(command: Command, key: Key) -> bool
    ensures { result ≡ takes command key }
{
    match command {
        Command::Mesh => true,
        Command::Check => matches!(key, Key::Digits),
        Command::Demo => false,
    }
}

/// The option of that name, where the command takes it.
pub fn option_of(command: Command, word: &str) -> Option<Key>
    ensures { result ≡ option_of command word.now }
{
    match key_of(word) {
        Some(key) if takes(command, key) => Some(key),
        _ => None,
    }
}
