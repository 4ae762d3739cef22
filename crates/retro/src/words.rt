//! The words of a call.

ghost use Rattle.std.specs.Prelude.{◌≡◌, MatchOption, IfSome, Some, None};
ghost use Rattle.retro.specs.Call.{texts};
ghost use Rattle.retro.specs.Words.{blocks_of, command_of, is_name, mode_in, mode_of, name_in, rewrite_of};
ghost use Rattle.retro.specs.Asked.{asked};

use rw_probe::Mode;

/// What the words ask for.
#[derive(Clone, Copy)]
pub enum Command<'a> {
    /// The text of the file of this name, with probes at the leaders of a mode.
    Rewrite(Mode, &'a str),
    /// The leaders of the file of this name, with their probes.
    Blocks(&'a str),
}

impl<'a> Command<'a> {
    /// The name of its file.
    pub fn name(self) -> &'a str
        ensures { result.now ≡ name_in (asked self.entry) }
    {
        match self {
            Command::Rewrite(_, name) => name,
            Command::Blocks(name) => name,
        }
    }

    /// The mode of its leaders.
    pub fn mode(self) -> Mode
        ensures { result ≡ mode_in (asked self.entry) }
    {
        match self {
            Command::Rewrite(mode, _) => mode,
            Command::Blocks(_) => Mode::Blocks,
        }
    }
}

/// Whether a word is a name of a file: it isn't empty and doesn't begin with a dash, as an option does.
fn is_name(word: &str) -> bool
    ensures { result ≡ is_name word.now }
{
    !matches!(word.as_bytes(), [] | [b'-', ..])
}

/// The option that says at which leaders probes stand.
fn mode_of(word: &str) -> Option<Mode>
    ensures { result ≡ mode_of word.now }
{
    match word {
        "--probes=none" => Some(Mode::Nothing),
        "--probes=functions" => Some(Mode::Starts),
        "--probes=blocks" => Some(Mode::Blocks),
        _ => None,
    }
}

/// The words behind `rewrite`.
fn rewrite_command(words: &[String]) -> Option<Command>
    ensures { MatchOption result (rewrite_of (texts words.now) ≡ None) (λ command. rewrite_of (texts words.now) ≡ Some (asked command)) }
{
    let (mode, name) = match words {
        [name] => (Mode::Nothing, name.as_str()),
        [option, name] => (mode_of(option.as_str())?, name.as_str()),
        _ => return None,
    };
    if is_name(name) {
        Some(Command::Rewrite(mode, name))
    } else {
        None
    }
}

/// The words behind `blocks`.
fn blocks_command(words: &[String]) -> Option<Command>
    ensures { MatchOption result (blocks_of (texts words.now) ≡ None) (λ command. blocks_of (texts words.now) ≡ Some (asked command)) }
{
    match words {
        [name] if is_name(name.as_str()) => Some(Command::Blocks(name.as_str())),
        _ => None,
    }
}

/// What the words ask for; `None` exactly where they aren't understood.
pub fn command_of(words: &[String]) -> Option<Command>
    ensures { MatchOption result (command_of (texts words.now) ≡ None) (λ command. command_of (texts words.now) ≡ Some (asked command)) }
{
    match words {
        [] => None,
        [first, rest @ ..] => match first.as_str() {
            "rewrite" => rewrite_command(rest),
            "blocks" => blocks_command(rest),
            _ => None,
        },
    }
}
