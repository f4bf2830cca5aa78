//! What holds of the words of every command.
ghost use Rattle.std.specs.Prelude.{◌≡◌, List};
ghost use Rattle.command_words.specs.Tables.{Text};
ghost use Rattle.command_words.specs.Commands.{Asked, Command};

/// A list of words spells at most one command.
pub fn words_spell_one_command()
    ensures { (words : List Text) (c d : Asked) → Command words c → Command words d → c ≡ d }
{}
