//! The entries of a command: the texts that clap found under a name.
ghost use Rattle.std.specs.Prelude.{◌≡◌, option_map};
ghost use Rattle.clap.specs.Words.{found_of, rows_of, first_of, subcommand_rows_of};
ghost use Rattle.command_words.specs.Request.{flag_of};

use clap::ArgMatches;

/// The command that was named, with its own entries.
pub(crate) fn command_of<'m, 'a>(
    entries: &'m ArgMatches<'a>,
) -> Option<(&'a str, &'m ArgMatches<'a>)>
    ensures { option_map (λ command. (command.0.now, rows_of (found_of command.1.now))) result ≡ subcommand_rows_of entries.entry.now }
{
    entries.subcommand()
}

/// The text under a name, where there is one.
pub(crate) fn text_of<'a>(entries: &ArgMatches<'a>, name: &str) -> Option<&'a str>
    ensures { option_map (λ text. text.now) result ≡ first_of name.now (rows_of (found_of entries.now)) }
{
    entries.get_str(name)
}

/// Whether a flag is given.
pub(crate) fn has_flag(entries: &ArgMatches<'_>, name: &str) -> bool
    ensures { result ≡ flag_of name.now (rows_of (found_of entries.now)) }
{
    // The clauses of `get_flag` leave open what it answers at texts that a flag never has.
    match text_of(entries, name) {
        Some(text) => text == "true",
        None => false,
    }
}
