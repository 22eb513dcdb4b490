//! What the words that `clap` matched ask for.
ghost use Rattle.std.specs.Prelude.{◌≡◌, IfOk, IfErr, map as map_list, option_map, string_bytes};
ghost use Rattle.clap.specs.Words.{first_of, found_of, rows_of};
ghost use Rattle.cs_shell_command_line.specs.Words.{asked, asked_by, asked_of, Refuses};
ghost use Rattle.cs_shell_command_line.specs.Words.{choice_in, chosen, noop_in, policy_in};
ghost use Rattle.cs_shell_command_line.specs.Words.{bare_in, short_in, long_in, command_in};

use crate::action::{Action, IN_MEMORY};
use crate::command_line::command_line;
use crate::fault::WordsFault;
use clap::ArgMatches;
use cs_apply_conflict_kinds::Noop;
use cs_apply_engine::{Choice, Policy};
use cs_shell_grammar::choice_name;
use std::alloc::Global;

/// What the words of a command line ask for, the program's name first. The name only asks for a script on a
/// store in memory.
///
/// Options may be before, between and after the operands, as `--data C` or `--data=C`, and as `--ignore-noop`,
/// which takes no word, each once; what follows `--` is an operand. Options have no effect on other commands than
/// `apply`, but their choices have to be some.
///
/// # Errors
///
/// [`Help`](WordsFault::Help) where the words ask for help, by `--help` or `-h`; [`Usage`](WordsFault::Usage) where
/// they fit no command; [`NoMemory`](WordsFault::NoMemory) where memory is refused.
pub fn parse_words<'a>(alloc: Global, words: &'a [String]) -> Result<Action<'a>, WordsFault>
    ensures asked { IfOk result (λ action. asked (map_list string_bytes words.now) ≡ Some (asked_of action)) }
    ensures refused { IfErr result (Refuses (map_list string_bytes words.now)) }
{
    if words.len() <= 1 {
        return Ok(Action::Shell { file: IN_MEMORY });
    }
    let matches = command_line(alloc)?.try_get_matches_from(words)?;
    match action_of(&matches) {
        Some(action) => Ok(action),
        None => Err(WordsFault::Usage),
    }
}

/// What matched words ask for, or None where they fit no command.
fn action_of<'a>(matches: &ArgMatches<'a>) -> Option<Action<'a>>
    ensures { option_map asked_of result ≡ asked_by (rows_of (found_of matches.now)) }
{
    let policy = policy_of(matches)?;
    let noop = noop_of(matches);
    let file = word_of(matches, "FILE")?;
    let name = word_of(matches, "COMMAND")?;
    match matches.get_strs("ARG") {
        Some(arguments) => command_of(policy, noop, file, name, arguments),
        None => bare_command(file, name),
    }
}

/// The word that an option or an operand has, if it has one.
fn word_of<'a>(matches: &ArgMatches<'a>, name: &str) -> Option<&'a str>
    ensures { option_map (λ word. word.now) result ≡ first_of name.now (rows_of (found_of matches.now)) }
{
    matches.get_str(name)
}

/// What is done about conflicts, or None where an option has something else than a choice.
fn policy_of(matches: &ArgMatches<'_>) -> Option<Policy>
    ensures { result ≡ policy_in (rows_of (found_of matches.now)) }
{
    Some(Policy {
        on_data: choice_of(matches, "data")?,
        on_notfound: choice_of(matches, "notfound")?,
        on_conflict: choice_of(matches, "conflict")?,
        on_constraint: choice_of(matches, "constraint")?,
    })
}

/// What is done about an entry that meets a conflict and would change nothing.
fn noop_of(matches: &ArgMatches<'_>) -> Noop
    ensures { result ≡ noop_in (rows_of (found_of matches.now)) }
{
    match word_of(matches, "ignore-noop") {
        Some("true") => Noop::Ignore,
        _ => Noop::Report,
    }
}

/// The choice that an option has, or None where that is none.
fn choice_of(matches: &ArgMatches<'_>, option: &str) -> Option<Choice>
    ensures { result ≡ choice_in (rows_of (found_of matches.now)) option.now }
{
    choice_named(word_of(matches, option)?)
}

/// The choice of a name, or None where that is none.
fn choice_named(name: &str) -> Option<Choice>
    ensures { result ≡ chosen name.now }
{
    if name == choice_name(Choice::Omit) {
        return Some(Choice::Omit);
    }
    if name == choice_name(Choice::Replace) {
        return Some(Choice::Replace);
    }
    (name == choice_name(Choice::Abort)).then_some(Choice::Abort)
}

/// What a command's name and its arguments ask for, or None where they fit no command.
fn command_of<'a>(
    policy: Policy,
    noop: Noop,
    file: &'a str,
    name: &str,
    arguments: &[&'a str],
) -> Option<Action<'a>>
    ensures { option_map asked_of result
        ≡ command_in policy noop file.now name.now (map_list (λ word. word.now) arguments.now) }
{
    match *arguments {
        [] => bare_command(file, name),
        [argument] => short_command(policy, noop, file, name, argument),
        [second, out] => long_command(file, name, second, out),
        _ => None,
    }
}

/// What the name of a command without arguments asks for.
fn bare_command<'a>(file: &'a str, name: &str) -> Option<Action<'a>>
    ensures { option_map asked_of result ≡ bare_in file.now name.now }
{
    match name {
        "dump" => Some(Action::Dump { file }),
        "sql" => Some(Action::Sql { file }),
        "shell" => Some(Action::Shell { file }),
        _ => None,
    }
}

/// What the name of a command with one argument asks for.
fn short_command<'a>(
    policy: Policy,
    noop: Noop,
    file: &'a str,
    name: &str,
    argument: &'a str,
) -> Option<Action<'a>>
    ensures { option_map asked_of result ≡ short_in policy noop file.now name.now argument.now }
{
    match name {
        "apply" => Some(Action::Apply {
            file,
            store: argument,
            policy,
            noop,
        }),
        "invert" => Some(Action::Invert {
            file,
            out: argument,
        }),
        _ => None,
    }
}

/// What the name of a command with two arguments asks for.
fn long_command<'a>(file: &'a str, name: &str, second: &'a str, out: &'a str) -> Option<Action<'a>>
    ensures { option_map asked_of result ≡ long_in file.now name.now second.now out.now }
{
    (name == "concat").then_some(Action::Concat { file, second, out })
}
