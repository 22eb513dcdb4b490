//! Dot lines, read word by word.
ghost use Rattle.std.specs.Prelude.{◌≡◌, string_bytes, option_map};
ghost use Rattle.cs_shell_grammar.specs.Commands.{command_of, SessionChangeset};
ghost use Rattle.cs_shell_tokens.specs.Words.{words_of, one_slot_in, no_word_in};
ghost use Rattle.cs_shell_tokens.specs.Reading.{tokens_of};
ghost use Rattle.cs_shell_tokens.specs.Faults.{Reads};
ghost use Rattle.cs_shell_grammar.specs.DotReading.{load_in, digits_in, hex_in, dump_in, revert_in, invert_in, concat_in, apply_in};
ghost use Rattle.cs_shell_grammar.specs.DotReading.{chosen_in, noop_in, setting_in, settings_in, no_settings, attach_in};
ghost use Rattle.cs_shell_grammar.specs.DotReading.{session_in, dot_in};

use crate::command::Command;
use cs_apply_engine::{Choice, Kind, Noop, Policy};
use cs_shell_tokens::{
    Found, Token, TokenError, is_word, misfit_at, next_token, next_word, no_word, one_slot, slot,
    text,
};
use std::alloc::Global;

/// The options that a line sets.
#[derive(Clone, Copy)]
struct Settings {
    on_data: Option<Choice>,
    on_notfound: Option<Choice>,
    on_conflict: Option<Choice>,
    on_constraint: Option<Choice>,
    noop: Option<Noop>,
}

/// Returns the command of a dot line.
#[tactic(auto, unfolding(crate::specs::DotReading::dot_in))]
pub(crate) fn dot_line(alloc: Global, line: &[u8]) -> Result<Command, TokenError>
    ensures { Reads result command_of (dot_in line.now) }
{
    let Some((word, rest)) = next_word(line) else {
        return Err(TokenError::Fault(misfit_at(line)));
    };
    if is_word(word, b".load") {
        load(alloc, rest)
    } else if is_word(word, b".hex") {
        hex(alloc, rest)
    } else if is_word(word, b".dump") {
        dump(alloc, rest)
    } else if is_word(word, b".invert") {
        invert(alloc, rest)
    } else if is_word(word, b".concat") {
        concat(alloc, rest)
    } else if is_word(word, b".apply") {
        apply(alloc, rest)
    } else if is_word(word, b".revert") {
        revert(alloc, rest)
    } else if is_word(word, b".session") {
        session(alloc, rest)
    } else {
        Err(TokenError::Fault(misfit_at(line)))
    }
}

/// What follows `.load`.
#[tactic(auto, unfolding(crate::specs::DotReading::load_in))]
fn load(alloc: Global, line: &[u8]) -> Result<Command, TokenError>
    ensures { Reads result command_of (load_in (words_of line.now)) }
{
    let (slot, rest) = slot(alloc, line)?;
    let digits = digits(alloc, rest)?;
    Ok(Command::Load { slot, digits })
}

/// Returns the last word, or an empty text if there is no word.
#[tactic(auto, unfolding(crate::specs::DotReading::digits_in))]
fn digits(alloc: Global, line: &[u8]) -> Result<String, TokenError>
    ensures { Reads result string_bytes (digits_in (words_of line.now)) }
{
    if next_word(line).is_none() {
        return Ok(String::new(alloc));
    }
    let (digits, rest) = text(alloc, line)?;
    no_word(rest)?;
    Ok(digits)
}

/// What follows `.hex`.
#[tactic(auto, unfolding(crate::specs::DotReading::hex_in))]
fn hex(alloc: Global, line: &[u8]) -> Result<Command, TokenError>
    ensures { Reads result command_of (hex_in (words_of line.now)) }
{
    let slot = one_slot(alloc, line)?;
    Ok(Command::Hex { slot })
}

/// What follows `.dump`.
#[tactic(auto, unfolding(crate::specs::DotReading::dump_in))]
fn dump(alloc: Global, line: &[u8]) -> Result<Command, TokenError>
    ensures { Reads result command_of (dump_in (words_of line.now)) }
{
    let slot = one_slot(alloc, line)?;
    Ok(Command::Dump { slot })
}

/// What follows `.revert`.
#[tactic(auto, unfolding(crate::specs::DotReading::revert_in))]
fn revert(alloc: Global, line: &[u8]) -> Result<Command, TokenError>
    ensures { Reads result command_of (revert_in (words_of line.now)) }
{
    let slot = one_slot(alloc, line)?;
    Ok(Command::Revert { slot })
}

/// What follows `.invert`.
#[tactic(auto, unfolding(crate::specs::DotReading::invert_in))]
fn invert(alloc: Global, line: &[u8]) -> Result<Command, TokenError>
    ensures { Reads result command_of (invert_in (words_of line.now)) }
{
    let (from, rest) = slot(alloc, line)?;
    let into = one_slot(alloc, rest)?;
    Ok(Command::Invert { from, into })
}

/// What follows `.concat`.
#[tactic(auto, unfolding(crate::specs::DotReading::concat_in))]
fn concat(alloc: Global, line: &[u8]) -> Result<Command, TokenError>
    ensures { Reads result command_of (concat_in (words_of line.now)) }
{
    let (first, rest) = slot(alloc, line)?;
    let (second, rest) = slot(alloc, rest)?;
    let into = one_slot(alloc, rest)?;
    Ok(Command::Concat {
        first,
        second,
        into,
    })
}

/// What follows `.apply`.
#[tactic(auto, unfolding(crate::specs::DotReading::apply_in))]
fn apply(alloc: Global, line: &[u8]) -> Result<Command, TokenError>
    ensures { Reads result command_of (apply_in (words_of line.now)) }
{
    let (slot, rest) = slot(alloc, line)?;
    let settings = read_settings(rest)?;
    Ok(Command::Apply {
        slot,
        policy: Policy {
            on_data: settings.on_data.unwrap_or(Choice::Abort),
            on_notfound: settings.on_notfound.unwrap_or(Choice::Abort),
            on_conflict: settings.on_conflict.unwrap_or(Choice::Abort),
            on_constraint: settings.on_constraint.unwrap_or(Choice::Abort),
        },
        noop: settings.noop.unwrap_or(Noop::Report),
    })
}

/// Returns the options that the words of a line set, each at most once.
#[tactic(auto, using(crate::proofs::DotLemmas::settings_go, crate::proofs::DotLemmas::no_setting, crate::proofs::DotLemmas::settings_end))]
fn read_settings(line: &[u8]) -> Result<Settings, TokenError>
    ensures { Reads result (λ s. s) (settings_in no_settings (words_of line.now)) }
{
    let mut settings = Settings {
        on_data: None,
        on_notfound: None,
        on_conflict: None,
        on_constraint: None,
        noop: None,
    };
    let mut rest = line;
    while let Some((word, after)) = next_word(rest) {
        let Some(more) = with_setting(settings, word) else {
            return Err(TokenError::Fault(misfit_at(rest)));
        };
        settings = more;
        rest = after;
    }
    Ok(settings)
}

/// Returns the options with one more word, or None if that word sets no option, or one that is set already.
#[tactic(auto, unfolding(crate::specs::DotReading::setting_in))]
fn with_setting(settings: Settings, word: &[u8]) -> Option<Settings>
    ensures { result ≡ setting_in settings word.now }
{
    if let Some(choice) = chosen(word, Kind::Data) {
        return settings.on_data.is_none().then_some(Settings {
            on_data: Some(choice),
            ..settings
        });
    }
    if let Some(choice) = chosen(word, Kind::NotFound) {
        return settings.on_notfound.is_none().then_some(Settings {
            on_notfound: Some(choice),
            ..settings
        });
    }
    if let Some(choice) = chosen(word, Kind::Conflict) {
        return settings.on_conflict.is_none().then_some(Settings {
            on_conflict: Some(choice),
            ..settings
        });
    }
    if let Some(choice) = chosen(word, Kind::Constraint) {
        return settings.on_constraint.is_none().then_some(Settings {
            on_constraint: Some(choice),
            ..settings
        });
    }
    let noop = chosen_noop(word)?;
    settings.noop.is_none().then_some(Settings {
        noop: Some(noop),
        ..settings
    })
}

/// Returns the choice of a word for a kind of conflict.
fn chosen(word: &[u8], kind: Kind) -> Option<Choice>
    ensures { result ≡ chosen_in kind word.now }
{
    let (omit, replace, abort): (&[u8], &[u8], &[u8]) = match kind {
        Kind::Data => (b"data=omit", b"data=replace", b"data=abort"),
        Kind::NotFound => (b"notfound=omit", b"notfound=replace", b"notfound=abort"),
        Kind::Conflict => (b"conflict=omit", b"conflict=replace", b"conflict=abort"),
        Kind::Constraint => (
            b"constraint=omit",
            b"constraint=replace",
            b"constraint=abort",
        ),
    };
    if is_word(word, omit) {
        Some(Choice::Omit)
    } else if is_word(word, replace) {
        Some(Choice::Replace)
    } else if is_word(word, abort) {
        Some(Choice::Abort)
    } else {
        None
    }
}

/// Returns what a word sets the option `noop` to.
fn chosen_noop(word: &[u8]) -> Option<Noop>
    ensures { result ≡ noop_in word.now }
{
    if is_word(word, b"noop=report") {
        Some(Noop::Report)
    } else if is_word(word, b"noop=ignore") {
        Some(Noop::Ignore)
    } else {
        None
    }
}

/// What follows `.session`.
#[tactic(auto, unfolding(crate::specs::DotReading::session_in))]
fn session(alloc: Global, line: &[u8]) -> Result<Command, TokenError>
    ensures { Reads result command_of (session_in line.now) }
{
    let Some((word, rest)) = next_word(line) else {
        return Err(TokenError::Fault(misfit_at(line)));
    };
    if is_word(word, b"attach") {
        attach(alloc, rest)
    } else if is_word(word, b"changeset") {
        changeset(alloc, rest)
    } else if is_word(word, b"open") {
        bare(Command::SessionOpen, rest)
    } else if is_word(word, b"isempty") {
        bare(Command::SessionIsEmpty, rest)
    } else if is_word(word, b"undo") {
        bare(Command::SessionUndo, rest)
    } else if is_word(word, b"close") {
        bare(Command::SessionClose, rest)
    } else {
        Err(TokenError::Fault(misfit_at(line)))
    }
}

/// What follows `.session changeset`.
fn changeset(alloc: Global, line: &[u8]) -> Result<Command, TokenError>
    ensures { Reads result command_of (option_map SessionChangeset (one_slot_in (words_of line.now))) }
{
    let slot = one_slot(alloc, line)?;
    Ok(Command::SessionChangeset { slot })
}

/// Returns a command, if nothing follows.
fn bare(command: Command, line: &[u8]) -> Result<Command, TokenError>
    ensures { Reads result command_of (option_map (λ _. command_of command) (no_word_in (words_of line.now))) }
{
    no_word(line)?;
    Ok(command)
}

/// What follows `.session attach`: the name of a table.
#[tactic(auto, unfolding(crate::specs::DotReading::attach_in))]
fn attach(alloc: Global, line: &[u8]) -> Result<Command, TokenError>
    ensures { Reads result command_of (attach_in (tokens_of line.now)) }
{
    match next_token(alloc, line)? {
        Found::Token(token, rest) => match token {
            Token::Name(table) => match next_token(alloc, rest)? {
                Found::End => Ok(Command::SessionAttach { table }),
                _ => Err(TokenError::Fault(misfit_at(rest))),
            },
            _ => Err(TokenError::Fault(misfit_at(line))),
        },
        _ => Err(TokenError::Fault(misfit_at(line))),
    }
}
