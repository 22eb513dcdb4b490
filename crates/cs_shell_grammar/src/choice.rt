//! The names of the kinds of conflicts and of the choices.
ghost use Rattle.std.specs.Prelude.{◌≡◌};
ghost use Rattle.cs_shell_grammar.specs.Commands.{kind_text, choice_text};

use cs_apply_conflict_kinds::{Choice, Kind};

/// Returns the name of a kind of conflict.
pub fn kind_name(kind: Kind) -> &'static str
    ensures { result.now ≡ kind_text kind }
{
    match kind {
        Kind::Data => "data",
        Kind::NotFound => "notfound",
        Kind::Conflict => "conflict",
        Kind::Constraint => "constraint",
    }
}

/// Returns the name of a choice.
pub fn choice_name(choice: Choice) -> &'static str
    ensures { result.now ≡ choice_text choice }
{
    match choice {
        Choice::Omit => "omit",
        Choice::Replace => "replace",
        Choice::Abort => "abort",
    }
}
