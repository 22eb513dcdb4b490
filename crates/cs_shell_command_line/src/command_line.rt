//! The command line as `clap` reads it.
ghost use Rattle.std.specs.Prelude.{◌≡◌, IfOk, false};
ghost use Rattle.clap.specs.Words.{app_of, rule_of};
ghost use Rattle.cs_shell_command_line.specs.Words.{command_app, choice_rule, flag_rule, operand_rule, rest_rule};

use clap::{Arg, ArgAction, Command};
use std::alloc::{AllocError, Global};

/// An option that has a choice, which is `abort` where it is not given.
fn choice_option<'a>(alloc: Global, name: &'a str) -> Arg<'a>
    ensures rule { rule_of result ≡ choice_rule name.now }
    ensures local { result.global ≡ false }
{
    Arg::new(alloc, name).long(name).default_value("abort")
}

/// An option that takes no word.
fn flag<'a>(alloc: Global, name: &'a str) -> Arg<'a>
    ensures rule { rule_of result ≡ flag_rule name.now }
    ensures local { result.global ≡ false }
{
    Arg::new(alloc, name).long(name).action(ArgAction::SetTrue)
}

/// An operand that has to be there.
fn operand<'a>(alloc: Global, name: &'a str) -> Arg<'a>
    ensures rule { rule_of result ≡ operand_rule name.now }
    ensures local { result.global ≡ false }
{
    Arg::new(alloc, name).required(true)
}

/// The operands after those, any number.
fn other_operands<'a>(alloc: Global) -> Arg<'a>
    ensures rule { rule_of result ≡ rest_rule }
    ensures local { result.global ≡ false }
{
    Arg::new(alloc, "ARG").num_args(0..)
}

/// The options, and the operands: a file, a command and that one's arguments.
pub(crate) fn command_line<'a>(alloc: Global) -> Result<Command<'a>, AllocError>
    ensures { IfOk result (λ command. app_of command ≡ command_app) }
{
    Command::new(alloc, "changeset")
        .arg(choice_option(alloc, "data"))?
        .arg(choice_option(alloc, "notfound"))?
        .arg(choice_option(alloc, "conflict"))?
        .arg(choice_option(alloc, "constraint"))?
        .arg(flag(alloc, "ignore-noop"))?
        .arg(operand(alloc, "FILE"))?
        .arg(operand(alloc, "COMMAND"))?
        .arg(other_operands(alloc))
}
