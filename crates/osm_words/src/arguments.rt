//! The arguments of commands, as `clap` is told of them.

ghost use Rattle.std.specs.Prelude.{◌≡◌, All, IfOk, false, map};
ghost use Rattle.clap.specs.Words.{app_of, rule_of};
ghost use Rattle.osm_words.specs.Arguments.{app_of_all, flag_rule, long_flag_rule, long_option_rule, option_rule, positional_rule};
ghost use Rattle.osm_words.specs.Told.{rule_told};

use clap::{Arg, ArgAction, Command};
use std::alloc::{AllocError as OutOfMemory, Global};

/// An argument of a command: its name, and of an option its letter and its long form.
///
/// An option without a letter is written by its name.
#[derive(Clone, Copy)]
pub(crate) enum Argument {
    /// An option with one value.
    Valued(&'static str, char, &'static str),
    /// An option with one value and without a letter.
    LongValued(&'static str),
    /// An option without a value.
    Flag(&'static str, char, &'static str),
    /// An option without a value and without a letter.
    LongFlag(&'static str),
    /// A word that is no option and has to be there.
    Positional(&'static str),
}

/// An option with one value.
fn option<'a>(alloc: Global, name: &'a str, letter: char, long: &'a str) -> Arg<'a>
    ensures rule { rule_of result ≡ option_rule name.now letter long.now }
    ensures local { result.global ≡ false }
{
    Arg::new(alloc, name)
        .short(letter)
        .long(long)
        .action(ArgAction::Set)
}

/// An option with one value and without a short form, which is written by its name.
fn long_option<'a>(alloc: Global, name: &'a str) -> Arg<'a>
    ensures rule { rule_of result ≡ long_option_rule name.now }
    ensures local { result.global ≡ false }
{
    Arg::new(alloc, name).long(name).action(ArgAction::Set)
}

/// An option without a value.
fn flag<'a>(alloc: Global, name: &'a str, letter: char, long: &'a str) -> Arg<'a>
    ensures rule { rule_of result ≡ flag_rule name.now letter long.now }
    ensures local { result.global ≡ false }
{
    Arg::new(alloc, name)
        .short(letter)
        .long(long)
        .action(ArgAction::SetTrue)
}

/// An option without a value and without a short form, which is written by its name.
fn long_flag<'a>(alloc: Global, name: &'a str) -> Arg<'a>
    ensures rule { rule_of result ≡ long_flag_rule name.now }
    ensures local { result.global ≡ false }
{
    Arg::new(alloc, name).long(name).action(ArgAction::SetTrue)
}

/// A word that is no option and has to be there. Such words come in the order in which `clap` is told of them.
pub(crate) fn positional<'a>(alloc: Global, name: &'a str) -> Arg<'a>
    ensures rule { rule_of result ≡ positional_rule name.now }
    ensures local { result.global ≡ false }
{
    Arg::new(alloc, name).required(true).action(ArgAction::Set)
}

/// An argument as `clap` has it.
fn clap_argument<'a>(alloc: Global, of: Argument) -> Arg<'a>
    ensures rule { rule_of result ≡ rule_told of }
    ensures local { result.global ≡ false }
{
    match of {
        Argument::Valued(name, letter, long) => option(alloc, name, letter, long),
        Argument::LongValued(name) => long_option(alloc, name),
        Argument::Flag(name, letter, long) => flag(alloc, name, letter, long),
        Argument::LongFlag(name) => long_flag(alloc, name),
        Argument::Positional(name) => positional(alloc, name),
    }
}

/// Arguments, in order.
pub(crate) fn arguments_of<'a>(alloc: Global, all: &[Argument]) -> Result<Vec<Arg<'a>>, OutOfMemory>
    ensures rules { IfOk result (λ v. map (λ (a : Arg). rule_of a) v.items
        ≡ map rule_told all.now) }
    ensures local { IfOk result (λ v. All (λ (a : Arg). a.global ≡ false) v.items) }
{
    let mut arguments = Vec::with_capacity(alloc, all.len())?;
    for &of in all {
        arguments.push(clap_argument(alloc, of))?;
    }
    Ok(arguments)
}

/// The command of this name that takes these arguments. `-h` and `--help` are words like any other that it doesn't know.
pub(crate) fn command_with<'a>(
    alloc: Global,
    name: &'a str,
    arguments: Vec<Arg<'a>>,
) -> Result<Command<'a>, OutOfMemory>
    requires { All (λ (a : Arg). a.global ≡ false) arguments.items }
    ensures { IfOk result (λ command. app_of command
        ≡ app_of_all name.now (map (λ (a : Arg). rule_of a) arguments.entry.items)) }
{
    let command = Command::new(alloc, name).args(arguments)?;
    Ok(command.disable_help_flag(true))
}
