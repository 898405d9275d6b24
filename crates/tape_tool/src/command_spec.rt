//! Tables of commands and their arguments.
ghost use Rattle.tape_tool.specs.Words.{IsMistake};

use crate::help;
use crate::shown::Shown;
use clap::builder::ValueParser;
use clap::error::ErrorKind;
use clap::{Arg, ArgAction, ArgMatches, Command, Error};
use std::alloc::{AllocError, Global};

/// The description of a command: its texts, and its arguments.
pub struct CommandSpec {
    pub name: &'static str,
    pub about: &'static str,
    /// The text that the long help prints after the arguments.
    pub after_help: &'static str,
    pub words: &'static [Word],
}

/// An argument or an option of a command: its name, its value, and its help.
pub struct Word(pub &'static str, pub Kind, pub &'static str);

/// The kind of an argument or an option: its value.
#[derive(Clone, Copy)]
pub enum Kind {
    /// A required text.
    Text,
    /// A required number between the two bounds.
    Number(u64, u64),
    /// One or more texts.
    Texts,
    /// Any number of images, also none, and the options for a list of further names.
    Images,
    /// The same, so that a second text gets an error message of its own. Contains the usage line.
    AtMostOne(&'static str),
    /// An option without a value.
    Flag,
    /// An option with a text, for which help shows this name.
    TextOption(&'static str),
    /// The same, which may be repeated.
    TextOptions(&'static str),
    /// An option with a number up to this maximum, and its default.
    NumberOption(u64, &'static [&'static str]),
    /// An option with one of several values: the name that help shows, the values, and the default.
    NameOption(&'static str, &'static [&'static str], &'static [&'static str]),
}

/// The options for a list of names.
const LIST: &Word = &Word("files-from", Kind::TextOption("LIST"), help::FROM);

const NULL: &Word = &Word("null", Kind::Flag, help::NULL);

/// Returns the parser's command for `spec`, with its arguments.
pub fn command_of<'a>(alloc: Global, spec: &CommandSpec) -> Result<Command<'a>, AllocError> {
    let name = spec.name;
    // The name in the usage line.
    let called = match name {
        "tape" => String::from_str(alloc, name)?,
        _ => format!(in alloc; "tape {name}")?,
    };
    let mut command = Command::new(alloc, name)
        .about(spec.about)
        .after_long_help(spec.after_help)
        .bin_name(called.as_str())?;
    for word in spec.words {
        command = command.arg(argument(alloc, word)?)?;
        match word.1 {
            Kind::AtMostOne(usage) => command = command.override_usage(usage),
            Kind::Images => {
                let null = argument(alloc, NULL)?.requires_arg("files-from")?;
                command = command.arg(argument(alloc, LIST)?)?.arg(null)?;
            }
            _ => {}
        }
    }
    Ok(command)
}

/// Returns the parser's argument for an argument or an option.
fn argument<'a>(alloc: Global, word: &Word) -> Result<Arg<'a>, AllocError> {
    let Word(name, kind, help) = word;
    let arg = Arg::new(alloc, *name).help(*help);
    Ok(match *kind {
        Kind::Text | Kind::Number(_, _) => arg.required(true),
        Kind::Texts => arg.required(true).num_args(1..),
        Kind::Images | Kind::AtMostOne(_) => arg.num_args(..),
        Kind::Flag => arg.long(*name).action(ArgAction::SetTrue),
        Kind::TextOption(value) => arg.long(*name).value_name(value),
        Kind::TextOptions(value) => { arg.long(*name).value_name(value).action(ArgAction::Append) }
        Kind::NumberOption(_, default) => {
            arg.long(*name).value_name("N").default_values(default)
        }
        Kind::NameOption(value, names, default) => {
            arg.long(*name)
                .value_name(value)
                .hide_possible_values(true)
                .value_parser(ValueParser::Names(names))
                .default_values(default)
        }
    })
}

/// Checks that each number among the arguments `words` of a command is one, within its bounds.
///
/// # Errors
///
/// Returns a usage error that names the value and the bounds.
pub fn check_numbers(
    alloc: Global,
    spec: &CommandSpec,
    words: &ArgMatches<'_>,
) -> Result<(), Error> {
    for word in spec.words {
        let Word(name, kind, _) = word;
        let (dashes, least, most) = match *kind {
            Kind::Number(least, most) => ("", least, most),
            Kind::NumberOption(most, _) => ("--", 0, most),
            _ => continue,
        };
        if let Some(text) = words.get_str(*name) {
            let number = text.parse::<u64>();
            if !number.is_ok_and(|number| least <= number && number <= most) {
                let bounds = format!(in alloc;
                    "{dashes}{name} must be a number from {least} to {most}"
                )?;
                return Err(wrong_value(alloc, spec, text, bounds.as_str()));
            }
        }
    }
    Ok(())
}

/// Returns a usage error of the command, whose usage line follows `text`. If that cannot be
/// allocated, returns the error for out of memory.
pub fn mistake(alloc: Global, spec: &CommandSpec, text: &str) -> Error
    ensures { IsMistake result }
{
    let mut command = match command_of(alloc, spec) {
        Ok(command) => command,
        Err(error) => return Error::from(error),
    };
    match command.error(ErrorKind::ValueValidation, text) {
        Ok(error) => error,
        Err(error) => Error::from(error),
    }
}

/// Returns the usage error for `value`, which is not accepted; the message shows `value` before
/// `text`.
pub fn wrong_value(alloc: Global, spec: &CommandSpec, value: &str, text: &str) -> Error
    ensures { IsMistake result }
{
    match format!(in alloc; "invalid value \"{}\": {text}", Shown(value)) {
        Ok(text) => mistake(alloc, spec, text.as_str()),
        Err(_) => Error::from(AllocError),
    }
}
