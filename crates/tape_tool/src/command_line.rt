//! The parser of command lines.

ghost use Rattle.tape_tool.specs.Words.{IsMistake};

use crate::check::{CHECK, SURVEY, SurveyForm, survey_form};
use crate::command_spec::{CommandSpec, check_numbers, command_of, mistake, wrong_value};
use crate::convert::{CONVERT, ConvertOrder, convert_order};
use crate::extract::{EXTRACT, ExtractOrder, extract_order};
use crate::help;
use crate::init::{INIT, InitOrder, init_order};
use crate::list::{LIST, ListOrder, list_order};
use crate::merge::{COMPARE, MERGE, MergeOrder, compare_order, merge_order};
use crate::names::Named;
use crate::refusal::Refusal;
use crate::relabel::{Relabels, relabels_of};
use crate::salvage::{SALVAGE, SalvageOrder, salvage_order};
use crate::show::{SHOW, ShowOrder, show_order};
use crate::shown::Shown;
use crate::stage::{STAGE, StageOrder, stage_order};
use crate::unpack::{UNPACK, UnpackOrder, unpack_order};
use crate::words::{named_once, text_of};
use crate::write::words::{WRITE, WriteOrder, write_order};
use clap::error::ErrorKind;
use clap::{Arg, ArgAction, ArgMatches, Command, Error};
use std::alloc::{AllocError, Global};

/// The version of the program.
pub const VERSION: &str = "0.1.0";

/// The program. The usage line shows the name that users know, whatever the file is called.
const TAPE: &CommandSpec = &CommandSpec {
    name: "tape",
    about: help::ABOUT,
    after_help: help::AFTER,
    words: &[],
};

/// A parsed command line.
#[derive(Drop)]
pub struct Call<'a> {
    /// The request.
    pub order: Order<'a>,
    /// The description of its command.
    pub spec: &'static CommandSpec,
    /// Whether errors are to be explained, if the command line says it.
    pub explained: Option<bool>,
}

/// A command with its arguments.
#[derive(Drop)]
pub enum Order<'a> {
    /// `list`.
    List(ListOrder<'a>),
    /// `show`.
    Show(ShowOrder<'a>),
    /// `init`.
    Init(InitOrder<'a>),
    /// `survey` in this form if there is one, with the labels that are requested, and otherwise
    /// `check`.
    Check(Named<'a>, Option<SurveyForm>, Relabels),
    /// `write`.
    Write(WriteOrder<'a>),
    /// `extract`.
    Extract(ExtractOrder<'a>),
    /// `unpack`.
    Unpack(UnpackOrder<'a>),
    /// `salvage`.
    Salvage(SalvageOrder<'a>),
    /// `stage`.
    Stage(StageOrder<'a>),
    /// `merge`, or `compare` without an output.
    Merge(MergeOrder<'a>),
    /// `convert`.
    Convert(ConvertOrder<'a>),
}

/// Returns the request in the arguments `words`, the first of which is the program's name.
///
/// # Errors
///
/// Returns the error of the parser, with its text: a usage error, a request for help or for the
/// version, or `OutOfMemory`.
pub fn call_of<'a>(alloc: Global, words: &'a [String]) -> Result<Call<'a>, Error> {
    let matches = match command(alloc)?.try_get_matches_from(words) {
        Ok(matches) => matches,
        Err(error) if error.kind() == ErrorKind::OutOfMemory => return Err(error),
        Err(_) => return Err(shown_error(alloc, words)?),
    };
    call_in(alloc, &matches)
}

/// Returns the error of the parser, whose message contains the arguments as they are printed. The
/// parser refuses these for the same reason, since none of its names has a character that is
/// printed differently.
fn shown_error(alloc: Global, words: &[String]) -> Result<Error, AllocError> {
    let mut shown = Vec::new(alloc);
    for word in words {
        shown.push(format!(in alloc; "{}", Shown(word.as_str()))?)?;
    }
    match command(alloc)?.try_get_matches_from(shown.as_slice()) {
        Ok(_) => command(alloc)?.error(ErrorKind::ValueValidation, help::REFUSED),
        Err(error) => Ok(error),
    }
}

/// Returns the request in parsed arguments.
fn call_in<'a>(alloc: Global, matches: &ArgMatches<'a>) -> Result<Call<'a>, Error> {
    // The parser guarantees that the arguments name one of the commands.
    let Some((name, words)) = matches.subcommand() else {
        return Err(mistake(alloc, TAPE, help::NO_COMMAND));
    };
    let spec = spec_of(name);
    check_numbers(alloc, spec, words)?;
    match order_of(alloc, name, words) {
        Ok(order) => Ok(Call {
            order,
            spec,
            explained: if matches.get_flag("no-explain") {
                Some(false)
            } else {
                matches.get_flag("explain").then_some(true)
            },
        }),
        Err(refusal) => {
            let value = match refusal {
                Refusal::Value(word, _) => text_of(words, word),
                _ => "",
            };
            Err(error_in(alloc, spec, value, refusal))
        }
    }
}

/// The program with its commands and their arguments.
fn command<'a>(alloc: Global) -> Result<Command<'a>, AllocError> {
    let mut tape = command_of(alloc, TAPE)?
        .version(VERSION)
        .subcommand_required(true)
        .arg(flag(alloc, "explain", help::EXPLAIN))?
        .arg(flag(alloc, "no-explain", help::NO_EXPLAIN))?;
    let commands = [
        LIST, SHOW, CHECK, SURVEY, COMPARE, MERGE, CONVERT, EXTRACT, UNPACK, SALVAGE, STAGE, INIT,
        WRITE,
    ];
    for spec in &commands {
        tape = tape.subcommand(command_of(alloc, *spec)?)?;
    }
    Ok(tape)
}

/// Returns a flag that each command has.
fn flag<'a>(alloc: Global, name: &'static str, text: &'static str) -> Arg<'a> {
    Arg::new(alloc, name)
        .long(name)
        .action(ArgAction::SetTrue)
        .global(true)
        .help(text)
}

/// Returns the usage error of a command for the reason `refusal`, which may be that an argument has
/// the value `value`. If memory ran out, returns the error for that.
pub fn error_in(alloc: Global, spec: &CommandSpec, value: &str, refusal: Refusal) -> Error
    ensures { IsMistake result }
{
    match refusal {
        Refusal::Words(text) => mistake(alloc, spec, text),
        Refusal::Value(_, text) => wrong_value(alloc, spec, value, text),
        Refusal::NoText(null, number) => {
            let what = if null { "name" } else { "line" };
            match format!(in alloc; "{what} {number} {}", help::NO_TEXT_IN_LIST) {
                Ok(text) => mistake(alloc, spec, text.as_str()),
                Err(_) => Error::from(AllocError),
            }
        }
        Refusal::Faulted(_) => Error::from(AllocError),
    }
}

/// Returns the description of command `name`, or that of the program if no command has it.
fn spec_of(name: &str) -> &'static CommandSpec {
    match name {
        "list" => LIST,
        "show" => SHOW,
        "check" => CHECK,
        "survey" => SURVEY,
        "extract" => EXTRACT,
        "unpack" => UNPACK,
        "salvage" => SALVAGE,
        "stage" => STAGE,
        "init" => INIT,
        "write" => WRITE,
        "merge" => MERGE,
        "compare" => COMPARE,
        "convert" => CONVERT,
        _ => TAPE,
    }
}

/// Returns the request to command `name` in its arguments. The parser has checked that all required
/// ones are present.
fn order_of<'a>(alloc: Global, name: &str, words: &ArgMatches<'a>) -> Result<Order<'a>, Refusal> {
    Ok(match name {
        "list" => Order::List(list_order(words)?),
        "show" => Order::Show(show_order(words)?),
        "check" => {
            let images = named_once(alloc, words, help::TOO_MANY_TO_CHECK)?;
            Order::Check(images, None, Relabels::none(alloc))
        }
        "survey" => {
            let form = survey_form(words)?;
            Order::Check(
                named_once(alloc, words, help::TOO_MANY_TO_SURVEY)?,
                Some(form),
                relabels_of(alloc, words)?,
            )
        }
        "extract" => Order::Extract(extract_order(alloc, words)?),
        "unpack" => Order::Unpack(unpack_order(alloc, words)?),
        "salvage" => Order::Salvage(salvage_order(alloc, words)?),
        "stage" => Order::Stage(stage_order(words)?),
        "init" => Order::Init(init_order(words)?),
        "write" => Order::Write(write_order(alloc, words)?),
        "merge" => Order::Merge(merge_order(alloc, words)?),
        "compare" => Order::Merge(compare_order(alloc, words)?),
        "convert" => Order::Convert(convert_order(words)?),
        _ => return Err(Refusal::Words(help::NO_COMMAND)),
    })
}
