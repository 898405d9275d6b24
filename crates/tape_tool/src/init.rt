//! `init`: creates images of volumes without files, in a directory.

use crate::command_spec::{CommandSpec, Kind, Word};
use crate::explain::FaultSite;
use crate::fault::{FileFault, ToolFault};
use crate::help;
use crate::refusal::{Refusal, remove};
use crate::screen::Progress;
use crate::words::{folder_of, prefix_of};
use clap::ArgMatches;
use std::io;
use tape_run::write_text;
use tape_writer::Prefix;
use tape_writer::system::{image_path, make_image};

/// The request to `init`: the directory, the prefix and the number of volumes to create.
#[derive(Clone, Copy)]
pub struct InitOrder<'a> {
    /// The directory of the images.
    pub folder: &'a str,
    /// The first three characters of each volume's identifier.
    pub prefix: Prefix,
    /// The number of volumes, 1 to 999.
    pub count: u16,
}

pub const INIT: &CommandSpec = &CommandSpec {
    name: "init",
    about: help::ABOUT_INIT,
    after_help: help::AFTER_INIT,
    words: &[
        Word("DIR", Kind::Text, help::FOLDER),
        Word("PRE", Kind::Text, help::PREFIX),
        Word("COUNT", Kind::Number(1, 999), help::COUNT),
    ],
};

pub fn init_order<'a>(matches: &ArgMatches<'a>) -> Result<InitOrder<'a>, Refusal> {
    Ok(InitOrder {
        folder: folder_of(matches)?,
        prefix: prefix_of(matches)?,
        count: matches.get_one::<u16>("COUNT").unwrap_or(0),
    })
}

/// Creates the images one by one, and prints their number. An image that could not be written
/// completely is removed. On error, `site` says where it occurred.
pub fn init<'a, R: Progress>(
    rt: &R,
    order: &InitOrder<'a>,
    site: &mut FaultSite<'a>,
) -> Result<(), ToolFault> {
    for number in 1..=order.count {
        *site = FaultSite::Volume(order.folder, order.prefix, number);
        let path = image_path(rt.alloc(), order.folder, order.prefix, number)?;
        match make_image(rt.host(), path.as_str(), order.prefix, number) {
            Ok(()) => {}
            Err(fault) => {
                // Only then was it created by this run.
                if fault == FileFault::WriteFailed {
                    remove(rt, path.as_str());
                }
                return Err(ToolFault::from(fault));
            }
        }
    }
    *site = FaultSite::Lines;
    let line = format!(in rt.alloc(); "INIT {}\n", order.count)?;
    Ok(write_text(&mut io::writer(rt), line.as_bytes())?)
}
