//! Tests of `tape_run`: sessions, catalogues and engines over images that are written out from
//! their format.
#![tactic(auto)]

#[cfg(test)]
mod answers;
#[cfg(test)]
mod catalogue;
#[cfg(test)]
mod check;
#[cfg(test)]
mod check_faults;
#[cfg(test)]
mod containers;
#[cfg(test)]
mod contrary;
#[cfg(test)]
mod copies;
#[cfg(test)]
mod counted;
#[cfg(test)]
mod cuts;
#[cfg(test)]
mod devices;
#[cfg(test)]
mod extract;
#[cfg(test)]
mod image;
#[cfg(test)]
mod joined;
#[cfg(test)]
mod let_go;
#[cfg(test)]
mod list_faults;
#[cfg(test)]
mod listed_labels;
#[cfg(test)]
mod listing;
#[cfg(test)]
mod located;
#[cfg(test)]
mod long;
#[cfg(test)]
mod now;
#[cfg(test)]
mod order;
#[cfg(test)]
mod overlap;
#[cfg(test)]
mod placed;
#[cfg(test)]
mod points;
#[cfg(test)]
mod readers;
#[cfg(test)]
mod refusals;
#[cfg(test)]
mod rounds;
#[cfg(test)]
mod salvaged;
#[cfg(test)]
mod salvaged_ends;
#[cfg(test)]
mod salvaged_formats;
#[cfg(test)]
mod salvaged_labels;
#[cfg(test)]
mod scripts;
#[cfg(test)]
mod sections;
#[cfg(test)]
mod sessions;
#[cfg(test)]
mod survey;
#[cfg(test)]
mod survey_copies;
#[cfg(test)]
mod survey_ends;
#[cfg(test)]
mod survey_fits;
#[cfg(test)]
mod survey_list;
#[cfg(test)]
mod survey_mixed;
#[cfg(test)]
mod survey_onward;
#[cfg(test)]
mod survey_rows;
#[cfg(test)]
mod survey_tasks;
#[cfg(test)]
mod survey_versions;
#[cfg(test)]
mod survey_wide;
#[cfg(test)]
mod taken_back;
#[cfg(test)]
mod unpack;
#[cfg(test)]
mod volumes;
#[cfg(test)]
mod wide;
