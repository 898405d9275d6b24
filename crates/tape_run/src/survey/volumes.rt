//! The volumes of a set, in the order of its sections.
ghost use Rattle.std.specs.Prelude.{◌≡◌, ◌≤◌, ◌<◌, ◌++◌, IfOk, OnOk, None, false};
ghost use Rattle.tape_run.specs.Lacks.{entry_at};
ghost use Rattle.tape_run.specs.SurveyChain.{link_of, next_first, sections_chain, found_chain};
ghost use Rattle.tape_run.specs.SurveyChain.{file_chain, files_chain, is_same, missing_if};
ghost use Rattle.tape_run.specs.SurveyChain.{items_to, volumes_from, volumes_of};

use super::gaps::is_found;
use super::problems::ends;
use super::view::Findings;
use crate::section::{LAST_SECTION, SectionKey};
use crate::sections::Sections;
use std::alloc::{AllocError, Global};
use tape_label::Field;

/// An entry in the list of a set's volumes.
#[derive(Clone, Copy)]
pub(crate) enum VolumeItem {
    /// A volume on which a section was found.
    Named(Field<6>),
    /// The first volume is missing.
    MissingFirst,
    /// A volume is missing after this one.
    MissingAfter(Field<6>),
}

/// The volume of each section of a set, in order; `None` where sections are missing.
type Chain = Vec<Option<Field<6>>>;

/// Appends the volume of section `key`, if it was found, preceded by `None` if sections from
/// `first` on are missing before it. Returns the number of the first section that may be missing
/// after it, unless this one ends the file.
fn add_section(
    chain: &mut Chain,
    sections: &Sections,
    first: u16,
    key: &SectionKey,
) -> Result<Option<u16>, AllocError>
    requires { key.now.sect < 65535 }
    ensures next { IfOk result (λ next. next
        ≡ next_first first key.now.sect (entry_at sections.now.entries key.now)) }
    ensures chain { IfOk result (λ _. chain.new.items ≡ chain.old.items
        ++ link_of first key.now.sect (entry_at sections.now.entries key.now)) }
{
    let Some(entry) = sections.get(key) else {
        return Ok(Some(first));
    };
    if first < key.sect {
        chain.push(None)?;
    }
    chain.push(Some(entry.volume))?;
    if entry.eof {
        return Ok(None);
    }
    Ok(Some(key.sect + 1))
}

/// Appends the volumes of a file's sections, up to section `most`.
fn add_sections(
    chain: &mut Chain,
    sections: &Sections,
    set_id: Field<6>,
    file: u16,
    most: u16,
) -> Result<(), AllocError>
    requires { most ≤ 9999 }
    ensures { OnOk result (chain.new.items
        ≡ chain.old.items ++ sections_chain sections.now.entries set_id file 1 1 most) }
{
    let mut first = 1;
    for before in 0..most {
        let sect = before + 1;
        let key = SectionKey { set_id, file, sect };
        match add_section(chain, sections, first, &key)? {
            Some(next) => first = next,
            None => return Ok(()),
        }
    }
    let next = SectionKey {
        set_id,
        file,
        sect: first,
    };
    if !ends(sections, &next) {
        chain.push(None)?;
    }
    Ok(())
}

/// Appends the volumes of all sections of a file.
#[tactic(auto, unfolding(crate::specs::SurveyChain::found_chain))]
fn add_found(
    chain: &mut Chain,
    sections: &Sections,
    set_id: Field<6>,
    file: u16,
) -> Result<(), AllocError>
    ensures { OnOk result (chain.new.items
        ≡ chain.old.items ++ found_chain sections.now.entries set_id file) }
{
    add_sections(chain, sections, set_id, file, LAST_SECTION)
}

/// Appends the volumes of file `file`, or `None` if no label of it was found.
fn add_file(
    chain: &mut Chain,
    findings: &Findings,
    set_id: Field<6>,
    file: u16,
) -> Result<(), AllocError>
    ensures { OnOk result (chain.new.items
        ≡ chain.old.items ++ file_chain findings.now set_id file) }
{
    if is_found(findings, set_id, file) {
        return add_found(chain, &findings.sections, set_id, file);
    }
    chain.push(None)?;
    Ok(())
}

/// Returns the chain of a set whose greatest file number is `greatest`.
fn chain_of(findings: &Findings, set_id: Field<6>, greatest: u16) -> Result<Chain, AllocError>
    ensures { IfOk result (λ chain. chain.items ≡ files_chain findings.now set_id 1 greatest) }
{
    let mut chain = Chain::new(findings.alloc);
    for before in 0..greatest {
        add_file(&mut chain, findings, set_id, before + 1)?;
    }
    Ok(chain)
}

/// Returns whether `volume` is the volume `last`.
fn is_same(last: &Option<Field<6>>, volume: &Field<6>) -> bool
    ensures { result ≡ is_same last.now volume.now }
{
    match last {
        Some(last) => last == volume,
        None => false,
    }
}

/// Appends the entry for a missing volume after the volume `last`, if one is missing.
fn add_missing(
    items: &mut Vec<VolumeItem>,
    missing: bool,
    last: &Option<Field<6>>,
) -> Result<(), AllocError>
    ensures { OnOk result (items.new.items ≡ items.old.items ++ missing_if missing last.now) }
{
    if missing {
        items.push(match last {
            Some(last) => VolumeItem::MissingAfter(*last),
            None => VolumeItem::MissingFirst,
        })?;
    }
    Ok(())
}

/// Appends `volume`, unless it is the volume `last`, preceded by a missing volume if sections are
/// missing between the two.
fn add_volume(
    items: &mut Vec<VolumeItem>,
    last: &Option<Field<6>>,
    missing: bool,
    volume: &Field<6>,
) -> Result<(), AllocError>
    ensures { OnOk result (items.new.items
        ≡ items.old.items ++ items_to last.now missing volume.now) }
{
    if is_same(last, volume) {
        return Ok(());
    }
    add_missing(items, missing, last)?;
    items.push(VolumeItem::Named(*volume))?;
    Ok(())
}

/// Returns the volumes of a chain.
fn items_of(alloc: Global, chain: &[Option<Field<6>>]) -> Result<Vec<VolumeItem>, AllocError>
    ensures { IfOk result (λ items. items.items ≡ volumes_from None false chain.now) }
{
    let mut items = Vec::new(alloc);
    let mut last = None;
    let mut missing = false;
    for link in chain {
        match link {
            None => missing = true,
            Some(volume) => {
                add_volume(&mut items, &last, missing, volume)?;
                last = Some(*volume);
                missing = false;
            }
        }
    }
    add_missing(&mut items, missing, &last)?;
    Ok(items)
}

/// Returns the volumes of a set whose greatest file number is `greatest`.
pub(crate) fn volumes_of(
    findings: &Findings,
    set_id: Field<6>,
    greatest: u16,
) -> Result<Vec<VolumeItem>, AllocError>
    ensures { IfOk result (λ items. items.items ≡ volumes_of findings.now (set_id, greatest)) }
{
    let chain = chain_of(findings, set_id, greatest)?;
    items_of(findings.alloc, chain.as_slice())
}
