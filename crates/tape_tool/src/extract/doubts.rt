//! Which copies of a file's sections are doubtful.

use super::{ExtractOrder, Plan};
use crate::explain::FaultSite;
use crate::fault::ToolFault;
use crate::images::place_of;
use crate::readings::image_of;
use crate::refusal::is_file;
use crate::screen::Progress;
use std::alloc::AllocError;

/// Returns the names with an empty one, which no file has, for each image that is read only once.
pub(super) fn files_in<'n, R: Progress>(
    rt: &R,
    names: &[&'n str],
) -> Result<Vec<&'n str>, AllocError> {
    let mut files = Vec::new(rt.alloc());
    for name in names {
        files.push(if is_file(rt.host(), name) { *name } else { "" })?;
    }
    Ok(files)
}

/// Compares the copies of the file's sections on the images of the plan; those on standard input
/// are left out. Its opener remembers which copies are doubtful.
///
/// # Errors
///
/// Returns `Conflict` if two of the images contradict each other: `site` then names them.
pub(super) fn doubt_copies<'a, R: Progress>(
    rt: &R,
    order: &ExtractOrder<'a>,
    plan: &mut Plan<'_>,
    site: &mut FaultSite<'a>,
) -> Result<(), ToolFault> {
    let files = files_in(rt, plan.names.as_slice())?;
    let Some((one, other)) = plan.opener.doubt(rt, &order.task, files.as_slice())? else {
        return Ok(());
    };
    let (images, names) = (&order.images, plan.names.as_slice());
    let one = image_of(plan.named, place_of(plan.named, names, one).unwrap_or(0));
    let other = image_of(plan.named, place_of(plan.named, names, other).unwrap_or(0));
    *site = FaultSite::Conflict(images.image(one), images.image(other));
    Err(ToolFault::Conflict)
}
