// The rules `refs` and `home`, over what is told of images that are made to be slow.
mod image;
mod shapes;

use crate::order::{do_nodes_ascend, do_parts_ascend, do_roots_ascend};
use crate::owed::image::Image;
use crate::owed::shapes::{FEW, HALF, SHAPES, Shape, Sizes, WHOLE, image_of};
use crate::report::{Report, failed, timed};
use qg_backref_rule::{references_failure, sort_things};
use qg_owner_rule::homeless;
use std::alloc::Global;
use std::io;
use std::io::ErrorKind;
use std::rt::Clock;

/// Prints what the rules answer of images: of the greatest size and of half of it with times, or of small ones.
pub(crate) fn measure(rt: &(impl Clock + Print), alloc: Global, report: Report) -> io::Result<()> {
    if !report.is_timed {
        return ask_all(rt, alloc, report, "few", &FEW);
    }
    ask_all(rt, alloc, report, "half", &HALF)?;
    ask_all(rt, alloc, report, "whole", &WHOLE)
}

/// Prints what the rules answer of each image of these sizes.
fn ask_all(
    rt: &(impl Clock + Print),
    alloc: Global,
    report: Report,
    size: &str,
    sizes: &Sizes,
) -> io::Result<()> {
    for (name, shape) in SHAPES {
        let prefix = format!(in alloc; "{size}-{name}-")?;
        let image = image_of(alloc, shape, sizes).map_err(failed)?;
        ask(rt, alloc, report.under(prefix.as_str()), image)?;
    }
    Ok(())
}

/// Prints what the rule `home` answers, and what both rules do: 0 where nothing is broken, and else 1.
fn ask(rt: &(impl Clock + Print), alloc: Global, report: Report, image: Image) -> io::Result<()> {
    let parts = image.parts(alloc).map_err(failed)?;
    let Image {
        roots,
        nodes,
        mut things,
        owings,
    } = image;
    sort_things(&mut things).map_err(failed)?;
    if !do_roots_ascend(&roots) || !do_nodes_ascend(&nodes) || !do_parts_ascend(&parts) {
        return Err(io::Error::from(ErrorKind::InvalidData));
    }
    for _ in 0..report.rounds() {
        let (found, took) = timed(rt, || Ok(homeless(alloc, &roots, &nodes)?))?;
        report.print(rt, &[("home", found.is_some() as u64, took)])?;
        let mut owed = owings.clone()?;
        let (found, took) = timed(rt, || {
            let found = references_failure(alloc, &mut owed, &things, &parts, &roots, &nodes)?;
            Ok(found)
        })?;
        report.print(rt, &[("both", found.is_some() as u64, took)])?;
    }
    Ok(())
}
