//! `wkt same`: whether two texts name one geometry.
use crate::dialects::verdict_in;
use crate::error::CommandError;
use crate::report::{Origin, TextRefusal, push_refusal};
use crate::verdict::{Verdict, written};
use std::alloc::Global;
use wkt_options::Options;

/// Whether the two texts name one geometry: 0 or 1; 2 where one of them is refused.
///
/// # Errors
/// Standard output fails, or out of memory.
pub fn status(rt: &HostRuntime, options: &Options) -> Result<u8, CommandError> {
    let alloc = rt.alloc();
    let mut one = Vec::new(alloc);
    let mut other = Vec::new(alloc);
    let first = canonical(rt, options, 0, &mut one)?;
    let second = canonical(rt, options, 1, &mut other)?;
    let (Some(first), Some(second)) = (first, second) else {
        return Ok(2);
    };
    let is_one = written(&one, first) == written(&other, second);
    if !options.quiet {
        let said = if is_one {
            "one geometry"
        } else {
            "two geometries"
        };
        println!(rt; "{said}").map_err(CommandError::output)?;
    }
    Ok(if is_one { 0 } else { 1 })
}

/// Writes the canonical text of one of the two texts into the room: how long that is; none where it is refused, which is
/// reported.
fn canonical(
    rt: &HostRuntime,
    options: &Options,
    index: usize,
    room: &mut Vec<u8>,
) -> Result<Option<usize>, CommandError> {
    let alloc: Global = rt.alloc();
    let text = match options.operands.get(index) {
        Some(text) => text.as_str(),
        None => "",
    };
    let mut read = Vec::new(alloc);
    let verdict = verdict_in(
        alloc,
        options.dialects,
        text,
        options.places,
        false,
        &mut read,
        room,
    )?;
    let refusal = match verdict {
        Verdict::Read(len) => return Ok(Some(len)),
        Verdict::Refused(refused) => TextRefusal::Text(refused),
        Verdict::Rest(end) => TextRefusal::Rest(text, end),
    };
    let name = if index == 0 {
        "first text"
    } else {
        "second text"
    };
    let mut report = String::new(alloc);
    push_refusal(
        &mut report,
        Origin { name, line: 1 },
        refusal,
        options.places,
    )?;
    if !options.quiet {
        // Where standard error fails, the status still says it.
        let _ = rt.eprint(report.as_str());
    }
    Ok(None)
}
