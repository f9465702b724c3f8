//! Parts of a file, which several runs read at once.
use std::fs::File;
use std::io::{self, Read, Seek, SeekFrom};
use wkt_lines::{after_line, line_end};
use wkt_options::Part;

// How much is read at once where lines are only counted or passed.
const BLOCK: usize = 16384;

/// Where the part begins in the file, and where it ends. Both stand behind a line feed, or at an end of the file, so each
/// line is in one part.
///
/// # Errors
/// The file can't be read, or has no places to go to.
pub fn bounds(part: Part, file: &mut File) -> io::Result<(u64, u64)> {
    let size = file.seek(SeekFrom::End(0))?;
    let end = line_from(file, share(size, part.index, part.count))?;
    let begin = line_from(file, share(size, part.index.saturating_sub(1), part.count))?;
    Ok((begin, end))
}

/// The first byte behind so many of the equal parts of so many bytes.
fn share(size: u64, parts: u64, count: u64) -> u64 {
    let whole = u128::from(size).saturating_mul(u128::from(parts));
    u64::try_from(whole / u128::from(count.max(1))).unwrap_or(size)
}

/// Where the first line begins from this byte on; the file's end where none does.
fn line_from(file: &mut File, at: u64) -> io::Result<u64> {
    if at == 0 {
        return Ok(0);
    }
    let mut place = file.seek(SeekFrom::Start(at - 1))?;
    let mut block = [0; BLOCK];
    for _ in 0..u64::MAX {
        let n = file.read(&mut block)?;
        let read = block.get(..n).unwrap_or(&[]);
        let end = line_end(read);
        place = place.saturating_add(end as u64);
        if end < read.len() {
            return Ok(place.saturating_add(1));
        }
        if n == 0 {
            break;
        }
    }
    Ok(place)
}

/// How many line feeds the first bytes of the file have.
///
/// # Errors
/// The file can't be read.
pub fn feeds_before(file: &mut File, end: u64) -> io::Result<u64> {
    file.seek(SeekFrom::Start(0))?;
    let mut block = [0; BLOCK];
    let mut left = end;
    let mut feeds: u64 = 0;
    for _ in 0..u64::MAX {
        let n = file.read(&mut block)?;
        let most = usize::try_from(left).unwrap_or(n).min(n);
        let mut rest = block.get(..most).unwrap_or(&[]);
        'lines: while !rest.is_empty() {
            let at = line_end(rest);
            if at < rest.len() {
                feeds = feeds.saturating_add(1);
            }
            rest = after_line(rest, at);
        }
        left = left.saturating_sub(n as u64);
        if n == 0 || left == 0 {
            break;
        }
    }
    Ok(feeds)
}
