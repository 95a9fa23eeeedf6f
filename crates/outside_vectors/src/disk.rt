// Rows of a folder's files.

use crate::area::{area_of, is_count, is_done, is_read};
use outside::{Area, Disk};
use outside_os::{Claim, FolderDisk, StoredFile};
use row_table::Row;
use std::alloc::Global;
use std::rt::Files;

const LIMIT: u64 = 1_000_000;

/// From where on, how many bytes are there and which six are in the buffer then, which dashes fill before.
fn agrees_on_read<R: Files + Drop>(
    alloc: Global,
    disk: &mut FolderDisk<R>,
    area: Area,
    row: &mut Row,
) -> Option<bool>
where
    R::File: Claim + StoredFile,
{
    let at = row.number()?;
    let mut into = [b'-'; 6];
    let read = disk.read(area, at, &mut into);
    is_read(alloc, read, &into, row)
}

fn agrees_on_write<R: Files + Drop>(
    alloc: Global,
    disk: &mut FolderDisk<R>,
    area: Area,
    row: &mut Row,
) -> Option<bool>
where
    R::File: Claim + StoredFile,
{
    let at = row.number()?;
    let piece = row.bytes(alloc)?;
    if at > LIMIT || piece.len() as u64 > LIMIT {
        return None;
    }
    is_done(disk.write(area, at, &piece).is_ok(), row)
}

fn agrees_on_cut<R: Files + Drop>(
    disk: &mut FolderDisk<R>,
    area: Area,
    row: &mut Row,
) -> Option<bool>
where
    R::File: Claim + StoredFile,
{
    let at = row.number()?;
    is_done(disk.cut(area, at).is_ok(), row)
}

fn agrees_on_sync<R: Files + Drop>(
    disk: &mut FolderDisk<R>,
    area: Area,
    row: &mut Row,
) -> Option<bool>
where
    R::File: Claim + StoredFile,
{
    is_done(disk.sync(area).is_ok(), row)
}

/// A call, an area, and what else the call takes.
pub(crate) fn agrees<R: Files + Drop>(
    alloc: Global,
    disk: &mut FolderDisk<R>,
    call: &str,
    row: &mut Row,
) -> Option<bool>
where
    R::File: Claim + StoredFile,
{
    let area = area_of(row.word())?;
    match call {
        "len" => is_count(disk.len(area), row),
        "read" => agrees_on_read(alloc, disk, area, row),
        "write" => agrees_on_write(alloc, disk, area, row),
        "cut" => agrees_on_cut(disk, area, row),
        "sync" => agrees_on_sync(disk, area, row),
        _ => None,
    }
}
