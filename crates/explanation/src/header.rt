// J4 to J10 and J13: the header of a block, and its lengths.
ghost use Rattle.std.specs.Prelude.{◌<◌, ◌≤◌, length};

use epochs::{Epoch, epoch_of, parts};
use mol_schema::BlockView;
use node_store::Kept;
use transaction_page::{Page, entry_at, median_of};

/// Appends a place with the numbers that were found and are wanted.
fn push_numbers(page: &mut Page, place: &str, found: u64, wanted: u64) {
    page.add("place ");
    page.add(place);
    page.add("\nfound ");
    page.number(found);
    page.add("\nwanted ");
    page.number(wanted);
    page.add("\n");
}

fn push_epoch(page: &mut Page, epoch: &Epoch) {
    page.add("epoch ");
    page.number(epoch.number);
    page.add(", index ");
    page.number(u64::from(epoch.index));
    page.add(", length ");
    page.number(u64::from(epoch.length));
    page.add("\n");
}

/// How long a block counts, and how many proposal ids its uncles have.
fn uncle_ids(block: &BlockView<'_>) -> u64 {
    let mut count = 0u64;
    'uncles: for i in 0..block.uncles_count() {
        count = count.saturating_add(block.uncles_item(i).proposals_count() as u64);
    }
    count
}

/// The first of the proposal ids that stands there before, and where.
fn id_twice(block: &BlockView<'_>) -> Option<(usize, usize)> {
    'ids: for i in 0..block.proposals_count() {
        'before: for j in 0..i {
            if block.proposals_item(j) == block.proposals_item(i) {
                return Some((i, j));
            }
        }
    }
    None
}

fn push_proposals(page: &mut Page, block: &BlockView<'_>, most: u64) {
    let count = block.proposals_count() as u64;
    if count > most {
        page.add("place proposals\nfound ");
        page.number(count);
        page.add("\nwanted at most ");
        page.number(most);
        page.add("\n");
        return;
    }
    if let Some((i, j)) = id_twice(block) {
        page.add("place proposal ");
        page.count(i);
        page.add("\nfound the same as proposal ");
        page.count(j);
        page.add("\nwanted each id once\n");
    }
}

/// Where the header of a block, or one of its lengths, breaks a rule. Of other rules nothing is added.
pub(crate) fn explain_header(
    page: &mut Page,
    kept: &Kept,
    parent: u32,
    block: &BlockView<'_>,
    rule: u8,
) {
    let Some(before) = entry_at(&kept.tree, parent) else {
        return;
    };
    let header = block.header();
    let spec = &kept.spec;
    match rule {
        4 => push_numbers(page, "version", u64::from(header.version()), 0),
        5 => push_numbers(
            page,
            "number",
            header.number(),
            before.number.saturating_add(1),
        ),
        6 => {
            page.add("place epoch\nfound ");
            page.hex(header.epoch());
            page.add(": ");
            push_epoch(page, &parts(header.epoch()));
            page.add("wanted ");
            push_epoch(page, &epoch_of(spec.epoch_length, header.number()));
        }
        7 => {
            page.add("place compact_target\nfound ");
            page.hex(u64::from(header.compact_target()));
            page.add("\nwanted ");
            page.hex(u64::from(spec.compact_target));
            page.add("\n");
        }
        8 => {
            page.add("place timestamp\nfound ");
            page.number(header.timestamp());
            page.add("\nwanted more than the median, ");
            page.number(median_of(&kept.tree, parent));
            page.add("\n");
        }
        9 => {
            let ids = uncle_ids(block);
            page.add("place length\nfound ");
            page.count(block.bytes().len());
            page.add(" bytes, with so many proposal ids of uncles: ");
            page.number(ids);
            page.add("\nwanted at most ");
            page.number(u64::from(spec.max_block_bytes).saturating_add(ids.saturating_mul(10)));
            page.add("\n");
        }
        10 => push_proposals(page, block, u64::from(spec.max_proposals)),
        13 => {
            page.add("place uncles\nfound ");
            page.count(block.uncles_count());
            page.add("\nwanted at most 2\n");
        }
        _ => {}
    }
}
