// The pages that segments touched, and what they made them.
ghost use Rattle.std.specs.Prelude.{◌≡◌, ◌+◌, ◌≤◌, List, [], ◌∷◌, ◌++◌, length, false, replicate, Some};
ghost use Rattle.std.specs.List.{list_any};
ghost use Rattle.machine_defs.specs.Memory.{is_out_of_range, overwritten};
ghost use Rattle.machine_defs.specs.Elf as elf;
ghost use Rattle.machine_defs.specs.Elf.{clashes};
ghost use Rattle.elf_load.specs.Judging.{Marks, is_closed};

use super::segment::Segment;
use machine_defs::PageKind;

const PAGE_COUNT: usize = machine_defs::PAGE_COUNT as usize;

/// The kind of each page that a segment touched.
#[derive(Drop)]
pub(crate) struct Touched {
    kinds: [Option<PageKind>; PAGE_COUNT],
}

impl Touched {
    /// No page is touched.
    pub(crate) fn new() -> Self
        ensures { Marks result.kinds [] }
    {
        Touched {
            kinds: [None; PAGE_COUNT],
        }
    }

    /// Whether a page of the segment was touched by an earlier one, where one of the two can run.
    #[tactic(auto, unfolding(machine_defs::specs::Memory::page_count))]
    pub(crate) fn clashes(&self, segment: &Segment) -> bool
        requires { is_out_of_range segment.now.address segment.now.memory_size ≡ false }
        ensures { (earlier : List elf.Segment) → Marks self.now.kinds earlier → result ≡ list_any (clashes segment.now) earlier }
    {
        let first = segment.first_page();
        has_closed(
            &self.kinds[first..first + segment.page_span()],
            segment.can_run(),
        )
    }

    /// Adds the pages of a segment that does not clash with the earlier ones.
    #[tactic(auto, unfolding(machine_defs::specs::Memory::page_count))]
    pub(crate) fn mark(&mut self, segment: &Segment)
        requires { is_out_of_range segment.now.address segment.now.memory_size ≡ false }
        ensures { (earlier : List elf.Segment) → Marks self.old.kinds earlier → list_any (clashes segment.now) earlier ≡ false → Marks self.new.kinds (earlier ++ segment.now ∷ []) }
    {
        mark_pages(
            &mut self.kinds,
            segment.first_page(),
            segment.page_span(),
            segment.kind(),
        );
    }
}

// Whether one of the pages is closed to a segment that can run, or to one that cannot.
fn has_closed(kinds: &[Option<PageKind>], can_run: bool) -> bool
    ensures { result ≡ list_any (is_closed can_run) kinds.now }
{
    kinds.iter().any(|kind| is_closed(can_run, *kind))
}

fn is_closed(can_run: bool, kind: Option<PageKind>) -> bool
    ensures { result ≡ is_closed can_run kind }
{
    match kind {
        None => false,
        Some(PageKind::Data) => can_run,
        Some(PageKind::Code) => true,
    }
}

fn mark_pages(kinds: &mut [Option<PageKind>], first: usize, count: usize, kind: PageKind)
    requires { first + count ≤ length kinds.old }
    ensures { kinds.new ≡ overwritten kinds.old first (replicate count (Some kind)) }
{
    kinds[first..first + count].fill(Some(kind));
}
