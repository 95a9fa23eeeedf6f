// A cell that a block makes.
ghost use Rattle.std.specs.Prelude.{◌<◌, ◌^◌, length};

use mol_schema::OutputView;

/// A cell that a block makes.
#[derive(Drop)]
pub(crate) struct Made<'a> {
    pub(crate) output: OutputView<'a>,
    pub(crate) content: &'a [u8],
    /// The place of its transaction in the block.
    pub(crate) place: u32,
    ghost fits: { length content.now < 2 ^ 32 },
}
