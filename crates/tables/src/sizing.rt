ghost use Rattle.std.specs.Prelude.{◌≤◌, length};

use crate::tables::Tables;

// The table of sizes: a word for each data type, 0 where its size isn't known.
#[derive(Clone, Copy)]
pub struct Sizing<'a> {
    pub tables: Tables<'a>,
    pub sizes: &'a [u64],
    ghost room: { tables.done.datas ≤ length sizes.now },
}
