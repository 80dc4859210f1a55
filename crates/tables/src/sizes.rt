ghost use Rattle.std.specs.Prelude.{◌≤◌, length};
ghost use Rattle.tables.specs.Sizes.{Fixed};
ghost use Rattle.tables.specs.Known.{sizes_in};
ghost use Rattle.tables.specs.Settled.{Sound, Settles, Advances, Measured};
ghost use Rattle.tables.specs.Tables.{datas_in};

use crate::refs::DataRef;
use crate::sizing::Sizing;
use crate::tables::Tables;

// Puts the size of a data type into the table, if it isn't known and can be told from those that are. The words come beside the tables
// here and below: each method of a struct of both would have to promise that its tables stay.
fn settle(data: DataRef, sizes: &mut [u64]) -> bool
    requires { «data».tables.done.datas ≤ length sizes.old }
    ensures { Settles «data».entry.tables «data».entry.number sizes.old sizes.new result }
{
    let DataRef { tables, number } = data;
    if sizes[number] != 0 {
        return false;
    }
    let Some(size) = Sizing { tables, sizes }.data_size(number) else {
        return false;
    };
    sizes[number] = size;
    true
}

// Settles each data type once. Whether a size was put in.
fn settle_each(tables: Tables, sizes: &mut [u64]) -> bool
    requires { tables.done.datas ≤ length sizes.old }
    ensures { Advances tables.entry sizes.old sizes.new result }
{
    let mut more = false;
    // No `any`: each is settled, also behind one that was.
    for number in 0..tables.done.datas {
        more |= settle(DataRef { tables, number }, sizes);
    }
    more
}

// Sizes are put in until none can be told any more.
fn settle_all(tables: Tables, sizes: &mut [u64])
    requires room { tables.done.datas ≤ length sizes.old }
    requires sound { Sound tables sizes.old }
    ensures { Fixed (datas_in tables.entry) (sizes_in tables.entry sizes.new) }
{
    // Until a round puts nothing in: no iterator has that end.
    while settle_each(tables, sizes) {}
}

// The size of each data type, one word each: 0 where there is none, since it's part of itself or too large.
pub fn measure_all(tables: Tables, sizes: &mut [u64])
    requires { tables.done.datas ≤ length sizes.old }
    ensures fixed { Fixed (datas_in tables.entry) (sizes_in tables.entry sizes.new) }
    ensures sizes { Measured tables.entry sizes.new }
{
    sizes[..tables.done.datas].fill(0);
    settle_all(tables, sizes);
}
