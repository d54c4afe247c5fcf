// How a table is taken up.
ghost use Rattle.std.specs.Prelude.{◌≡◌};
ghost use Rattle.table.specs.Memory.{IsTable, memory};
ghost use Rattle.table.specs.Readings.{initial_only, cut};
ghost use Rattle.table.specs.Held.{memory_of};

use crate::check;
use crate::held::Table;
use crate::loaded::{Loaded, Row};

/// The table of this memory, or INITIAL without rules where the memory is no table's.
pub fn take_up<'a>(loaded: &'a Loaded, rows: &'a [Row]) -> Table<'a>
    ensures whole { let m = memory loaded.now rows.now in IsTable m → memory_of result ≡ cut m }
    ensures lacking { (IsTable (memory loaded.now rows.now) → ⊥) → memory_of result ≡ initial_only }
{
    match check(loaded, rows) {
        Ok(()) => whole(loaded, rows),
        Err(_) => initial(),
    }
}

fn whole<'a>(loaded: &'a Loaded, rows: &'a [Row]) -> Table<'a>
    requires { IsTable (memory loaded.now rows.now) }
    ensures { memory_of result ≡ cut (memory loaded.now rows.now) }
{
    Table {
        loaded: *loaded,
        rows: &rows[..loaded.row_count],
    }
}

#[tactic(auto, unfolding(crate::specs::Zeros::zeros))]
fn initial<'a>() -> Table<'a>
    ensures { memory_of result ≡ initial_only }
{
    Table {
        loaded: Loaded {
            condition_count: 1,
            ..Loaded::zeros()
        },
        rows: &[],
    }
}
