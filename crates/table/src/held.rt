// A table that exists names nothing that it lacks: whoever follows its rows finds each row that one of them names.
ghost use Rattle.std.specs.Prelude.{◌≡◌, ◌≤◌, length};
ghost use Rattle.table.specs.Memory.{IsTable, memory};

use crate::loaded::{Loaded, Row};

/// Loaded memory that was taken up. Rows past its count are cut off.
#[derive(Drop)]
pub struct Table<'a> {
    pub(crate) loaded: Loaded,
    pub(crate) rows: &'a [Row],
    ghost sound: { IsTable (memory loaded rows.now) },
    ghost exact: { length rows.now ≡ loaded.row_count },
}

/// Where a scan stands: at a stored row of its table, so that no step tests the row's number. Only a table makes one, and a
/// step from another one.
#[derive(Clone, Copy)]
pub struct Walk<'a> {
    pub(crate) table: &'a Table<'a>,
    pub(crate) rows: &'a [Row],
    pub(crate) row: u16,
    ghost same: { rows.now ≡ table.now.rows.now },
    ghost some: { 1 ≤ row },
    ghost stored: { row ≤ length table.now.rows.now },
}
