// The calls with nothing in hand.
ghost use Rattle.std.specs.Prelude.{◌≡◌, true};
ghost use Rattle.table.specs.Held.{memory_of};
ghost use Rattle.scan.specs.Listing.{table_listing};
ghost use Rattle.reader.specs.Moves.{idle_at, Nexts, Begins, Returns};

use crate::ScanFault;
use crate::finds::first;
use crate::state::{Holding, Idle, Refused};
use crate::strip::{STRIP_BYTES, copy_front};
use scan::Start;
use source::Source;
use table::Table;

impl Idle {
    /// A new reader: in condition 0, at line start, with nothing kept.
    pub fn open() -> Idle
        ensures condition { result.condition ≡ 0 }
        ensures line_start { result.at_line_start ≡ true }
        ensures kept { result.kept ≡ 0 }
    {
        Idle {
            condition: 0,
            at_line_start: true,
            kept: 0,
        }
    }

    /// The condition that the reader is in.
    pub fn condition(&self) -> usize
        ensures { result ≡ self.now.condition }
    {
        self.condition
    }

    /// Whether it is at line start.
    pub fn at_line_start(&self) -> bool
        ensures { result ≡ self.now.at_line_start }
    {
        self.at_line_start
    }

    /// How many bytes are kept.
    pub fn kept(&self) -> usize
        ensures { result ≡ self.now.kept }
    {
        self.kept
    }

    /// Offers the first reading that is listed here: its head is copied into the strip, behind what
    /// is kept.
    pub fn next<S: Source>(
        self,
        table: &Table,
        source: &S,
        strip: &mut [u8],
    ) -> Result<Holding, Refused<Idle>>
        ensures { let rest = S.rest source.now in
            let listing = table_listing (memory_of table.now) (idle_at self rest) in
            Nexts self rest listing strip.old strip.new result }
    {
        if strip.len() < STRIP_BYTES {
            return Err(Refused {
                state: self,
                fault: ScanFault::ShortStrip,
            });
        }
        let start = Start {
            condition: self.condition,
            at_line_start: self.at_line_start,
        };
        let Some(reading) = first(table, start, source) else {
            return Err(Refused {
                state: self,
                fault: ScanFault::NothingLeft,
            });
        };
        let Idle {
            condition,
            at_line_start,
            kept,
        } = self;
        copy_front(source, reading.head, strip, kept);
        Ok(Holding {
            condition,
            at_line_start,
            kept,
            reading,
        })
    }

    /// Goes to another condition of the table.
    pub fn begin(self, table: &Table, condition: usize) -> Result<Idle, Refused<Idle>>
        ensures { Begins self table.now.loaded.condition_count condition result }
    {
        if condition >= table.conditions() {
            return Err(Refused {
                state: self,
                fault: ScanFault::NoCondition,
            });
        }
        let Idle {
            condition: _,
            at_line_start,
            kept,
        } = self;
        Ok(Idle {
            condition,
            at_line_start,
            kept,
        })
    }

    /// Puts a byte in front of what is left; the reader stays as it is.
    pub fn put_back<S: Source>(self, source: &mut S, b: u8) -> Result<Idle, Refused<Idle>>
        ensures { Returns S.rest S.slack self b source.old source.new result }
    {
        match source.put_back(b) {
            Ok(()) => Ok(self),
            Err(fault) => Err(Refused {
                state: self,
                fault: fault.into(),
            }),
        }
    }

    /// Lets the reader go.
    pub fn close(self) {
        let Idle {
            condition: _,
            at_line_start: _,
            kept: _,
        } = self;
    }
}
