// The calls with a reading in hand.
ghost use Rattle.std.specs.Prelude.{◌≡◌, ◌+◌, ◌-◌, ◌≤◌, MatchResult, Ok, Some};
ghost use Rattle.table.specs.Held.{memory_of};
ghost use Rattle.scan.specs.Listing.{table_listing};
ghost use Rattle.reader.specs.Moves.{holding_at, Rejects, Takes};
ghost use Rattle.reader.specs.Refusals.{take_refusal, keep_refusal, extend_refusal};

use crate::ScanFault;
use crate::finds::following;
use crate::state::{Holding, Idle, Refused};
use crate::strip::{STRIP_BYTES, copy_front};
use places::Reading;
use scan::Start;
use source::Source;
use table::Table;

// The longest text that can be kept.
const MOST_KEPT: usize = 3072;

impl Holding {
    /// The condition that the reader is in.
    pub fn condition(&self) -> usize
        ensures { result ≡ self.now.condition }
    {
        self.condition
    }

    /// Whether it is at line start.
    pub fn at_line_start(&self) -> bool
        ensures { result ≡ self.now.at_line_start }
    {
        self.at_line_start
    }

    /// How many bytes are kept.
    pub fn kept(&self) -> usize
        ensures { result ≡ self.now.kept }
    {
        self.kept
    }

    /// The reading in hand.
    pub fn reading(&self) -> Reading
        ensures { result ≡ self.now.reading }
    {
        self.reading
    }

    /// How many bytes are kept and in hand.
    pub fn yyleng(&self) -> usize
        ensures { result ≡ self.now.kept + self.now.reading.head }
    {
        self.kept + self.reading.head
    }

    /// Offers the reading that is listed next behind the one in hand.
    pub fn reject<S: Source>(
        self,
        table: &Table,
        source: &S,
        strip: &mut [u8],
    ) -> Result<Holding, Refused<Holding>>
        ensures { let rest = S.rest source.now in
            let listing = table_listing (memory_of table.now) (holding_at self rest) in
            Rejects self rest listing strip.old strip.new result }
    {
        if strip.len() < STRIP_BYTES {
            return Err(Refused {
                state: self,
                fault: ScanFault::ShortStrip,
            });
        }
        let start = Start {
            condition: self.condition,
            at_line_start: self.at_line_start,
        };
        let Some(reading) = following(table, start, source, self.reading) else {
            return Err(Refused {
                state: self,
                fault: ScanFault::NoneFollows,
            });
        };
        let Holding {
            condition,
            at_line_start,
            kept,
            reading: _,
        } = self;
        copy_front(source, reading.head, strip, kept);
        Ok(Holding {
            condition,
            at_line_start,
            kept,
            reading,
        })
    }

    // Takes the next n bytes, and keeps so many from then on.
    fn take<S: Source>(
        self,
        source: &mut S,
        n: usize,
        keeping: usize,
    ) -> Result<Idle, Refused<Holding>>
        requires some { 1 ≤ n }
        requires few { keeping ≤ 3072 }
        ensures { let why = take_refusal (S.rest source.old) n in
            Takes S.rest S.slack S.CAPACITY self why n keeping source.old source.new result }
    {
        let last = source.look(n - 1);
        match source.go_by(n) {
            Err(fault) => Err(Refused {
                state: self,
                fault: fault.into(),
            }),
            Ok(()) => {
                let Holding {
                    condition,
                    at_line_start: _,
                    kept: _,
                    reading: _,
                } = self;
                Ok(Idle {
                    condition,
                    at_line_start: last == Some(b'\n'),
                    kept: keeping,
                })
            }
        }
    }

    /// Takes the head, and keeps nothing.
    pub fn accept<S: Source>(self, source: &mut S) -> Result<Idle, Refused<Holding>>
        ensures { let n = self.reading.head in
            let why = take_refusal (S.rest source.old) n in
            Takes S.rest S.slack S.CAPACITY self why n 0 source.old source.new result }
    {
        let n = self.reading.head;
        self.take(source, n, 0)
    }

    /// Takes so much of the head that the text has n bytes, and keeps nothing.
    pub fn keep<S: Source>(self, source: &mut S, n: usize) -> Result<Idle, Refused<Holding>>
        ensures { let more = n - self.kept in
            let why = keep_refusal self.kept self.reading.head n (S.rest source.old) in
            Takes S.rest S.slack S.CAPACITY self why more 0 source.old source.new result }
    {
        if n <= self.kept || n > self.yyleng() {
            return Err(Refused {
                state: self,
                fault: ScanFault::NotBetween,
            });
        }
        let more = n - self.kept;
        self.take(source, more, 0)
    }

    /// Takes the head, and keeps the text.
    pub fn extend<S: Source>(self, source: &mut S) -> Result<Idle, Refused<Holding>>
        ensures { let n = self.reading.head in
            let text = self.kept + n in
            let why = extend_refusal self.kept n (S.rest source.old) in
            Takes S.rest S.slack S.CAPACITY self why n text source.old source.new result }
    {
        let yyleng = self.yyleng();
        if yyleng > MOST_KEPT {
            return Err(Refused {
                state: self,
                fault: ScanFault::TooLong,
            });
        }
        let n = self.reading.head;
        self.take(source, n, yyleng)
    }

    /// Lets the reader go.
    pub fn close(self) {
        let Holding {
            condition: _,
            at_line_start: _,
            kept: _,
            reading: _,
        } = self;
    }
}
