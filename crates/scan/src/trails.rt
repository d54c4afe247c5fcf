// Work memory for the trails of one rule. A trail stands in a row of the table, and has the head
// behind which it began. Trails that meet in one row go on as one, and the longer head is kept.
ghost use Rattle.std.specs.Prelude.{◌≡◌, ◌<◌, ◌≤◌, MatchBool, slice_set, replicate};
ghost use Rattle.scan.specs.Trails.{IsTaken, Added};

/// Lent work memory of one pass. What it holds before and after does not matter.
// Each trail's row and head; and for each row, by its number, where the last trail was put that
// stood there. Rows past 1,024 share these places: of two such rows one is forgotten, and then
// trails that meet there go on apart, to the same heads.
#[derive(Drop)]
pub struct Trails {
    pub(crate) rows: [u16; 1024],
    pub(crate) heads: [u16; 1024],
    seen: [u16; 1024],
}

impl Trails {
    /// Work memory without a trail.
    pub fn new() -> Trails
        ensures rows { result.rows ≡ replicate 1024 0 }
        ensures heads { result.heads ≡ replicate 1024 0 }
        ensures seen { result.seen ≡ replicate 1024 0 }
    {
        Trails {
            rows: [0; 1024],
            heads: [0; 1024],
            seen: [0; 1024],
        }
    }

    // Whether one of the trails up to `at` is known to stand in this row.
    fn stands(&self, from: usize, at: usize, row: u16) -> bool
        requires { at ≤ 1024 }
        ensures { MatchBool result (IsTaken from at self.now.rows row) (Unit {0}) }
    {
        let x = self.seen[row as usize % 1024] as usize;
        from <= x && x < at && self.rows[x] == row
    }

    // Puts a trail there.
    pub(crate) fn put(&mut self, at: usize, row: u16, head: u16)
        requires { at < 1024 }
        ensures rows { self.new.rows ≡ slice_set self.old.rows at row }
        ensures heads { self.new.heads ≡ slice_set self.old.heads at head }
    {
        self.rows[at] = row;
        self.heads[at] = head;
        self.seen[row as usize % 1024] = at as u16;
    }

    // Puts a trail there, unless one stands in this row already; answers where the next one is put.
    pub(crate) fn add(&mut self, from: usize, at: usize, row: u16, head: u16) -> usize
        requires { at < 1024 }
        ensures { let old = self.old in let new = self.new in
            Added from at row head old.rows old.heads new.rows new.heads result }
    {
        if self.stands(from, at, row) {
            return at;
        }
        self.put(at, row, head);
        at + 1
    }
}
