// What is kept of an ending while a listing is read.
ghost use Rattle.std.specs.Prelude.{◌<◌};

// The rule, counted from 0, the total, and the end marks after so many bytes.
#[derive(Clone, Copy)]
pub struct End {
    pub rule: usize,
    pub total: usize,
    pub marks: u64,
    ghost few: { rule < 64 },
}
