// Names of at most 24 bytes.
ghost use Rattle.std.specs.Prelude.{◌≡◌, ◌≤◌, [], take};
ghost use Rattle.finder.specs.Names.{padded};

use crate::Same;

// The first `len` of the bytes are the name. The others are 0, so that equal names have equal bytes. No String: the
// library has no heap. No impl Model: tried, and a crate above that lends what holds names was then not proved. `len` stands
// first, since fields are compared in order: names of other lengths differ at once.
#[derive(Clone, Copy, PartialEq, Eq)]
pub struct Name {
    len: usize,
    bytes: [u8; 24],
    ghost ok: { len ≤ 24 },
    ghost filled: { bytes ≡ padded (take len bytes) },
}

impl Name {
    pub fn blank() -> Name
        ensures { take result.len result.bytes ≡ [] }
    {
        Name {
            bytes: [0; 24],
            len: 0,
        }
    }

    // The first 24 bytes of a text, or all if they are fewer.
    pub fn of(text: &[u8]) -> Name
        ensures { take result.len result.bytes ≡ take 24 text.now }
    {
        let mut bytes = [0; 24];
        let len = text.len().min(24);
        bytes[0..len].copy_from_slice(&text[0..len]);
        Name { bytes, len }
    }
}

impl Same for Name {
    ghost meaning = { λ n. take n.len n.bytes };

    fn same(&self, other: &Name) -> bool {
        self == other
    }
}
