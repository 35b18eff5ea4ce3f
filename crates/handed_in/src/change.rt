// A change of one word: which word, by a code, of which entry of its table, and the low and high word of the new value. The code of each word stands
// beside the field that it changes, in the files of the records. A word with another code stays as it was. An index past a table's end counts on from
// its start.
use number::from_words;

#[derive(Clone, Copy)]
pub struct Change {
    pub what: u32,
    pub index: usize,
    pub low: u32,
    pub high: u32,
}

impl Change {
    pub fn word(self, what: u32, old: u32) -> u32 {
        if self.what == what { self.low } else { old }
    }

    // A count, or an index into a table.
    pub fn index(self, what: u32, old: usize) -> usize {
        if self.what == what {
            (self.low as usize) + (self.high as usize) * 0x1_0000_0000
        } else {
            old
        }
    }

    pub fn number(self, what: u32, old: f64) -> f64 {
        if self.what == what {
            from_words(self.low, self.high)
        } else {
            old
        }
    }

    pub fn flag(self, what: u32, old: bool) -> bool {
        if self.what == what {
            self.low != 0
        } else {
            old
        }
    }

    // 0 for none, else index + 1, as in an image.
    pub fn pattern(self, what: u32, old: Option<usize>) -> Option<usize> {
        if self.what != what {
            return old;
        }
        if self.low == 0 {
            return None;
        }
        Some((self.low - 1) as usize)
    }
}
