// A search among records that stand one behind another, each with a key first.
ghost use Rattle.std.specs.Prelude.{◌≡◌, ℕ};
ghost use Rattle.std.proofs.Common.{refl};
ghost use Rattle.readers.specs.Reading.{run};
ghost use Rattle.readers.specs.Answers.{outcome};
ghost use Rattle.opentype.specs.Search.{searched};
ghost use Rattle.store.specs.KeyedAnswers.{records_of, place};

use readers::{FromBeData, Refusal, read};

// What records are found by.
pub trait Key: FromBeData {
    ghost number: { Self → ℕ };

    fn number(self) -> u32
        ensures { result ≡ number self };

    // The number of a key that is read is the one that its bytes make.
    ghost read_back: { (n : ℕ) → number (Self.of_number n) ≡ n };
}

impl Key for u16 {
    ghost number = { λ n. n };

    ghost read_back = { λ n. refl };

    fn number(self) -> u32 {
        u32::from(self)
    }
}

impl Key for u32 {
    ghost number = { λ n. n };

    ghost read_back = { λ n. refl };

    fn number(self) -> u32 {
        self
    }
}

// Records of a table: it starts at `table`, the first record `head` bytes behind that; each has `size` bytes.
#[derive(Clone, Copy)]
pub struct Records {
    pub table: u32,
    pub head: u16,
    pub size: u16,
    pub count: u16,
}

impl Records {
    // Where the record of a key starts, if there is one. swash's walk: the middle of what is left, whether or not the records are sorted.
    pub fn find<K: Key>(self, font: &[u8], key: K) -> Result<Option<usize>, Refusal>
        ensures { outcome result ≡ run font.now (searched (records_of K.SIZE self) place (K.number key) self.count) }
    {
        let wanted = key.number();
        let mut l: usize = 0;
        let mut h = self.count as usize;
        // either end moves, which no `for` counts; std's search wants a slice of keys, in order
        while l < h {
            let i = (l + h) / 2;
            let at = self.table as usize + self.head as usize + i * (self.size as usize);
            let k = read::<K>(font, at)?.number();
            if wanted < k {
                h = i;
            } else if k < wanted {
                l = i + 1;
            } else {
                return Ok(Some(at));
            }
        }
        Ok(None)
    }
}
