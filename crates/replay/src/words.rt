// A line's words. One blank stands between two of them.
ghost use Rattle.std.specs.Prelude.{◌≡◌};
ghost use Rattle.replay.specs.Words.{word_of, word_count};

pub(crate) fn count(line: &[u8]) -> usize
    ensures { result ≡ word_count line.now }
{
    line.split(|byte| *byte == b' ').count()
}

// Word k, counted from 0. Past the last it is empty.
pub(crate) fn word(line: &[u8], k: usize) -> &[u8]
    ensures { result.now ≡ word_of k line.now }
{
    line.split(|byte| *byte == b' ').nth(k).unwrap_or(b"")
}
