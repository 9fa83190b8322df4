//! How far two texts are the same.
ghost use Rattle.std.specs.Prelude.{◌≡◌, ◌≤◌, ◌<◌, ◌==◌, ◌+◌, take, length, slice_index, count_by};
ghost use Rattle.report_audit.specs.Good.{line_feeds};

/// How many bytes are the same at the front of both.
pub fn common_len(a: &[u8], b: &[u8]) -> usize
    ensures within { (result ≤ length a.now) × (result ≤ length b.now) }
    ensures same { take result a.now ≡ take result b.now }
    ensures differs { result < length a.now → result < length b.now → slice_index a.now result ≡ slice_index b.now result → ⊥ }
{
    let most = a.len().min(b.len());
    for i in 0..most {
        if a[i] != b[i] {
            return i;
        }
    }
    most
}

fn feed_count(text: &[u8]) -> usize
    ensures value { result ≡ count_by (λ b. b == 10) text.now }
    ensures few { result ≤ length text.now }
{
    text.iter().filter(|b| **b == b'\n').count()
}

/// The number of the line, from 1, on which the byte behind so many stands.
pub fn line_number(text: &[u8], at: usize) -> u32
    requires few { length text.now < 4294967295 }
    requires within { at ≤ length text.now }
    ensures { result ≡ line_feeds (take at text.now) + 1 }
{
    feed_count(&text[..at]) as u32 + 1
}
