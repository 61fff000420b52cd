// Eight bytes as a word, low byte first.
#![tactic(auto)]

ghost use Rattle.std.specs.Prelude.{◌≡◌, ◌+◌, ◌≤◌, length, drop};
ghost use Rattle.words.specs.Word.{word, bytes, put_at};

// How many bytes a word has.
pub const WORD_BYTES: usize = 8;

// The word that starts at byte `at`.
pub fn get(s: &[u8], at: usize) -> u64
    requires { at + 8 ≤ length s.now }
    ensures { result ≡ word 8 (drop at s.now) }
{
    let Some(bytes) = s[at..].first_chunk::<WORD_BYTES>() else {
        unreachable!()
    };
    u64::from_le_bytes(*bytes)
}

// Writes the eight bytes of w from byte `at` on.
pub fn put(d: &mut [u8], at: usize, w: u64)
    requires { at + 8 ≤ length d.old }
    ensures { d.new ≡ put_at d.old at (bytes 8 w) }
{
    d[at..at + WORD_BYTES].copy_from_slice(&w.to_le_bytes());
}
