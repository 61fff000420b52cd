// Buffers that a caller lends, of whatever length; and a byte as an index.
#![tactic(auto)]

ghost use Rattle.std.specs.Prelude.{◌≡◌, ◌++◌, ◌≤◌, ◌<◌, length, take, drop, replicate};

// Every byte becomes 0.
pub fn zero(buf: &mut [u8])
    ensures { buf.new ≡ replicate (length buf.old) 0 }
{
    let mut k = 0;
    while k < buf.len() {
        buf[k] = 0;
        k += 1;
    }
}

// The first n bytes become those of `src`.
pub fn copy(dst: &mut [u8], src: &[u8], n: usize)
    requires { (n ≤ length dst.old) × (n ≤ length src.now) }
    ensures { dst.new ≡ take n src.now ++ drop n dst.old }
{
    let mut i = 0;
    while i < n {
        dst[i] = src[i];
        i += 1;
    }
}

// A byte as a number, with its bound, so that it may be an index.
pub fn wide(x: u8) -> usize
    ensures { (result ≡ x) × (result < 256) }
{
    x as usize
}
