//! A few bytes that own themselves and take no memory: what a session holds back, and the one byte
//! more that decides about it.
ghost use Rattle.std.specs.Prelude.{◌≤◌};

/// How many there can be: the most that a session holds back, and one.
pub(crate) const MOST_BYTES: usize = 9;

/// At most nine bytes.
#[derive(Clone, Copy)]
pub(crate) struct Carry {
    bytes: [u8; MOST_BYTES],
    count: usize,
    ghost few: { count ≤ 9 },
}

impl Carry {
    ghost use Rattle.std.specs.Prelude.{◌≡◌, ◌≤◌, ◌++◌, length, take};
    ghost use Rattle.html_escape.specs.Held.{carry_bytes};

    /// The first nine bytes of two parts, or all where there are fewer.
    pub fn first_of(one: &[u8], other: &[u8]) -> Carry
        requires { length one.now ≤ 9 }
        ensures { carry_bytes result ≡ take 9 (one.now ++ other.now) }
    {
        let mut bytes = [0; MOST_BYTES];
        bytes[..one.len()].copy_from_slice(one);
        let more = &other[..other.len().min(MOST_BYTES - one.len())];
        let count = one.len() + more.len();
        bytes[one.len()..count].copy_from_slice(more);
        Carry { bytes, count }
    }

    /// The bytes.
    pub fn as_slice(&self) -> &[u8]
        ensures { result.now ≡ carry_bytes self.now }
    {
        &self.bytes[..self.count]
    }
}
