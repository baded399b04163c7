// Reading a line: its words, numbers in decimal, and tables of bytes in hexadecimal.
ghost use Rattle.std.specs.Prelude.{◌-◌, ◌<◌, ◌≤◌, length, IfSome};
ghost use Rattle.samples.specs.declared.text.TheConstants.{ROOM};

// The bytes that a table has room for.
const ROOM: usize = 8192;

// What stands before the first such mark and behind it: all and nothing where there is none.
pub fn cut(text: &[u8], mark: u8) -> (&[u8], &[u8])
    ensures front { length result.0.now ≤ length text.now }
    ensures back { length result.1.now ≤ length text.now - 1 }
{
    match text.iter().position(|b| *b == mark) {
        Some(at) => (&text[..at], &text[at + 1..]),
        None => (text, &[]),
    }
}

// A number in decimal.
pub fn decimal(text: &[u8]) -> Option<usize> {
    if text.is_empty() {
        return None;
    }
    text.iter().try_fold(0usize, |n, b| {
        let digit = char::from(*b).to_digit(10)?;
        n.checked_mul(10)?.checked_add(digit as usize)
    })
}

// The value of a digit in hexadecimal.
fn digit(b: u8) -> Option<u8>
    ensures { IfSome result (λ d. d < 16) }
{
    match b {
        b'0'..=b'9' => Some(b - b'0'),
        b'a'..=b'f' => Some(b - b'a' + 10),
        _ => None,
    }
}

// A table of bytes.
#[derive(Drop)]
pub struct Table {
    bytes: [u8; ROOM],
    len: usize,
    ghost in_room: { len ≤ ROOM },
}

impl Table {
    // The table that a text's words make.
    pub fn read(text: &[u8]) -> Option<Table> {
        let mut table = Table {
            bytes: [0; ROOM],
            len: 0,
        };
        for word in text.split(|b| *b == b' ') {
            table.push_word(word)?;
        }
        Some(table)
    }

    pub fn as_slice(&self) -> &[u8] {
        &self.bytes[..self.len]
    }

    // A word: bytes, or a number, an x, and the bytes that are put so many times.
    fn push_word(&mut self, word: &[u8]) -> Option<()> {
        let (times, bytes) = cut(word, b'x');
        if bytes.is_empty() {
            return self.push_bytes(word);
        }
        for _ in 0..decimal(times)? {
            self.push_bytes(bytes)?;
        }
        Some(())
    }

    // Bytes in a row.
    fn push_bytes(&mut self, text: &[u8]) -> Option<()> {
        let (pairs, odd) = text.as_chunks::<2>();
        if !odd.is_empty() {
            return None;
        }
        for [high, low] in pairs {
            self.push(digit(*high)? * 16 + digit(*low)?)?;
        }
        Some(())
    }

    fn push(&mut self, b: u8) -> Option<()> {
        if self.len == ROOM {
            return None;
        }
        self.bytes[self.len] = b;
        self.len += 1;
        Some(())
    }
}
