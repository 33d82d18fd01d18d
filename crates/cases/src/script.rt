// A script that is read from its front. What it has no more bytes for is None.
ghost use Rattle.std.specs.Prelude.{◌≡◌, ◌+◌, ◌≤◌, length, IfSome, OnSome};

#[derive(Drop)]
pub struct Script<'a> {
    rest: &'a [u8],
}

impl<'a> Script<'a> {
    pub fn new(rest: &'a [u8]) -> Script<'a> {
        Script { rest }
    }

    fn array<const N: usize>(&mut self) -> Option<[u8; N]>
        ensures falls { length self.new.rest.now ≤ length self.old.rest.now }
        ensures taken { OnSome result (length self.new.rest.now + N ≡ length self.old.rest.now) }
    {
        let (front, rest) = self.rest.split_first_chunk::<N>()?;
        self.rest = rest;
        Some(*front)
    }

    pub fn byte(&mut self) -> Option<u8>
        ensures falls { length self.new.rest.now ≤ length self.old.rest.now }
        ensures taken { OnSome result (length self.new.rest.now + 1 ≡ length self.old.rest.now) }
    {
        let (byte, rest) = self.rest.split_first()?;
        self.rest = rest;
        Some(*byte)
    }

    pub fn u16(&mut self) -> Option<u16>
        ensures falls { length self.new.rest.now ≤ length self.old.rest.now }
        ensures taken { OnSome result (length self.new.rest.now + 2 ≡ length self.old.rest.now) }
    {
        Some(u16::from_le_bytes(self.array()?))
    }

    pub fn u32(&mut self) -> Option<u32>
        ensures falls { length self.new.rest.now ≤ length self.old.rest.now }
        ensures taken { OnSome result (length self.new.rest.now + 4 ≡ length self.old.rest.now) }
    {
        Some(u32::from_le_bytes(self.array()?))
    }

    pub fn u64(&mut self) -> Option<u64>
        ensures falls { length self.new.rest.now ≤ length self.old.rest.now }
        ensures taken { OnSome result (length self.new.rest.now + 8 ≡ length self.old.rest.now) }
    {
        Some(u64::from_le_bytes(self.array()?))
    }

    pub fn size(&mut self) -> Option<usize>
        ensures falls { length self.new.rest.now ≤ length self.old.rest.now }
        ensures taken { OnSome result (length self.new.rest.now + 8 ≡ length self.old.rest.now) }
    {
        Some(usize::from_le_bytes(self.array()?))
    }

    // A length of 16 bits, and so many bytes.
    pub fn bytes(&mut self) -> Option<&'a [u8]>
        ensures falls { length self.new.rest.now ≤ length self.old.rest.now }
        ensures taken { IfSome result (λ bytes. length self.new.rest.now + 2 + length bytes.now ≡ length self.old.rest.now) }
    {
        let len = self.u16()?;
        let (front, rest) = self.rest.split_at_checked(usize::from(len))?;
        self.rest = rest;
        Some(front)
    }

    // A row count, and so many rows; the others are empty.
    pub fn rows(&mut self) -> Option<[u64; 64]>
        ensures { length self.new.rest.now ≤ length self.old.rest.now }
    {
        let count = self.byte()?;
        let mut rows = [0u64; 64];
        for row in rows.get_mut(..usize::from(count))? {
            *row = self.u64()?;
        }
        Some(rows)
    }
}
