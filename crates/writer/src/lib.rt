// Bytes, texts and numbers put into a lent buffer. A function that puts one fills the start of the buffer that it is lent, and says how many bytes;
// a `Writer` puts one after another.
#![tactic(auto)]

ghost use Rattle.std.specs.Prelude.{◌≡◌, [], ◌∷◌, ◌≤◌, ◌<◌, length};
ghost use Rattle.writer.specs.Text.{decimal};
ghost use Rattle.writer.specs.inner.Writer.{Wrote, front, HasRoom, Appended};

pub fn put_byte(buf: &mut [u8], b: u8) -> usize
    requires { 1 ≤ length buf.old }
    ensures { Wrote (b ∷ []) buf.old buf.new result }
{
    buf[0] = b;
    1
}

pub fn put_text(buf: &mut [u8], text: &[u8]) -> usize
    requires { length text.now ≤ length buf.old }
    ensures { Wrote text.now buf.old buf.new result }
{
    buf[..text.len()].copy_from_slice(text);
    text.len()
}

// Any number in decimal, without leading zeros: its higher digits, then the last.
// By hand: `fmt` may fail for want of room, and this one is asked to have it; `decimal` of specs/Text is what the texts of 01 are defined by.
pub fn put_number(buf: &mut [u8], x: u64) -> usize
    requires { length (decimal x) ≤ length buf.old }
    ensures { Wrote (decimal x) buf.old buf.new result }
{
    if x < 10 {
        return put_byte(buf, b'0' + x as u8);
    }
    let at = put_number(buf, x / 10);
    at + put_byte(&mut buf[at..], b'0' + (x % 10) as u8)
}

// A lent buffer that is filled from its start: `len` bytes are written.
#[derive(Drop)]
pub struct Writer<'a> {
    buf: &'a mut [u8],
    len: usize,
}

impl<'a> Writer<'a> {
    pub fn new(buf: &'a mut [u8]) -> Writer<'a>
        ensures same_reference { result.buf.ghost_name ≡ buf.entry.ghost_name }
        ensures bytes { result.buf.now ≡ buf.old }
        ensures len { result.len ≡ 0 }
    {
        Writer { buf, len: 0 }
    }

    // How many bytes are written.
    pub fn len(&self) -> usize
        ensures { result ≡ self.now.len }
    {
        self.len
    }

    // The bytes that are written.
    pub fn written(&self) -> &[u8]
        requires { self.now.len ≤ length self.now.buf.now }
        ensures { result.now ≡ front self.now }
    {
        &self.buf[..self.len]
    }

    pub fn byte(&mut self, b: u8)
        requires { HasRoom (b ∷ []) self.old }
        ensures { Appended (b ∷ []) self.old self.new }
    {
        self.len += put_byte(&mut self.buf[self.len..], b);
    }

    pub fn text(&mut self, text: &[u8])
        requires { HasRoom text.now self.old }
        ensures { Appended text.now self.old self.new }
    {
        self.len += put_text(&mut self.buf[self.len..], text);
    }

    // Any number in decimal, without leading zeros.
    pub fn number(&mut self, x: u64)
        requires { HasRoom (decimal x) self.old }
        ensures { Appended (decimal x) self.old self.new }
    {
        self.len += put_number(&mut self.buf[self.len..], x);
    }
}
