// The text of answers. It waits in a buffer, which is written out when it is full.
ghost use Rattle.std.specs.Prelude.{◌≡◌, []};

use arrayvec::ArrayVec;
use itoa::{Buffer, Integer};
use numbers::{F2Dot14, Fixed};
use readers::Refusal;
use std::io;
use std::io::{Stdout, Write};

// Standard output, and the bytes that wait to be written out. Once a write has failed nothing more is
// written, and `flush` answers the error.
#[derive(Drop)]
pub(crate) struct Output {
    to: Stdout,
    waiting: ArrayVec<u8, 65536>,
    written: io::Result<()>,
}

impl Output {
    pub(crate) fn new(to: Stdout) -> Output {
        Output {
            to,
            waiting: ArrayVec::new(),
            written: Ok(()),
        }
    }

    // Puts a byte behind those that wait.
    pub(crate) fn byte(&mut self, byte: u8) {
        if self.waiting.is_full() {
            self.write_out();
        }
        self.waiting.push(byte)
    }

    fn write_out(&mut self)
        ensures { self.new.waiting.items ≡ [] }
    {
        if self.written.is_ok() {
            self.written = self.to.write_all(&self.waiting);
        }
        self.waiting.clear()
    }

    pub(crate) fn flush(&mut self) -> io::Result<()> {
        self.write_out();
        self.written
    }

    pub(crate) fn text(&mut self, text: &[u8]) {
        for byte in text {
            self.byte(*byte)
        }
    }

    fn decimal(&mut self, n: impl Integer) {
        self.text(Buffer::new().format(n).as_bytes())
    }

    pub(crate) fn put(&mut self, x: impl Print) {
        x.print(self)
    }

    // A blank, and x.
    pub(crate) fn next(&mut self, x: impl Print) {
        self.byte(b' ');
        x.print(self)
    }

    // What a function answers that can't refuse.
    pub(crate) fn value(&mut self, x: impl Print) {
        self.text(b"value");
        self.next(x)
    }

    // The same of a function that answers several.
    pub(crate) fn values<T: Print + Copy>(&mut self, values: &[T]) {
        self.text(b"value");
        for x in values {
            self.next(*x)
        }
    }

    // A blank, and a list's elements with a comma between two, or a minus for none.
    pub(crate) fn list<T: Print + Copy>(&mut self, list: &[T]) {
        self.byte(b' ');
        if list.is_empty() {
            self.byte(b'-')
        }
        for (i, x) in list.iter().enumerate() {
            if i > 0 {
                self.byte(b',')
            }
            self.put(*x)
        }
    }
}

// What has a text in an answer. Not `Display`: `write!` answers an error, and here none can be.
pub(crate) trait Print {
    fn print(self, out: &mut Output);
}

impl Print for u16 {
    fn print(self, out: &mut Output) {
        out.decimal(self)
    }
}

impl Print for u32 {
    fn print(self, out: &mut Output) {
        out.decimal(self)
    }
}

impl Print for bool {
    fn print(self, out: &mut Output) {
        out.byte(if self { b'1' } else { b'0' })
    }
}

impl Print for i16 {
    fn print(self, out: &mut Output) {
        out.decimal(self)
    }
}

// A 2.14 or 16.16 number is printed as its raw integer.
impl Print for F2Dot14 {
    fn print(self, out: &mut Output) {
        out.decimal(self.0)
    }
}

impl Print for Fixed {
    fn print(self, out: &mut Output) {
        out.decimal(self.0)
    }
}

// Bytes, two hexadecimal digits each, or a minus for none.
impl Print for &[u8] {
    fn print(self, out: &mut Output) {
        let digits = b"0123456789abcdef";
        if self.is_empty() {
            out.byte(b'-')
        }
        for byte in self {
            out.byte(digits[usize::from(*byte / 16)]);
            out.byte(digits[usize::from(*byte % 16)])
        }
    }
}

// 32 bits, as of a tag: eight hexadecimal digits.
#[derive(Clone, Copy)]
pub(crate) struct Bits(pub(crate) u32);

impl Print for Bits {
    fn print(self, out: &mut Output) {
        out.put(self.0.to_be_bytes().as_slice())
    }
}

// A scalar, which a list has by its bits.
impl Print for i32 {
    fn print(self, out: &mut Output) {
        out.put(Bits(self.cast_unsigned()))
    }
}

// Its bits, or `nan`.
impl Print for f32 {
    fn print(self, out: &mut Output) {
        if self.is_nan() {
            return out.text(b"nan");
        }
        out.put(Bits(self.to_bits()))
    }
}

// A minus for none.
impl<T: Print> Print for Option<T> {
    fn print(self, out: &mut Output) {
        match self {
            Some(x) => out.put(x),
            None => out.byte(b'-'),
        }
    }
}

// What a function answers that can refuse.
impl<T: Print> Print for Result<T, Refusal> {
    fn print(self, out: &mut Output) {
        match self {
            Ok(x) => out.value(x),
            Err(refusal) => {
                out.text(b"refused");
                out.next(u16::from(u8::from(refusal)))
            }
        }
    }
}
