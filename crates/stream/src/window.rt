// What was read of the input and not yet taken, in memory of a fixed size.
use pieces;
use std::io;
use std::io::Read;
use std::marker::Model;

// The window has so many bytes, and so has the buffer for the lines.
pub(crate) const BUFFER_BYTES: usize = 65536;

#[derive(Drop)]
pub struct Window {
    bytes: [u8; BUFFER_BYTES],
    // so many of them count
    have: usize,
    // no more come
    ended: bool,
}

impl Model for Window {
    ghost use Rattle.std.specs.Prelude.{◌≤◌, take};
    ghost use Rattle.stream.specs.AsCoded.Turns.{Left};

    ghost Value = { Left };

    ghost view = { λ window. record {
      bytes = take window.have window.bytes;
      ended = window.ended;
    } };

    ghost invariant = { λ window. window.have ≤ 65536 };
}

impl Window {
    ghost use Rattle.std.specs.Prelude.{◌≡◌, ◌≤◌, leb, length, OnOk, OnErr};
    ghost use Rattle.stream.specs.Progress.{buffer_bytes};
    ghost use Rattle.stream.specs.AsCoded.Turns.{nothing_left, behind, ReadOn};

    // Nothing was read yet.
    pub fn empty() -> Window
        ensures { result ≡ nothing_left }
    {
        Window {
            bytes: [0; BUFFER_BYTES],
            have: 0,
            ended: false,
        }
    }

    // What was read and not taken yet.
    pub fn bytes(&self) -> &[u8]
        ensures same { result.now ≡ self.now.bytes }
        ensures few { length self.now.bytes ≤ buffer_bytes }
    {
        &self.bytes[..self.have]
    }

    // Whether a read has found the end of the input.
    pub fn has_ended(&self) -> bool
        ensures { result ≡ self.now.ended }
    {
        self.ended
    }

    // The bytes before a place are taken. The others move to the front.
    pub(crate) fn take_to(&mut self, at: usize)
        ensures { self.new ≡ behind at self.old }
    {
        self.have = pieces::keep_rest(&mut self.bytes, at, self.have);
    }

    // A read without room would look like the end of the input.
    pub(crate) fn is_full(&self) -> bool
        ensures { result ≡ leb buffer_bytes (length self.now.bytes) }
    {
        self.have == BUFFER_BYTES
    }

    // One more piece behind the bytes that are there. One of no bytes is the end of the input.
    pub(crate) fn read<I: Read>(&mut self, input: &mut I) -> io::Result<()>
        ensures read { OnOk result
            (ReadOn self.old self.new (I.remaining input.old) (I.remaining input.new)) }
        ensures kept { OnErr result (self.new ≡ self.old) }
    {
        let count = input.read(&mut self.bytes[self.have..])?;
        self.have += count;
        self.ended = count == 0;
        Ok(())
    }
}
