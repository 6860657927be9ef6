// The rooms that a call is lent. They are marked before it, so that they show what it touched.
ghost use Rattle.std.specs.Prelude.{◌*◌, ◌≡◌, ◌≤◌, length, take, drop};

use crate::numbers::split_within;
use decoder::{Decoded, Fed, Stream, decode_whole};
use standard::Context;

const BYTE: u8 = 0xEE;

const NUMBER: u32 = 0xEEEEEEEE;

#[derive(Drop)]
pub(crate) struct Rooms<'a> {
    pub text: &'a mut [u8],
    pub errors: &'a mut [u32],
}

// What a call wrote into its rooms, and what it left of them.
#[derive(Clone, Copy)]
pub(crate) struct Written<'a> {
    pub text: &'a [u8],
    pub errors: &'a [u32],
    text_left: &'a [u8],
    errors_left: &'a [u32],
}

impl Rooms<'_> {
    pub(crate) fn mark(&mut self) {
        self.text.fill(BYTE);
        self.errors.fill(NUMBER);
    }

    pub(crate) fn decode(&mut self, context: Context, source: &[u8]) -> Decoded {
        decode_whole(context, source, &mut *self.text, &mut *self.errors)
    }

    pub(crate) fn feed(&mut self, stream: Stream, chunk: &[u8]) -> Fed {
        stream.feed(chunk, &mut *self.text, &mut *self.errors)
    }

    pub(crate) fn end(&mut self, stream: Stream) -> Fed {
        stream.end(&mut *self.text, &mut *self.errors)
    }

    pub(crate) fn contents(&self) -> (&[u8], &[u32]) {
        (&*self.text, &*self.errors)
    }

    // What a call wrote that counts so many bytes and errors.
    pub(crate) fn written(&self, bytes: u32, errors: u32) -> Written<'_>
        ensures text { result.text.now ≡ take bytes self.now.text.now }
        ensures text_left { result.text_left.now ≡ drop bytes self.now.text.now }
        ensures errors { result.errors.now ≡ take (2 * errors) self.now.errors.now }
        ensures errors_left { result.errors_left.now ≡ drop (2 * errors) self.now.errors.now }
    {
        let (text, text_left) = split_within(&*self.text, bytes as usize);
        let (errors, errors_left) = split_within(&*self.errors, 2 * errors as usize);
        Written {
            text,
            errors,
            text_left,
            errors_left,
        }
    }

    // The same of a call that writes with the answers 0 and 7 alone.
    pub(crate) fn written_with(&self, answer: u32, bytes: u32, errors: u32) -> Written<'_>
        ensures text { length result.text.now ≤ length self.now.text.now }
        ensures errors { length result.errors.now ≤ length self.now.errors.now }
    {
        match answer {
            0 | 7 => self.written(bytes, errors),
            _ => self.written(0, 0),
        }
    }
}

impl Written<'_> {
    // Whether what was left lost a mark.
    pub(crate) fn touched(&self) -> bool {
        self.text_left.iter().any(|byte| *byte != BYTE)
            || self.errors_left.iter().any(|number| *number != NUMBER)
    }
}
