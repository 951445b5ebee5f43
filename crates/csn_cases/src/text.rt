//! The text of a line, in which `\n`, `\r`, `\\` and `\xHH` stand for a byte, and `\(N*X)` for N times X.

use crate::fault::LineFault;
use std::alloc::{AllocError, Global};

/// What the next byte of a text is.
#[derive(Clone, Copy, Drop)]
enum Next {
    Plain,
    /// It stands behind a backslash.
    Escape,
    /// It is the first digit of two.
    High,
    /// It is the second one, and this is the value of the first.
    Low(u8),
    /// It is a digit of the number of a repetition, or ends it, and this is the number so far.
    Times(u32),
}

/// A part that is repeated, and how often.
#[derive(Drop)]
struct Repeated {
    times: u32,
    part: Vec<u8>,
}

/// The bytes of a text, of which one is taken after the other.
#[derive(Drop)]
struct Unescaped {
    next: Next,
    bytes: Vec<u8>,
    repeated: Option<Repeated>,
}

impl Unescaped {
    fn push(&mut self, byte: u8) -> Result<(), AllocError> {
        match &mut self.repeated {
            Some(repeated) => repeated.part.push(byte)?,
            None => self.bytes.push(byte)?,
        }
        Ok(())
    }

    /// Ends the repetition.
    fn close(&mut self) -> Result<(), AllocError> {
        if let Some(repeated) = self.repeated.take() {
            for _ in 0..repeated.times {
                self.bytes.extend_from_slice(&repeated.part)?;
            }
        }
        Ok(())
    }

    fn take_plain(&mut self, byte: u8) -> Result<Next, AllocError> {
        match byte {
            b'\\' => return Ok(Next::Escape),
            b')' if self.repeated.is_some() => self.close()?,
            _ => self.push(byte)?,
        }
        Ok(Next::Plain)
    }

    fn take_escape(&mut self, byte: u8) -> Result<Next, LineFault> {
        match byte {
            b'n' => self.push(b'\n')?,
            b'r' => self.push(b'\r')?,
            b'\\' => self.push(b'\\')?,
            b'x' => return Ok(Next::High),
            b'(' if self.repeated.is_none() => return Ok(Next::Times(0)),
            _ => return Err(LineFault::Unknown),
        }
        Ok(Next::Plain)
    }

    /// Takes a byte of the number of a repetition.
    fn take_times(&mut self, alloc: Global, times: u32, byte: u8) -> Result<Next, LineFault> {
        if byte == b'*' {
            let part = Vec::new(alloc);
            self.repeated = Some(Repeated { times, part });
            return Ok(Next::Plain);
        }
        let digit = u32::from(digit_of(byte, 10)?);
        match times.checked_mul(10) {
            Some(tens) => Ok(Next::Times(tens.saturating_add(digit))),
            None => Err(LineFault::Unknown),
        }
    }

    fn take(&mut self, alloc: Global, byte: u8) -> Result<(), LineFault> {
        self.next = match self.next {
            Next::Plain => self.take_plain(byte)?,
            Next::Escape => self.take_escape(byte)?,
            Next::High => Next::Low(digit_of(byte, 16)?),
            Next::Low(high) => {
                self.push((high << 4) | digit_of(byte, 16)?)?;
                Next::Plain
            }
            Next::Times(times) => self.take_times(alloc, times, byte)?,
        };
        Ok(())
    }

    fn is_whole(&self) -> bool {
        matches!(self.next, Next::Plain) && self.repeated.is_none()
    }
}

/// The value of a digit.
fn digit_of(byte: u8, base: u8) -> Result<u8, LineFault> {
    let digit = match byte {
        b'0'..=b'9' => byte - b'0',
        b'A'..=b'F' => byte - b'A' + 10,
        _ => return Err(LineFault::Unknown),
    };
    if digit < base {
        Ok(digit)
    } else {
        Err(LineFault::Unknown)
    }
}

/// The bytes of a text.
pub(crate) fn bytes_of(alloc: Global, text: &str) -> Result<Vec<u8>, LineFault> {
    let mut unescaped = Unescaped {
        next: Next::Plain,
        bytes: Vec::new(alloc),
        repeated: None,
    };
    for byte in text.bytes() {
        unescaped.take(alloc, byte)?;
    }
    if unescaped.is_whole() {
        Ok(unescaped.bytes)
    } else {
        Err(LineFault::Unknown)
    }
}
