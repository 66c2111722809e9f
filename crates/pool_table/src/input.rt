// Standard input, line by line: a word, numbers, and a text.
use std::io;
use std::io::Read as _;

// Bytes of a word and of a text at most.
const LENGTH: usize = 200;
// Digits of a number at most.
const DIGITS: usize = 11;

// The next byte, none at the end of the input and for a zero byte.
fn byte(rt: &impl Input) -> io::Result<Option<u8>> {
    let mut b = [0];
    rt.reader().read(&mut b)?;
    Ok(Some(b[0]).filter(|b| *b != 0))
}

// All up to the byte `stop` is passed over.
fn pass(rt: &impl Input, stop: u8) -> io::Result<()> {
    for _ in 0..LENGTH {
        if byte(rt)? == Some(stop) {
            break;
        }
    }
    Ok(())
}

// The first letter of a word that a space ends, none at the end of the input and for a zero byte.
pub fn word(rt: &impl Input) -> io::Result<Option<u8>> {
    let first = byte(rt)?;
    pass(rt, b' ')?;
    Ok(first)
}

// The rest of a line is passed over.
pub fn skip(rt: &impl Input) -> io::Result<()> {
    pass(rt, b'\n')
}

// The rest of a line is copied to the output, past the end of the input as zeros.
pub fn copy(rt: &(impl Input + Print)) -> io::Result<()> {
    for _ in 0..LENGTH {
        let b = byte(rt)?.unwrap_or(0);
        rt.write_all(&[b])?;
        if b == b'\n' {
            break;
        }
    }
    Ok(())
}

// A number, and the byte that ends it, none where digits follow or the input ends.
pub fn number(rt: &impl Input) -> io::Result<(u32, Option<u8>)> {
    let mut value: u32 = 0;
    for _ in 0..DIGITS {
        match byte(rt)? {
            Some(digit @ b'0'..=b'9') => {
                value = value.wrapping_mul(10).wrapping_add(u32::from(digit - b'0'));
            }
            end => return Ok((value, end)),
        }
    }
    Ok((value, None))
}
