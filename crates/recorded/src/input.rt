// Standard input, word by word.
use std::io::Read;

// The next little-endian word of the input; none where the input ends.
pub fn read_word(rt: &impl Input) -> Option<u32> {
    let mut b = [0u8; 4];
    rt.reader().read_exact(&mut b).ok()?;
    Some(u32::from_le_bytes(b))
}

// The next N words of the input; none where there are fewer.
pub fn read_words<const N: usize>(rt: &impl Input) -> Option<[u32; N]> {
    let mut ws = [0u32; N];
    for w in &mut ws {
        *w = read_word(rt)?;
    }
    Some(ws)
}
