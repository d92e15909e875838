// What a word of a line says: which name it is, and the f64 whose bits it spells; and the digits that spell bits.
ghost use Rattle.std.specs.Prelude.{◌≡◌, Some, min, length, from_bits};
ghost use Rattle.std.specs.Float.{binary64};
ghost use Rattle.std.specs.Float.Ieee.{nan_bits};
ghost use Rattle.io.specs.Counts.{IsPrefixLen};
ghost use Rattle.text_lines.specs.spelling.Words as spec;

// At most the length of `s`.
pub fn within(n: usize, s: &[u8]) -> usize
    ensures prefix_len { IsPrefixLen result s.now }
    ensures value { result ≡ min n (length s.now) }
{
    n.min(s.len())
}

// Which of `names` is `name`: 0 is the first. Each ends at a space or where the text ends.
pub fn place(names: &[u8], name: &[u8]) -> Option<usize>
    ensures { result ≡ spec.place name.now names.now }
{
    let (last, front) = names.split_last()?;
    let names = if *last == b' ' { front } else { names };
    names.split(|b| *b == b' ').position(|part| name == part)
}

// The kind that has a name: kinds stand in the order of their names.
pub fn named<K: Copy>(names: &[u8], kinds: &[K], name: &[u8]) -> Option<K>
    ensures { result ≡ spec.named kinds.now names.now name.now }
{
    kinds.get(place(names, name)?).copied()
}

// A hexadecimal digit's value, lowercase.
pub fn digit(b: u8) -> Option<u64>
    ensures { result ≡ spec.digit b }
{
    match b {
        b'0'..=b'9' => Some(u64::from(b - b'0')),
        b'a'..=b'f' => Some(u64::from(b - b'a') + 10),
        _ => None,
    }
}

// The bits of 16 hexadecimal digits, lowercase.
pub fn pattern(word: &[u8]) -> Option<u64>
    ensures { result ≡ spec.pattern_of word.now }
{
    if word.len() != 16 {
        return None;
    }
    let mut bits = 0u64;
    for b in word {
        let d = digit(*b)?;
        bits = bits * 16 + d;
    }
    Some(bits)
}

// The 16 digits of bits: those whose pattern gives the bits back.
pub fn digits(bits: u64) -> [u8; 16]
    ensures { spec.pattern_of result ≡ Some bits }
{
    let mut digits = [0; 16];
    io::hex(bits, 16, &mut digits);
    digits
}

// The pattern is a NaN's: without its sign it is above an infinity's.
pub fn is_nan(w: u64) -> bool
    ensures { result ≡ nan_bits binary64 w }
{
    w % 0x8000_0000_0000_0000 > 0x7ff0_0000_0000_0000
}

// The number of a pattern. Every NaN's pattern gives the one NaN.
pub fn float(w: u64) -> f64
    ensures { result ≡ from_bits binary64 w }
{
    if is_nan(w) {
        f64::NAN
    } else {
        f64::from_bits(w)
    }
}
