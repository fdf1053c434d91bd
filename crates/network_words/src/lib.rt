// Words of a segment's bits: address fields by shift and mask, shifting in by one place, the words of a BITS or RESET field.
#![tactic(auto)]

ghost use Rattle.std.specs.Prelude.{◌≡◌, map, suc, ◌+◌, ◌-◌, ◌*◌, ◌^◌, ◌<◌, ◌≤◌, length};
ghost use Rattle.model.specs.Path.{bit_value};
ghost use Rattle.network_words.specs.Words.{word_width, word_bit, byte_bit, shift_in, word_of_bits, word_from, byte_known};

// A word of a segment's bits, or of their known marks.
pub type Word = u64;

// A word of known marks with every bit known.
pub const ALL_KNOWN: Word = Word::MAX;

// The bits of a word.
pub const WORD_BITS: usize = Word::BITS as usize;

// The word whose only bit is i.
#[tactic(auto, using(crate::proofs::WordLaws::only_place))]
pub fn only_bit(i: usize) -> Word
    requires { i < word_width }
    ensures { result ≡ 2 ^ i }
{
    1 << i
}

// Bit i of a word.
#[tactic(auto, using(crate::proofs::WordLaws::bit_mask))]
pub fn bit_at(w: Word, i: usize) -> usize
    requires { i < word_width }
    ensures { result ≡ bit_value (word_bit w i) }
{
    ((w >> i) & 1) as usize
}

// Bits i and i + 1 of a word, as a number below 4.
#[tactic(auto, using(crate::proofs::WordLaws::pair_mask))]
pub fn pair_at(w: Word, i: usize) -> usize
    requires { i < word_width }
    ensures { result ≡ bit_value (word_bit w i) + 2 * bit_value (word_bit w (suc i)) }
{
    ((w >> i) & 3) as usize
}

// The word of len bits with b shifted in at the top, and the lowest bit gone.
pub fn shifted_in(w: Word, b: Word, len: usize) -> Word
    requires { (b < 2) × ((1 ≤ len) × ((len ≤ word_width) × (w < 2 ^ len))) }
    ensures { (result ≡ shift_in len w b) × (result < 2 ^ len) }
{
    (w >> 1) | (b << (len - 1))
}

// The bit that a byte `0` or `1` stands for.
fn bit_of(b: u8) -> Word
    ensures { result ≡ bit_value (byte_bit b) }
{
    Word::from(b == b'1')
}

// The word after the bits of part are shifted in, one place each: bit j is the j-th bit of part.
pub fn loaded(part: &[u8], len: usize) -> Word
    requires { (length part.now ≡ len) × (len ≤ word_width) }
    ensures { result ≡ word_of_bits (map byte_bit part.now) }
{
    let mut w: Word = 0;
    for b in part {
        w = shifted_in(w, bit_of(*b), len);
    }
    w
}

// The known mark that a byte of a BITS or RESET field stands for: none for `X`.
fn mark_of(b: u8) -> Word
    ensures { result ≡ bit_value (byte_known b) }
{
    Word::from(b != b'X')
}

// The word with all bits one place higher and b as its lowest bit.
fn with_low(w: Word, b: Word) -> Word
    requires { (b < 2) × (w < 2 ^ (word_width - 1)) }
    ensures { result ≡ b + 2 * w }
{
    (w << 1) | b
}

// A segment's two words.
#[derive(Clone, Copy)]
pub struct SegmentWords {
    pub bits: Word,
    pub known: Word,
}

// The two words of a BITS or RESET field, which starts with the highest bit.
pub fn words_of(f: &[u8]) -> SegmentWords
    requires { length f.now ≤ word_width }
    ensures { (result.bits ≡ word_from byte_bit 0 f.now) × (result.known ≡ word_from byte_known 0 f.now) }
{
    let mut bits: Word = 0;
    let mut known: Word = 0;
    for x in f {
        bits = with_low(bits, bit_of(*x));
        known = with_low(known, mark_of(*x));
    }
    SegmentWords { bits, known }
}
