// Single bits of 32-bit words, by shift and mask, and a choice between two values. Every function is defined for any index: a word has the
// bits 0 to 31 and no others.
#![tactic(auto)]

ghost use Rattle.std.specs.Prelude.{◌≡◌};
ghost use Rattle.words.specs.Word.{when◌then◌else◌, bit_of, is_set, without, with_bit, without_bit};

// Bit k of w, 0 or 1.
#[tactic(auto, using(crate::proofs::Laws::bit_past), unfolding(crate::specs::Word::bit_of))]
pub fn bit(w: u32, k: u32) -> u32
    ensures { result ≡ bit_of k w }
{
    if k < 32 { (w >> k) & 1 } else { 0 }
}

// Whether bit k of w is 1.
#[tactic(auto, unfolding(crate::specs::Word::is_set))]
pub fn has(w: u32, k: u32) -> bool
    ensures { result ≡ is_set k w }
{
    bit(w, k) == 1
}

// The bits of w that mask lacks.
#[tactic(auto, unfolding(crate::specs::Word::without))]
pub fn masked_out(w: u32, mask: u32) -> u32
    ensures { result ≡ without mask w }
{
    w & !mask
}

// w with bit k set.
#[tactic(auto, using(crate::proofs::Laws::one_shl, crate::proofs::Laws::or_bit, crate::proofs::Laws::set_past))]
pub fn with_bit(w: u32, k: u32) -> u32
    ensures { result ≡ with_bit k w }
{
    if k < 32 { w | (1 << k) } else { w }
}

// w with bit k cleared.
#[tactic(auto, using(crate::proofs::Laws::one_shl, crate::proofs::Laws::clear_bit, crate::proofs::Laws::clear_past))]
pub fn without_bit(w: u32, k: u32) -> u32
    ensures { result ≡ without_bit k w }
{
    if k < 32 { masked_out(w, 1 << k) } else { w }
}

// One of two: a if the test holds. The steps choose by it, since it compiles to no branch.
#[tactic(auto, unfolding(crate::specs::Opened::choices))]
pub fn choose<T: Copy>(test: bool, a: T, b: T) -> T
    ensures { result ≡ (when test then a else b) }
{
    if test { a } else { b }
}
