//! Words of bits: bit i of them is bit i % 64 of word i / 64.

ghost use Rattle.std.specs.Prelude.{◌≡◌, ◌≤◌, ◌<◌, ℕ, ◌+◌, ◌*◌, ◌^◌, ◌==◌, length, if◌then◌else◌, IfSome, IfNone};
ghost use Rattle.std.specs.Int.{bit_at};
ghost use Rattle.std.specs.Vec.{vec_len, vec_capacity};
ghost use Rattle.net_bag.specs.Index.{bit_in, words_for, IsFirstUnset, IsFirstUnsetIn};

// The least place from `low` on whose bit of the word is 0.
fn unset_in(word: u64, low: u32) -> Option<u32>
    requires { low < 64 }
    ensures some { IfSome result (λ t. IsFirstUnset word low t) }
    ensures none { IfNone result ((i : ℕ) → low ≤ i → i < 64 → bit_at word i ≡ 1) }
{
    let masked = word | ((1u64 << low) - 1);
    if masked == u64::MAX {
        None
    } else {
        Some(masked.trailing_ones())
    }
}

// The least place from `low` on whose bit of the words is 0.
pub(crate) fn first_unset(words: &[u64], low: usize) -> Option<usize>
    requires { 64 * length words.now < 2 ^ 63 }
    ensures some { IfSome result (λ i. IsFirstUnsetIn words.now low i) }
    ensures none { IfNone result ((j : ℕ) → low ≤ j → j < 64 * length words.now → bit_in words.now j ≡ 1) }
{
    let mut from = (low % 64) as u32;
    for w in low / 64..words.len() {
        if let Some(t) = unset_in(words[w], from) {
            return Some(64 * w + t as usize);
        }
        from = 0;
    }
    None
}

// Puts a word behind the words where one bit more than so many would have no place in them. It is 0.
pub(crate) fn put_word(words: &mut Vec<u64>, count: usize)
    requires few { 64 * length words.old.items < 2 ^ 63 }
    requires room { vec_len words.old < vec_capacity words.old }
    ensures { words.new.items ≡ words_for words.old.items count }
{
    if count == 64 * words.len() {
        words.push_reserved(0);
    }
}

// Sets bit i.
pub(crate) fn set_bit(words: &mut [u64], i: usize)
    requires { i < 64 * length words.old }
    ensures { (j : ℕ) → bit_in words.new j ≡ (if j == i then 1 else bit_in words.old j) }
{
    words[i / 64] |= 1 << (i % 64);
}
