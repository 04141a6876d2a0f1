//! A number, bit by bit.
ghost use Rattle.std.specs.Prelude.{◌≡◌, ℕ, ◌^◌, ◌<◌, ◌≤◌, Bool, length};
ghost use Rattle.theory.specs.Values.{number};
ghost use Rattle.logic.specs.Items.{IsItem};
ghost use Rattle.logic.specs.Limits.{word_bits};

/// The number whose bit i is the bit of item i.
pub fn number_of<T, B: Fn(&T) -> bool>(items: &[T], bit: B) -> u64
    requires few { length items.now ≤ word_bits }
    requires bit { (k : ℕ) (r : _) → IsItem items.now k r.now → B.pre bit r }
    ensures value { (x : ℕ → Bool) → ((k : ℕ) (r : _) (b : Bool) → IsItem items.now k r.now → B.post bit r b → b ≡ x k) → result ≡ number x (length items.now) }
    ensures small { result < 2 ^ length items.now }
{
    let mut number = 0;
    for (i, item) in items.iter().enumerate() {
        if bit(item) {
            number += 1 << i;
        }
    }
    number
}
