// The checksum of words: it begins with how many they are, and each word w in turn makes of a sum c (c × 1,000,003 + r) mod 2,147,483,647,
// where r is w mod 2,147,483,647 taken from 0 upward.
ghost use Rattle.std.specs.Prelude.{◌<◌};

const MODULUS: u64 = 2147483647;

// What a sum is made of.
pub trait Word: Copy {
    // What a word leaves, from 0 upward.
    fn rest(self) -> u64
        ensures { result < 2147483647 };
}

impl Word for i64 {
    fn rest(self) -> u64 {
        self.rem_euclid(MODULUS as i64) as u64
    }
}

impl Word for u8 {
    fn rest(self) -> u64 {
        u64::from(self)
    }
}

// A sum before any word.
fn begun(count: usize) -> u64
    ensures { result < 2147483647 }
{
    count as u64 % MODULUS
}

// A sum with words added.
fn added<W: Word>(sum: u64, words: &[W]) -> u64
    requires { sum < 2147483647 }
    ensures { result < 2147483647 }
{
    let mut c = sum;
    for w in words {
        c = (c * 1000003 + w.rest()) % MODULUS;
    }
    c
}

// The checksum of words.
pub fn checksum<W: Word>(words: &[W]) -> i64 {
    added(begun(words.len()), words) as i64
}

// The checksum of one list and after it another.
pub fn pair_sum(first: &[i64], second: &[i64]) -> i64 {
    let sum = (begun(first.len()) + begun(second.len())) % MODULUS;
    added(added(sum, first), second) as i64
}
