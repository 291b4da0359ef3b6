// Whole numbers of 640 bits, for exact cross products. What passes the top is lost; nothing here gets so far.
use std::iter::repeat_n;

const LIMBS: usize = 20;

const LIMB: u64 = 0x1_0000_0000;

// Limbs of 32 bits, the highest first: so the derived order is that of the numbers.
#[derive(Clone, Copy, Default, PartialEq, Eq, PartialOrd, Ord)]
pub struct Wide {
    limbs: [u32; LIMBS],
}

impl From<u32> for Wide {
    fn from(word: u32) -> Wide {
        let mut limbs = [0; LIMBS];
        limbs[LIMBS - 1] = word;
        Wide { limbs }
    }
}

impl Wide {
    // From a word for each limb, the lowest first: its lower half stays there, and the rest is carried on.
    fn carried<I: Iterator<Item = u64>>(words: I, mut carry: u64) -> Wide
        requires { I.can_next words }
    {
        let mut limbs = [0; LIMBS];
        for (limb, word) in limbs.iter_mut().rev().zip(words) {
            let sum = word.wrapping_add(carry);
            *limb = (sum % LIMB) as u32;
            carry = sum >> 32;
        }
        Wide { limbs }
    }

    pub fn plus(&self, other: &Wide) -> Wide {
        let pairs = self.limbs.iter().rev().zip(other.limbs.iter().rev());
        Wide::carried(pairs.map(|(a, b)| *a as u64 + *b as u64), 0)
    }

    // The difference, from a number that is not less: the other one's complement is added, and 1.
    pub fn minus(&self, other: &Wide) -> Wide {
        let pairs = self.limbs.iter().rev().zip(other.limbs.iter().rev());
        Wide::carried(pairs.map(|(a, b)| *a as u64 + !*b as u64), 1)
    }

    pub fn times(&self, factor: u32) -> Wide {
        let limbs = self.limbs.iter().rev();
        Wide::carried(limbs.map(|limb| *limb as u64 * factor as u64), 0)
    }

    // Whole limbs of zeros come in from below, and the other bits are shifted.
    pub fn doubled(&self, times: u32) -> Wide {
        let zeros = repeat_n(0, (times / 32) as usize);
        let limbs = zeros.chain(self.limbs.iter().rev().copied());
        Wide::carried(limbs.map(|limb| (limb as u64) << (times % 32)), 0)
    }
}
