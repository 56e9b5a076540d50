// A set of events, numbered 0 to 31: a word with a bit for each.
ghost use Rattle.std.specs.Prelude.{◌≡◌, ℕ, ◌<◌, ◌≤◌, false, ◌&&◌, ◌||◌, ◌==◌, nat_lt};
ghost use Rattle.sets.specs.Counting.{bit, least, tally, Least};
ghost use Rattle.sets.specs.Members.{member, alone};

use crate::word::holds;

#[derive(Clone, Copy, PartialEq, Eq, Debug)]
pub struct Events {
    word: u32,
}

impl Events {
    #[tactic(auto, using(crate::proofs::Bits::bit_of_zero))]
    pub fn none() -> Events
        ensures { (e : ℕ) → member result e ≡ false }
    {
        Events { word: 0 }
    }

    // The events that pass the test.
    pub fn from_fn<F: Fn(u8) -> bool>(test: F) -> Events
        requires { F.IsAlwaysCallable test }
        ensures { (e : ℕ) → e < 32 → F.post test e (member result e) }
    {
        Events::from_fn_below(32, test)
    }

    // The events below `end` that pass the test. It is asked of the numbers below `end` alone.
    pub fn from_fn_below<F: Fn(u8) -> bool>(end: u8, test: F) -> Events
        requires { F.IsAlwaysCallable test }
        ensures tested { (e : ℕ) → e < end → e < 32 → F.post test e (member result e) }
        ensures others { (e : ℕ) → end ≤ e → member result e ≡ false }
    {
        let mut found = Events::none();
        for event in 0..end {
            if test(event) {
                found.insert(event);
            }
        }
        found
    }

    // The set of `event` alone if it is `there`, else the empty set. Numbers from 32 on are no events.
    pub fn single(event: u8, there: bool) -> Events
        ensures { (e : ℕ) → member result e ≡ alone event there e }
    {
        if event < 32 {
            Events {
                word: single(event, there),
            }
        } else {
            Events::none()
        }
    }

    // Adds `event`. Numbers from 32 on are no events.
    pub fn insert(&mut self, event: u8)
        ensures { (e : ℕ) → member self.new e ≡ (member self.old e || (nat_lt e 32 && e == event)) }
    {
        if event < 32 {
            self.word = either(self.word, bit_alone(event));
        }
    }

    // Whether `event` is in the set. Numbers from 32 on never are.
    pub fn has(self, event: u8) -> bool
        ensures { result ≡ member self event }
    {
        holds(self.word, event)
    }

    pub fn union(self, other: Events) -> Events
        ensures { (e : ℕ) → member result e ≡ (member self e || member other e) }
    {
        Events {
            word: either(self.word, other.word),
        }
    }

    pub fn common(self, other: Events) -> Events
        ensures { (e : ℕ) → member result e ≡ (member self e && member other e) }
    {
        Events {
            word: both(self.word, other.word),
        }
    }

    // How many events the set has.
    pub fn count(self) -> u8
        ensures { result ≡ tally (member self) 32 }
    {
        ones(self.word)
    }

    pub fn lowest(self) -> Option<u8>
        ensures value { result ≡ least (member self) 32 }
        ensures least { Least (member self) 32 result }
    {
        self.lowest_below(32)
    }

    fn lowest_below(self, end: u8) -> Option<u8>
        ensures value { result ≡ least (member self) end }
        ensures least { Least (member self) end result }
    {
        (0..end).find(|event| self.has(*event))
    }
}

// What the operations on words do to their bits.

// The word with bit `place` alone if it is `there`, else 0.
#[tactic(auto, using(crate::proofs::Bits::bit_of_zero))]
fn single(place: u8, there: bool) -> u32
    requires { place < 32 }
    ensures { (k : ℕ) → bit result k ≡ (k == place && there) }
{
    if there { bit_alone(place) } else { 0 }
}

// The word with bit `place` alone.
fn bit_alone(place: u8) -> u32
    requires { place < 32 }
    ensures { (k : ℕ) → bit result k ≡ (k == place) }
{
    1 << place
}

fn either(a: u32, b: u32) -> u32
    ensures { (k : ℕ) → bit result k ≡ (bit a k || bit b k) }
{
    a | b
}

fn both(a: u32, b: u32) -> u32
    ensures { (k : ℕ) → bit result k ≡ (bit a k && bit b k) }
{
    a & b
}

// How many bits are set.
fn ones(word: u32) -> u8
    ensures { result ≡ tally (λ k. nat_lt k 32 && bit word k) 32 }
{
    word.count_ones() as u8
}
