// The bits of a word.
ghost use Rattle.std.specs.Prelude.{◌≡◌, ◌<◌, ◌&&◌, nat_lt};
ghost use Rattle.sets.specs.Counting.{bit};

// Whether bit `place` is set. A word has no bits from 32 on.
pub fn holds(word: u32, place: u8) -> bool
    ensures { result ≡ (nat_lt place 32 && bit word place) }
{
    place < 32 && is_set(word, place)
}

fn is_set(word: u32, place: u8) -> bool
    requires { place < 32 }
    ensures { result ≡ bit word place }
{
    (word >> place) & 1 == 1
}
