//! Global references in words.
ghost use Rattle.std.specs.Prelude.{◌≡◌, ◌<◌, ◌^◌, nat_lt};
ghost use Rattle.x10_heap.specs.References.{home_of, id_of, reference_word};

/// How many homes there might be: ids stand above them.
const HOMES: u64 = 65_536;

/// The word of a global reference.
#[inline(always)]
pub fn reference(home: u16, id: u32) -> u64
    ensures { result ≡ reference_word home id }
{
    u64::from(home) + HOMES * u64::from(id)
}

/// The place that a word stands for: the home of a global reference, or the place whose word it is.
#[inline(always)]
pub fn home_in(word: u64) -> u16
    ensures { result ≡ home_of word }
{
    (word % HOMES) as u16
}

/// The id in the word of a global reference.
#[inline(always)]
pub fn id_in(word: u64) -> u32
    requires { id_of word < 2 ^ 32 }
    ensures { result ≡ id_of word }
{
    (word / HOMES) as u32
}

/// Whether a word has an id that there may be.
#[inline(always)]
pub fn has_id(word: u64) -> bool
    ensures { result ≡ nat_lt (id_of word) (2 ^ 32) }
{
    word / HOMES < 1 << 32
}
