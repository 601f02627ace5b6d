//! A graph with parts that are shared, objects that lead back to themselves, and parts that nothing reaches.

/// A class of each kind of field, one of 16 fields, one of none, and one with a global reference.
pub const MIXED: &str = "places 2
class opt:0 obj:0 text rail
class int int int int int int int int int int int int int int int int
class
class gref:2 place
func 1 0 none
RET 0
end
entry 0
";

/// The objects of the graph: of which class, and what its fields hold.
const OBJECTS: &[(u16, &[u64])] = &[
    (2, &[]),
    (0, &[3, 4, 1, 1]),
    (0, &[0, 5, 1, 1]),
    (0, &[5, 4, 2, 1]),
    (0, &[2, 5, 2, 1]),
    (
        1,
        &[0, 1, 2, 3, 4, 5, 6, 7, 8, 9, 10, 11, 12, 13, 14, u64::MAX],
    ),
    (2, &[]),
];

/// The words that go along: objects, a null, one text twice and one that is equal to it, a rail, numbers, places and global
/// references of both places.
const WORDS: [u64; 16] = [2, 0, 1, 2, 1, 1, u64::MAX, 1, 0, 1, 6, 5, 2, 0, 0, 0];

/// Their frame: the objects 1, 5, 4, 2 and 3 of the graph in this order, its texts 1 and 2, and its rail 1.
const SHARED: [u8; 369] = [
    2, 1, 0, 0, 0, 1, 0, 0, 0, 0, 0, 1, 0, 0, 0, 16, 0, 0, 0, 2, 0, 0, 0, 1, 0, 0, 0, 5, 5, 0, 0,
    0, 0, 6, 3, 0, 0, 0, 0, 3, 0, 0, 0, 1, 3, 0, 0, 0, 0, 4, 0, 0, 0, 0, 1, 255, 255, 255, 255,
    255, 255, 255, 255, 2, 0, 1, 7, 0, 0, 0, 0, 0, 0, 0, 2, 7, 0, 1, 0, 0, 0, 0, 0, 2, 5, 0, 0, 0,
    1, 5, 0, 0, 0, 2, 5, 0, 0, 0, 0, 1, 0, 0, 0, 0, 0, 0, 0, 0, 2, 0, 0, 6, 0, 0, 0, 4, 115, 97,
    109, 101, 0, 0, 0, 4, 115, 97, 109, 101, 0, 0, 0, 2, 0, 0, 0, 0, 4, 5, 0, 0, 0, 3, 5, 0, 0, 0,
    4, 3, 0, 0, 0, 0, 4, 0, 0, 0, 0, 0, 1, 16, 1, 0, 0, 0, 0, 0, 0, 0, 0, 1, 0, 0, 0, 0, 0, 0, 0,
    1, 1, 0, 0, 0, 0, 0, 0, 0, 2, 1, 0, 0, 0, 0, 0, 0, 0, 3, 1, 0, 0, 0, 0, 0, 0, 0, 4, 1, 0, 0, 0,
    0, 0, 0, 0, 5, 1, 0, 0, 0, 0, 0, 0, 0, 6, 1, 0, 0, 0, 0, 0, 0, 0, 7, 1, 0, 0, 0, 0, 0, 0, 0, 8,
    1, 0, 0, 0, 0, 0, 0, 0, 9, 1, 0, 0, 0, 0, 0, 0, 0, 10, 1, 0, 0, 0, 0, 0, 0, 0, 11, 1, 0, 0, 0,
    0, 0, 0, 0, 12, 1, 0, 0, 0, 0, 0, 0, 0, 13, 1, 0, 0, 0, 0, 0, 0, 0, 14, 1, 255, 255, 255, 255,
    255, 255, 255, 255, 0, 0, 4, 5, 0, 0, 0, 0, 5, 0, 0, 0, 2, 3, 0, 0, 0, 1, 4, 0, 0, 0, 0, 0, 0,
    4, 6, 5, 0, 0, 0, 2, 3, 0, 0, 0, 0, 4, 0, 0, 0, 0, 0, 0, 4, 5, 0, 0, 0, 2, 5, 0, 0, 0, 4, 3, 0,
    0, 0, 1, 4, 0, 0, 0, 0,
];

/// The objects, of which a proof sees only the type; so the words and the frame.
pub fn mixed_objects() -> &'static [(u16, &'static [u64])] {
    OBJECTS
}

/// The words that go along.
pub fn mixed_words() -> &'static [u64] {
    &WORDS
}

/// The frame of a new activity at place 1 that takes them along.
pub fn mixed_frame() -> &'static [u8] {
    &SHARED
}
