//! Random heaps, of which parts go along and arrive: both are walked, side by side.
use crate::sources::{assembled, image_of};
use std::alloc::{AllocError, Global};
use std::process::Abort;
use std::test::*;
use x10_copy::{Marks, Roots, arrive, capture, heap_is_sound, words_are_sound};
use x10_frame::{FrameView, Head, What};
use x10_heap::Heap;
use x10_image::{ClassView, ImageView};
use x10_kinds::Kind;
use x10_model::{Finish, Slot};

/// Fields of each kind.
const CLASSES: &str = "places 2
class opt:0 obj:1 text
class rail opt:1 int gref:2
class
class opt:3 obj:0 obj:2 text rail place
func 1 0 none
RET 0
end
entry 0
";

/// How many random heaps there are.
const HEAPS: u64 = 1_000;

/// Numbers that look random.
#[derive(Drop)]
struct Dice {
    state: u64,
}

impl Dice {
    fn new(seed: u64) -> Dice {
        Dice {
            state: seed.wrapping_mul(0x9e37_79b9_7f4a_7c15) | 1,
        }
    }

    fn next(&mut self) -> u64 {
        self.state ^= self.state << 13;
        self.state ^= self.state >> 7;
        self.state ^= self.state << 17;
        self.state
    }

    fn byte(&mut self) -> u8 {
        (self.next() % 256) as u8
    }

    fn below(&mut self, count: u64) -> u64 {
        self.next().checked_rem(count).unwrap_or(0)
    }
}

/// How many parts a heap has: texts, rails, and objects of each of the four classes. Object n is of class n % 4.
#[derive(Clone, Copy)]
struct Counts {
    texts: u64,
    rails: u64,
    fours: u64,
}

/// A word for a kind.
fn word(dice: &mut Dice, counts: &Counts, kind: Kind) -> u64 {
    match kind {
        Kind::Int => dice.next(),
        Kind::Place => dice.below(2),
        Kind::Text => dice.below(counts.texts),
        Kind::Rail => dice.below(counts.rails),
        Kind::Obj(class) => object_word(dice, counts, class),
        Kind::Opt(class) => {
            if dice.below(3) == 0 {
                return 0;
            }
            object_word(dice, counts, class)
        }
        Kind::GRef(_) => dice
            .below(3)
            .wrapping_mul(65_536)
            .wrapping_add(dice.below(2)),
    }
}

fn object_word(dice: &mut Dice, counts: &Counts, class: u16) -> u64 {
    let four = dice.below(counts.fours).wrapping_mul(4);
    four.wrapping_add(u64::from(class)).wrapping_add(1)
}

/// Texts of which many are equal, and rails.
fn add_bytes(heap: &mut Heap, dice: &mut Dice, counts: &Counts) -> Option<()> {
    for _ in 0..counts.texts {
        let text = if dice.below(2) == 0 { "same" } else { "" };
        heap.new_text(text).ok()?;
    }
    for _ in 0..counts.rails {
        let rail = heap.new_rail(u16::from(dice.byte() % 4)).ok()?;
        if (rail as usize) < heap.rails() {
            heap.rail_set(rail, 1, dice.byte());
        }
    }
    Some(())
}

/// An object of a class with random fields.
fn add_object(
    heap: &mut Heap,
    dice: &mut Dice,
    counts: &Counts,
    class: &ClassView,
    number: u16,
) -> Option<()> {
    let mut words = [0u64; 16];
    let len = class.len().min(16);
    for j in 0..len {
        words[j] = word(dice, counts, class.field(j));
    }
    heap.new_object(number, &words[..len]).ok()?;
    Some(())
}

/// An object of each class.
fn add_four(heap: &mut Heap, dice: &mut Dice, image: &ImageView, counts: &Counts) -> Option<()> {
    for class in 0..4u16 {
        let number = usize::from(class);
        if number < image.classes() {
            add_object(heap, dice, counts, &image.class(number), class)?;
        }
    }
    Some(())
}

fn random_heap(alloc: Global, dice: &mut Dice, image: &ImageView, counts: &Counts) -> Option<Heap> {
    let mut heap = Heap::new(alloc);
    add_bytes(&mut heap, dice, counts)?;
    for _ in 0..counts.fours {
        add_four(&mut heap, dice, image, counts)?;
    }
    Some(heap)
}

/// Three objects of class 2 that global references name, after other parts.
fn host(alloc: Global) -> Option<Heap> {
    let mut heap = Heap::new(alloc);
    heap.new_text("here").ok()?;
    heap.new_rail(1).ok()?;
    for _ in 0..3 {
        let object = heap.new_object(2, &[]).ok()?;
        if (object as usize) < heap.objects() {
            heap.export(object).ok()?;
        }
    }
    Some(heap)
}

/// The kinds of what goes along.
fn slots() -> [Slot; 8] {
    let of = |kind: Kind| Slot {
        kind,
        home_here: false,
    };
    [
        of(Kind::Opt(3)),
        of(Kind::Text),
        of(Kind::Obj(0)),
        of(Kind::Rail),
        of(Kind::Opt(1)),
        of(Kind::Int),
        of(Kind::GRef(2)),
        of(Kind::Opt(3)),
    ]
}

fn random_words(dice: &mut Dice, counts: &Counts, slots: &[Slot; 8]) -> [u64; 8] {
    let mut words = [0; 8];
    for i in 0..8 {
        words[i] = word(dice, counts, slots[i].kind);
    }
    words
}

/// Which part of one heap is which of the other: one more than its number there, or 0.
#[derive(Drop)]
struct Pairs {
    there: Vec<u64>,
    back: Vec<u64>,
    count: usize,
}

impl Pairs {
    fn new(alloc: Global, from: usize, to: usize) -> Result<Pairs, AllocError> {
        Ok(Pairs {
            there: Vec::from_elem(alloc, 0, from)?,
            back: Vec::from_elem(alloc, 0, to)?,
            count: 0,
        })
    }

    /// Whether two parts were no pair yet and are one now; none where one of them is another's, or isn't there.
    fn meet(&mut self, from: u64, to: u64) -> Option<bool> {
        let there = self.there.get(from as usize).copied()?;
        let back = self.back.get(to as usize).copied()?;
        if there == 0 && back == 0 {
            *self.there.get_mut(from as usize)? = to.wrapping_add(1);
            *self.back.get_mut(to as usize)? = from.wrapping_add(1);
            self.count = self.count.wrapping_add(1);
            return Some(true);
        }
        if there == to.wrapping_add(1) && back == from.wrapping_add(1) {
            return Some(false);
        }
        None
    }
}

/// A walk through two heaps at once.
#[derive(Drop)]
struct Walk {
    objects: Pairs,
    texts: Pairs,
    rails: Pairs,
    todo: Vec<(u32, u32)>,
}

impl Walk {
    fn new(alloc: Global, from: &Heap, to: &Heap) -> Result<Walk, AllocError> {
        Ok(Walk {
            objects: Pairs::new(alloc, from.objects(), to.objects())?,
            texts: Pairs::new(alloc, from.texts(), to.texts())?,
            rails: Pairs::new(alloc, from.rails(), to.rails())?,
            todo: Vec::new(alloc),
        })
    }

    /// Whether two words of a kind lead to the same, as far as what they lead to is looked at by itself.
    fn same(&mut self, from: &Heap, to: &Heap, kind: Kind, here: u64, there: u64) -> bool {
        match kind {
            Kind::Int | Kind::Place | Kind::GRef(_) => here == there,
            Kind::Text => self.texts.meet(here, there).is_some()
                && same_text(from, to, here, there),
            Kind::Rail => self.rails.meet(here, there).is_some()
                && same_rail(from, to, here, there),
            Kind::Obj(_) => self.objects_meet(here, there),
            Kind::Opt(_) => here == 0 && there == 0 || self.objects_meet(here, there),
        }
    }

    /// Whether two words of objects lead to a pair; it will be looked at where it wasn't one yet.
    fn objects_meet(&mut self, here: u64, there: u64) -> bool {
        let (Some(from), Some(to)) = (here.checked_sub(1), there.checked_sub(1)) else {
            return false;
        };
        match self.objects.meet(from, to) {
            None => false,
            Some(false) => true,
            Some(true) => self.look_at(from, to),
        }
    }

    fn look_at(&mut self, from: u64, to: u64) -> bool {
        let (Ok(from), Ok(to)) = (u32::try_from(from), u32::try_from(to)) else {
            return false;
        };
        self.todo.push((from, to)).is_ok()
    }

    /// Whether two objects have the same class and fields.
    fn same_object(&mut self, image: &ImageView, from: &Heap, to: &Heap, pair: (u32, u32)) -> bool {
        if pair.0 as usize >= from.objects() || pair.1 as usize >= to.objects() {
            return false;
        }
        let class = from.class(pair.0);
        if to.class(pair.1) != class || usize::from(class) >= image.classes() {
            return false;
        }
        let fields = image.class(usize::from(class));
        let (here, there) = (from.fields(pair.0), to.fields(pair.1));
        if here.len() != fields.len() || there.len() != fields.len() {
            return false;
        }
        for j in 0..fields.len() {
            if !self.same(from, to, fields.field(j), here[j], there[j]) {
                return false;
            }
        }
        true
    }

    /// Whether all that was met is the same, and no pair is left.
    fn ends(&mut self, image: &ImageView, from: &Heap, to: &Heap) -> bool {
        for _ in 0..=from.objects() {
            let Some(pair) = self.todo.pop() else {
                return true;
            };
            if !self.same_object(image, from, to, pair) {
                return false;
            }
        }
        false
    }
}

fn same_text(from: &Heap, to: &Heap, here: u64, there: u64) -> bool {
    if here >= from.texts() as u64 || there >= to.texts() as u64 {
        return false;
    }
    from.text(here as u32) == to.text(there as u32)
}

fn same_rail(from: &Heap, to: &Heap, here: u64, there: u64) -> bool {
    if here >= from.rails() as u64 || there >= to.rails() as u64 {
        return false;
    }
    from.rail(here as u32) == to.rail(there as u32)
}

/// Whether the roots lead to copies of what the words lead to, and nothing else was added after the first `before` objects.
fn is_copy(
    alloc: Global,
    image: &ImageView,
    from: &Heap,
    to: &Heap,
    words: &[u64; 8],
    roots: &Roots,
    before: usize,
) -> bool {
    let Ok(mut walk) = Walk::new(alloc, from, to) else {
        return false;
    };
    let slots = slots();
    if roots.len() != 8 {
        return false;
    }
    for i in 0..8 {
        if !walk.same(from, to, slots[i].kind, words[i], roots[i]) {
            return false;
        }
    }
    walk.ends(image, from, to) && to.objects() == before.wrapping_add(walk.objects.count)
}

/// The frame of a new activity at place 1 that takes words of a heap along.
fn sent(
    alloc: Global,
    rt: &impl Abort,
    image: &ImageView,
    marks: &mut Marks,
    from: &Heap,
    words: &[u64; 8],
) -> Option<Vec<u8>> {
    let slots = slots();
    assert!(rt; heap_is_sound(from, image, 2));
    assert!(rt; words_are_sound(from, 2, &slots, words));
    let under = Finish { home: 0, number: 1 };
    let head = Head {
        from: 0,
        to: 1,
        what: What::Spawn { under, function: 0 },
    };
    capture(alloc, marks, from, image, 2, &head, &slots, words).ok()
}

/// Whether a frame brings a copy of the words of a heap to another one.
fn is_brought(
    alloc: Global,
    image: &ImageView,
    from: &Heap,
    words: &[u64; 8],
    frame: &[u8],
    to: &mut Heap,
) -> Option<bool> {
    let view = FrameView::read(alloc, frame, 2).ok()?;
    let before = to.objects();
    let roots = arrive(alloc, &view, to, image, 1, 1, &slots()).ok()?;
    Some(is_copy(alloc, image, from, to, words, &roots, before))
}

/// Whether what a random heap sends arrives as a copy.
fn arrives(
    alloc: Global,
    rt: &impl Abort,
    image: &ImageView,
    marks: &mut Marks,
    seed: u64,
) -> Option<bool> {
    let mut dice = Dice::new(seed);
    let counts = Counts {
        texts: dice.below(4).wrapping_add(1),
        rails: dice.below(4).wrapping_add(1),
        fours: dice.below(6).wrapping_add(1),
    };
    let from = random_heap(alloc, &mut dice, image, &counts)?;
    let words = random_words(&mut dice, &counts, &slots());
    let frame = sent(alloc, rt, image, marks, &from, &words)?;
    let mut to = host(alloc)?;
    is_brought(alloc, image, &from, &words, &frame, &mut to)
}

#[test]
fn random_heaps_arrive(rt: HostRuntime) -> Result<(), Fail> {
    let bytes = assembled(rt.alloc(), CLASSES)?;
    let image = image_of(rt.alloc(), &bytes)?;
    let mut marks = Marks::new(rt.alloc());
    for seed in 1..=HEAPS {
        let answer = arrives(rt.alloc(), &rt, &image, &mut marks, seed);
        assert!(rt; answer == Some(true), "seed {seed}");
    }
    Ok(())
}
