ghost use Rattle.std.specs.Prelude.{◌≡◌, ◌<◌, ◌≤◌, IfOk, IfErr, length, slice_index};
ghost use Rattle.x10_kinds.specs.declared.stop.Stop.TheVariants as stop;
ghost use Rattle.x10_model.specs.declared.limits.TheConstants.{MOST_WIDE};
ghost use Rattle.x10_frame.specs.Items.{item_of as item_is};
ghost use Rattle.x10_copy.specs.Names.{no_names, item_of, noted, IsWord, IsFound};
ghost use Rattle.x10_copy.specs.Captured.{IsOver};

use crate::numbers::Numbers;
use std::alloc::Global;
use std::marker::Model;
use x10_frame::Item;
use x10_heap::{home_in, id_in};
use x10_kinds::{Kind, Limit, Stop};

/// Which texts, rails and objects of a heap the message that is written last takes along. A place has one of these for all its
/// messages. Clauses see the numbers in the heap, each list in the order of the numbers in the message.
#[derive(Drop)]
pub struct Marks {
    texts: Numbers,
    rails: Numbers,
    objects: Numbers,
    /// How many bytes what was met so far takes in the message, without the tags of the words that are passed, texts and rails.
    /// No clause speaks of it: it matters only for room.
    size: usize,
}

impl Model for Marks {
    ghost use Rattle.x10_copy.specs.Names.{Names};

    ghost Value = { Names };

    ghost view = { λ m. record { texts = m.texts; rails = m.rails; objects = m.objects } };
}

/// How many bytes a word takes in a message after its tag.
#[inline(always)]
fn untagged_size(kind: Kind, word: u64) -> usize {
    match kind {
        Kind::Int | Kind::GRef(_) => 8,
        Kind::Place => 2,
        Kind::Opt(_) if word == 0 => 0,
        _ => 4,
    }
}

impl Marks {
    /// Nothing is taken along. Takes no memory.
    pub fn new(alloc: Global) -> Marks
        ensures { result ≡ no_names }
    {
        Marks {
            texts: Numbers::new(alloc),
            rails: Numbers::new(alloc),
            objects: Numbers::new(alloc),
            size: 0,
        }
    }

    /// Nothing is taken along any more. The memory is kept.
    pub(crate) fn clear(&mut self)
        ensures { self.new ≡ no_names }
    {
        self.texts.clear();
        self.rails.clear();
        self.objects.clear();
        self.size = 0;
    }

    /// How many bytes what was met takes in the message, without the tags of the words that are passed, texts and rails.
    pub(crate) fn size(&self) -> usize {
        self.size
    }

    /// `bytes` more bytes are taken.
    #[inline(always)]
    pub(crate) fn take_room(&mut self, bytes: usize)
        ensures { self.new ≡ self.old }
    {
        self.size = self.size.wrapping_add(bytes);
    }

    pub(crate) fn texts(&self) -> usize
        ensures value { result ≡ length self.now.texts }
        ensures few { result ≤ MOST_WIDE }
    {
        self.texts.len()
    }

    pub(crate) fn rails(&self) -> usize
        ensures value { result ≡ length self.now.rails }
        ensures few { result ≤ MOST_WIDE }
    {
        self.rails.len()
    }

    #[inline(always)]
    pub(crate) fn objects(&self) -> usize
        ensures value { result ≡ length self.now.objects }
        ensures few { result ≤ MOST_WIDE }
    {
        self.objects.len()
    }

    pub(crate) fn text(&self, i: usize) -> u32
        requires { i < length self.now.texts }
        ensures { result ≡ slice_index self.now.texts i }
    {
        self.texts.part(i)
    }

    pub(crate) fn rail(&self, i: usize) -> u32
        requires { i < length self.now.rails }
        ensures { result ≡ slice_index self.now.rails i }
    {
        self.rails.part(i)
    }

    #[inline(always)]
    pub(crate) fn object(&self, k: usize) -> u32
        requires { k < length self.now.objects }
        ensures { result ≡ slice_index self.now.objects k }
    {
        self.objects.part(k)
    }

    /// Takes along what a word leads to.
    #[inline(always)]
    pub(crate) fn note(&mut self, kind: Kind, word: u64) -> Result<(), Stop>
        requires { IsWord kind word }
        ensures ok { IfOk result (λ _. self.new ≡ noted self.old kind word) }
        ensures err { IfErr result (λ why. IsOver (noted self.old kind word) why) }
    {
        self.size = self.size.wrapping_add(untagged_size(kind, word));
        match kind {
            Kind::Int | Kind::Place | Kind::GRef(_) => Ok(()),
            Kind::Text => self.texts.note(word as u32, Limit::FrameTexts),
            Kind::Rail => self.rails.note(word as u32, Limit::FrameRails),
            Kind::Obj(_) => self.objects.note((word - 1) as u32, Limit::FrameObjects),
            Kind::Opt(_) => {
                if word == 0 {
                    return Ok(());
                }
                self.objects.note((word - 1) as u32, Limit::FrameObjects)
            }
        }
    }

    /// What a word is in the message that takes along what it leads to.
    #[inline(always)]
    pub(crate) fn item(&self, kind: Kind, word: u64) -> Item
        requires word { IsWord kind word }
        requires found { IsFound self.now kind word }
        ensures { item_is result ≡ item_of self.now kind word }
    {
        match kind {
            Kind::Int => Item::Int(word.cast_signed()),
            Kind::Place => Item::Place(word as u16),
            Kind::Text => Item::Text(self.texts.number(word as u32)),
            Kind::Rail => Item::Rail(self.rails.number(word as u32)),
            Kind::Obj(_) => Item::Object(self.objects.number((word - 1) as u32)),
            Kind::Opt(_) => {
                if word == 0 {
                    return Item::Null;
                }
                Item::Object(self.objects.number((word - 1) as u32))
            }
            Kind::GRef(class) => Item::Ref {
                home: home_in(word),
                id: id_in(word),
                class,
            },
        }
    }
}
