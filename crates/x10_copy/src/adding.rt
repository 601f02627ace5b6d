//! Putting the parts of a frame into a heap.

ghost use Rattle.std.specs.Prelude.{◌≡◌, ◌≤◌, [], ◌∷◌, IfOk, IfErr, length, map};
ghost use Rattle.x10_kinds.specs.declared.limit.Limit.TheVariants as limits;
ghost use Rattle.x10_frame.specs.Heads.{graph_of};
ghost use Rattle.x10_frame.specs.Items.{item_of};
ghost use Rattle.x10_copy.specs.Arrived.{word_at, object_from, with_texts, with_rails, with_objects, IsLonger, Stops};

use smallvec::SmallVec;
use std::alloc::{AllocError, Global};
use x10_frame::{FrameView, Item, NodeView, Nodes, NodesByVersion};
use x10_heap::{Heap, reference};
use x10_kinds::Stop;

/// The values that were passed, as words.
pub type Roots = SmallVec<u64, 8>;

/// How many texts, rails and objects a heap has before a frame's are added.
#[derive(Clone, Copy)]
pub struct Bases {
    pub texts: u32,
    pub rails: u32,
    pub objects: u32,
}

impl Bases {
    /// The word of a value of the frame.
    #[inline(always)]
    fn word(&self, item: &Item) -> u64
        ensures { result ≡ word_at self.now.texts self.now.rails self.now.objects
            (item_of item.now) }
    {
        match *item {
            Item::Int(number) => number.cast_unsigned(),
            Item::Place(place) => u64::from(place),
            Item::Text(i) => u64::from(self.texts) + u64::from(i),
            Item::Rail(i) => u64::from(self.rails) + u64::from(i),
            Item::Object(k) => u64::from(self.objects) + u64::from(k) + 1,
            Item::Null => 0,
            Item::Ref { home, id, .. } => reference(home, id),
        }
    }
}

/// The texts of the frame, each copied once.
pub fn add_texts(heap: &mut Heap, view: &FrameView) -> Result<(), Stop>
    ensures ok { IfOk result (λ _. heap.new ≡ with_texts heap.old (graph_of view.now).texts) }
    ensures err { IfErr result (λ why. IsLonger heap.old heap.new
        × Stops limits.Texts (length heap.old.texts) (length (graph_of view.now).texts) why) }
{
    for i in 0..view.texts() {
        heap.new_text(view.text(i))?;
    }
    Ok(())
}

/// The rails of the frame, each copied once.
pub fn add_rails(heap: &mut Heap, view: &FrameView) -> Result<(), Stop>
    ensures ok { IfOk result (λ _. heap.new ≡ with_rails heap.old (graph_of view.now).rails) }
    ensures err { IfErr result (λ why. IsLonger heap.old heap.new
        × Stops limits.Rails (length heap.old.rails) (length (graph_of view.now).rails) why) }
{
    for i in 0..view.rails() {
        heap.copy_rail(view.rail(i))?;
    }
    Ok(())
}

/// The words of an object's fields.
#[inline(always)]
fn put_words(words: &mut [u64], node: &NodeView, bases: &Bases)
    requires { length words.old ≡ length node.now.fields }
    ensures { words.new ≡ map (word_at bases.now.texts bases.now.rails bases.now.objects)
        node.now.fields }
{
    let mut values = node.values();
    for j in 0..node.fields() {
        words[j] = bases.word(&values.step());
    }
}

/// An object of the frame.
#[inline(always)]
fn add_object(heap: &mut Heap, node: &NodeView, bases: &Bases) -> Result<u32, Stop>
    requires { length node.now.fields ≤ 16 }
    ensures ok { IfOk result (λ _. heap.new ≡ with_objects heap.old
        (object_from bases.now.texts bases.now.rails bases.now.objects node.now ∷ [])) }
    ensures err { IfErr result (λ why. (heap.new ≡ heap.old)
        × Stops limits.Objects (length heap.old.objects) 1 why) }
{
    let mut words = [0u64; 16];
    let fields = &mut words[..node.fields()];
    put_words(fields, node, bases);
    heap.new_object(node.class(), fields)
}

/// The objects of a frame.
#[inline(always)]
fn add_each(heap: &mut Heap, nodes: &Nodes, bases: &Bases) -> Result<(), Stop>
    ensures ok { IfOk result (λ _. heap.new ≡ with_objects heap.old
        (map (object_from bases.now.texts bases.now.rails bases.now.objects) nodes.now)) }
    ensures err { IfErr result (λ why. IsLonger heap.old heap.new
        × Stops limits.Objects (length heap.old.objects) (length nodes.now) why) }
{
    for k in 0..nodes.len() {
        add_object(heap, &nodes.node(k), bases)?;
    }
    Ok(())
}

/// The objects of the frame. The loop over them is made once for each version.
pub fn add_objects(heap: &mut Heap, view: &FrameView, bases: &Bases) -> Result<(), Stop>
    ensures ok { IfOk result (λ _. heap.new ≡ with_objects heap.old
        (map (object_from bases.now.texts bases.now.rails bases.now.objects)
        (graph_of view.now).nodes)) }
    ensures err { IfErr result (λ why. IsLonger heap.old heap.new
        × Stops limits.Objects (length heap.old.objects) (length (graph_of view.now).nodes) why) }
{
    match view.nodes_by_version() {
        NodesByVersion::Narrow(nodes) => add_each(heap, &nodes, bases),
        NodesByVersion::Wide(nodes) => add_each(heap, &nodes, bases),
    }
}

/// The words of the values that were passed.
pub fn root_words(alloc: Global, view: &FrameView, bases: &Bases) -> Result<Roots, AllocError>
    ensures { IfOk result (λ words. words.items ≡ map
        (word_at bases.now.texts bases.now.rails bases.now.objects) (graph_of view.now).roots) }
{
    let mut words = SmallVec::new(alloc);
    for i in 0..view.roots() {
        words.push(bases.word(&view.root(i)))?;
    }
    Ok(words)
}
