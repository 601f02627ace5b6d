//! Whether the values of a frame are what is asked for.

ghost use Rattle.std.specs.Prelude.{◌≡◌, length, slice_get};
ghost use Rattle.x10_frame.specs.Heads.{graph_of};
ghost use Rattle.x10_frame.specs.Items.{item_of};
ghost use Rattle.x10_copy.specs.Captured.{kinds_of};
ghost use Rattle.x10_copy.specs.Fitting as spec;

use x10_frame::{FrameView, Item, NodeView, Nodes, NodesByVersion};
use x10_heap::Heap;
use x10_image::{ClassView, ImageView};
use x10_kinds::Kind;
use x10_model::Slot;

/// Whether there is such an object, and of the class.
#[inline(always)]
fn of_class(view: &FrameView, object: u32, class: u16) -> bool
    ensures { result ≡ spec.of_class (slice_get (graph_of view.now).nodes object) class }
{
    if object as usize >= view.nodes() {
        return false;
    }
    view.node(object as usize).class() == class
}

/// Whether a value is of a kind.
#[inline(always)]
fn item_fits(view: &FrameView, kind: Kind, item: &Item) -> bool
    ensures { result ≡ spec.item_fits (graph_of view.now) kind (item_of item.now) }
{
    match (kind, *item) {
        (Kind::Int, Item::Int(_)) => true,
        (Kind::Place, Item::Place(_)) => true,
        (Kind::Text, Item::Text(_)) => true,
        (Kind::Rail, Item::Rail(i)) => (i as usize) < view.rails(),
        (Kind::Obj(class), Item::Object(k)) => of_class(view, k, class),
        (Kind::Opt(class), Item::Object(k)) => of_class(view, k, class),
        (Kind::Opt(_), Item::Null) => true,
        (Kind::GRef(wanted), Item::Ref { class, .. }) => class == wanted,
        _ => false,
    }
}

/// Whether the values that are passed are of the kinds of the slots, one for each.
pub fn roots_fit(view: &FrameView, slots: &[Slot]) -> bool
    ensures { result ≡ spec.all_fit (graph_of view.now) (kinds_of slots.now)
        (graph_of view.now).roots }
{
    if view.roots() != slots.len() {
        return false;
    }
    for i in 0..slots.len() {
        if !item_fits(view, slots[i].kind, &view.root(i)) {
            return false;
        }
    }
    true
}

/// Whether a value is a global reference with this home.
fn has_home(item: &Item, at: u16) -> bool
    ensures { result ≡ spec.has_home at (item_of item.now) }
{
    match *item {
        Item::Ref { home, .. } => home == at,
        _ => false,
    }
}

/// Whether a value has this home, if the slot asks for it.
fn home_fits(slot: &Slot, item: &Item, at: u16) -> bool
    ensures { result ≡ spec.home_fits at slot.now (item_of item.now) }
{
    if slot.home_here {
        return has_home(item, at);
    }
    true
}

/// Whether the values that are passed have this home where a slot asks for it.
pub fn have_homes(view: &FrameView, slots: &[Slot], at: u16) -> bool
    requires { length (graph_of view.now).roots ≡ length slots.now }
    ensures { result ≡ spec.have_homes at slots.now (graph_of view.now).roots }
{
    for i in 0..slots.len() {
        if !home_fits(&slots[i], &view.root(i), at) {
            return false;
        }
    }
    true
}

/// Whether a value names an object that may be named, if it is a global reference with its home here.
#[inline(always)]
fn is_exported(heap: &Heap, here: u16, item: &Item) -> bool
    ensures { result ≡ spec.is_exported here heap.now.exports (item_of item.now) }
{
    match *item {
        Item::Ref { home, id, class } => {
            if home != here {
                return true;
            }
            if id as usize >= heap.exports() {
                return false;
            }
            heap.opened(id).class == class
        }
        _ => true,
    }
}

/// The same of the values that are passed.
pub fn roots_exported(view: &FrameView, heap: &Heap, here: u16) -> bool
    ensures { result ≡ spec.are_exported here heap.now.exports (graph_of view.now).roots }
{
    for i in 0..view.roots() {
        if !is_exported(heap, here, &view.root(i)) {
            return false;
        }
    }
    true
}

/// Whether all references among an object's fields may be named, where the fields are of these kinds, one for each.
#[inline(always)]
fn fields_found(
    view: &FrameView,
    heap: &Heap,
    here: u16,
    class: &ClassView,
    node: &NodeView,
) -> Option<bool>
    ensures { result ≡ spec.found (spec.all_fit (graph_of view.now) class.now node.now.fields)
        (spec.are_exported here heap.now.exports node.now.fields) }
{
    if node.fields() != class.len() {
        return None;
    }
    let mut values = node.values();
    let mut exported = true;
    for j in 0..class.len() {
        let item = values.step();
        if !item_fits(view, class.field(j), &item) {
            return None;
        }
        exported &= is_exported(heap, here, &item);
    }
    Some(exported)
}

/// The same where the object has the fields of its class.
#[inline(always)]
fn node_found(
    view: &FrameView,
    heap: &Heap,
    image: &ImageView,
    here: u16,
    node: &NodeView,
) -> Option<bool>
    ensures { result ≡ spec.found (spec.class_fits (graph_of view.now)
        (slice_get image.now.classes node.now.class) node.now.fields)
        (spec.are_exported here heap.now.exports node.now.fields) }
{
    let class = usize::from(node.class());
    if class >= image.classes() {
        return None;
    }
    fields_found(view, heap, here, &image.class(class), node)
}

/// Whether all references among the fields of objects may be named, where each object has the fields of its class. One pass.
#[inline(always)]
fn each_found(
    view: &FrameView,
    heap: &Heap,
    image: &ImageView,
    here: u16,
    nodes: &Nodes,
) -> Option<bool>
    ensures { result ≡ spec.found (spec.nodes_fit image.now.classes (graph_of view.now) nodes.now)
        (spec.nodes_exported here heap.now.exports nodes.now) }
{
    let mut exported = true;
    for k in 0..nodes.len() {
        let Some(named) = node_found(view, heap, image, here, &nodes.node(k)) else {
            return None;
        };
        exported &= named;
    }
    Some(exported)
}

/// The same of the frame's objects. The loop over them is made once for each version.
pub fn nodes_found(view: &FrameView, heap: &Heap, image: &ImageView, here: u16) -> Option<bool>
    ensures { result ≡ spec.found (spec.nodes_fit image.now.classes (graph_of view.now)
        (graph_of view.now).nodes) (spec.nodes_exported here heap.now.exports
        (graph_of view.now).nodes) }
{
    match view.nodes_by_version() {
        NodesByVersion::Narrow(nodes) => each_found(view, heap, image, here, &nodes),
        NodesByVersion::Wide(nodes) => each_found(view, heap, image, here, &nodes),
    }
}
