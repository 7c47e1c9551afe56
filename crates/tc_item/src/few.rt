//! Short lists. A list of at most one item takes no memory of its own.
ghost use Rattle.std.specs.Prelude.{◌≡◌, ◌∷◌, ◌++◌, [], length, IfOk, OnOk, OnErr, IsTrue, ◌↔◌, Decides};
ghost use Rattle.std.specs.Cmp.Lexicographic.{pointwise, lists_per, lists_equiv};

use crate::NoMemory;
use std::alloc::Global;
use std::fmt;
use std::marker::Model;
use std::sync::Arc;

/// A type whose values can be copied if there is memory.
pub trait TryCopy: Drop {
    /// Returns an equal value.
    fn try_copy(&self, alloc: Global) -> Result<Self, NoMemory>
        ensures { IfOk result (λ copied. copied ≡ self.now) };
}

/// Items in order, duplicates allowed. Copies of a list of several items share one vector.
#[derive(Drop)]
pub struct Few<T> {
    held: Repr<T>,
}

/// Most lists have one item, so a single item lies in place, in an array that can be borrowed as a
/// slice.
#[derive(Drop)]
enum Repr<T> {
    Nothing,
    One([T; 1]),
    Many(Arc<Vec<T>>),
}

impl<T> Model for Few<T> {
    ghost use Rattle.std.specs.Prelude.{List};
    ghost use Rattle.tc_item.specs.FewItems.{items_held};

    ghost Value = { List T };

    ghost view = { λ f. items_held f.held };
}

/// Returns copies of `items` followed by `item`, with room for seven more.
fn lengthened<T: TryCopy>(alloc: Global, items: &[T], item: T) -> Result<Arc<Vec<T>>, NoMemory>
    ensures { IfOk result (λ shared. shared.value.items ≡ items.now ++ item ∷ []) }
{
    let mut copied = Vec::with_capacity(alloc, items.len().saturating_add(8))?;
    for item in items {
        copied.push(item.try_copy(alloc)?)?;
    }
    copied.push(item)?;
    Ok(Arc::new(alloc, copied)?)
}

/// Appends an item. Other holders of the vector keep it unchanged.
fn push_shared<T: TryCopy>(alloc: Global, shared: &mut Arc<Vec<T>>, item: T) -> Result<(), NoMemory>
    ensures pushed { OnOk result (shared.new.value.items ≡ shared.old.value.items ++ item ∷ []) }
    ensures unchanged_on_err { OnErr result (shared.new.value.items ≡ shared.old.value.items) }
{
    match Arc::get_mut(shared) {
        Some(items) => items.push(item)?,
        None => *shared = lengthened(alloc, shared.as_slice(), item)?,
    }
    Ok(())
}

impl<T> Few<T> {
    /// Returns the empty list.
    pub fn new() -> Few<T>
        ensures { result ≡ [] }
    {
        Few {
            held: Repr::Nothing,
        }
    }

    /// Returns the list of one item.
    pub fn one(item: T) -> Few<T>
        ensures { result ≡ item ∷ [] }
    {
        Few {
            held: Repr::One([item]),
        }
    }

    /// Returns the number of items.
    pub fn len(&self) -> usize
        ensures { result ≡ length self.now }
    {
        self.as_slice().len()
    }

    /// Whether the list is empty.
    pub fn is_empty(&self) -> bool
        ensures { IsTrue result ↔ (self.now ≡ []) }
    {
        self.len() == 0
    }

    /// Returns the items, in order.
    pub fn as_slice(&self) -> &[T]
        ensures { result.now ≡ self.now }
    {
        match &self.held {
            Repr::Nothing => &[],
            Repr::One(one) => one.as_slice(),
            Repr::Many(shared) => shared.as_slice(),
        }
    }
}

impl<T: TryCopy> Few<T> {
    /// Takes over the items of a vector without copying them.
    pub fn from_vec(alloc: Global, mut items: Vec<T>) -> Result<Few<T>, NoMemory>
        ensures { IfOk result (λ few. few ≡ items.items) }
    {
        if items.len() > 1 {
            let shared = Arc::new(alloc, items)?;
            return Ok(Few {
                held: Repr::Many(shared),
            });
        }
        match items.pop() {
            Some(item) => Ok(Few::one(item)),
            None => Ok(Few::new()),
        }
    }

    /// Appends an item. If memory is refused, the list is unchanged.
    pub fn push(&mut self, alloc: Global, item: T) -> Result<(), NoMemory>
        ensures pushed { OnOk result (self.new ≡ self.old ++ item ∷ []) }
        ensures unchanged_on_err { OnErr result (self.new ≡ self.old) }
    {
        match &mut self.held {
            Repr::Nothing => self.held = Repr::One([item]),
            Repr::One(_) => {
                let items = lengthened(alloc, self.as_slice(), item)?;
                self.held = Repr::Many(items);
            }
            Repr::Many(shared) => push_shared(alloc, shared, item)?,
        }
        Ok(())
    }

    /// Returns an equal list. Several items are shared, a single one is copied.
    pub fn copy(&self, alloc: Global) -> Result<Few<T>, NoMemory>
        ensures { IfOk result (λ few. few ≡ self.now) }
    {
        let held = match &self.held {
            Repr::Nothing => Repr::Nothing,
            Repr::One([item]) => Repr::One([item.try_copy(alloc)?]),
            Repr::Many(shared) => Repr::Many(shared.clone()?),
        };
        Ok(Few { held })
    }
}

/// If `==` decides equality of items, it decides equality of lists.
impl<T: PartialEq> PartialEq for Few<T> {
    ghost eq = { pointwise T.eq };

    ghost laws = { lists_per T.laws };

    fn eq(&self, other: &Few<T>) -> bool
        ensures value { result ≡ pointwise T.eq self.now other.now }
        ensures same { ((a b : T) → Decides (T.eq a b) (a ≡ b))
            → Decides result (self.now ≡ other.now) }
    {
        self.as_slice() == other.as_slice()
    }
}

impl<T: Eq> Eq for Few<T> {
    ghost laws = { lists_equiv T.Eq.laws };
}

/// The items as a list.
impl<T: fmt::Debug> fmt::Debug for Few<T> {
    fn fmt<W: fmt::Write>(&self, f: &mut fmt::Formatter<W>) -> fmt::Result {
        write!(f, "{:?}", self.as_slice())
    }
}
