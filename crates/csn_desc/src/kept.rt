ghost use Rattle.std.specs.Prelude.{◌≡◌, ◌++◌, ◌∷◌, [], IfOk, IfSome, OnOk, OnErr};
ghost use Rattle.csn_desc.specs.Kept.{items_in};

use csn_bits::NoMemory;
use std::alloc::Global;
use std::sync::Arc;

/// Up to so many items are copied: that takes no more than to share them.
const FEW: usize = 32;

/// Items in their order, which have one owner, or are shared by several. What is shared is there once.
#[derive(Drop)]
pub(crate) enum Kept<T> {
    Own(Vec<T>),
    Shared(Arc<Vec<T>, Global>),
}

impl<T> Kept<T> {
    /// No items. It takes no memory.
    pub fn new(alloc: Global) -> Kept<T>
        ensures { items_in result ≡ [] }
    {
        Kept::Own(Vec::new(alloc))
    }

    /// The items.
    pub fn as_slice(&self) -> &[T]
        ensures { result.now ≡ items_in self.now }
    {
        match self {
            Kept::Own(items) => items.as_slice(),
            Kept::Shared(items) => items.as_slice(),
        }
    }
}

impl<T: Copy> Kept<T> {
    /// The items of a slice.
    pub fn from_slice(alloc: Global, items: &[T]) -> Result<Kept<T>, NoMemory>
        ensures { IfOk result (λ kept. items_in kept ≡ items.now) }
    {
        Ok(Kept::Own(Vec::from_slice(alloc, items)?))
    }

    /// The items for one owner, who may change them.
    pub fn into_own(self) -> Result<Vec<T>, NoMemory>
        ensures { IfOk result (λ items. items.items ≡ items_in self) }
    {
        match self {
            Kept::Own(items) => Ok(items),
            Kept::Shared(items) => Ok(Vec::from_slice(*items.allocator(), items.as_slice())?),
        }
    }

    /// The items for this owner alone, where they are shared.
    fn unshared(&self) -> Result<Option<Vec<T>>, NoMemory>
        ensures { IfOk result (λ own. IfSome own (λ items. items.items ≡ items_in self.now)) }
    {
        match self {
            Kept::Own(_) => Ok(None),
            Kept::Shared(items) => Ok(Some(Vec::from_slice(*items.allocator(), items.as_slice())?)),
        }
    }

    /// Adds an item at the end. What is shared stays as it is for its other owners.
    pub fn push(&mut self, item: T) -> Result<(), NoMemory>
        ensures ok { OnOk result (items_in self.new ≡ items_in self.old ++ item ∷ []) }
        ensures err { OnErr result (items_in self.new ≡ items_in self.old) }
    {
        if let Some(own) = self.unshared()? {
            *self = Kept::Own(own);
        }
        match self {
            Kept::Own(items) => Ok(items.push(item)?),
            Kept::Shared(_) => Err(NoMemory),
        }
    }

    /// The same items. Where they are many they are shared from now on, so that a copy of them takes no memory.
    pub fn share(self) -> Result<Kept<T>, NoMemory>
        ensures { IfOk result (λ kept. items_in kept ≡ items_in self) }
    {
        match self {
            Kept::Own(items) => {
                if items.len() <= FEW {
                    return Ok(Kept::Own(items));
                }
                match Arc::new(*items.allocator(), items) {
                    Ok(shared) => Ok(Kept::Shared(shared)),
                    Err(_) => Err(NoMemory),
                }
            }
            Kept::Shared(items) => Ok(Kept::Shared(items)),
        }
    }

    /// The same items again. Where they are shared this takes no memory.
    pub fn copy(&self, alloc: Global) -> Result<Kept<T>, NoMemory>
        ensures { IfOk result (λ kept. items_in kept ≡ items_in self.now) }
    {
        match self {
            Kept::Own(items) => Kept::from_slice(alloc, items.as_slice()),
            Kept::Shared(items) => match Arc::try_clone(items) {
                Ok(shared) => Ok(Kept::Shared(shared)),
                Err(_) => Err(NoMemory),
            },
        }
    }
}
