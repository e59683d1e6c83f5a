//! A direct-mapped cache of where the words of an image are in a table.
//!
//! An extent is a run of words that are adjacent in one version's image and in the table too. It is inserted for a place of the image,
//! into the slot of that place, and evicts what the slot had. The cache has places alone, and no word. All that it has is of one
//! version, which `set_version` changes.

ghost use Rattle.std.specs.Prelude.{◌≡◌, ◌≢◌, ◌<◌, ◌≤◌, ◌⊎◌, IfOk, IfSome, IsNone, Some, slice_get, slice_set};
ghost use Rattle.config_image.specs.declared.pages.cache.Extent.{Extent};
ghost use Rattle.config_image.specs.Cache.{Holds, IsCached, slot_of};

use std::alloc::{AllocError, Global};
use std::marker::Model;

// The number of slots. Places that are less than 1023 apart have different slots (`slots_apart`).
const SLOTS: usize = 1024;

/// A run of words of an image, and their places in a table.
#[derive(Clone, Copy, Debug, PartialEq, Eq)]
pub struct Extent {
    /// The number of the version whose image has the words.
    pub version: u64,
    /// The place of the first word in the image, counted from 0.
    pub at: usize,
    /// The place in the image after the last word.
    pub end: usize,
    /// The difference between the place of each word in the table and its place in the image.
    pub shift: usize,
}

/// The cache of one reader: the first word of one version's row, its header, and extents of its image.
///
/// A header is never 0, so 0 means that the cache has none.
/// The reason: docs/INTERNALS.md, "A worker caches where words were found".
#[derive(Drop)]
pub struct ExtentCache {
    version: u64,
    form: u64,
    extents: Vec<Extent>,
}

impl Model for ExtentCache {
    ghost use Rattle.std.specs.Prelude.{◌≡◌, ◌≤◌, length};
    ghost use Rattle.std.specs.List.{All};
    ghost use Rattle.config_image.specs.Cache.{CacheValue};
    ghost use Rattle.config_image.specs.declared.pages.cache.TheConstants.{SLOTS};

    ghost Value = { CacheValue };

    ghost view = { λ cache. record { version = cache.version; form = cache.form; extents = cache.extents.items } };

    ghost invariant = { λ cache. (length cache.extents.items ≡ SLOTS) × All (λ extent. extent.version ≤ cache.version) cache.extents.items };
}

// The slot of a place.
#[inline(always)]
fn slot(place: usize) -> usize
    ensures slot { result ≡ slot_of place }
{
    (place % SLOTS + place / SLOTS) % SLOTS
}

impl ExtentCache {
    /// Makes an empty cache of version 0.
    pub fn new(alloc: Global) -> Result<ExtentCache, AllocError>
        ensures version { IfOk result (λ cache. cache.version ≡ 0) }
        ensures no_form { IfOk result (λ cache. cache.form ≡ 0) }
        ensures empty { IfOk result (λ cache. (extent : Extent) → IsCached cache extent → ⊥) }
    {
        let nothing = Extent {
            version: 0,
            at: 0,
            end: 0,
            shift: 0,
        };
        let extents = vec![in alloc; nothing; SLOTS]?;
        Ok(ExtentCache {
            version: 0,
            form: 0,
            extents,
        })
    }

    /// Returns the version whose extents the cache has.
    pub fn version(&self) -> u64
        ensures version { result ≡ self.now.version }
    {
        self.version
    }

    /// Returns the first word of the version's row, or 0 if the cache has none.
    #[inline(always)]
    pub fn form(&self) -> u64
        ensures form { result ≡ self.now.form }
    {
        self.form
    }

    /// Puts the first word of the version's row into the cache.
    pub fn set_form(&mut self, form: u64)
        ensures kept { self.new ≡ record self.old { form = form } }
    {
        self.form = form;
    }

    /// Looks up a place: a hit is an extent in its slot that is of the cache's version and has the place. The extent was inserted
    /// for this place, or for another one of the slot.
    #[inline(always)]
    pub fn lookup(&self, place: usize) -> Option<Extent>
        ensures kept { IfSome result (λ extent. IsCached self.now extent × Holds extent place) }
        ensures of_slot { IfSome result (λ extent. slice_get self.now.extents (slot_of place) ≡ Some extent) }
        ensures none { IsNone result → (extent : Extent) → slice_get self.now.extents (slot_of place) ≡ Some extent → extent.version ≡ self.now.version → Holds extent place → ⊥ }
    {
        let extent = self.extents[slot(place)];
        if extent.version == self.version && extent.at <= place && place < extent.end {
            Some(extent)
        } else {
            None
        }
    }

    /// Inserts an extent of the cache's version for a place of it, and evicts what the place's slot had.
    pub fn insert(&mut self, place: usize, extent: Extent)
        requires version { extent.version ≡ self.old.version }
        requires holds { Holds extent place }
        ensures version { self.new.version ≡ self.old.version }
        ensures form { self.new.form ≡ self.old.form }
        ensures kept { self.new.extents ≡ slice_set self.old.extents (slot_of place) extent }
        ensures others { (other : Extent) → IsCached self.new other → (other ≡ extent) ⊎ IsCached self.old other }
        ensures hit { slice_get self.new.extents (slot_of place) ≡ Some extent }
    {
        self.extents[slot(place)] = extent;
    }

    /// Sets the version. The same one changes nothing, and a later one empties the cache.
    #[inline(always)]
    pub fn set_version(&mut self, version: u64)
        requires later { self.old.version ≤ version }
        ensures version { self.new.version ≡ version }
        ensures same { self.old.version ≡ version → self.new ≡ self.old }
        ensures forgets_form { self.old.version ≢ version → self.new.form ≡ 0 }
        ensures forgets_extents { self.old.version ≢ version → (extent : Extent) → IsCached self.new extent → ⊥ }
    {
        if self.version != version {
            self.version = version;
            self.form = 0;
        }
    }
}
