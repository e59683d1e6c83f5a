//! The cache of extents: hits, misses, evictions, and the entries that another version drops.

ghost use Rattle.std.specs.Prelude.{◌≡◌};

use config_image::{Extent, ExtentCache};
use std::alloc::Global;
use std::process::Abort;

const EXTENT: Extent = Extent {
    version: 0,
    at: 10,
    end: 26,
    shift: 131_127,
};

// Its place shares a slot with place 1.
const FAR: Extent = Extent {
    version: 0,
    at: 1024,
    end: 1030,
    shift: 131_200,
};

fn empty_cache(rt: &impl Abort, alloc: Global) -> ExtentCache
    ensures version { result.version ≡ 0 }
{
    ExtentCache::new(alloc).expect(rt, "memory")
}

// A lookup of a place finds this.
fn finds(rt: &impl Abort, cache: &ExtentCache, place: usize, found: Option<Extent>) {
    assert!(rt; cache.lookup(place) == found);
}

#[test]
fn extent_is_found_for_its_place(rt: HostRuntime) {
    let mut cache = empty_cache(&rt, rt.alloc());
    finds(&rt, &cache, 10, None);
    cache.insert(10, EXTENT);
    finds(&rt, &cache, 10, Some(EXTENT));
    // It was not kept for this place of it.
    finds(&rt, &cache, 11, None);
    cache.insert(25, EXTENT);
    finds(&rt, &cache, 25, Some(EXTENT));
}

#[test]
fn two_places_of_one_slot(rt: HostRuntime) {
    let mut cache = empty_cache(&rt, rt.alloc());
    let near = Extent {
        at: 1,
        end: 8,
        ..EXTENT
    };
    cache.insert(1, near);
    cache.insert(1024, FAR);
    finds(&rt, &cache, 1, None);
    finds(&rt, &cache, 1024, Some(FAR));
    cache.insert(1, near);
    finds(&rt, &cache, 1, Some(near));
    finds(&rt, &cache, 1024, None);
}

#[test]
fn another_version_is_forgotten(rt: HostRuntime) {
    let mut cache = empty_cache(&rt, rt.alloc());
    cache.set_form(0x1a_000a_0003);
    cache.insert(10, EXTENT);
    cache.set_version(0);
    assert!(rt; cache.form() == 0x1a_000a_0003);
    finds(&rt, &cache, 10, Some(EXTENT));
    cache.set_version(7);
    assert!(rt; cache.version() == 7);
    assert!(rt; cache.form() == 0);
    finds(&rt, &cache, 10, None);
}
