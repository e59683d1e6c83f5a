//! The search for a part, beside a walk from part to part.

ghost use Rattle.std.specs.Prelude.{◌≡◌, ◌<◌, ◌≤◌, ◌^◌, IfOk, length, vec_len};

use config_image::{FoundPart, PAGE_LIMIT, PageEntry, Search};
use std::alloc::{AllocError, Global};

// The part that a search finds among entries of parts that end before `end`, and the number of entries that it reads.
// `None` is for a place in no part.
fn found_in(entries: &[u64], end: usize, place: usize) -> Option<(FoundPart, usize)>
    requires end_fits { end < 2 ^ 48 }
    requires entries_fit { length entries.now ≤ PAGE_LIMIT }
{
    let first = entries.first()?;
    if place < PageEntry(*first).start() || end <= place {
        return None;
    }
    let mut search = Search::new(entries.len(), end, place);
    let mut reads = 0;
    while let Some(index) = search.ask() {
        search.tell(entries[index]);
        reads += 1;
    }
    Some((search.found(), reads))
}

// The parts of 10, 16 and 1 words from image place 7 on, in pages 65535, 0 and 3.
static THREE: [u64; 3] = [0x7_ffff, 0x11_0000, 0x21_0003];

const THREE_END: usize = 34;

// A place, and the index, the start, the end and the page of the part that is found.
static ROWS: [(usize, Option<(usize, usize, usize, usize)>); 8] = [
    (0, None),
    (6, None),
    (7, Some((0, 7, 17, 65535))),
    (16, Some((0, 7, 17, 65535))),
    (17, Some((1, 17, 33, 0))),
    (32, Some((1, 17, 33, 0))),
    (33, Some((2, 33, 34, 3))),
    (34, None),
];

#[test]
fn three_parts(rt: HostRuntime) {
    for (place, want) in &ROWS {
        let found = found_in(&THREE, THREE_END, *place);
        let told = found.map(|(part, _)| (
            part.index,
            part.entry.start(),
            part.next.start(),
            part.entry.page(),
        ));
        assert!(rt; told == *want);
    }
}

// The place of the first part.
const FIRST: u64 = 260;

// The page table entries of `count` parts of 1 to 16 words, in pages from 65535 down, and the place after the last part.
fn row(alloc: Global, count: usize) -> Result<(Vec<u64>, usize), AllocError>
    requires { count ≤ PAGE_LIMIT }
    ensures entries { IfOk result (λ row. vec_len row.0 ≡ count) }
    ensures end { IfOk result (λ row. row.1 < 2 ^ 32) }
{
    let mut entries = Vec::new(alloc);
    let mut start = FIRST;
    for i in 0..count as u64 {
        entries.push(start * 65536 + (65535 - i))?;
        start += 1 + i * 7 % 16;
    }
    Ok((entries, start as usize))
}

// The greatest number of reads of the searches for all places of all parts, if each finds the part whose turn it is, and the
// place before the first is in none.
fn most_reads(entries: &[u64], end: usize) -> Option<usize>
    requires entries_fit { length entries.now ≤ PAGE_LIMIT }
    requires end_fits { end < 2 ^ 32 }
{
    if found_in(entries, end, FIRST as usize - 1).is_some() {
        return None;
    }
    let mut most = 0;
    for (index, entry) in entries.iter().enumerate() {
        let next = match entries.get(index + 1) {
            Some(next) => *next,
            None => end as u64 * 65536,
        };
        let part = FoundPart {
            index,
            entry: PageEntry(*entry),
            next: PageEntry(next),
        };
        for place in part.entry.start()..part.next.start() {
            let (found, reads) = found_in(entries, end, place)?;
            if found != part {
                return None;
            }
            if reads > most {
                most = reads;
            }
        }
    }
    Some(most)
}

// Numbers of entries, and the greatest number of reads.
static READS: [(usize, usize); 10] = [
    (0, 0),
    (1, 1),
    (2, 2),
    (3, 2),
    (4, 3),
    (1022, 10),
    (1023, 10),
    (1024, 11),
    (2046, 11),
    (PAGE_LIMIT, 11),
];

#[test]
fn each_place_is_found(rt: HostRuntime) {
    for (count, want) in &READS {
        if *count <= PAGE_LIMIT {
            let (entries, end) = row(rt.alloc(), *count).expect(&rt, "memory");
            assert!(rt; most_reads(entries.as_slice(), end) == Some(*want));
        }
    }
}
