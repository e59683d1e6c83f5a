//! Read sections, one after the other.

ghost use Rattle.bench_threads.specs.Sections.{AreSections, IsSection};

use bpf_insn::Words;
use read_section::Worker;

// Enters a section, reads its first word and leaves. Inlined, as the calls of a section are in the code that judges
// packets.
#[inline(always)]
fn make_section(worker: &mut Worker)
    ensures { IsSection worker.old worker.new }
{
    let mut section = worker.enter();
    let _ = section.word(0);
    section.leave();
}

/// Makes `rounds` sections, in each of which one word is read.
pub fn make_sections(worker: &mut Worker, rounds: u32)
    ensures { AreSections rounds worker.old worker.new }
{
    for _round in 0..rounds {
        make_section(worker);
    }
}
