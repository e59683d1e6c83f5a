//! The facts that each single step on the table shows its actor, and those that seats pass to one another.

ghost use Rattle.versions.specs.Table.{the_shape};
ghost use Rattle.read_section.specs.Layout.{IsPublishable};
ghost use Rattle.read_section.specs.body.Plays.{announces, fetches, fills, leaves, peeks, pins, publishes, scans};
ghost use Rattle.read_section.specs.body.SeatView.{nobody, note_of, spare_alone, told_by, with_worker_of, without_spare, without_worker, worker_alone};

use crate::versions_rule::SeatView;
use atomic_table::{Join, Play, Split};
use member_group::Config;
use std::marker::{Brand, PhantomData};

pub(crate) struct Peek;

impl Play<u8, SeatView<Config>> for Peek {
    ghost then = { peeks the_shape IsPublishable };
}

pub(crate) struct Announce;

impl Play<u8, SeatView<Config>> for Announce {
    ghost then = { announces the_shape };
}

pub(crate) struct Pin;

impl Play<u8, SeatView<Config>> for Pin {
    ghost then = { pins the_shape IsPublishable };
}

pub(crate) struct Fetch;

impl Play<u8, SeatView<Config>> for Fetch {
    ghost then = { fetches the_shape };
}

pub(crate) struct Leave;

impl Play<u8, SeatView<Config>> for Leave {
    ghost then = { leaves the_shape };
}

pub(crate) struct Fill;

impl Play<u8, SeatView<Config>> for Fill {
    ghost then = { fills the_shape };
}

pub(crate) struct Scan;

impl Play<u8, SeatView<Config>> for Scan {
    ghost then = { scans the_shape };
}

/// The configuration that the operator proposes, which each call chooses.
pub trait Proposal {
    ghost use Rattle.std.specs.Prelude.{List};
    ghost use Rattle.config_image.specs.Image.{Group};

    ghost config: { List Group };
}

impl Proposal for Brand {
    ghost use Rattle.std.specs.Prelude.{[]};

    ghost config = { [] };
}

pub(crate) struct Publish<P> {
    of: PhantomData<P>,
}

impl<P: Proposal> Play<u8, SeatView<Config>> for Publish<P> {
    ghost then = { publishes the_shape P.config };
}

/// The first spare worker gets a seat of its own.
pub(crate) struct SeatSpare;

impl Split<SeatView<Config>> for SeatSpare {
    ghost left = { without_spare };

    ghost right = { spare_alone the_shape };
}

/// A seat's worker gets a seat of its own.
pub(crate) struct GiveWorker;

impl Split<SeatView<Config>> for GiveWorker {
    ghost left = { without_worker };

    ghost right = { worker_alone the_shape };
}

/// A seat takes in the worker of another.
pub(crate) struct TakeWorker;

impl Join<SeatView<Config>> for TakeWorker {
    ghost both = { with_worker_of };

    ghost spent = { nobody the_shape };
}

/// A note of what a seat's worker has seen.
pub(crate) struct NoteSeen;

impl Split<SeatView<Config>> for NoteSeen {
    ghost left = { λ seat. seat };

    ghost right = { note_of the_shape };
}

/// A seat learns what a note says.
pub(crate) struct TakeNote;

impl Join<SeatView<Config>> for TakeNote {
    ghost both = { told_by };

    ghost spent = { nobody the_shape };
}
