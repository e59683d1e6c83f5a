//! The table of buckets that `spread` makes a selector of (docs/COMMANDS.md, "spread").

ghost use Rattle.std.specs.Prelude.{◌≤◌};
ghost use Rattle.selector_buckets.specs.declared.TheConstants.{DEPTH_LIMIT};
ghost use Rattle.selector_buckets.specs.Shares.{CanShare};

use selector_buckets::{HashBy, Share};

/// A table of buckets that members share by weight. `selector_buckets::spread` takes it.
#[derive(Drop)]
pub struct Spreading {
    /// There are 2^depth buckets.
    pub depth: u32,
    pub by: HashBy,
    /// The members, in the order of the words.
    pub shares: Vec<Share>,
    pub ghost can_spread: { (depth ≤ DEPTH_LIMIT) × CanShare shares.items },
}
